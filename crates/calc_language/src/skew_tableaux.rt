//! Reading of the words of `rect`. A number word is a word of decimal digits.
ghost use Rattle.std.specs.Prelude.{◌≡◌, ◌<◌, ◌+◌, ◌^◌, IfOk, IfErr, true, [], ◌∷◌, Some, length};
ghost use Rattle.std.specs.Prelude.{map, string_bytes};
ghost use Rattle.sym_model.specs.Schur.{contains};
ghost use Rattle.sym_model.specs.Tableau.{IsTableau};
ghost use Rattle.sym_model.specs.Command.{rect};
ghost use Rattle.sym_model.specs.CommandOffence.{first_offence, rows_in};
ghost use Rattle.sym_model.specs.Form.{EachOf};
ghost use Rattle.sym_model.specs.Grammar.{rect_entry};
ghost use Rattle.sym_model.specs.WordForms.{numbers as numbers_of, partition};
ghost use Rattle.word_laws.specs.WrittenRows.{further_text};
ghost use Rattle.calc_language.specs.AskedLengths.{asked_lengths};
ghost use Rattle.calc_words.specs.NumberRuns.{IsNumber};
ghost use Rattle.calc_words.specs.Commands.{StandsFor};
ghost use Rattle.calc_words.specs.Reading.{IsRead, IsRefusal, IsJudged};
ghost use Rattle.calc_language.specs.SkewTotals.{all_skew_offences};
ghost use Rattle.calc_language.specs.SkewWords.{AreSkewWords, skew_offences};

use crate::cells::Bounds;
use crate::inner_partition::read_inner;
use crate::pairs::without_dot;
use crate::row_offences::{left_shape, part_at, read_rows};
use crate::row_words::rows_of_words;
use crate::tableaux::tableau_of;
use calc_base::{NoMemory, WordsFault};
use calc_words::{Command, Part, cut, piece_at, read_partition};
use partitions::Partition;
use std::alloc::Global;

/// The number of cells in each row of the skew shape outer/inner; if outer has no part, one row of
/// length 0.
fn skew_lengths(alloc: Global, outer: &[u16], inner: &[u16]) -> Result<Vec<usize>, NoMemory>
    ensures { IfOk result (λ v. v.items ≡ asked_lengths outer.now inner.now) }
{
    let mut lengths = Vec::new(alloc);
    for row in 0..outer.len() {
        lengths.push(usize::from(outer[row]).saturating_sub(part_at(inner, row)))?;
    }
    if outer.is_empty() {
        lengths.push(0)?;
    }
    Ok(lengths)
}

/// The rows of a tableau with the outer partition `outer`; if that is empty, a single row without
/// numbers counts as no row.
pub(crate) fn rows_of_shape(outer: &[u16], rows: Vec<Vec<u16>>) -> Vec<Vec<u16>>
    ensures { map (λ r. r.items) result.items ≡ rows_in outer.now (map (λ r. r.items) rows.items) }
{
    if outer.is_empty() {
        without_dot(rows)
    } else {
        rows
    }
}

/// The rows of a tableau of shape outer/inner, the first of which begins at the word `at`; or their
/// first error.
fn judge_rows(
    alloc: Global,
    at: u64,
    outer: &Partition,
    inner: &Partition,
    rows: &[&[String]],
) -> Result<Vec<Vec<u16>>, WordsFault>
    requires holds { contains outer.now inner.now ≡ true }
    requires some { (0 < length rows.now)
        × EachOf (EachOf IsNumber) (map (λ r. map string_bytes r.now) rows.now) }
    requires room { at + length (further_text (map (λ r. map string_bytes r.now) rows.now))
        < 2 ^ 64 }
    ensures judged { IsJudged (λ v. map (λ r. r.items) v.items
        ≡ rows_in outer.now (map (λ r. numbers_of (map string_bytes r.now)) rows.now))
        (first_offence (skew_offences at outer.now inner.now
        (map (λ r. map string_bytes r.now) rows.now))) result }
    ensures tableau { IfOk result (λ v. IsTableau outer.now inner.now (map (λ r. r.items) v.items)) }
{
    let lengths = skew_lengths(alloc, outer.parts(), inner.parts())?;
    let first = Bounds {
        counted: None,
        most: None,
        is_straight: false,
    };
    let left = left_shape(at, lengths.as_slice(), rows);
    let read = read_rows(alloc, at, rows, first, inner.parts(), &mut [], left)?;
    Ok(rows_of_shape(outer.parts(), read))
}

/// The command `rect` of the tableau whose outer partition, inner partition and rows have the
/// number words `outer`, `inner` and `rows`; or the first error. The outer partition begins at the
/// second word.
fn read_skew_tableau(
    alloc: Global,
    outer: &[String],
    inner: &[String],
    rows: &[&[String]],
) -> Result<Command, WordsFault>
    requires some { (0 < length rows.now)
        × EachOf (EachOf IsNumber) (map (λ r. map string_bytes r.now) rows.now) }
    requires room { 3 + length outer.now + length inner.now
        + length (further_text (map (λ r. map string_bytes r.now) rows.now)) < 2 ^ 64 }
    ensures { IsJudged (StandsFor
        (rect (partition (map string_bytes outer.now)) (partition (map string_bytes inner.now))
        (rows_in (partition (map string_bytes outer.now))
        (map (λ r. numbers_of (map string_bytes r.now)) rows.now))))
        (first_offence (all_skew_offences (map string_bytes outer.now) (map string_bytes inner.now)
        (map (λ r. map string_bytes r.now) rows.now))) result }
{
    let behind_outer = 2 + outer.len() as u64;
    let behind_inner = 3 + outer.len() as u64 + inner.len() as u64;
    let outer_shape = read_partition(alloc, 1, outer)?;
    let inner_shape = read_inner(alloc, behind_outer, outer_shape.parts(), inner)?;
    let read = judge_rows(alloc, behind_inner, &outer_shape, &inner_shape, rows)?;
    let tableau = tableau_of(alloc, outer_shape, inner_shape, read.as_slice())?;
    Ok(Command::Rect { tableau })
}

/// If the words have the form of `rect`, the number words of its two partitions and of the rows of
/// its tableau; otherwise the refusal at the place of the first error of syntax.
fn skew_parts(
    alloc: Global,
    words: &[String],
) -> Result<(&[String], &[String], Vec<&[String]>), WordsFault>
    ensures ok { IfOk result (λ p.
        AreSkewWords (map string_bytes p.0.now) (map string_bytes p.1.now)
        (map (λ r. map string_bytes r.now) p.2.items) (map string_bytes words.now)) }
    ensures wrong { IfErr result (λ fault.
        IsRefusal (rect_entry ∷ []) (map string_bytes words.now) fault) }
{
    let parts = &[
        Part::Shape,
        Part::Slash,
        Part::Shape,
        Part::Minus,
        Part::Tableau,
    ];
    let places = cut(words, "rect", parts)?;
    let outer = piece_at(words, &places, 0);
    let inner = piece_at(words, &places, 2);
    let tableau = piece_at(words, &places, 4);
    let rows = rows_of_words(alloc, tableau.words)?;
    Ok((outer.words, inner.words, rows))
}

/// Reads the words of `rect`: that word, an outer and an inner partition with `/` between them and,
/// after `-`, a tableau of shape outer/inner. The rows of the tableau are separated by words `/`;
/// `.` is a row without numbers.
///
/// Words that do not have this form are refused as `Syntax`, at the place of the first error of
/// syntax. Otherwise the first error is refused: a number over 2^127 - 1 as `Literal`; the 65th
/// number of a partition, the one at which its sum exceeds 512, and an entry that is 0 or over
/// 65,535, as `Range`; as `Shape` a number of a partition greater than the one before it, an inner
/// number greater than the outer part of its row, the word at which the tableau leaves the shape,
/// an entry smaller than its left neighbour, and one not greater than the entry above it.
pub fn read_rect(alloc: Global, words: &[String]) -> Result<Command, WordsFault>
    ensures { IsRead (rect_entry ∷ []) (map string_bytes words.now) result }
{
    let (outer, inner, rows) = skew_parts(alloc, words)?;
    read_skew_tableau(alloc, outer, inner, rows.as_slice())
}
