//! Reading of the words of `tab`. A number word is a word of decimal digits.
ghost use Rattle.std.specs.Prelude.{◌≡◌, ◌<◌, ◌+◌, ◌^◌, [], ◌∷◌, Some, IfOk, IfErr, length, map};
ghost use Rattle.std.specs.Prelude.{string_bytes};
ghost use Rattle.sym_model.specs.CommandOffence.{first_offence};
ghost use Rattle.sym_model.specs.Form.{EachOf};
ghost use Rattle.sym_model.specs.Grammar.{tab_entry};
ghost use Rattle.sym_model.specs.WordForms.{numbers as numbers_of, partition};
ghost use Rattle.calc_words.specs.NumberRuns.{IsNumber};
ghost use Rattle.calc_words.specs.Reading.{IsRead, IsRefusal, IsJudged};
ghost use Rattle.calc_language.specs.TabWords.{AreTabWords, last_of, from_offences};
ghost use Rattle.calc_language.specs.TabWords.{all_tab_offences};

use crate::row_numbers::rows_numbers;
use crate::row_words::rows_of_words;
use crate::skew_tableaux::rows_of_shape;
use calc_base::WordsFault;
use calc_words::{Command, Kind, Part, behind, cut, piece_at, read_two, refused};
use partitions::Partition;
use std::alloc::Global;
use tableau_iter::lattice_reading;

/// The command `tab` for the shape outer/inner and the rows of number words after `-from`, which is
/// word `at`. If there are no rows, the command lists all lattice tableaux of the shape. If the
/// rows are one of these tableaux, the command lists those after it. Otherwise there is an error at
/// the word `at`.
fn judge_last(
    alloc: Global,
    at: u64,
    outer: Partition,
    inner: Partition,
    rows: &[&[String]],
) -> Result<Command, WordsFault>
    requires { EachOf (EachOf IsNumber) (map (λ r. map string_bytes r.now) rows.now) }
    ensures { IsJudged (λ c. c ≡ Command.Tab outer inner
        (last_of outer inner (map (λ r. numbers_of (map string_bytes r.now)) rows.now)))
        (first_offence (from_offences at outer inner (map (λ r. map string_bytes r.now) rows.now)))
        result }
{
    if rows.is_empty() {
        return Ok(Command::Tab {
            outer,
            inner,
            after: None,
        });
    }
    let read = rows_numbers(alloc, rows)?;
    let filled = rows_of_shape(outer.parts(), read);
    match lattice_reading(alloc, &outer, &inner, filled.as_slice())? {
        None => Err(refused(at, Kind::Shape)),
        Some(after) => Ok(Command::Tab {
            outer,
            inner,
            after: Some(after),
        }),
    }
}

/// The command `tab` of the two partitions with the number words `outer` and `inner`, and of the
/// rows of number words after `-from`, of which there may be none; or the first error. The outer
/// partition begins at the second word.
fn judge_tab(
    alloc: Global,
    outer: &[String],
    inner: &[String],
    rows: &[&[String]],
) -> Result<Command, WordsFault>
    requires some { EachOf (EachOf IsNumber) (map (λ r. map string_bytes r.now) rows.now) }
    requires room { 2 + length outer.now + length inner.now < 2 ^ 64 }
    ensures { IsJudged (λ c. c ≡ Command.Tab (partition (map string_bytes outer.now))
        (partition (map string_bytes inner.now))
        (last_of (partition (map string_bytes outer.now)) (partition (map string_bytes inner.now))
        (map (λ r. numbers_of (map string_bytes r.now)) rows.now)))
        (first_offence (all_tab_offences (map string_bytes outer.now) (map string_bytes inner.now)
        (map (λ r. map string_bytes r.now) rows.now))) result }
{
    let at = 2 + outer.len() as u64 + inner.len() as u64;
    let (outer, inner) = read_two(alloc, 1, outer, inner)?;
    judge_last(alloc, at, outer, inner, rows)
}

/// If the words have the form of `tab`, the number words of its two partitions and of the rows
/// after `-from`, with no row if `-from` is missing; otherwise the refusal at the place of the
/// first error of syntax.
fn tab_parts(
    alloc: Global,
    words: &[String],
) -> Result<(&[String], &[String], Vec<&[String]>), WordsFault>
    ensures ok { IfOk result (λ p.
        AreTabWords (map string_bytes p.0.now) (map string_bytes p.1.now)
        (map (λ r. map string_bytes r.now) p.2.items) (map string_bytes words.now)) }
    ensures wrong { IfErr result (λ fault.
        IsRefusal (tab_entry ∷ []) (map string_bytes words.now) fault) }
{
    let parts = &[Part::Shape, Part::Slash, Part::Shape, Part::MaybeFrom];
    let places = cut(words, "tab", parts)?;
    let outer = piece_at(words, &places, 0);
    let inner = piece_at(words, &places, 2);
    let last = piece_at(words, &places, 3);
    let Some(more) = behind(last.words, "-from") else {
        return Ok((outer.words, inner.words, Vec::new(alloc)));
    };
    let rows = rows_of_words(alloc, more)?;
    Ok((outer.words, inner.words, rows))
}

/// Reads the words of `tab`: that word, an outer and an inner partition with `/` between them and,
/// for the tableaux that are listed after a given one, `-from` and that tableau. The rows of the
/// tableau are separated by words `/`; `.` is a row without numbers.
///
/// Words that do not have this form are refused as `Syntax`, at the place of the first error of
/// syntax. Otherwise the first error is refused: a number of a partition over 2^127 - 1 as
/// `Literal`; the 65th number of a partition, and the one at which its sum exceeds 512, as `Range`;
/// as `Shape`, a number of a partition greater than the one before it, and, at the word `-from`, a
/// tableau that is not one of the lattice tableaux of the shape outer/inner.
pub fn read_tab(alloc: Global, words: &[String]) -> Result<Command, WordsFault>
    ensures { IsRead (tab_entry ∷ []) (map string_bytes words.now) result }
{
    let (outer, inner, rows) = tab_parts(alloc, words)?;
    judge_tab(alloc, outer, inner, rows.as_slice())
}
