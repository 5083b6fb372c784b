//! Reading of the words of `unrsk`. A number word is a word of decimal digits.
ghost use Rattle.std.specs.Prelude.{◌≡◌, ◌≤◌, ◌<◌, ◌+◌, ◌++◌, ◌^◌, IfOk, IfErr, [], ◌∷◌, Some};
ghost use Rattle.std.specs.Prelude.{length, map, string_bytes};
ghost use Rattle.sym_model.specs.Command.{unrsk};
ghost use Rattle.sym_model.specs.CommandOffence.{first_offence, standard_offences, rows_in};
ghost use Rattle.sym_model.specs.CommandOffence.{most_letters};
ghost use Rattle.sym_model.specs.Form.{EachOf};
ghost use Rattle.sym_model.specs.Grammar.{unrsk_entry, filled_offences, insertion_offences};
ghost use Rattle.sym_model.specs.Partition.{size};
ghost use Rattle.sym_model.specs.Schur.{letters_of};
ghost use Rattle.sym_model.specs.Tableau.{IsStraightTableau, shape_of};
ghost use Rattle.sym_model.specs.WordForms.{numbers as numbers_of};
ghost use Rattle.word_laws.specs.WrittenRows.{further_text, rows_at, left_at};
ghost use Rattle.calc_words.specs.NumberRuns.{IsNumber};
ghost use Rattle.calc_language.specs.WrittenPairs.{IsWrittenPair};
ghost use Rattle.calc_words.specs.Commands.{StandsFor};
ghost use Rattle.calc_words.specs.Pairs.{IsPair};
ghost use Rattle.calc_words.specs.Reading.{IsRead, IsRefusal, IsJudged};
ghost use Rattle.calc_language.specs.TableauWords.{AreTwoTableaux};
ghost use Rattle.calc_language.specs.PairOffences.{pair_offences};

use crate::cells::Bounds;
use crate::row_offences::{empty_row, left_shape, read_rows, row_lengths, text_length, total};
use crate::row_words::rows_of_words;
use crate::tableaux::tableau_of;
use calc_base::{NoMemory, WordsFault};
use calc_words::{Command, Part, cut, piece_at};
use partitions::Partition;
use skew_shapes::{Standard, Tableau};
use std::alloc::Global;

/// The rows of the first tableau of `unrsk`, which begins at the second word, or its first error.
fn read_insertion(alloc: Global, rows: &[&[String]]) -> Result<Vec<Vec<u16>>, WordsFault>
    requires { 1 + length (further_text (map (λ r. map string_bytes r.now) rows.now)) < 2 ^ 64 }
    ensures { IsJudged (λ v. map (λ r. r.items) v.items
        ≡ map (λ r. numbers_of (map string_bytes r.now)) rows.now)
        (first_offence (insertion_offences (rows_at 1 (map (λ r. map string_bytes r.now) rows.now))))
        result }
{
    let first = Bounds {
        counted: Some(0),
        most: None,
        is_straight: true,
    };
    read_rows(alloc, 1, rows, first, &[], &mut [], empty_row(1, rows))
}

/// The rows of the second tableau of `unrsk`, which begins at the word `at` and must be standard
/// with rows of these lengths; or its first error.
fn read_recording(
    alloc: Global,
    at: u64,
    lengths: &[usize],
    rows: &[&[String]],
) -> Result<Vec<Vec<u16>>, WordsFault>
    requires some { 0 < length lengths.now }
    requires few { size lengths.now + 1 < 2 ^ 64 }
    requires room { at + length (further_text (map (λ r. map string_bytes r.now) rows.now))
        < 2 ^ 64 }
    ensures { IsJudged (λ v. map (λ r. r.items) v.items
        ≡ map (λ r. numbers_of (map string_bytes r.now)) rows.now)
        (first_offence (filled_offences (rows_at at (map (λ r. map string_bytes r.now) rows.now))
        ++ (left_at at lengths.now (map (λ r. map string_bytes r.now) rows.now)
        ++ standard_offences (size lengths.now) [] []
        (rows_at at (map (λ r. map string_bytes r.now) rows.now))))) result }
{
    let first = Bounds {
        counted: Some(0),
        most: None,
        is_straight: false,
    };
    let mut taken = vec![in alloc; false; total(lengths) + 1]?;
    let left = left_shape(at, lengths, rows);
    read_rows(alloc, at, rows, first, &[], taken.as_mut_slice(), left)
}

/// The rows of a tableau; a single row without numbers counts as no row.
pub(crate) fn without_dot(rows: Vec<Vec<u16>>) -> Vec<Vec<u16>>
    ensures { map (λ r. r.items) result.items ≡ rows_in [] (map (λ r. r.items) rows.items) }
{
    let mut rows = rows;
    if let [row] = rows.as_slice() {
        if row.is_empty() {
            rows.clear();
        }
    }
    rows
}

/// The straight tableau with the rows `first`, and the standard tableau with the rows `second`.
fn tableaux_of(
    alloc: Global,
    first: &[Vec<u16>],
    second: &[Vec<u16>],
) -> Result<(Tableau, Standard), NoMemory>
    requires { IsWrittenPair (map (λ r. r.items) first.now) (map (λ r. r.items) second.now) }
    ensures first { IfOk result (λ c. c.0.rows ≡ map (λ r. r.items) first.now) }
    ensures second { IfOk result (λ c. c.1.rows ≡ map (λ r. r.items) second.now) }
    ensures pair { IfOk result (λ c. IsPair c.0 c.1) }
{
    let p = straight(alloc, first)?;
    let Ok(q) = Standard::new(straight(alloc, second)?) else {
        unreachable!()
    };
    Ok((p, q))
}

/// The command `unrsk` of the two tableaux with the rows of number words `first` and `second`; or
/// the first error. The first tableau begins at the second word of the command.
fn read_tableaux(
    alloc: Global,
    first: &[&[String]],
    second: &[&[String]],
) -> Result<Command, WordsFault>
    requires first { (0 < length first.now)
        × EachOf (EachOf IsNumber) (map (λ r. map string_bytes r.now) first.now) }
    requires second { (0 < length second.now)
        × EachOf (EachOf IsNumber) (map (λ r. map string_bytes r.now) second.now) }
    requires room { 2 + length (further_text (map (λ r. map string_bytes r.now) first.now))
        + length (further_text (map (λ r. map string_bytes r.now) second.now)) < 2 ^ 64 }
    ensures { IsJudged (StandsFor
        (unrsk (rows_in [] (map (λ r. numbers_of (map string_bytes r.now)) first.now))
        (rows_in [] (map (λ r. numbers_of (map string_bytes r.now)) second.now))))
        (first_offence (pair_offences (map (λ r. map string_bytes r.now) first.now)
        (map (λ r. map string_bytes r.now) second.now))) result }
{
    let insertion = read_insertion(alloc, first)?;
    let lengths = row_lengths(alloc, insertion.as_slice())?;
    let at = 1 + text_length(first);
    let recording = read_recording(alloc, at, lengths.as_slice(), second)?;
    let insertion = without_dot(insertion);
    let recording = without_dot(recording);
    let (p, q) = tableaux_of(alloc, insertion.as_slice(), recording.as_slice())?;
    Ok(Command::Unrsk { p, q })
}

/// The straight tableau with these rows; its outer partition has the row lengths as parts.
fn straight(alloc: Global, rows: &[Vec<u16>]) -> Result<Tableau, NoMemory>
    requires tableau { IsStraightTableau (map (λ r. r.items) rows.now) }
    requires few { length (letters_of (map (λ r. r.items) rows.now)) ≤ most_letters }
    ensures { IfOk result (λ t. t
        ≡ record {
          outer = shape_of (map (λ r. r.items) rows.now);
          inner = [];
          rows = map (λ r. r.items) rows.now;
        }) }
{
    let mut parts = Vec::new(alloc);
    for row in rows {
        parts.push(row.len() as u16)?;
    }
    let outer = Partition::from_valid_parts(alloc, parts.as_slice())?;
    let inner = Partition::from_valid_parts(alloc, &[])?;
    tableau_of(alloc, outer, inner, rows)
}

/// If the words have the form of `unrsk`, the rows of number words of its two tableaux; otherwise
/// the refusal at the place of the first error of syntax.
fn two_tableaux(
    alloc: Global,
    words: &[String],
) -> Result<(Vec<&[String]>, Vec<&[String]>), WordsFault>
    ensures ok { IfOk result (λ p.
        AreTwoTableaux (map (λ r. map string_bytes r.now) p.0.items)
        (map (λ r. map string_bytes r.now) p.1.items) (map string_bytes words.now)) }
    ensures wrong { IfErr result (λ fault.
        IsRefusal (unrsk_entry ∷ []) (map string_bytes words.now) fault) }
{
    let parts = &[Part::Tableau, Part::Minus, Part::Tableau];
    let places = cut(words, "unrsk", parts)?;
    let insertion = piece_at(words, &places, 0);
    let first = rows_of_words(alloc, insertion.words)?;
    let recording = piece_at(words, &places, 2);
    let second = rows_of_words(alloc, recording.words)?;
    Ok((first, second))
}

/// Reads the words of `unrsk`: that word and two tableaux with `-` between them. The rows of a
/// tableau are separated by words `/`; `.` is a row without numbers.
///
/// Words that do not have this form are refused as `Syntax`, at the place of the first error of
/// syntax. Otherwise the first error is refused: a number over 2^127 - 1 as `Literal`; an entry
/// that is 0 or over 65,535, and the 257th of a tableau, as `Range`; as `Shape`, in the first
/// tableau, a number that makes its row longer than the row above, a `.` that is not the whole
/// tableau, and a number smaller than its left neighbour or not greater than the entry above it;
/// and as `Shape`, in the second tableau, the word at which its rows depart from the shape of the
/// first one, and a number that is greater than the number of cells, not greater than its left
/// neighbour or the entry above it, or equal to an earlier one.
pub fn read_unrsk(alloc: Global, words: &[String]) -> Result<Command, WordsFault>
    ensures { IsRead (unrsk_entry ∷ []) (map string_bytes words.now) result }
{
    let (first, second) = two_tableaux(alloc, words)?;
    read_tableaux(alloc, first.as_slice(), second.as_slice())
}
