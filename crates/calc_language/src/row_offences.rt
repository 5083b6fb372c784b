//! Reading of the rows of a tableau, one row after another.
ghost use Rattle.std.specs.Prelude.{◌≡◌, ◌<◌, ◌≤◌, ◌+◌, ◌^◌, map, length, drop, cond};
ghost use Rattle.std.specs.Prelude.{string_bytes, [], Some, None, IfOk, IfSome};
ghost use Rattle.sym_model.specs.Partition.{part, size};
ghost use Rattle.sym_model.specs.CommandOffence.{first_offence, empty_row_offences};
ghost use Rattle.sym_model.specs.WordForms.{numbers as numbers_of};
ghost use Rattle.word_laws.specs.JudgedRows.{earlier};
ghost use Rattle.word_laws.specs.WrittenRows.{row_text, further_text, rows_at, left_at};
ghost use Rattle.calc_language.specs.FoundOffences.{found_of, judged, counted_on, last_row};
ghost use Rattle.calc_words.specs.Reading.{IsJudged};

use crate::cells::{Bounds, Columns, read_row};
use crate::earlier::earlier_refusal;
use calc_base::{NoMemory, WordsFault};
use calc_words::{Kind, refused as offence};
use std::alloc::Global;

/// The number of words of a row: one, the word `.`, if it has no numbers.
fn width(row: &[String]) -> u64
    ensures { result ≡ length (row_text (map string_bytes row.now)) }
{
    if row.is_empty() {
        return 1;
    }
    row.len() as u64
}

/// In a tableau with two or more rows, the word of the first row without numbers, if there is such
/// a row; otherwise `None`. The first row of the tableau begins at word `at`.
pub(crate) fn empty_row(at: u64, rows: &[&[String]]) -> Option<u64>
    requires { at + length (further_text (map (λ r. map string_bytes r.now) rows.now)) < 2 ^ 64 }
    ensures { found_of result ≡ first_offence
        (empty_row_offences (rows_at at (map (λ r. map string_bytes r.now) rows.now))) }
{
    if rows.len() < 2 {
        return None;
    }
    let mut place = at;
    for row in rows {
        if row.is_empty() {
            return Some(place);
        }
        place += width(row) + 1;
    }
    None
}

/// Part `place` of the list, counted from 0; 0 after the last part.
pub(crate) fn part_at(parts: &[u16], place: usize) -> usize
    ensures value { result ≡ part (drop place parts.now) 1 }
    ensures small { result < 2 ^ 16 }
{
    if place >= parts.len() {
        return 0;
    }
    usize::from(parts[place])
}

/// The bounds (`Bounds`) for the row after `row`, from those for `row`.
fn bounds_after(bounds: Bounds, row: &[u16]) -> Bounds
    requires { IfSome bounds.counted (λ count. count + length row.now < 2 ^ 64) }
    ensures { result ≡ record {
      counted = counted_on bounds.counted row.now;
      most = cond bounds.is_straight (Some (length row.now)) None;
      is_straight = bounds.is_straight;
    } }
{
    let counted = match bounds.counted {
        None => None,
        Some(count) => Some(count + row.len()),
    };
    Bounds {
        counted,
        most: bounds.is_straight.then_some(row.len()),
        ..bounds
    }
}

/// The numbers of the last row; no number if there is no row.
fn last_of(rows: &[Vec<u16>]) -> &[u16]
    ensures { result.now ≡ last_row (map (λ r. r.items) rows.now) }
{
    match rows.last() {
        None => &[],
        Some(row) => row.as_slice(),
    }
}

/// The rows of a tableau, the first of which begins at the word `at`, or the first error of a
/// number. There may be a list of flags, one for each entry: an entry whose flag is set or missing
/// is an error, and the flag of each entry is set after it is read.
fn numbers_of_rows(
    alloc: Global,
    at: u64,
    rows: &[&[String]],
    first: Bounds,
    inner: &[u16],
    taken: &mut [bool],
) -> Result<Vec<Vec<u16>>, WordsFault>
    requires room { at + length (further_text (map (λ r. map string_bytes r.now) rows.now))
        < 2 ^ 64 }
    requires counted { IfSome first.counted (λ count. count ≤ at) }
    ensures { IsJudged (λ v. map (λ r. r.items) v.items
        ≡ map (λ r. numbers_of (map string_bytes r.now)) rows.now)
        (first_offence (judged first.is_straight first.counted first.most 0 [] inner.now taken.old
        (rows_at at (map (λ r. map string_bytes r.now) rows.now)))) result }
{
    let mut read: Vec<Vec<u16>> = Vec::new(alloc);
    let mut place = at;
    let mut bounds = first;
    let mut columns = Columns { above: 0, here: 0 };
    for (i, row) in rows.iter().enumerate() {
        columns = Columns {
            above: columns.here,
            here: part_at(inner, i),
        };
        let above = last_of(read.as_slice());
        let numbers = read_row(alloc, place, row, bounds, above, columns, taken)?;
        place += width(row) + 1;
        bounds = bounds_after(bounds, numbers.as_slice());
        read.push(numbers)?;
    }
    Ok(read)
}

/// The rows of a tableau, the first of which begins at the word `at`; or the earlier one of two
/// errors: the first error of a number (as in `numbers_of_rows`), and an error of shape at the word
/// `found`, if that is given.
pub(crate) fn read_rows(
    alloc: Global,
    at: u64,
    rows: &[&[String]],
    first: Bounds,
    inner: &[u16],
    taken: &mut [bool],
    found: Option<u64>,
) -> Result<Vec<Vec<u16>>, WordsFault>
    requires room { at + length (further_text (map (λ r. map string_bytes r.now) rows.now))
        < 2 ^ 64 }
    requires counted { IfSome first.counted (λ count. count ≤ at) }
    ensures { IsJudged (λ v. map (λ r. r.items) v.items
        ≡ map (λ r. numbers_of (map string_bytes r.now)) rows.now)
        (earlier (first_offence (judged first.is_straight first.counted first.most 0 [] inner.now
        taken.old (rows_at at (map (λ r. map string_bytes r.now) rows.now)))) (found_of found))
        result }
{
    match numbers_of_rows(alloc, at, rows, first, inner, taken) {
        Err(fault) => Err(earlier_refusal(fault, found)),
        Ok(read) => match found {
            Some(word) => Err(offence(word, Kind::Shape)),
            None => Ok(read),
        },
    }
}

/// The word at which the rows depart from the given lengths, if they do; the first row begins at
/// word `at`. If some row does not have the length given for it, then, for the first such row, the
/// result is its first extra number or, if it is too short, the word after its last number (the
/// word `.` if it has no numbers). Otherwise, the result is the word after the last row if rows are
/// missing, and the word after the last row with a given length if there are too many rows.
pub(crate) fn left_shape(at: u64, lengths: &[usize], rows: &[&[String]]) -> Option<u64>
    requires some { 0 < length lengths.now }
    requires room { at + length (further_text (map (λ r. map string_bytes r.now) rows.now))
        < 2 ^ 64 }
    ensures { found_of result ≡ first_offence
        (left_at at lengths.now (map (λ r. map string_bytes r.now) rows.now)) }
{
    let mut place = at;
    let mut left = lengths;
    for (i, row) in rows.iter().enumerate() {
        let [length, later @ ..] = left else {
            return None;
        };
        if row.len() != *length {
            return Some(place + row.len().min(*length) as u64);
        }
        place += width(row);
        let is_last_row = i + 1 == rows.len();
        if later.is_empty() {
            return (!is_last_row).then_some(place);
        }
        if is_last_row {
            return Some(place);
        }
        place += 1;
        left = later;
    }
    None
}

/// The lengths of the rows: the number of entries of each.
pub(crate) fn row_lengths(alloc: Global, rows: &[Vec<u16>]) -> Result<Vec<usize>, NoMemory>
    ensures { IfOk result (λ v. v.items ≡ map (λ r. length r.items) rows.now) }
{
    let mut lengths = Vec::new(alloc);
    for row in rows {
        lengths.push(row.len())?;
    }
    Ok(lengths)
}

/// The sum of the lengths.
pub(crate) fn total(lengths: &[usize]) -> usize
    requires { size lengths.now < 2 ^ 64 }
    ensures { result ≡ size lengths.now }
{
    let mut sum = 0usize;
    for length in lengths {
        sum += *length;
    }
    sum
}

/// The number of words of the rows, with a separator counted for each row.
pub(crate) fn text_length(rows: &[&[String]]) -> u64
    requires { length (further_text (map (λ r. map string_bytes r.now) rows.now)) < 2 ^ 64 }
    ensures { result ≡ length (further_text (map (λ r. map string_bytes r.now) rows.now)) }
{
    let mut words = 0u64;
    for row in rows {
        words += width(row) + 1;
    }
    words
}
