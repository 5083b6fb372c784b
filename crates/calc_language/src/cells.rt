//! Reads the numbers of a row of a tableau, each once, and tests whether each is allowed at its
//! place.
ghost use Rattle.std.specs.Prelude.{◌≡◌, ◌<◌, ◌≤◌, ◌+◌, ◌-◌, ◌^◌, ◌||◌, ℕ, map, length, IfOk};
ghost use Rattle.std.specs.Prelude.{string_bytes, reverse, slice_get, slice_set, true};
ghost use Rattle.sym_model.specs.CommandOffence.{first_offence, offences_by, is_outside};
ghost use Rattle.sym_model.specs.CommandOffence.{greatest_letter, falls, stays, entry_above};
ghost use Rattle.sym_model.specs.ExpressionOffence.{is_wide};
ghost use Rattle.sym_model.specs.WordForms.{numbers as numbers_of};
ghost use Rattle.word_laws.specs.JudgedRows.{is_too_much, is_too_long, cell_rule, is_disordered};
ghost use Rattle.calc_language.specs.FoundOffences.{kind_by, entry_or, is_taken as is_taken_of};
ghost use Rattle.calc_language.specs.FoundOffences.{marked, is_no_entry};
ghost use Rattle.calc_words.specs.NumberRuns.{narrow};
ghost use Rattle.calc_words.specs.Reading.{IsJudged};

use calc_base::WordsFault;
use calc_words::{Kind, refused as offence, value_of};
use std::alloc::Global;

/// Entries of tableaux are at most 65,535; if entries are counted, a tableau has at most 256
/// entries.
const GREATEST_ENTRY: u128 = 65_535;

const MOST_ENTRIES: usize = 256;

/// The bounds for a row: `counted` is the number of entries in the rows before this row, if entries
/// are counted; `most` is the greatest length of the row, if its length is bounded; `is_straight`
/// says whether each later row must be at most as long as the row above it.
#[derive(Clone, Copy, Debug)]
pub(crate) struct Bounds {
    pub(crate) counted: Option<usize>,
    pub(crate) most: Option<usize>,
    pub(crate) is_straight: bool,
}

/// The columns, counted from 0, at which a row (`here`) and the row above it (`above`) begin.
#[derive(Clone, Copy, Debug)]
pub(crate) struct Columns {
    pub(crate) above: usize,
    pub(crate) here: usize,
}

/// Whether the number after `place` entries of its row is the 257th of the tableau, with `counted`
/// entries in the rows before; false if entries are not counted.
fn is_past_the_most(counted: Option<usize>, place: usize) -> bool
    ensures { result ≡ is_too_much counted place }
{
    match counted {
        None => false,
        Some(count) => count <= MOST_ENTRIES && place == MOST_ENTRIES - count,
    }
}

/// Whether a row with a number after `place` entries is longer than `most`; false if `most` is not
/// given.
fn makes_too_long(most: Option<usize>, place: usize) -> bool
    ensures { result ≡ is_too_long most place }
{
    match most {
        None => false,
        Some(most) => most <= place,
    }
}

/// Whether there is a number at index `place`, and it is at least `value`.
fn is_not_greater(numbers: &[u16], place: usize, value: u128) -> bool
    ensures { result ≡ stays (slice_get numbers.now place) value }
{
    match numbers.get(place) {
        None => false,
        Some(number) => value <= u128::from(*number),
    }
}

/// Whether `value` is smaller than the last of the numbers; false if there are no numbers.
fn is_smaller(numbers: &[u16], value: u128) -> bool
    ensures { result ≡ falls (slice_get numbers.now (length numbers.now - 1)) value }
{
    match numbers.last() {
        None => false,
        Some(number) => value < u128::from(*number),
    }
}

/// Whether the row `above`, which begins at the column `first`, has an entry in the column
/// `column`, and `value` is not greater than this entry.
fn is_not_below(above: &[u16], first: usize, column: usize, value: u128) -> bool
    ensures { result ≡ stays (entry_above above.now first column) value }
{
    column >= first && is_not_greater(above, column - first, value)
}

/// Whether `value`, as the next entry after `row`, is smaller than the entry to its left or not
/// greater than the entry above it in the row `above`, if there are such entries.
fn is_out_of_order(row: &[u16], above: &[u16], columns: Columns, value: u128) -> bool
    requires { columns.here + length row.now < 2 ^ 64 }
    ensures { result ≡ is_disordered columns.above above.now columns.here (reverse row.now) value }
{
    is_smaller(row, value) || is_not_below(above, columns.above, columns.here + row.len(), value)
}

/// Whether the entry `value` is taken. There is one flag for each possible entry, and it is set if
/// the entry has occurred. An entry with no flag is too great, and also taken. If the list of flags
/// is empty, no entry is taken.
fn is_taken(taken: &[bool], value: u128) -> bool
    requires { value < 2 ^ 64 }
    ensures { result ≡ is_taken_of taken.now value }
{
    if taken.is_empty() {
        return false;
    }
    match taken.get(value as usize) {
        None => true,
        Some(flag) => *flag,
    }
}

/// Sets the flag at index `entry`, if there is one.
fn take(taken: &mut [bool], entry: u16)
    ensures { taken.new ≡ slice_set taken.old entry true }
{
    if usize::from(entry) < taken.len() {
        taken[usize::from(entry)] = true;
    }
}

/// The entry with the value `number`, after the entries `row` and below the row `above`; or the
/// kind of its error. `number` is `None` if the value is over 2^127 - 1. An entry that is taken
/// (`is_taken`) is an error.
fn entry_of(
    number: Option<u128>,
    row: &[u16],
    bounds: Bounds,
    above: &[u16],
    columns: Columns,
    taken: &[bool],
) -> Result<u16, Kind>
    requires { columns.here + length row.now < 2 ^ 64 }
    ensures { (a : ℕ) → number ≡ narrow a → result ≡ entry_or a (kind_by (is_wide a)
        (is_outside greatest_letter a || is_too_much bounds.counted (length row.now))
        (is_too_long bounds.most (length row.now)
        || (is_disordered columns.above above.now columns.here (reverse row.now) a
        || is_taken_of taken.now a))) }
{
    let Some(value) = number else {
        return Err(Kind::Literal);
    };
    if value == 0 || value > GREATEST_ENTRY || is_past_the_most(bounds.counted, row.len()) {
        return Err(Kind::Range);
    }
    if makes_too_long(bounds.most, row.len())
        || is_out_of_order(row, above, columns, value)
        || is_taken(taken, value)
    {
        return Err(Kind::Shape);
    }
    Ok(value as u16)
}

/// The entries of a row that begins at the word `at`, below the row `above`, or the first error. An
/// entry that is taken (`is_taken`) is an error. After an entry has been read, it is taken,
/// provided that there are flags.
pub(crate) fn read_row(
    alloc: Global,
    at: u64,
    words: &[String],
    bounds: Bounds,
    above: &[u16],
    columns: Columns,
    taken: &mut [bool],
) -> Result<Vec<u16>, WordsFault>
    requires room { at + length words.now < 2 ^ 64 }
    requires columns { columns.here + length words.now < 2 ^ 64 }
    ensures judged { IsJudged (λ v. v.items ≡ numbers_of (map string_bytes words.now))
        (first_offence (offences_by (cell_rule bounds.counted bounds.most
        (is_no_entry columns.above above.now columns.here taken.old))
        at (numbers_of (map string_bytes words.now)))) result }
    ensures taken { IfOk result (λ v. taken.new ≡ marked (reverse v.items) taken.old) }
{
    let mut row = Vec::new(alloc);
    for (i, word) in words.iter().enumerate() {
        let number = value_of(word.as_bytes());
        let entry = match entry_of(number, row.as_slice(), bounds, above, columns, taken) {
            Ok(entry) => entry,
            Err(kind) => return Err(offence(at + i as u64, kind)),
        };
        take(taken, entry);
        row.push(entry)?;
    }
    Ok(row)
}
