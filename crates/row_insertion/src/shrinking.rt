//! Row insertion undone, in place: the last letter of a row is removed from a tableau, and letters
//! of the rows above are replaced.
ghost use Rattle.std.specs.Prelude.{◌≡◌, ◌<◌, length, slice_index, slice_set};
ghost use Rattle.insertion_laws.specs.Removal.{last_of, letter_back, removed, row_back, row_ending};
ghost use Rattle.insertion_laws.specs.Removal.{without_last};
ghost use Rattle.insertion_laws.specs.Rows.{AreRows};
ghost use Rattle.row_insertion.specs.RowLists.{row_at, rows_in, without_end};

use std::mem;

/// The first row, counted from 0, whose last number is `number`; the number of rows if there is no
/// such row.
pub(crate) fn row_ending(rows: &[Vec<u16>], number: u16) -> usize
    ensures { result ≡ row_ending number (rows_in rows.now) }
{
    for at in 0..rows.len() {
        if last_of(&rows[at]) == number {
            return at;
        }
    }
    rows.len()
}

/// The last number of a row; 0 if the row is empty.
fn last_of(row: &[u16]) -> u16
    ensures { result ≡ last_of row.now }
{
    let [.., last] = row else {
        return 0;
    };
    *last
}

/// Undoes the row insertion that ended in row `at`, counted from 0: takes the last letter off this
/// row; in each row above, from the bottom up, the letter taken replaces the last smaller letter,
/// which is taken next. Returns the letter taken from the first row.
pub(crate) fn take_out(rows: &mut Vec<Vec<u16>>, at: usize) -> u16
    requires tableau { AreRows 1 (rows_in rows.old.items) }
    requires row { at < length rows.old.items }
    ensures { (rows_in rows.new.items, result) ≡ removed at (rows_in rows.old.items) }
{
    let mut letter = take_last(rows, at);
    let mut above = at;
    while above > 0 {
        above -= 1;
        letter = put_back(&mut rows[above], letter);
    }
    letter
}

/// Removes the last number of row `at`, counted from 0, and returns it; if the row becomes empty,
/// it is dropped.
pub(crate) fn take_last(rows: &mut Vec<Vec<u16>>, at: usize) -> u16
    requires { at < length rows.old.items }
    ensures rows { rows_in rows.new.items ≡ without_end at (rows_in rows.old.items) }
    ensures number { result ≡ last_of (row_at (rows_in rows.old.items) at) }
{
    let last = pop_last(&mut rows[at]);
    if rows[at].is_empty() {
        rows.remove(at);
    }
    last
}

/// Removes the last number of a row and returns it; 0 if the row is empty.
fn pop_last(row: &mut Vec<u16>) -> u16
    ensures row { row.new.items ≡ without_last row.old.items }
    ensures number { result ≡ last_of row.old.items }
{
    row.pop().unwrap_or(0)
}

/// Replaces the last letter of the row that is smaller than `letter` with `letter`, and returns the
/// letter replaced. The row must not be empty; its first letter counts as smaller in any case.
fn put_back(row: &mut Vec<u16>, letter: u16) -> u16
    requires { 0 < length row.old.items }
    ensures row { row.new.items ≡ row_back letter row.old.items }
    ensures other { result ≡ letter_back letter row.old.items }
{
    let place = last_smaller(row, letter);
    mem::replace(&mut row[place], letter)
}

/// The index, counted from 0, of the last letter of the row that is smaller than `letter`; 0 if no
/// letter after the first one is smaller.
fn last_smaller(row: &[u16], letter: u16) -> usize
    requires { 0 < length row.now }
    ensures within { result < length row.now }
    ensures row { slice_set row.now result letter ≡ row_back letter row.now }
    ensures other { slice_index row.now result ≡ letter_back letter row.now }
{
    for place in 1..row.len() {
        if row[place] >= letter {
            return place - 1;
        }
    }
    row.len() - 1
}
