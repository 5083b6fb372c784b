//! Functions that change rows in place: the row insertion of a letter, and the appending of a
//! number to a row.
ghost use Rattle.std.specs.Prelude.{◌≡◌, ◌≤◌, Some, IfOk, length, [], ◌∷◌, ◌++◌};
ghost use Rattle.sym_model.specs.Insertion.{row_with, bumped, inserted};
ghost use Rattle.sym_model.specs.Tableau.{shape_of};
ghost use Rattle.sym_model.specs.Growth.{grown, with_end};
ghost use Rattle.row_insertion.specs.RowLists.{rows_in};

use std::alloc::AllocError;
use std::mem;

/// Inserts `letter` into the rows of a tableau by row insertion, and returns the index, counted
/// from 0, of the row that has become one cell longer.
pub(crate) fn insert(rows: &mut Vec<Vec<u16>>, letter: u16) -> Result<usize, AllocError>
    ensures rows { IfOk result (λ at. rows_in rows.new.items
        ≡ inserted (rows_in rows.old.items) (Some letter)) }
    ensures row { IfOk result (λ at. at
        ≡ grown (shape_of (rows_in rows.new.items)) (shape_of (rows_in rows.old.items))) }
{
    let mut letter = letter;
    let count = rows.len();
    for at in 0..count {
        match put_in(&mut rows[at], letter)? {
            Some(bumped) => letter = bumped,
            None => return Ok(at),
        }
    }
    push_at(rows, count, letter)?;
    Ok(count)
}

/// Inserts `letter` into one row: it replaces the first greater letter, or is appended if no letter
/// is greater. Returns the letter replaced, if there is one.
fn put_in(row: &mut Vec<u16>, letter: u16) -> Result<Option<u16>, AllocError>
    ensures row { IfOk result (λ other. row.new.items ≡ row_with letter row.old.items) }
    ensures other { IfOk result (λ other. other ≡ bumped letter row.old.items) }
{
    for at in 0..row.len() {
        if row[at] > letter {
            return Ok(Some(mem::replace(&mut row[at], letter)));
        }
    }
    row.push(letter)?;
    Ok(None)
}

/// Appends `number` to row `at`, counted from 0; if `at` is the number of rows, a new row is begun.
/// Fails only if memory runs out.
pub fn push_at(rows: &mut Vec<Vec<u16>>, at: usize, number: u16) -> Result<(), AllocError>
    requires { at ≤ length rows.old.items }
    ensures { IfOk result (λ done. rows_in rows.new.items
        ≡ with_end at number (rows_in rows.old.items)) }
{
    if at < rows.len() {
        rows[at].push(number)?;
        return Ok(());
    }
    let mut row = Vec::new(*rows.allocator());
    row.push(number)?;
    rows.push(row)?;
    Ok(())
}
