//! The moves of a slide: letters move one after another into the empty cell.
ghost use Rattle.std.specs.Prelude.{◌≡◌, ◌+◌, ◌-◌, ◌<◌, ◌≤◌, length, take, slice_set};
ghost use Rattle.sym_model.specs.Partition.{IsCell, part};
ghost use Rattle.sym_model.specs.Slide.{HasInnerCorner};
ghost use Rattle.skew_shapes.specs.CellFillings.{IsFilling, entry_at, row_of};
ghost use Rattle.jeu_de_taquin.specs.EmptyCell.{next_of, slid_from};

use skew_shapes::Filled;

/// The neighbour that moves into the empty cell: the one on the right of it or the one below it,
/// with the letter of this neighbour; or none.
#[derive(Clone, Copy)]
enum Neighbour {
    /// The letter right of the empty cell.
    Right(u16),
    /// The letter below the empty cell.
    Below(u16),
    /// No neighbour: the shape has no cell on the right of the empty cell and none below it.
    Nobody,
}

/// The neighbour that moves into the empty cell (row, column): of the letter on the right and the
/// letter below, the one with the smaller value, or the letter below if their values are equal.
fn next_letter(filled: &Filled, row: u16, column: u16) -> Neighbour
    requires row { row ≤ 512 }
    requires column { column ≤ 4096 }
    ensures { result ≡ next_of (entry_at filled.now row (column + 1))
        (entry_at filled.now (row + 1) column) }
{
    let Some(below) = filled.entry(row + 1, column) else {
        return match filled.entry(row, column + 1) {
            Some(right) => Neighbour::Right(right),
            None => Neighbour::Nobody,
        };
    };
    match filled.entry(row, column + 1) {
        Some(right) if right < below => Neighbour::Right(right),
        _ => Neighbour::Below(below),
    }
}

/// Moves the neighbour given by `next_letter` into the empty cell (row, column), then does the same
/// for the cell that this neighbour has left empty, and so on until the empty cell has no neighbour
/// on the right or below. Returns the row of the last empty cell, which is the last cell of its
/// row.
pub(crate) fn move_letters(filled: &mut Filled, row: u16, column: u16) -> u16
    requires filling { IsFilling filled.old }
    requires cell { IsCell filled.old.outer filled.old.inner row column }
    ensures outer { filled.new.outer ≡ filled.old.outer }
    ensures inner { filled.new.inner ≡ filled.old.inner }
    ensures filling { IsFilling filled.new }
    ensures corner { HasInnerCorner result filled.old.outer }
    ensures cell { part filled.old.inner result < part filled.old.outer result }
    ensures rows { slid_from filled.old row column
        ≡ slice_set filled.new.rows (result - 1)
        (take (length (row_of filled.new.rows result) - 1) (row_of filled.new.rows result)) }
{
    let mut row = row;
    let mut column = column;
    loop {
        match next_letter(filled, row, column) {
            Neighbour::Right(letter) => {
                filled.set(row, column, letter);
                column += 1;
            }
            Neighbour::Below(letter) => {
                filled.set(row, column, letter);
                row += 1;
            }
            Neighbour::Nobody => return row,
        }
    }
}
