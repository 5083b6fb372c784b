//! The rows of fillings of skew shapes.
ghost use Rattle.std.specs.Prelude.{◌≡◌, ◌≤◌, ◌<◌, ◌+◌, ◌==◌, ◌++◌, ℕ, List, codes, if◌then◌else◌};
ghost use Rattle.expansion_printer.specs.Gathering.{Gathers};
ghost use Rattle.sym_model.specs.Partition.{IsCell, part};
ghost use Rattle.sym_model.specs.TableauText.{row_text, spaced, tableau_text};
ghost use Rattle.skew_shapes.specs.Rows.{row_by, rows_by};

use crate::numbers::put_piece;
use crate::text_buffer::TextBuffer;
use calc_base::Sink;
use partitions::Partition;

/// Skew shapes with a number in each cell.
pub(crate) trait Entries {
    ghost outer: { Self → List ℕ };

    ghost inner: { Self → List ℕ };

    // `entry f row column`: the number in the cell of f in that row and column, counted from 1.
    ghost entry: { Self → ℕ → ℕ → ℕ };

    // The numbers of the filling, row by row.
    ghost rows: { Self → List (List ℕ) };

    fn outer(&self) -> &Partition
        ensures value { result.now ≡ outer self.now }
        ensures rows { rows_by (entry self.now) (outer self.now) (inner self.now) ≡ rows self.now };

    fn inner(&self) -> &Partition
        ensures { result.now ≡ inner self.now };

    fn entry(&self, row: u16, column: u16) -> u16
        requires { IsCell (outer self.now) (inner self.now) row column }
        ensures { result ≡ entry self.now row column };
}

/// Writes the rows of the filling from top to bottom, or `.` if there is no row.
pub(crate) fn put_rows<E: Entries, K: Sink>(filling: &E, text: &mut TextBuffer, sink: &mut K)
    ensures { Gathers text.old (K.seen sink.old) text.new (K.seen sink.new)
        (tableau_text (E.rows filling.now)) }
{
    let rows = filling.outer().rows();
    if rows == 0 {
        return text.put_byte(b'.', sink);
    }
    for at in 0..rows {
        put_next_row(filling, at, text, sink);
    }
}

/// Writes row `at` of the filling, counted from 0; ` / ` is written in front of it unless `at` is
/// 0.
fn put_next_row<E: Entries, K: Sink>(filling: &E, at: u16, text: &mut TextBuffer, sink: &mut K)
    requires { at < 65535 }
    ensures { Gathers text.old (K.seen sink.old) text.new (K.seen sink.new)
        (if at == 0 then row_text
        (row_by (E.entry filling.now) (E.outer filling.now) (E.inner filling.now) (at + 1))
        else (codes " / " ++ row_text
        (row_by (E.entry filling.now) (E.outer filling.now) (E.inner filling.now) (at + 1)))) }
{
    if at == 0 {
        return put_row(filling, at, text, sink);
    }
    text.put(b" / ", sink);
    put_row(filling, at, text, sink);
}

/// Writes the entries of row `at` of the filling, counted from 0, with spaces between them, or `.`
/// if the row has no cell.
fn put_row<E: Entries, K: Sink>(filling: &E, at: u16, text: &mut TextBuffer, sink: &mut K)
    requires { at < 65535 }
    ensures { Gathers text.old (K.seen sink.old) text.new (K.seen sink.new)
        (row_text (row_by (E.entry filling.now) (E.outer filling.now) (E.inner filling.now)
        (at + 1))) }
{
    let row = at + 1;
    let left = filling.inner().part(row);
    let right = filling.outer().part(row);
    if right <= left {
        return text.put_byte(b'.', sink);
    }
    put_entries(filling, row, left, right, text, sink);
}

/// Writes the entries of a row of the filling, in columns `left + 1` to `right`, with spaces
/// between them.
fn put_entries<E: Entries, K: Sink>(
    filling: &E,
    row: u16,
    left: u16,
    right: u16,
    text: &mut TextBuffer,
    sink: &mut K,
)
    requires counts { 1 ≤ row }
    requires order { left ≤ right }
    requires inner { left ≡ part (E.inner filling.now) row }
    requires outer { right ≡ part (E.outer filling.now) row }
    ensures { Gathers text.old (K.seen sink.old) text.new (K.seen sink.new)
        (spaced (row_by (E.entry filling.now) (E.outer filling.now) (E.inner filling.now) row)) }
{
    for column in left..right {
        let entry = u64::from(filling.entry(row, column + 1));
        put_piece(b' ', usize::from(column - left), entry, text, sink);
    }
}
