//! The lines of tableaux and other fillings of skew shapes.
ghost use Rattle.std.specs.Prelude.{slice_index};
ghost use Rattle.calc_base.specs.Puts.{Prints};
ghost use Rattle.sym_model.specs.TableauList.{filling_of};
ghost use Rattle.sym_model.specs.TableauText.{tableau_line};
ghost use Rattle.skew_shapes.specs.CellFillings.{place_in_row, row_of};

use crate::reading::{CountedReading, Reading, ReadingOrder};
use crate::rows::{Entries, put_rows};
use crate::text_buffer::TextBuffer;
use calc_base::{Sink, SinkFault};
use partitions::Partition;
use skew_shapes::{Skew, Tableau};

impl Entries for Tableau {
    ghost outer = { λ t. t.outer };

    ghost inner = { λ t. t.inner };

    ghost entry = { λ t row column. slice_index (row_of t.rows row) (place_in_row t.inner row column) };

    ghost rows = { λ t. t.rows };

    fn outer(&self) -> &Partition {
        self.shape().outer()
    }

    fn inner(&self) -> &Partition {
        self.shape().inner()
    }

    fn entry(&self, row: u16, column: u16) -> u16 {
        Tableau::entry(self, row, column).unwrap_or(0)
    }
}

/// Prints the line of a tableau: its rows from top to bottom.
///
/// Returns `SinkFault` if and only if a write failed. No write follows a failed one, and what was
/// written is then a prefix of the line.
pub fn print_tableau<K: Sink>(t: &Tableau, sink: &mut K) -> Result<(), SinkFault>
    ensures { Prints (K.seen sink.old) (K.seen sink.new) (tableau_line t.now.rows) result }
{
    print_filling(t, sink)
}

/// Prints the line of the filling of a shape that has this column reading: the letters of the
/// columns from the rightmost to the leftmost, each from top to bottom. If the reading has too few
/// letters, the remaining cells have the number 0.
///
/// Returns `SinkFault` if and only if a write failed. No write follows a failed one, and what was
/// written is then a prefix of the line.
pub fn print_reading<K: Sink>(shape: &Skew, reading: &[u16], sink: &mut K) -> Result<(), SinkFault>
    ensures { Prints (K.seen sink.old) (K.seen sink.new)
        (tableau_line (filling_of shape.now.0 shape.now.1 reading.now)) result }
{
    let filling = CountedReading {
        shape,
        letters: reading,
    };
    print_filling(&filling, sink)
}

/// Prints the line of the filling of the shape of `order` that has this column reading. If the
/// reading has too few letters, the remaining cells have the number 0. The indices of the cells are
/// those of `order`, and are not computed for each reading.
///
/// Returns `SinkFault` if and only if a write failed. No write follows a failed one, and what was
/// written is then a prefix of the line.
pub fn print_in_order<K: Sink>(
    order: &ReadingOrder,
    reading: &[u16],
    sink: &mut K,
) -> Result<(), SinkFault>
    ensures { Prints (K.seen sink.old) (K.seen sink.new)
        (tableau_line (filling_of order.now.0 order.now.1 reading.now)) result }
{
    let filling = Reading {
        order,
        letters: reading,
    };
    print_filling(&filling, sink)
}

/// Prints the line of a filling of a skew shape.
fn print_filling<E: Entries, K: Sink>(filling: &E, sink: &mut K) -> Result<(), SinkFault>
    ensures { Prints (K.seen sink.old) (K.seen sink.new)
        (tableau_line (E.rows filling.now)) result }
{
    let mut text = TextBuffer::new();
    put_rows(filling, &mut text, sink);
    text.put_byte(b'\n', sink);
    text.finish(sink)
}
