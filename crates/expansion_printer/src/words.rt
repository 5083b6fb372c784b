//! Prints a word or a list of partitions as a line, and a single partition with no line feed.
ghost use Rattle.std.specs.Prelude.{◌++◌, ◌==◌, map, codes, if◌then◌else◌};
ghost use Rattle.calc_base.specs.Puts.{Prints};
ghost use Rattle.expansion_printer.specs.Gathering.{Gathers};
ghost use Rattle.sym_model.specs.NumberText.{label_text};
ghost use Rattle.sym_model.specs.TableauText.{separated, word_line, shapes_line};

use crate::numbers::{put_label, put_separated};
use crate::text_buffer::TextBuffer;
use calc_base::{Sink, SinkFault};
use partitions::Partition;

/// Prints the line of a word: its letters with a space between them, and an empty line for the
/// empty word.
///
/// Returns `SinkFault` if and only if a write failed. No write follows a failed one, and what was
/// written is then a prefix of the line.
pub fn print_letters<K: Sink>(w: &[u16], sink: &mut K) -> Result<(), SinkFault>
    ensures { Prints (K.seen sink.old) (K.seen sink.new) (word_line w.now) result }
{
    let mut text = TextBuffer::new();
    put_separated(b' ', w, &mut text, sink);
    text.put_byte(b'\n', sink);
    text.finish(sink)
}

/// Prints the label of a partition, with no end of line.
///
/// Returns `SinkFault` if and only if a write failed. No write follows a failed one, and what was
/// written is then a prefix of the label.
pub fn print_label<K: Sink>(shape: &Partition, sink: &mut K) -> Result<(), SinkFault>
    ensures { Prints (K.seen sink.old) (K.seen sink.new) (label_text shape.now) result }
{
    let mut text = TextBuffer::new();
    put_label(shape.parts(), &mut text, sink);
    text.finish(sink)
}

/// Prints the line of shapes: their labels with a space between them, and an empty line if there is
/// no shape.
///
/// Returns `SinkFault` if and only if a write failed. No write follows a failed one, and what was
/// written is then a prefix of the line.
pub fn print_shapes<K: Sink>(shapes: &[Partition], sink: &mut K) -> Result<(), SinkFault>
    ensures { Prints (K.seen sink.old) (K.seen sink.new) (shapes_line shapes.now) result }
{
    let mut text = TextBuffer::new();
    put_shapes(shapes, &mut text, sink);
    text.put_byte(b'\n', sink);
    text.finish(sink)
}

/// Writes the labels of the shapes with a space between them.
fn put_shapes<K: Sink>(shapes: &[Partition], text: &mut TextBuffer, sink: &mut K)
    ensures { Gathers text.old (K.seen sink.old) text.new (K.seen sink.new)
        (separated (codes " ") (map label_text shapes.now)) }
{
    for (at, shape) in shapes.iter().enumerate() {
        put_next_shape(at, shape, text, sink);
    }
}

/// Writes the label of `shape`, which is item `at` of a list, counted from 0; a space is written in
/// front of it unless `at` is 0.
fn put_next_shape<K: Sink>(at: usize, shape: &Partition, text: &mut TextBuffer, sink: &mut K)
    ensures { Gathers text.old (K.seen sink.old) text.new (K.seen sink.new)
        (if at == 0 then label_text shape.now else (codes " " ++ label_text shape.now)) }
{
    if at == 0 {
        return put_label(shape.parts(), text, sink);
    }
    text.put_byte(b' ', sink);
    put_label(shape.parts(), text, sink);
}
