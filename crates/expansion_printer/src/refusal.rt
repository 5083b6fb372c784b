//! The lines that are printed if a command is refused or its answer is too large.
ghost use Rattle.std.specs.Prelude.{◌≢◌, true};
ghost use Rattle.calc_base.specs.Puts.{Prints};
ghost use Rattle.sym_model.specs.RefusalText.{refusal_line, large_line};
ghost use Rattle.expansion_printer.specs.Refusal.{refusal_text};

use crate::numbers::put_number;
use crate::text_buffer::TextBuffer;
use calc_base::{Place, Sink, SinkFault, WordsFault};

/// Prints the line of a refusal: the name and the place of its error. `NoMemory` has no line, and
/// must not be given.
///
/// Returns `SinkFault` if and only if a write failed. No write follows a failed one, and what was
/// written is then a prefix of the line.
pub fn print_refusal<K: Sink>(fault: &WordsFault, sink: &mut K) -> Result<(), SinkFault>
    requires { fault.now ≢ WordsFault.NoMemory }
    ensures { Prints (K.seen sink.old) (K.seen sink.new) (refusal_text fault.now) result }
{
    match *fault {
        WordsFault::Syntax { at } => print_offence(b"Syntax", at, sink),
        WordsFault::Literal { at } => print_offence(b"Literal", at, sink),
        WordsFault::Range { at } => print_offence(b"Range", at, sink),
        WordsFault::Shape { at } => print_offence(b"Shape", at, sink),
        WordsFault::NoMemory => unreachable!(),
    }
}

/// Prints the line of an answer that is too large.
///
/// Returns `SinkFault` if and only if a write failed. No write follows a failed one, and what was
/// written is then a prefix of the line.
pub fn print_large<K: Sink>(sink: &mut K) -> Result<(), SinkFault>
    ensures { Prints (K.seen sink.old) (K.seen sink.new) large_line result }
{
    sink.put(b"! Large\n")
}

/// Prints the line of a refusal with the given name and place of an error.
fn print_offence<K: Sink>(name: &[u8], at: Place, sink: &mut K) -> Result<(), SinkFault>
    ensures { Prints (K.seen sink.old) (K.seen sink.new)
        (refusal_line name.now at.word at.byte) result }
{
    let mut text = TextBuffer::new();
    text.put(b"! ", sink);
    text.put(name, sink);
    text.put_byte(b' ', sink);
    put_number(at.word, &mut text, sink);
    text.put_byte(b':', sink);
    put_number(at.byte, &mut text, sink);
    text.put_byte(b'\n', sink);
    text.finish(sink)
}
