//! Numbers in decimal, one after another.
ghost use Rattle.std.specs.Prelude.{◌≡◌, ℕ, ◌==◌, [], ◌∷◌, map, decimal, if◌then◌else◌};
ghost use Rattle.expansion_printer.specs.Gathering.{Gathers};
ghost use Rattle.sym_model.specs.NumberText.{label_text};
ghost use Rattle.sym_model.specs.TableauText.{separated};

use crate::text_buffer::TextBuffer;
use calc_base::Sink;
use itoa::{Buffer, Integer};

/// Numbers of at most 64 bits, such as those in the label of a term.
pub(crate) trait Numeral {
    ghost number: { Self → ℕ };

    fn as_u64(&self) -> u64
        ensures { result ≡ number self.now };
}

impl Numeral for u8 {
    ghost number = { λ n. n };

    fn as_u64(&self) -> u64 {
        u64::from(*self)
    }
}

impl Numeral for u16 {
    ghost number = { λ n. n };

    fn as_u64(&self) -> u64 {
        u64::from(*self)
    }
}

/// Writes a label: the numbers in parentheses, with commas between them.
pub(crate) fn put_label<N: Numeral, K: Sink>(numbers: &[N], text: &mut TextBuffer, sink: &mut K)
    ensures { Gathers text.old (K.seen sink.old) text.new (K.seen sink.new)
        (label_text (map N.number numbers.now)) }
{
    text.put_byte(b'(', sink);
    put_separated(b',', numbers, text, sink);
    text.put_byte(b')', sink);
}

/// Writes the numbers with the separator between them.
pub(crate) fn put_separated<N: Numeral, K: Sink>(
    separator: u8,
    numbers: &[N],
    text: &mut TextBuffer,
    sink: &mut K,
)
    ensures { Gathers text.old (K.seen sink.old) text.new (K.seen sink.new)
        (separated (separator ∷ []) (map decimal (map N.number numbers.now))) }
{
    for (at, number) in numbers.iter().enumerate() {
        put_piece(separator, at, number.as_u64(), text, sink);
    }
}

/// Writes `number`, which is item `at` of a list, counted from 0; the separator is written in front
/// of it unless `at` is 0.
#[inline]
pub(crate) fn put_piece<K: Sink>(
    separator: u8,
    at: usize,
    number: u64,
    text: &mut TextBuffer,
    sink: &mut K,
)
    ensures { Gathers text.old (K.seen sink.old) text.new (K.seen sink.new)
        (if at == 0 then decimal number else (separator ∷ decimal number)) }
{
    if at == 0 {
        return put_number(number, text, sink);
    }
    text.put_byte(separator, sink);
    put_number(number, text, sink);
}

/// Writes a number in decimal.
#[inline]
pub(crate) fn put_number<K: Sink>(number: u64, text: &mut TextBuffer, sink: &mut K)
    ensures { Gathers text.old (K.seen sink.old) text.new (K.seen sink.new) (decimal number) }
{
    if number < 10 {
        return text.put_byte(b'0' + number as u8, sink);
    }
    if number < 100 {
        text.put_byte(b'0' + (number / 10) as u8, sink);
        return text.put_byte(b'0' + (number % 10) as u8, sink);
    }
    put_long(number, text, sink);
}

/// Writes a number of any integer type in decimal.
#[inline(never)]
pub(crate) fn put_long<I: Integer, K: Sink>(number: I, text: &mut TextBuffer, sink: &mut K)
    ensures { Gathers text.old (K.seen sink.old) text.new (K.seen sink.new) (I.text number) }
{
    text.put(Buffer::new().format(number).as_bytes(), sink);
}
