//! The texts of coefficients: their signs and their absolute values.
ghost use Rattle.std.specs.Prelude.{◌≡◌, [], ◌++◌, ◌==◌, cond, codes, decimal, if◌then◌else◌};
ghost use Rattle.std.specs.Prelude.{FitsSigned};
ghost use Rattle.std.specs.Int.{w128};
ghost use Rattle.expansion_printer.specs.Gathering.{Gathers};
ghost use Rattle.expansion_printer.specs.SignedTerms.{sign_text, coefficient_text};
ghost use Rattle.sym_model.specs.NumberText.{fraction_text};

use crate::numbers::{self, put_long};
use crate::text_buffer::TextBuffer;
use calc_base::Sink;
use coeff_rings::{Frac, Int, Scalar};

/// Coefficients that are given as a numerator and a denominator.
pub(crate) trait Ratio: Scalar {
    /// The numerator and the denominator of the coefficient.
    fn parts(&self) -> (i128, u128)
        ensures parts { Self.value self.now ≡ result }
        ensures fits { FitsSigned w128 result.0 }
        ensures held { Self.is_held self.now };
}

impl Ratio for Int {
    fn parts(&self) -> (i128, u128) {
        (self.get(), 1)
    }
}

impl Ratio for Frac {
    fn parts(&self) -> (i128, u128) {
        (self.num(), self.den().unsigned_abs())
    }
}

/// Writes the sign in front of a term: `-` if the numerator is negative. Otherwise it writes `+`,
/// or nothing if the term is the first one.
pub(crate) fn put_sign<K: Sink>(is_first: bool, num: i128, text: &mut TextBuffer, sink: &mut K)
    ensures { Gathers text.old (K.seen sink.old) text.new (K.seen sink.new)
        (sign_text is_first num) }
{
    if num < 0 {
        return text.put_byte(b'-', sink);
    }
    if is_first {
        return;
    }
    text.put_byte(b'+', sink);
}

/// Writes the absolute value of a coefficient and `*`, or nothing if the absolute value is 1.
pub(crate) fn put_coefficient<K: Sink>(num: i128, den: u128, text: &mut TextBuffer, sink: &mut K)
    ensures { Gathers text.old (K.seen sink.old) text.new (K.seen sink.new)
        (coefficient_text (num, den)) }
{
    let size = num.unsigned_abs();
    if size == 1 && den == 1 {
        return;
    }
    put_number(size, text, sink);
    put_denominator(den, text, sink);
    text.put_byte(b'*', sink);
}

/// Writes a coefficient as `NUM/DEN`, or as `NUM` if the denominator is 1.
pub(crate) fn put_fraction<K: Sink>(num: i128, den: u128, text: &mut TextBuffer, sink: &mut K)
    ensures { Gathers text.old (K.seen sink.old) text.new (K.seen sink.new)
        (fraction_text (num, den)) }
{
    put_sign(true, num, text, sink);
    put_number(num.unsigned_abs(), text, sink);
    put_denominator(den, text, sink);
}

/// Writes `/` and the denominator of a fraction, or nothing if the denominator is 1.
fn put_denominator<K: Sink>(den: u128, text: &mut TextBuffer, sink: &mut K)
    ensures { Gathers text.old (K.seen sink.old) text.new (K.seen sink.new)
        (if den == 1 then [] else (codes "/" ++ decimal den)) }
{
    if den == 1 {
        return;
    }
    text.put_byte(b'/', sink);
    put_number(den, text, sink);
}

/// Writes a number in decimal.
fn put_number<K: Sink>(number: u128, text: &mut TextBuffer, sink: &mut K)
    ensures { Gathers text.old (K.seen sink.old) text.new (K.seen sink.new) (decimal number) }
{
    match u64::try_from(number) {
        Ok(number) => numbers::put_number(number, text, sink),
        Err(_) => put_long(number, text, sink),
    }
}
