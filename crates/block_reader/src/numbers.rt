//! Numbers and fractions in decimal, read back.
ghost use Rattle.std.specs.Prelude.{◌≡◌, ℕ, ◌+◌, ◌-◌, ◌*◌, ◌^◌, ◌<◌, pos, neg_ℤ, FitsSigned};
ghost use Rattle.std.specs.Prelude.{SomeIff};
ghost use Rattle.std.specs.Int.{w128};
ghost use Rattle.sym_model.specs.NumberText.{decimal_value, signed_value};
ghost use Rattle.block_reader.specs.Parts.{denominator_after};

use crate::cutting::{after_first, cut};

/// The value of a text of decimal digits, if it is below 2^128.
pub(crate) fn number_of(digits: &[u8]) -> Option<u128>
    ensures { SomeIff result (decimal_value digits.now < 2 ^ 128) (decimal_value digits.now) }
{
    let mut value: u128 = 0;
    for digit in digits {
        let Some(more) = with_digit(value, *digit) else {
            return None;
        };
        value = more;
    }
    Some(value)
}

/// The value of a number with one more digit appended, if it is below 2^128.
fn with_digit(value: u128, digit: u8) -> Option<u128>
    ensures { SomeIff result (10 * value + (digit - 48) < 2 ^ 128) (10 * value + (digit - 48)) }
{
    value
        .checked_mul(10)?
        .checked_add(u128::from(digit.saturating_sub(48)))
}

/// The integer that a text in decimal spells, if it is a signed number of 128 bits.
pub(crate) fn signed_of(text: &[u8]) -> Option<i128>
    ensures { SomeIff result (FitsSigned w128 (signed_value text.now)) (signed_value text.now) }
{
    match text {
        [b'-', digits @ ..] => negative(number_of(digits)),
        _ => positive(number_of(text)),
    }
}

/// `number` as a signed number of 128 bits, if it is given and fits.
fn positive(number: Option<u128>) -> Option<i128>
    ensures { (n : ℕ) → SomeIff number (n < 2 ^ 128) n
        → SomeIff result (FitsSigned w128 (pos n)) (pos n) }
{
    i128::try_from(number?).ok()
}

/// The negative of `number` as a signed number of 128 bits, if `number` is given and the negative
/// fits.
fn negative(number: Option<u128>) -> Option<i128>
    ensures { (n : ℕ) → SomeIff number (n < 2 ^ 128) n
        → SomeIff result (FitsSigned w128 (neg_ℤ (pos n))) (neg_ℤ (pos n)) }
{
    0i128.checked_sub_unsigned(number?)
}

/// The denominator of a fraction, given its text after the numerator: 1 if this text is empty, and
/// otherwise the number after the `/`; `None` if it is 2^128 or more.
pub(crate) fn denominator_of(text: &[u8]) -> Option<u128>
    ensures { SomeIff result (denominator_after text.now < 2 ^ 128) (denominator_after text.now) }
{
    if text.is_empty() {
        return Some(1);
    }
    let (digits, _) = cut(after_first(text), b'/');
    number_of(digits)
}
