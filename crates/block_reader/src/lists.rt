//! Lists of numbers with commas between them, read back.
ghost use Rattle.std.specs.Prelude.{◌≡◌, ◌^◌, ◌<◌, length, SomeIff, IfOk, MatchOption};
ghost use Rattle.sym_model.specs.NumberText.{decimal_value, label_of, numbers_of};
ghost use Rattle.block_reader.specs.Parts.{AreSmall};

use crate::cutting::{after_first, cut, inside};
use crate::numbers::number_of;
use calc_base::NoMemory;
use std::alloc::Global;

/// The numbers in the text of a label, or `None` if one of them is 2^16 or more.
pub(crate) fn list_of(alloc: Global, label: &[u8]) -> Result<Option<Vec<u16>>, NoMemory>
    ensures { IfOk result (λ found.
        MatchOption found (¬ AreSmall (label_of label.now))
        (λ numbers. numbers.items ≡ label_of label.now)) }
{
    let text = inside(label);
    if text.is_empty() {
        return Ok(Some(Vec::new(alloc)));
    }
    numbers_in(alloc, text)
}

/// The numbers between the commas of a text that is not empty, or `None` if one of them is 2^16 or
/// more.
fn numbers_in(alloc: Global, text: &[u8]) -> Result<Option<Vec<u16>>, NoMemory>
    requires { 0 < length text.now }
    ensures { IfOk result (λ found.
        MatchOption found (¬ AreSmall (numbers_of text.now))
        (λ numbers. numbers.items ≡ numbers_of text.now)) }
{
    let mut numbers = Vec::new(alloc);
    let mut rest = text;
    loop {
        let (piece, tail) = cut(rest, b',');
        let Some(number) = small_number(piece) else {
            return Ok(None);
        };
        numbers.push(number)?;
        if tail.is_empty() {
            return Ok(Some(numbers));
        }
        rest = after_first(tail);
    }
}

/// The value of a text of decimal digits, if it is below 2^16.
fn small_number(digits: &[u8]) -> Option<u16>
    ensures { SomeIff result (decimal_value digits.now < 2 ^ 16) (decimal_value digits.now) }
{
    u16::try_from(number_of(digits)?).ok()
}
