//! Number words, which are words of one or more ASCII digits, and their values.
ghost use Rattle.std.specs.Prelude.{◌≡◌};
ghost use Rattle.sym_model.specs.PrintedBlock.{decimal_value};
ghost use Rattle.sym_model.specs.Form.{is_number_word, is_digit};
ghost use Rattle.calc_words.specs.NumberRuns.{narrow};

use calc_base::LIMIT;

/// Whether the byte is an ASCII digit.
pub(crate) fn is_digit_byte(byte: u8) -> bool
    ensures { result ≡ is_digit byte }
{
    byte >= b'0' && byte <= b'9'
}

/// Whether the word is a number: one or more ASCII digits.
pub fn is_number(word: &[u8]) -> bool
    ensures { result ≡ is_number_word word.now }
{
    for byte in word {
        if !is_digit_byte(*byte) {
            return false;
        }
    }
    !word.is_empty()
}

/// The value of a number word, or `None` if it exceeds 2^127 - 1.
pub fn value_of(word: &[u8]) -> Option<u128>
    ensures { result ≡ narrow (decimal_value word.now) }
{
    let mut value: u128 = 0;
    for byte in word {
        value = value
            .saturating_mul(10)
            .saturating_add(u128::from(byte.saturating_sub(b'0')))
            .min(LIMIT);
    }
    (value < LIMIT).then_some(value)
}
