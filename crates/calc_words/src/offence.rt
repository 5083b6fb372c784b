//! Refusals of the words of a command.
ghost use Rattle.std.specs.Prelude.{◌≡◌};
ghost use Rattle.calc_words.specs.Faults.{fault_of};

use calc_base::{Place, WordsFault};
pub use expression_reading::Kind;

/// The refusal of words with an error of syntax, at this byte of this word.
pub fn syntax(word: u64, byte: u64) -> WordsFault
    ensures { result ≡ WordsFault.Syntax (record { word = word; byte = byte }) }
{
    WordsFault::Syntax {
        at: Place { word, byte },
    }
}

/// The refusal for an error of this kind, at byte 0 of this word.
pub fn offence(word: u64, kind: Kind) -> WordsFault
    ensures { result ≡ fault_of word kind }
{
    let at = Place { word, byte: 0 };
    match kind {
        Kind::Literal => WordsFault::Literal { at },
        Kind::Range => WordsFault::Range { at },
        Kind::Shape => WordsFault::Shape { at },
    }
}
