//! The earlier of two errors.
ghost use Rattle.std.specs.Prelude.{◌≡◌, Option};
ghost use Rattle.sym_model.specs.CommandOffence.{Offence, is_no_later};
ghost use Rattle.sym_model.specs.ExpressionOffence.{literal, range, shape};
ghost use Rattle.word_laws.specs.JudgedRows.{earlier as earlier_of_both};
ghost use Rattle.calc_language.specs.FoundOffences.{found_of};
ghost use Rattle.calc_words.specs.Reading.{IsFirst};

use calc_base::{Place, WordsFault};
use calc_words::{Kind, refused as offence};

/// Whether an error at the place `at` is no later than an error of shape at byte 0 of the word
/// `word`. Of the errors at one place, those of shape are the last.
fn stands_first(at: Place, word: u64) -> bool
    ensures literal { result ≡ is_no_later (at.word, at.byte, literal) (word, 0, shape) }
    ensures range { result ≡ is_no_later (at.word, at.byte, range) (word, 0, shape) }
    ensures shape { result ≡ is_no_later (at.word, at.byte, shape) (word, 0, shape) }
{
    at.word < word || (at.word == word && at.byte == 0)
}

/// The refusal with the earlier one of two errors: that of `fault`, and an error of shape at the
/// word `found`, if one was found.
pub(crate) fn earlier_refusal(fault: WordsFault, found: Option<u64>) -> WordsFault
    ensures { (first : Option Offence) → IsFirst first fault
        → IsFirst (earlier_of_both first (found_of found)) result }
{
    let Some(word) = found else {
        return fault;
    };
    match fault {
        WordsFault::Literal { at } if !stands_first(at, word) => offence(word, Kind::Shape),
        WordsFault::Range { at } if !stands_first(at, word) => offence(word, Kind::Shape),
        WordsFault::Shape { at } if !stands_first(at, word) => offence(word, Kind::Shape),
        _ => fault,
    }
}
