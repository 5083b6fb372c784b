//! Reading of the letters of the word of `rsk`.
ghost use Rattle.std.specs.Prelude.{◌≡◌, ◌<◌, ◌+◌, ◌^◌, ◌==◌, ◌||◌, IfOk, IfErr, length, map};
ghost use Rattle.std.specs.Prelude.{string_bytes};
ghost use Rattle.sym_model.specs.CommandOffence.{first_offence, offences_by, letter_rule};
ghost use Rattle.sym_model.specs.CommandOffence.{is_outside, greatest_letter, most_letters};
ghost use Rattle.sym_model.specs.WordForms.{numbers as numbers_of};
ghost use Rattle.calc_words.specs.Reading.{IsJudged};

use crate::numbers::value_of;
use crate::offence::{Kind, offence};
use calc_base::{Word, WordsFault};
use std::alloc::Global;

/// A word has at most 256 letters, each of them at most 65,535.
const MOST_LETTERS: usize = 256;

const GREATEST_LETTER: u128 = 65_535;

/// Whether the letter `value`, after `count` other letters, is not from 1 to 65,535 or is the
/// 257th.
fn is_past(count: usize, value: u128) -> bool
    ensures { result ≡ (is_outside greatest_letter value || (count == most_letters)) }
{
    value == 0 || value > GREATEST_LETTER || count == MOST_LETTERS
}

/// The word with these letters, which have been tested.
fn word_of(alloc: Global, letters: &[u16]) -> Result<Word, WordsFault>
    ensures ok { IfOk result (λ w. w ≡ letters.now) }
    ensures err { IfErr result (λ fault. fault ≡ WordsFault.NoMemory) }
{
    Ok(Word::from_slice(alloc, letters)?)
}

/// Reads words as the letters of the word of `rsk`, one letter from each of them, or returns the
/// first error; the first of these words is word `at` of the command.
pub(crate) fn read_letters(alloc: Global, at: u64, words: &[String]) -> Result<Word, WordsFault>
    requires { at + length words.now < 2 ^ 64 }
    ensures { IsJudged (λ w. w ≡ numbers_of (map string_bytes words.now))
        (first_offence (offences_by letter_rule at (numbers_of (map string_bytes words.now))))
        result }
{
    let mut letters: [u16; MOST_LETTERS] = [0; MOST_LETTERS];
    for (i, word) in words.iter().enumerate() {
        let place = at + i as u64;
        let Some(value) = value_of(word.as_bytes()) else {
            return Err(offence(place, Kind::Literal));
        };
        if is_past(i, value) {
            return Err(offence(place, Kind::Range));
        }
        letters[i] = value as u16;
    }
    word_of(alloc, &letters[..words.len()])
}
