//! Reading of the letters of a permutation.
ghost use Rattle.std.specs.Prelude.{◌≡◌, ◌≤◌, ◌<◌, ◌+◌, ◌^◌, map, length, string_bytes, IfOk};
ghost use Rattle.std.specs.Prelude.{IfErr};
ghost use Rattle.perm_codes.specs.Limits.{IsShortPermutation};
ghost use Rattle.sym_model.specs.CommandOffence.{first_offence, permutation_offences_within};
ghost use Rattle.sym_model.specs.CommandOffence.{stands_in as stands_in_list};
ghost use Rattle.sym_model.specs.Permutation.{kept};
ghost use Rattle.sym_model.specs.WordForms.{numbers as numbers_of};
ghost use Rattle.calc_words.specs.LetterRules.{letter_kind};
ghost use Rattle.calc_words.specs.Reading.{IsJudged};

use crate::numbers::value_of;
use crate::offence::{Kind, offence};
use calc_base::WordsFault;
use perm_codes::Perm;
use std::alloc::Global;

/// The greatest number of letters of a permutation, and its greatest letter, except in a product of
/// double Schubert polynomials.
pub(crate) const MOST_PERMUTED: usize = 16;

/// The greatest number of letters of a permutation in a product of double Schubert polynomials, and
/// its greatest letter.
pub(crate) const MOST_DOUBLED: usize = 8;

/// Whether the letter occurs in the list.
fn stands_in(letter: u16, letters: &[u16]) -> bool
    ensures { result ≡ stands_in_list letter letters.now }
{
    letters.contains(&letter)
}

/// The kind of the error of the letter `value` in a permutation of `count` letters, or `None` if it
/// has no error. The letters before it are `before`, and at most `most` letters are allowed.
fn letter_offence(most: usize, count: usize, before: &[u16], value: u128) -> Option<Kind>
    requires { most ≤ 16 }
    ensures { result ≡ letter_kind most count before.now value }
{
    if value > most as u128 || before.len() == most {
        return Some(Kind::Range);
    }
    if value == 0 || value > count as u128 || stands_in(value as u16, before) {
        return Some(Kind::Shape);
    }
    None
}

/// The permutation with these letters, which have been tested, without the fixed letters at its end
/// (`kept`).
fn permutation_of(alloc: Global, letters: &[u16]) -> Result<Perm, WordsFault>
    requires { IsShortPermutation letters.now }
    ensures ok { IfOk result (λ w. w ≡ kept letters.now) }
    ensures err { IfErr result (λ fault. fault ≡ WordsFault.NoMemory) }
{
    Ok(Perm::from_valid_letters(alloc, letters)?)
}

/// Reads words as a permutation of at most `most` letters, or returns the first error; the first of
/// the words is word `at` of the command.
pub(crate) fn read_permutation(
    alloc: Global,
    most: usize,
    at: u64,
    words: &[String],
) -> Result<Perm, WordsFault>
    requires most { most ≤ 16 }
    requires some { 0 < length words.now }
    requires room { at + length words.now < 2 ^ 64 }
    ensures { IsJudged (λ w. w ≡ kept (numbers_of (map string_bytes words.now)))
        (first_offence (permutation_offences_within
        most at (numbers_of (map string_bytes words.now)))) result }
{
    let mut letters: [u16; MOST_PERMUTED] = [0; MOST_PERMUTED];
    for (i, word) in words.iter().enumerate() {
        let place = at + i as u64;
        let Some(value) = value_of(word.as_bytes()) else {
            return Err(offence(place, Kind::Literal));
        };
        if let Some(kind) = letter_offence(most, words.len(), &letters[..i], value) {
            return Err(offence(place, kind));
        }
        letters[i] = value as u16;
    }
    permutation_of(alloc, &letters[..words.len()])
}
