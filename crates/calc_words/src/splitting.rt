//! Tests of the first words of a list: a given word, a number word (a word of decimal digits), the
//! letter of a basis, or a run of number words.
ghost use Rattle.std.specs.Prelude.{◌≡◌, false, ◌++◌, ◌∷◌, map, string_bytes, MatchOption};
ghost use Rattle.sym_model.specs.Form.{EachOf, is_letter_of};
ghost use Rattle.sym_model.specs.Grammar.{all_bases};
ghost use Rattle.sym_model.specs.Phrase.{letter};
ghost use Rattle.expression_reading.specs.Trees.{basis_of};
ghost use Rattle.calc_words.specs.Cutting.{IsLetter};
ghost use Rattle.calc_words.specs.FactorWords.{BeginsWithDigit};
ghost use Rattle.calc_words.specs.FactorWords.{begins_with_digit as begins_with_digit_of};
ghost use Rattle.calc_words.specs.NumberRuns.{IsNumber, BeginsOtherwise};

use crate::numbers::{is_digit_byte, is_number};
use calc_base::Basis;

/// The words after the first one, if the first one is `text`; otherwise `None`.
pub fn behind<'a>(words: &'a [String], text: &str) -> Option<&'a [String]>
    ensures { MatchOption result (BeginsOtherwise (λ t. t ≡ text.now) (map string_bytes words.now))
        (λ rest. map string_bytes words.now ≡ text.now ∷ map string_bytes rest.now) }
{
    let Some((first, rest)) = words.split_first() else {
        return None;
    };
    // Most words differ from the text in their length.
    if first.len() != text.len() {
        return None;
    }
    if first.as_str() != text {
        return None;
    }
    Some(rest)
}

/// The first word, if it is a number, and the words after it.
pub(crate) fn first_number(words: &[String]) -> Option<(&String, &[String])>
    ensures { MatchOption result (BeginsOtherwise IsNumber (map string_bytes words.now))
        (λ p. (map string_bytes words.now ≡ string_bytes p.0.now ∷ map string_bytes p.1.now)
        × IsNumber (string_bytes p.0.now)) }
{
    let Some((first, rest)) = words.split_first() else {
        return None;
    };
    if !is_number(first.as_bytes()) {
        return None;
    }
    Some((first, rest))
}

/// The target basis whose letter is this word, if there is one.
fn target_named(word: &str) -> Option<Basis>
    ensures { MatchOption result (is_letter_of all_bases word.now ≡ false)
        (λ target. word.now ≡ letter (basis_of target)) }
{
    match word {
        "m" => Some(Basis::M),
        "e" => Some(Basis::E),
        "h" => Some(Basis::H),
        "p" => Some(Basis::P),
        "s" => Some(Basis::S),
        _ => None,
    }
}

/// The target basis whose letter is the first word, if there is one, and the words after that word.
pub(crate) fn first_target(words: &[String]) -> Option<(Basis, &[String])>
    ensures { MatchOption result (BeginsOtherwise IsLetter (map string_bytes words.now))
        (λ p. map string_bytes words.now ≡ letter (basis_of p.0) ∷ map string_bytes p.1.now) }
{
    let Some((first, rest)) = words.split_first() else {
        return None;
    };
    let Some(target) = target_named(first.as_str()) else {
        return None;
    };
    Some((target, rest))
}

/// The longest run of number words at the front of the list, and the words after it.
pub fn numbers(words: &[String]) -> (&[String], &[String])
    ensures parts { map string_bytes words.now
        ≡ map string_bytes result.0.now ++ map string_bytes result.1.now }
    ensures numbers { EachOf IsNumber (map string_bytes result.0.now) }
    ensures rest { BeginsOtherwise IsNumber (map string_bytes result.1.now) }
{
    for (count, word) in words.iter().enumerate() {
        if !is_number(word.as_bytes()) {
            return words.split_at(count);
        }
    }
    words.split_at(words.len())
}

/// Whether the word begins with a digit, as numbers do and `-` does not.
fn begins_with_digit(word: &[u8]) -> bool
    ensures { result ≡ begins_with_digit_of word.now }
{
    let Some((byte, _)) = word.split_first() else {
        return false;
    };
    is_digit_byte(*byte)
}

/// The longest run of words that begin with a digit, at the front of the list, and the words after
/// it.
pub(crate) fn list_first(words: &[String]) -> (&[String], &[String])
    ensures parts { map string_bytes words.now
        ≡ map string_bytes result.0.now ++ map string_bytes result.1.now }
    ensures list { EachOf BeginsWithDigit (map string_bytes result.0.now) }
    ensures rest { BeginsOtherwise BeginsWithDigit (map string_bytes result.1.now) }
{
    for (count, word) in words.iter().enumerate() {
        if !begins_with_digit(word.as_bytes()) {
            return words.split_at(count);
        }
    }
    words.split_at(words.len())
}
