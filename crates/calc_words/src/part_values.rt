//! The values that the words of each part of a command denote, or their first error. A number word
//! is a word of decimal digits.
ghost use Rattle.std.specs.Prelude.{◌≡◌, ◌≤◌, ◌<◌, ◌+◌, ◌^◌, [], ◌∷◌, ℕ, List, map, length};
ghost use Rattle.std.specs.Prelude.{string_bytes, codes, slice_get, Some};
ghost use Rattle.sym_model.specs.CommandOffence.{first_offence, offences_by, rows_rule};
ghost use Rattle.sym_model.specs.CommandOffence.{is_outside as is_outside_of, most_rows};
ghost use Rattle.sym_model.specs.Form.{Written, May, word, number, target, words_of};
ghost use Rattle.sym_model.specs.Grammar.{all_bases};
ghost use Rattle.expression_reading.specs.Trees.{basis_of};
ghost use Rattle.sym_model.specs.Permutation.{kept};
ghost use Rattle.sym_model.specs.PrintedBlock.{decimal_value};
ghost use Rattle.sym_model.specs.WordForms.{optional, rows_words, form_words, partition_words};
ghost use Rattle.sym_model.specs.WordForms.{permutation_words, factors_words, partition};
ghost use Rattle.sym_model.specs.WordForms.{letters as letters_said, numbers as numbers_said};
ghost use Rattle.sym_model.specs.WordForms.{factors as factors_said, row_limit, is_one_line};
ghost use Rattle.calc_words.specs.NumberRuns.{narrow};
ghost use Rattle.calc_words.specs.Parts.{part_offends};
ghost use Rattle.calc_words.specs.Reading.{IsJudged};
ghost use Rattle.calc_words.specs.declared.word_parts.Part.TheVariants.{Rows, MaybeRows, Bound};
ghost use Rattle.calc_words.specs.declared.word_parts.Part.TheVariants.{Lines, Seed, Shape};
ghost use Rattle.calc_words.specs.declared.word_parts.Part.TheVariants.{Word as WordPart, Letters};
ghost use Rattle.calc_words.specs.declared.word_parts.Part.TheVariants.{Doubled};
ghost use Rattle.calc_words.specs.declared.word_parts.Part.TheVariants.{Factors as FactorsPart};

use crate::factors::read_factors;
use crate::letters::read_letters;
use crate::numbers::value_of;
use crate::offence::{Kind, offence, syntax};
use crate::partition_list::read_partition;
use crate::permutation_list::{MOST_DOUBLED, MOST_PERMUTED, read_permutation};
use crate::splitting::{first_target, list_first};
use calc_base::{Basis, Word, WordsFault};
use partitions::{Factors, Partition};
use perm_codes::Perm;
use std::alloc::Global;

/// The greatest number of rows or columns, and the greatest level.
const MOST_ROWS: u128 = 64;

/// The greatest number of lines that the command `work` accepts.
const MOST_LINES: u128 = 10_000;

/// The greatest seed that the command `work` accepts.
const GREATEST_SEED: u128 = 65_536;

/// Whether the words are the option `-m`; they must be this option or no word.
pub fn maybe_form_of(words: &[String]) -> bool
    ensures { (x : Written (optional form_words))
        → map string_bytes words.now ≡ words_of (optional form_words) x → result ≡ is_one_line x }
{
    !words.is_empty()
}

/// The target basis whose letter is the first word.
pub fn target_of(words: &[String]) -> Basis
    ensures { (x : Written (word (target all_bases)))
        → map string_bytes words.now ≡ words_of (word (target all_bases)) x
        → basis_of result ≡ x }
{
    match first_target(words) {
        Some((target, _)) => target,
        None => Basis::M,
    }
}

/// The text of an expression, which is the first word.
pub fn text_of(words: &[String]) -> &[u8]
    ensures { (text : List ℕ) → map string_bytes words.now ≡ text ∷ [] → result.now ≡ text }
{
    match words.split_first() {
        Some((word, _)) => word.as_bytes(),
        None => &[],
    }
}

/// The value of the number word at this place, or `None` if it exceeds 2^127 - 1 or there is no
/// such word.
fn number_at(words: &[String], place: usize) -> Option<u128>
    ensures { (w : List ℕ) → slice_get (map string_bytes words.now) place ≡ Some w
        → result ≡ narrow (decimal_value w) }
{
    value_of(words.get(place)?.as_bytes())
}

/// Whether a number of rows or columns, or a level, is not from 1 to 64.
fn is_outside(value: u128) -> bool
    ensures { result ≡ is_outside_of most_rows value }
{
    value == 0 || value > MOST_ROWS
}

/// Tests a number of rows or columns, or a level, which is word `word` of the command: returns the
/// number if it is from 1 to 64, and otherwise its error. `number` is `None` for a number over
/// 2^127 - 1.
fn rows_number(word: u64, number: Option<u128>) -> Result<u16, WordsFault>
    ensures { (a : ℕ) → number ≡ narrow a
        → IsJudged (λ n. n ≡ a) (first_offence (offences_by rows_rule word (a ∷ []))) result }
{
    let Some(value) = number else {
        return Err(offence(word, Kind::Literal));
    };
    if is_outside(value) {
        return Err(offence(word, Kind::Range));
    }
    Ok(value as u16)
}

/// Reads the words `-r` and a number of rows; `-r` is word `at` of the command.
pub(crate) fn rows_of(at: u64, words: &[String]) -> Result<u16, WordsFault>
    requires { at + length words.now + 1 < 2 ^ 64 }
    ensures { (k : ℕ) (x : Written rows_words)
        → (at ≡ k) × (map string_bytes words.now ≡ words_of rows_words x)
        → IsJudged (λ n. n ≡ decimal_value x.1) (first_offence (part_offends Rows k x)) result }
{
    rows_number(at + 1, number_at(words, 1))
}

/// Reads the words `-r` and a number of rows, or no word; `-r` is word `at` of the command.
pub(crate) fn maybe_rows_of(at: u64, words: &[String]) -> Result<Option<u16>, WordsFault>
    requires { at + length words.now + 1 < 2 ^ 64 }
    ensures { (k : ℕ) (x : Written (optional rows_words))
        → (at ≡ k) × (map string_bytes words.now ≡ words_of (optional rows_words) x)
        → IsJudged (λ n. n ≡ row_limit x) (first_offence (part_offends MaybeRows k x)) result }
{
    let Some(digits) = words.get(1) else {
        return Ok(None);
    };
    let rows = rows_number(at + 1, value_of(digits.as_bytes()))?;
    Ok(Some(rows))
}

/// Reads word `at` of the command as a number of rows or columns, or a level, from 1 to 64.
pub(crate) fn bound_of(at: u64, words: &[String]) -> Result<u16, WordsFault>
    ensures { (k : ℕ) (x : Written (word number))
        → (at ≡ k) × (map string_bytes words.now ≡ words_of (word number) x)
        → IsJudged (λ n. n ≡ decimal_value x) (first_offence (part_offends Bound k x)) result }
{
    rows_number(at, number_at(words, 0))
}

/// Reads word `at` of the command as the number of lines of `work`, from 1 to 10,000.
pub(crate) fn lines_of(at: u64, words: &[String]) -> Result<u16, WordsFault>
    ensures { (k : ℕ) (x : Written (word number))
        → (at ≡ k) × (map string_bytes words.now ≡ words_of (word number) x)
        → IsJudged (λ n. n ≡ decimal_value x) (first_offence (part_offends Lines k x)) result }
{
    let Some(value) = number_at(words, 0) else {
        return Err(offence(at, Kind::Literal));
    };
    if value == 0 || value > MOST_LINES {
        return Err(offence(at, Kind::Range));
    }
    Ok(value as u16)
}

/// Reads word `at` of the command as the seed of `work`, at most 65,536.
pub(crate) fn seed_of(at: u64, words: &[String]) -> Result<u32, WordsFault>
    ensures { (k : ℕ) (x : Written (word number))
        → (at ≡ k) × (map string_bytes words.now ≡ words_of (word number) x)
        → IsJudged (λ n. n ≡ decimal_value x) (first_offence (part_offends Seed k x)) result }
{
    let Some(value) = number_at(words, 0) else {
        return Err(offence(at, Kind::Literal));
    };
    if value > GREATEST_SEED {
        return Err(offence(at, Kind::Range));
    }
    Ok(value as u32)
}

/// Reads words as a partition; the first of them is word `at` of the command.
pub(crate) fn shape_of(alloc: Global, at: u64, words: &[String]) -> Result<Partition, WordsFault>
    requires { at + length words.now + 1 < 2 ^ 64 }
    ensures { (k : ℕ) (x : Written partition_words)
        → (at ≡ k) × (map string_bytes words.now ≡ words_of partition_words x)
        → IsJudged (λ p. p ≡ partition x) (first_offence (part_offends Shape k x)) result }
{
    read_partition(alloc, at, words)
}

/// Reads words as the letters of the word of `rsk`, one letter from each of them; the first of
/// these words is word `at` of the command.
pub(crate) fn word_of(alloc: Global, at: u64, words: &[String]) -> Result<Word, WordsFault>
    requires { at + length words.now + 1 < 2 ^ 64 }
    ensures { (k : ℕ) (x : Written partition_words)
        → (at ≡ k) × (map string_bytes words.now ≡ words_of partition_words x)
        → IsJudged (λ w. w ≡ numbers_said x) (first_offence (part_offends WordPart k x)) result }
{
    read_letters(alloc, at, words)
}

/// Reads words as a permutation of at most 16 letters; the first of them is word `at` of the
/// command.
pub(crate) fn letters_of(alloc: Global, at: u64, words: &[String]) -> Result<Perm, WordsFault>
    requires { at + length words.now + 1 < 2 ^ 64 }
    ensures { (k : ℕ) (x : Written permutation_words)
        → (at ≡ k) × (map string_bytes words.now ≡ words_of permutation_words x)
        → IsJudged (λ w. w ≡ kept (letters_said x))
        (first_offence (part_offends Letters k x)) result }
{
    if words.is_empty() {
        return Err(syntax(at, 0));
    }
    read_permutation(alloc, MOST_PERMUTED, at, words)
}

/// Reads words as a permutation of at most 8 letters; the first of them is word `at` of the
/// command.
pub(crate) fn doubled_of(alloc: Global, at: u64, words: &[String]) -> Result<Perm, WordsFault>
    requires { at + length words.now + 1 < 2 ^ 64 }
    ensures { (k : ℕ) (x : Written permutation_words)
        → (at ≡ k) × (map string_bytes words.now ≡ words_of permutation_words x)
        → IsJudged (λ w. w ≡ kept (letters_said x))
        (first_offence (part_offends Doubled k x)) result }
{
    if words.is_empty() {
        return Err(syntax(at, 0));
    }
    read_permutation(alloc, MOST_DOUBLED, at, words)
}

/// The words after the first word, or no word if there is no first word.
fn behind_first(words: &[String]) -> &[String]
    ensures later { (more : List (List ℕ)) → map string_bytes words.now ≡ codes "-" ∷ more
        → map string_bytes result.now ≡ more }
    ensures fewer { length result.now ≤ length words.now }
{
    match words.split_first() {
        Some((_, later)) => later,
        None => words,
    }
}

/// Reads words as factors with `-` between them; the first of the words is word `at` of the
/// command.
pub(crate) fn factors_of(alloc: Global, at: u64, words: &[String]) -> Result<Factors, WordsFault>
    requires { at + length words.now + 1 < 2 ^ 64 }
    ensures { (k : ℕ) (x : Written factors_words) → May factors_words x
        → (at ≡ k) × (map string_bytes words.now ≡ words_of factors_words x)
        → IsJudged (λ f. f ≡ factors_said x) (first_offence (part_offends FactorsPart k x)) result }
{
    let (first, rest) = list_first(words);
    read_factors(alloc, at, first, behind_first(rest))
}
