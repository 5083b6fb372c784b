//! Reading of the factors of a product.
ghost use Rattle.std.specs.Prelude.{◌≡◌, ◌<◌, ◌+◌, ◌^◌, ℕ, List, [], ◌∷◌, ◌++◌, length, map};
ghost use Rattle.std.specs.Prelude.{string_bytes};
ghost use Rattle.sym_model.specs.CommandOffence.{first_offence, part_offences, factor_offences};
ghost use Rattle.sym_model.specs.Form.{EachOf};
ghost use Rattle.sym_model.specs.WordForms.{numbers as numbers_of, partition};
ghost use Rattle.calc_words.specs.NumberRuns.{IsNumber};
ghost use Rattle.calc_words.specs.Reading.{IsJudged};
ghost use Rattle.calc_words.specs.WrittenLimits.{IsWritten};
ghost use Rattle.calc_words.specs.FactorWords.{next_text};
ghost use Rattle.calc_words.specs.ReadProducts.{ninth_offences};

use crate::partition_list::read_partition;
use crate::splitting::{behind, list_first};
use crate::two_shapes::read_two;
use calc_base::{Place, WordsFault};
use partitions::{Factors, FactorsFault, Partition};
use std::alloc::Global;

/// The greatest number of factors of a product.
const MOST_FACTORS: usize = 8;

/// Appends the factor `next` to a list of at most seven factors.
fn pushed(factors: Factors, next: Partition) -> Result<Factors, WordsFault>
    requires room { length factors < 8 }
    requires written { EachOf IsWritten factors }
    requires next { IsWritten next }
    ensures { IsJudged (λ f. f ≡ factors ++ next ∷ []) None result }
{
    let mut factors = factors;
    match factors.push(next) {
        Ok(()) => Ok(factors),
        Err(FactorsFault::NoMemory) => Err(WordsFault::NoMemory),
        Err(FactorsFault::TooMany) => unreachable!(),
        Err(FactorsFault::TooBig) => unreachable!(),
    }
}

/// Appends to the factors the partition with the numbers `list`, which follow word `at` of the
/// command, or returns its first error. If there are eight factors already, the error is at word
/// `at`.
fn next_factor(
    alloc: Global,
    at: u64,
    factors: Factors,
    list: &[String],
) -> Result<Factors, WordsFault>
    requires place { at + 1 + length list.now < 2 ^ 64 }
    requires written { EachOf IsWritten factors }
    ensures { IsJudged (λ f. f ≡ factors ++ partition (map string_bytes list.now) ∷ [])
        (first_offence (ninth_offences (length factors) at
        ++ part_offences (at + 1) (numbers_of (map string_bytes list.now)))) result }
{
    if factors.len() == MOST_FACTORS {
        return Err(WordsFault::Range {
            at: Place { word: at, byte: 0 },
        });
    }
    let next = read_partition(alloc, at + 1, list)?;
    pushed(factors, next)
}

/// Appends the partitions of further lists of numbers, each after a `-`, to the factors, or returns
/// the first error; the first `-` is word `at` of the command.
fn read_later(
    alloc: Global,
    at: u64,
    factors: Factors,
    words: &[String],
) -> Result<Factors, WordsFault>
    requires place { at + length words.now < 2 ^ 64 }
    requires written { EachOf IsWritten factors }
    ensures { (others : List (List (List ℕ))) → map string_bytes words.now ≡ next_text others
        → EachOf (EachOf IsNumber) others
        → IsJudged (λ f. f ≡ factors ++ map partition others)
        (first_offence (factor_offences (length factors) (at + 1) (map numbers_of others))) result }
{
    let Some(later) = behind(words, "-") else {
        return Ok(factors);
    };
    let (list, rest) = list_first(later);
    let after = at + 1 + list.len() as u64;
    let factors = next_factor(alloc, at, factors, list)?;
    read_later(alloc, after, factors, rest)
}

/// The list of the two factors `left` and `right`.
fn paired(alloc: Global, left: Partition, right: Partition) -> Result<Factors, WordsFault>
    requires left { IsWritten left }
    requires right { IsWritten right }
    ensures { IsJudged (λ f. f ≡ left ∷ right ∷ []) None result }
{
    match Factors::pair(alloc, left, right) {
        Ok(factors) => Ok(factors),
        Err(FactorsFault::NoMemory) => Err(WordsFault::NoMemory),
        Err(FactorsFault::TooMany) => unreachable!(),
        Err(FactorsFault::TooBig) => unreachable!(),
    }
}

/// Reads the first factor, whose numbers `first` begin at word `at` of the command, and the later
/// ones, which are separated by `-`; or returns the first error.
pub(crate) fn read_factors(
    alloc: Global,
    at: u64,
    first: &[String],
    later: &[String],
) -> Result<Factors, WordsFault>
    requires { at + length first.now + 1 + length later.now < 2 ^ 64 }
    ensures { (second : List (List ℕ)) (others : List (List (List ℕ)))
        → map string_bytes later.now ≡ second ++ next_text others
        → EachOf IsNumber second → EachOf (EachOf IsNumber) others
        → IsJudged (λ f. f ≡ partition (map string_bytes first.now) ∷ partition second
        ∷ map partition others)
        (first_offence (factor_offences
        0 at (numbers_of (map string_bytes first.now) ∷ numbers_of second ∷ map numbers_of others)))
        result }
{
    let (second, rest) = list_first(later);
    let after = at + first.len() as u64 + 1 + second.len() as u64;
    let (first, second) = read_two(alloc, at, first, second)?;
    let factors = paired(alloc, first, second)?;
    read_later(alloc, after, factors, rest)
}
