//! Reading of an inner partition, which must be inside an outer one.
ghost use Rattle.std.specs.Prelude.{◌≡◌, ◌<◌, ◌+◌, ◌++◌, ◌^◌, nat_lt, true, IfOk};
ghost use Rattle.std.specs.Prelude.{map, length, string_bytes};
ghost use Rattle.sym_model.specs.CommandOffence.{first_offence, offences_by, inside_rule};
ghost use Rattle.sym_model.specs.CommandOffence.{part_offences};
ghost use Rattle.sym_model.specs.Partition.{part};
ghost use Rattle.sym_model.specs.Schur.{contains};
ghost use Rattle.sym_model.specs.PrintedBlock.{decimal_value};
ghost use Rattle.sym_model.specs.WordForms.{numbers as numbers_of, partition};
ghost use Rattle.calc_language.specs.FoundOffences.{found_of};
ghost use Rattle.calc_words.specs.Reading.{IsJudged};

use crate::earlier::earlier_refusal;
use crate::row_offences::part_at;
use calc_base::WordsFault;
use calc_words::{Kind, read_partition, refused as offence, value_of};
use partitions::Partition;
use std::alloc::Global;

/// Whether the number `word` is greater than part `place` of `outer`, counted from 0.
fn exceeds(outer: &[u16], place: usize, word: &String) -> bool
    ensures { result ≡ nat_lt (part outer.now (place + 1)) (decimal_value (string_bytes word.now)) }
{
    match value_of(word.as_bytes()) {
        None => true,
        Some(value) => value > part_at(outer, place) as u128,
    }
}

/// The index of the first word whose number is greater than the part of `outer` in the same row, if
/// there is such a word; the first of `words` is word `at`, and has the number for row 1.
fn outside_offence(at: u64, outer: &[u16], words: &[String]) -> Option<u64>
    requires { at + length words.now < 2 ^ 64 }
    ensures { found_of result ≡ first_offence
        (offences_by (inside_rule outer.now) at (numbers_of (map string_bytes words.now))) }
{
    for place in 0..words.len() {
        if exceeds(outer, place, &words[place]) {
            return Some(at + place as u64);
        }
    }
    None
}

/// Reads words as a partition inside `outer`, or returns the first error; the first of the words is
/// word `at` of the command.
pub(crate) fn read_inner(
    alloc: Global,
    at: u64,
    outer: &[u16],
    words: &[String],
) -> Result<Partition, WordsFault>
    requires { at + length words.now < 2 ^ 64 }
    ensures judged { IsJudged (λ p. p ≡ partition (map string_bytes words.now))
        (first_offence (part_offences at (numbers_of (map string_bytes words.now))
        ++ offences_by (inside_rule outer.now) at (numbers_of (map string_bytes words.now))))
        result }
    ensures inside { IfOk result (λ p. contains outer.now p ≡ true) }
{
    let outside = outside_offence(at, outer, words);
    match read_partition(alloc, at, words) {
        Err(fault) => Err(earlier_refusal(fault, outside)),
        Ok(partition) => match outside {
            Some(word) => Err(offence(word, Kind::Shape)),
            None => Ok(partition),
        },
    }
}
