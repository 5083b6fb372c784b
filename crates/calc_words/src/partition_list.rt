//! Reading of the numbers of a partition.
ghost use Rattle.std.specs.Prelude.{◌≡◌, ◌≤◌, ◌<◌, ◌+◌, ◌^◌, map, length, string_bytes, IfOk};
ghost use Rattle.std.specs.Prelude.{IfErr};
ghost use Rattle.sym_model.specs.Partition.{without_last_zeros};
ghost use Rattle.sym_model.specs.CommandOffence.{first_offence, part_offences};
ghost use Rattle.sym_model.specs.WordForms.{numbers as numbers_of, partition};
ghost use Rattle.partitions.specs.Limits.{IsWithinLimits};
ghost use Rattle.calc_words.specs.PartRules.{part_kind};
ghost use Rattle.calc_words.specs.Reading.{IsJudged};

use crate::numbers::value_of;
use crate::offence::{Kind, offence};
use calc_base::WordsFault;
use partitions::Partition;
use std::alloc::Global;

/// At most 64 numbers are allowed in the words of a partition, and at most 512 cells.
const MOST_PARTS: usize = 64;

const MOST_CELLS: u128 = 512;

/// The kind of the error of the number `value` in the list of a partition, or `None` if it has no
/// error. Before it there are `count` numbers with the sum `cells`, the last of which is `last`.
fn part_offence(count: usize, cells: u16, last: Option<u16>, value: u128) -> Option<Kind>
    requires { value < 2 ^ 127 }
    ensures { result ≡ part_kind count cells last value }
{
    if count == MOST_PARTS || u128::from(cells) + value > MOST_CELLS {
        return Some(Kind::Range);
    }
    match last {
        Some(last) if value > u128::from(last) => Some(Kind::Shape),
        _ => None,
    }
}

/// The partition with these numbers, which have been tested, without the zeros at their end.
fn partition_of(alloc: Global, numbers: &[u16]) -> Result<Partition, WordsFault>
    requires { IsWithinLimits (without_last_zeros numbers.now) }
    ensures ok { IfOk result (λ p. p ≡ without_last_zeros numbers.now) }
    ensures err { IfErr result (λ fault. fault ≡ WordsFault.NoMemory) }
{
    Ok(Partition::from_valid_numbers(alloc, numbers)?)
}

/// Reads words as the numbers of a partition, or returns the first error; the first of the words is
/// word `at` of the command.
pub fn read_partition(alloc: Global, at: u64, words: &[String]) -> Result<Partition, WordsFault>
    requires { at + length words.now < 2 ^ 64 }
    ensures { IsJudged (λ p. p ≡ partition (map string_bytes words.now))
        (first_offence (part_offences at (numbers_of (map string_bytes words.now)))) result }
{
    let mut parts: [u16; MOST_PARTS] = [0; MOST_PARTS];
    let mut cells: u16 = 0;
    let mut last: Option<u16> = None;
    for (count, word) in words.iter().enumerate() {
        let place = at + count as u64;
        let Some(value) = value_of(word.as_bytes()) else {
            return Err(offence(place, Kind::Literal));
        };
        if let Some(kind) = part_offence(count, cells, last, value) {
            return Err(offence(place, kind));
        }
        let part = value as u16;
        parts[count] = part;
        cells += part;
        last = Some(part);
    }
    partition_of(alloc, &parts[..words.len()])
}
