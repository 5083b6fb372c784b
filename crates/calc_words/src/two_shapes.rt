//! Reading of two partitions with one word between them.
ghost use Rattle.std.specs.Prelude.{◌≡◌, ◌<◌, ◌+◌, ◌^◌, length, map, string_bytes};
ghost use Rattle.sym_model.specs.CommandOffence.{first_offence};
ghost use Rattle.sym_model.specs.Grammar.{two_partitions};
ghost use Rattle.sym_model.specs.WordForms.{partition};
ghost use Rattle.calc_words.specs.Reading.{IsJudged};

use crate::partition_list::read_partition;
use calc_base::WordsFault;
use partitions::Partition;
use std::alloc::Global;

/// Reads two partitions with one word between them, or returns the first error; the first partition
/// begins at word `at` of the command.
pub fn read_two(
    alloc: Global,
    at: u64,
    first: &[String],
    second: &[String],
) -> Result<(Partition, Partition), WordsFault>
    requires { at + length first.now + 1 + length second.now < 2 ^ 64 }
    ensures { IsJudged (λ p. p ≡ (
      partition (map string_bytes first.now),
      partition (map string_bytes second.now),
    ))
        (first_offence (two_partitions at (map string_bytes first.now)
        (map string_bytes second.now))) result }
{
    let behind = at + first.len() as u64 + 1;
    let first = read_partition(alloc, at, first)?;
    let second = read_partition(alloc, behind, second)?;
    Ok((first, second))
}
