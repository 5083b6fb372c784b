//! Reading of the words of `quantum` and `fusion`.
ghost use Rattle.std.specs.Prelude.{[], ◌∷◌, map, string_bytes};
ghost use Rattle.sym_model.specs.Grammar.{quantum_entry, fusion_entry};
ghost use Rattle.calc_words.specs.Reading.{IsRead};

use crate::command::Command;
use crate::command_words::CommandWords;
use crate::word_parts::Part;
use calc_base::WordsFault;
use std::alloc::Global;

/// Reads the words of `quantum`: that word, a number of rows, a number of columns, and two to eight
/// partitions with `-` between them.
///
/// Words that do not have this form are refused as `Syntax`, at the place of the first error of
/// syntax. Otherwise the first error is refused: a number over 2^127 - 1 as `Literal`; a number of
/// rows or columns that is not from 1 to 64, the 65th number of a partition, the one at which its
/// sum exceeds 512, and the `-` before a ninth partition, as `Range`; a number of a partition
/// greater than the one before it as `Shape`.
pub fn read_quantum(alloc: Global, words: &[String]) -> Result<Command, WordsFault>
    ensures { IsRead (quantum_entry ∷ []) (map string_bytes words.now) result }
{
    let command = CommandWords("quantum", &[Part::Bound, Part::Bound, Part::Factors], words);
    let places = command.places()?;
    let rows = command.bound(&places, 0)?;
    let cols = command.bound(&places, 1)?;
    let factors = command.factors(alloc, &places, 2)?;
    Ok(Command::Quantum {
        rows,
        cols,
        factors,
    })
}

/// Reads the words of `fusion`: that word, a number of rows, a level, and two to eight partitions
/// with `-` between them.
///
/// Words that do not have this form are refused as `Syntax`, at the place of the first error of
/// syntax. Otherwise the first error is refused: a number over 2^127 - 1 as `Literal`; a number of
/// rows or a level that is not from 1 to 64, the 65th number of a partition, the one at which its
/// sum exceeds 512, and the `-` before a ninth partition, as `Range`; a number of a partition
/// greater than the one before it as `Shape`.
pub fn read_fusion(alloc: Global, words: &[String]) -> Result<Command, WordsFault>
    ensures { IsRead (fusion_entry ∷ []) (map string_bytes words.now) result }
{
    let command = CommandWords("fusion", &[Part::Bound, Part::Bound, Part::Factors], words);
    let places = command.places()?;
    let rows = command.bound(&places, 0)?;
    let level = command.bound(&places, 1)?;
    let factors = command.factors(alloc, &places, 2)?;
    Ok(Command::Fusion {
        rows,
        level,
        factors,
    })
}
