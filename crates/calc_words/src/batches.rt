//! Reading of the words of the commands `batch` and `work`.
ghost use Rattle.std.specs.Prelude.{[], ◌∷◌, map, string_bytes};
ghost use Rattle.sym_model.specs.Grammar.{batch_entry, work_entry};
ghost use Rattle.calc_words.specs.Reading.{IsRead};

use crate::command::Command;
use crate::command_words::CommandWords;
use crate::word_parts::Part;
use calc_base::WordsFault;

/// Reads the words of the command `batch`: only the word `batch`. Other words are refused as
/// `Syntax`, at the place of the first error of syntax.
pub fn read_batch(words: &[String]) -> Result<Command, WordsFault>
    ensures { IsRead (batch_entry ∷ []) (map string_bytes words.now) result }
{
    CommandWords("batch", &[], words).places()?;
    Ok(Command::Batch)
}

/// Reads the words of `work`: that word, a number of lines and a seed.
///
/// Words that do not have this form are refused as `Syntax`, at the place of the first error of
/// syntax. Otherwise the first error is refused: a number over 2^127 - 1 as `Literal`; a number of
/// lines that is not from 1 to 10,000, and a seed over 65,536, as `Range`.
pub fn read_work(words: &[String]) -> Result<Command, WordsFault>
    ensures { IsRead (work_entry ∷ []) (map string_bytes words.now) result }
{
    let command = CommandWords("work", &[Part::Lines, Part::Seed], words);
    let places = command.places()?;
    let lines = command.lines(&places, 0)?;
    let seed = command.seed(&places, 1)?;
    Ok(Command::Work { lines, seed })
}
