//! Reading of the words of `mult`, `skew`, `coef` and `coprod`.
ghost use Rattle.std.specs.Prelude.{[], ◌∷◌, map, string_bytes};
ghost use Rattle.sym_model.specs.Grammar.{mult_entry, skew_entry, coef_entry, coprod_entry};
ghost use Rattle.calc_words.specs.Reading.{IsRead};

use crate::command::Command;
use crate::command_words::CommandWords;
use crate::word_parts::Part;
use calc_base::WordsFault;
use std::alloc::Global;

/// Reads the words of `mult`: that word, optionally `-r` and a bound on the number of rows,
/// optionally `-m` for an answer on one line, and two to eight partitions with `-` between them.
///
/// Words that do not have this form are refused as `Syntax`, at the place of the first error of
/// syntax. Otherwise the first error is refused: a number over 2^127 - 1 as `Literal`; a number of
/// rows that is not from 1 to 64, the 65th number of a partition, the one at which its sum exceeds
/// 512, and the `-` before a ninth partition, as `Range`; a number of a partition greater than the
/// one before it as `Shape`.
pub fn read_mult(alloc: Global, words: &[String]) -> Result<Command, WordsFault>
    ensures { IsRead (mult_entry ∷ []) (map string_bytes words.now) result }
{
    let parts = &[Part::MaybeRows, Part::MaybeForm, Part::Factors];
    let command = CommandWords("mult", parts, words);
    let places = command.places()?;
    let rows = command.maybe_rows(&places, 0)?;
    let one_line = command.one_line(&places, 1);
    let factors = command.factors(alloc, &places, 2)?;
    Ok(Command::Mult {
        rows,
        one_line,
        factors,
    })
}

/// Reads the words of `skew`: that word, optionally `-r` and a bound on the number of rows,
/// optionally `-m` for an answer on one line, and two partitions with `/` between them.
///
/// Words that do not have this form are refused as `Syntax`, at the place of the first error of
/// syntax. Otherwise the first error is refused: a number over 2^127 - 1 as `Literal`; a number of
/// rows that is not from 1 to 64, the 65th number of a partition, and the one at which its sum
/// exceeds 512, as `Range`; a number of a partition greater than the one before it as `Shape`.
pub fn read_skew(alloc: Global, words: &[String]) -> Result<Command, WordsFault>
    ensures { IsRead (skew_entry ∷ []) (map string_bytes words.now) result }
{
    let parts = &[
        Part::MaybeRows,
        Part::MaybeForm,
        Part::Shape,
        Part::Slash,
        Part::Shape,
    ];
    let command = CommandWords("skew", parts, words);
    let places = command.places()?;
    let rows = command.maybe_rows(&places, 0)?;
    let one_line = command.one_line(&places, 1);
    let outer = command.shape(alloc, &places, 2)?;
    let inner = command.shape(alloc, &places, 4)?;
    Ok(Command::Skew {
        rows,
        one_line,
        outer,
        inner,
    })
}

/// Reads the words of `coef`: that word and three partitions with `-` between them.
///
/// Words that do not have this form are refused as `Syntax`, at the place of the first error of
/// syntax. Otherwise the first error is refused: a number over 2^127 - 1 as `Literal`; the 65th
/// number of a partition, and the one at which its sum exceeds 512, as `Range`; a number of a
/// partition greater than the one before it as `Shape`.
pub fn read_coef(alloc: Global, words: &[String]) -> Result<Command, WordsFault>
    ensures { IsRead (coef_entry ∷ []) (map string_bytes words.now) result }
{
    let parts = &[
        Part::Shape,
        Part::Minus,
        Part::Shape,
        Part::Minus,
        Part::Shape,
    ];
    let command = CommandWords("coef", parts, words);
    let places = command.places()?;
    let outer = command.shape(alloc, &places, 0)?;
    let left = command.shape(alloc, &places, 2)?;
    let right = command.shape(alloc, &places, 4)?;
    Ok(Command::Coef { outer, left, right })
}

/// Reads the words of `coprod`: that word and the numbers of a partition.
///
/// Words that do not have this form are refused as `Syntax`, at the place of the first error of
/// syntax. Otherwise the first error is refused: a number over 2^127 - 1 as `Literal`; the 65th
/// number of a partition, and the one at which its sum exceeds 512, as `Range`; a number of a
/// partition greater than the one before it as `Shape`.
pub fn read_coprod(alloc: Global, words: &[String]) -> Result<Command, WordsFault>
    ensures { IsRead (coprod_entry ∷ []) (map string_bytes words.now) result }
{
    let command = CommandWords("coprod", &[Part::Shape], words);
    let places = command.places()?;
    let shape = command.shape(alloc, &places, 0)?;
    Ok(Command::Coprod { shape })
}
