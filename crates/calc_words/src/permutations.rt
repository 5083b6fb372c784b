//! Reading of the words of the commands on permutations and words of letters: `schubert`, `growth`,
//! `schubmult`, `dschubmult`, `stanley` and `rsk`.
ghost use Rattle.std.specs.Prelude.{[], ◌∷◌, map, string_bytes};
ghost use Rattle.sym_model.specs.Grammar.{schubert_entry, growth_entry, schubmult_entry};
ghost use Rattle.sym_model.specs.Grammar.{dschubmult_entry, stanley_entry, rsk_entry};
ghost use Rattle.calc_words.specs.Reading.{IsRead};

use crate::command::Command;
use crate::command_words::CommandWords;
use crate::word_parts::Part;
use calc_base::WordsFault;
use std::alloc::Global;

/// Reads the words of `schubert`: that word and the letters of a permutation.
///
/// Words that do not have this form are refused as `Syntax`, at the place of the first error of
/// syntax. Otherwise the first error is refused: a letter over 2^127 - 1 as `Literal`; a letter
/// over 16, and the 17th letter, as `Range`; a letter that is 0, greater than the number of
/// letters, or equal to an earlier letter, as `Shape`.
pub fn read_schubert(alloc: Global, words: &[String]) -> Result<Command, WordsFault>
    ensures { IsRead (schubert_entry ∷ []) (map string_bytes words.now) result }
{
    let command = CommandWords("schubert", &[Part::Letters], words);
    let places = command.places()?;
    let perm = command.letters(alloc, &places, 0)?;
    Ok(Command::Schubert { perm })
}

/// Reads the words of `growth`: that word and the letters of a permutation.
///
/// Words that do not have this form are refused as `Syntax`, at the place of the first error of
/// syntax. Otherwise the first error is refused: a letter over 2^127 - 1 as `Literal`; a letter
/// over 16, and the 17th letter, as `Range`; a letter that is 0, greater than the number of
/// letters, or equal to an earlier letter, as `Shape`.
pub fn read_growth(alloc: Global, words: &[String]) -> Result<Command, WordsFault>
    ensures { IsRead (growth_entry ∷ []) (map string_bytes words.now) result }
{
    let command = CommandWords("growth", &[Part::Letters], words);
    let places = command.places()?;
    let perm = command.letters(alloc, &places, 0)?;
    Ok(Command::Growth { perm })
}

/// Reads the words of `schubmult`: that word and two permutations with `-` between them.
///
/// Words that do not have this form are refused as `Syntax`, at the place of the first error of
/// syntax. Otherwise the first error is refused: a letter over 2^127 - 1 as `Literal`; a letter
/// over 16, and the 17th letter of a permutation, as `Range`; a letter that is 0, greater than the
/// number of letters of its permutation, or equal to an earlier letter of this permutation, as
/// `Shape`.
pub fn read_schubmult(alloc: Global, words: &[String]) -> Result<Command, WordsFault>
    ensures { IsRead (schubmult_entry ∷ []) (map string_bytes words.now) result }
{
    let parts = &[Part::Letters, Part::Minus, Part::Letters];
    let command = CommandWords("schubmult", parts, words);
    let places = command.places()?;
    let left = command.letters(alloc, &places, 0)?;
    let right = command.letters(alloc, &places, 2)?;
    Ok(Command::Schubmult { left, right })
}

/// Reads the words of `dschubmult`: that word and two permutations with `-` between them.
///
/// Words that do not have this form are refused as `Syntax`, at the place of the first error of
/// syntax. Otherwise the first error is refused: a letter over 2^127 - 1 as `Literal`; a letter
/// over 8, and the ninth letter of a permutation, as `Range`; a letter that is 0, greater than the
/// number of letters of its permutation, or equal to an earlier letter of this permutation, as
/// `Shape`.
pub fn read_dschubmult(alloc: Global, words: &[String]) -> Result<Command, WordsFault>
    ensures { IsRead (dschubmult_entry ∷ []) (map string_bytes words.now) result }
{
    let parts = &[Part::Doubled, Part::Minus, Part::Doubled];
    let command = CommandWords("dschubmult", parts, words);
    let places = command.places()?;
    let left = command.doubled(alloc, &places, 0)?;
    let right = command.doubled(alloc, &places, 2)?;
    Ok(Command::Dschubmult { left, right })
}

/// Reads the words of `stanley`: that word, `-r` and a number of variables, and the letters of a
/// permutation.
///
/// Words that do not have this form are refused as `Syntax`, at the place of the first error of
/// syntax. Otherwise the first error is refused: a number over 2^127 - 1 as `Literal`; a number of
/// variables that is not from 1 to 64, a letter over 16, and the 17th letter, as `Range`; a letter
/// that is 0, greater than the number of letters, or equal to an earlier one, as `Shape`.
pub fn read_stanley(alloc: Global, words: &[String]) -> Result<Command, WordsFault>
    ensures { IsRead (stanley_entry ∷ []) (map string_bytes words.now) result }
{
    let command = CommandWords("stanley", &[Part::Rows, Part::Letters], words);
    let places = command.places()?;
    let rows = command.rows(&places, 0)?;
    let perm = command.letters(alloc, &places, 1)?;
    Ok(Command::Stanley { rows, perm })
}

/// Reads the words of `rsk`: that word and the letters of a word.
///
/// Words that do not have this form are refused as `Syntax`, at the place of the first error of
/// syntax. Otherwise the first error is refused: a letter over 2^127 - 1 as `Literal`; one that is
/// 0 or over 65,535, and the 257th, as `Range`.
pub fn read_rsk(alloc: Global, words: &[String]) -> Result<Command, WordsFault>
    ensures { IsRead (rsk_entry ∷ []) (map string_bytes words.now) result }
{
    let command = CommandWords("rsk", &[Part::Word], words);
    let places = command.places()?;
    let letters = command.word(alloc, &places, 0)?;
    Ok(Command::Rsk { letters })
}
