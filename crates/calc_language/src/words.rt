//! Reading of the words of a command.
ghost use Rattle.std.specs.Prelude.{◌≡◌, ℕ, IfOk, map, string_bytes};
ghost use Rattle.sym_model.specs.Command.{Command as PlainCommand};
ghost use Rattle.sym_model.specs.CommandOffence.{Offence};
ghost use Rattle.sym_model.specs.Entry.{SpellsWithoutOffence, HasFirstOffence};
ghost use Rattle.sym_model.specs.SyntaxPlace.{IsSyntaxPlace};
ghost use Rattle.sym_model.specs.Grammar.{all_entries};
ghost use Rattle.calc_language.specs.Reading.{IsWithinItsLimits, IsRead, Accepts, Refuses};
ghost use Rattle.calc_language.specs.Reading.{GoesWrong};

use crate::Command;
use crate::by_name::by_name;
use calc_base::WordsFault;
use calc_words::syntax;
use std::alloc::Global;

/// Reads the words of a command: its name, followed by words of the form that the grammar has for
/// this name (`sym_model/specs/Grammar.antt`).
///
/// Words that spell no command are refused as `Syntax`, at the place of the first error of syntax;
/// in a word at which an expression is expected, this is the byte after the longest prefix of the
/// word that begins an expression. Otherwise the first error is refused, as the reader of the
/// command (in `calc_words` or here) or of the expression (`expression_reading::{read_expression,
/// read_outer, read_inner}`) says. Two expressions of a `plethysm` whose degrees have a product
/// over 10 are refused as `Range` at the end of the second.
pub fn read_words(alloc: Global, words: &[String]) -> Result<Command, WordsFault>
    ensures read { IsRead (map string_bytes words.now) result }
    ensures within { IfOk result IsWithinItsLimits }
    ensures accepts { (command : PlainCommand)
        → SpellsWithoutOffence all_entries (map string_bytes words.now) command
        → Accepts command result }
    ensures refuses { (offence : Offence)
        → HasFirstOffence all_entries (map string_bytes words.now) (Some offence)
        → Refuses offence result }
    ensures goes_wrong { (word byte : ℕ)
        → IsSyntaxPlace all_entries (map string_bytes words.now) word byte
        → GoesWrong word byte result }
{
    read(alloc, words)
}

/// Reads the words of a command. `read_words` calls this function; the contract of `read_words`
/// also states the consequences for each command and error.
fn read(alloc: Global, words: &[String]) -> Result<Command, WordsFault>
    ensures { IsRead (map string_bytes words.now) result }
{
    let Some((first, _)) = words.split_first() else {
        return Err(syntax(0, 0));
    };
    by_name(alloc, first.as_str(), words)
}
