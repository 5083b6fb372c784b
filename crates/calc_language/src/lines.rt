//! Reading of a line of a batch.
ghost use Rattle.std.specs.Prelude.{◌≡◌, ℕ, List, Some, IfOk, map, string_bytes};
ghost use Rattle.sym_model.specs.BatchLine.{batch_line, too_long, too_long_offence, passed_over};
ghost use Rattle.sym_model.specs.BatchLine.{spoken};
ghost use Rattle.sym_model.specs.Command.{Command as PlainCommand};
ghost use Rattle.sym_model.specs.CommandOffence.{Offence};
ghost use Rattle.sym_model.specs.Entry.{SpellsWithoutOffence, HasFirstOffence};
ghost use Rattle.sym_model.specs.SyntaxPlace.{IsSyntaxPlace};
ghost use Rattle.calc_words.specs.Reading.{IsRead as IsReadBy, Refuses, GoesWrong};
ghost use Rattle.sym_model.specs.Grammar.{line_entries};
ghost use Rattle.calc_language.specs.Lines.{IsLineRead, KeepsItsLimits, IsPassedOver};
ghost use Rattle.calc_language.specs.Lines.{AcceptsInLine};

use crate::Command;
use crate::by_name::by_name;
use calc_base::{Place, WordsFault};
use calc_words::{are_passed_over, line_words, syntax, without_return};
use std::alloc::Global;

/// The greatest number of bytes of a line before its line feed.
const MOST_BYTES: usize = 4096;

/// Reads a line of a batch without its line feed: its command, or `None` if it has no word or its
/// first word begins with `#`.
///
/// One carriage return at its end is dropped, and words are separated by spaces and tabs. A line of
/// more than 4,096 bytes, with that carriage return, is refused as `Range` at byte 4,096 of word 0.
/// The words of any other line are read as by `read_words`, except that `batch` and `work` are no
/// commands of a line.
pub fn read_line(alloc: Global, line: &[u8]) -> Result<Option<Command>, WordsFault>
    ensures read { IsLineRead (batch_line line.now) result }
    ensures within { IfOk result KeepsItsLimits }
    ensures long { batch_line line.now ≡ too_long → Refuses too_long_offence result }
    ensures passed_over { batch_line line.now ≡ passed_over → IsPassedOver result }
    ensures accepts { (words : List (List ℕ)) (command : PlainCommand)
        → batch_line line.now ≡ spoken words
        → SpellsWithoutOffence line_entries words command → AcceptsInLine command result }
    ensures refuses { (words : List (List ℕ)) (offence : Offence)
        → batch_line line.now ≡ spoken words
        → HasFirstOffence line_entries words (Some offence) → Refuses offence result }
    ensures goes_wrong { (words : List (List ℕ)) (word byte : ℕ)
        → batch_line line.now ≡ spoken words
        → IsSyntaxPlace line_entries words word byte → GoesWrong word byte result }
{
    let mut words: Vec<String> = Vec::new(alloc);
    read(alloc, &mut words, line)
}

/// Reads a line of a batch, as `read_line`, whose contract also states the consequences for each
/// kind of line. The words of the line are put into the buffer `words`, whose contents before do not
/// matter, so that their memory can be used again for the next line.
pub fn read_line_by(
    alloc: Global,
    words: &mut Vec<String>,
    line: &[u8],
) -> Result<Option<Command>, WordsFault>
    ensures read { IsLineRead (batch_line line.now) result }
    ensures within { IfOk result KeepsItsLimits }
{
    read(alloc, words, line)
}

/// Reads a line of a batch, as `read_line_by`.
fn read(alloc: Global, words: &mut Vec<String>, line: &[u8]) -> Result<Option<Command>, WordsFault>
    ensures { IsLineRead (batch_line line.now) result }
{
    if line.len() > MOST_BYTES {
        return Err(WordsFault::Range {
            at: Place {
                word: 0,
                byte: MOST_BYTES as u64,
            },
        });
    }
    line_words(alloc, words, without_return(line))?;
    if are_passed_over(words.as_slice()) {
        return Ok(None);
    }
    let command = read_in_line(alloc, words.as_slice())?;
    Ok(Some(command))
}

/// Reads the words as a command of a line: any command but `batch` and `work`.
fn read_in_line(alloc: Global, words: &[String]) -> Result<Command, WordsFault>
    ensures { IsReadBy line_entries (map string_bytes words.now) result }
{
    let Some((first, _)) = words.split_first() else {
        return Err(syntax(0, 0));
    };
    match first.as_str() {
        "batch" | "work" => Err(syntax(0, 0)),
        name => by_name(alloc, name, words),
    }
}
