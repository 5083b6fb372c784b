//! Reading of the words of `expand`.
ghost use Rattle.std.specs.Prelude.{[], ◌∷◌, map, string_bytes};
ghost use Rattle.sym_model.specs.Grammar.{expand_entry};
ghost use Rattle.calc_words.specs.Reading.{IsRead as IsReadBy};

use crate::Command;
use crate::refusal::placed;
use calc_base::WordsFault;
use calc_words::{Part, cut_unread, maybe_form_of, piece_at, target_of, text_of};
use expression_reading::read_expression;
use std::alloc::Global;

/// Reads the words of `expand`: that word, optionally `-m` for an answer on one line, the letter of
/// a target basis, and an expression.
pub(crate) fn read_expand(alloc: Global, words: &[String]) -> Result<Command, WordsFault>
    ensures { IsReadBy (expand_entry ∷ []) (map string_bytes words.now) result }
{
    let parts = &[Part::MaybeForm, Part::Target, Part::Expression];
    let places = cut_unread(words, "expand", parts)?;
    let form = piece_at(words, &places, 0);
    let one_line = maybe_form_of(form.words);
    let letter = piece_at(words, &places, 1);
    let target = target_of(letter.words);
    let last = piece_at(words, &places, 2);
    match read_expression(alloc, target, text_of(last.words)) {
        Ok(formula) => Ok(Command::Expand {
            target,
            one_line,
            formula,
        }),
        Err(fault) => Err(placed(last.at, fault)),
    }
}
