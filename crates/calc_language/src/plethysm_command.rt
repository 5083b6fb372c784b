//! Reading of the words of `plethysm`.
ghost use Rattle.std.specs.Prelude.{[], ◌∷◌, map, string_bytes};
ghost use Rattle.sym_model.specs.CommandOffence.{first_offence, plethysm_offences};
ghost use Rattle.sym_model.specs.Command.{plethysm};
ghost use Rattle.sym_model.specs.Grammar.{plethysm_entry};
ghost use Rattle.sym_model.specs.Phrase.{Phrase, SpellsPhrase, tree};
ghost use Rattle.expression_reading.specs.Trees.{basis_of};
ghost use Rattle.calc_words.specs.Reading.{IsRead as IsReadBy, IsJudged};
ghost use Rattle.calc_words.specs.Commands.{StandsFor};

use crate::refusal::placed;
use crate::{Basis, Command};
use calc_base::WordsFault;
use calc_words::{Part, cut, piece_at, target_of, text_of};
use expression_reading::{ExpressionFault, PLETHYSM_DEGREE, read_inner, read_outer};
use std::alloc::Global;

/// The command `plethysm` of the two expressions with the texts `outer` and `inner`, which are
/// words 2 and 3 of the command; or their first error.
fn judged(alloc: Global, target: Basis, outer: &[u8], inner: &[u8]) -> Result<Command, WordsFault>
    ensures { (f g : Phrase) → SpellsPhrase outer.now f → SpellsPhrase inner.now g
        → IsJudged (StandsFor (plethysm (basis_of target) (tree f) (tree g)))
        (first_offence (plethysm_offences 2 f g)) result }
{
    let end = ExpressionFault::Range {
        byte: inner.len() as u64,
    };
    match read_outer(alloc, outer) {
        Err(fault) => Err(placed(2, fault)),
        Ok(outer) => match read_inner(alloc, inner) {
            Err(fault) => Err(placed(3, fault)),
            Ok(inner) => {
                if outer.degree() * inner.degree() > PLETHYSM_DEGREE {
                    return Err(placed(3, end));
                }
                Ok(Command::Plethysm {
                    target,
                    outer,
                    inner,
                })
            }
        },
    }
}

/// Reads the words of `plethysm`: that word, the letter of a target basis, the outer expression,
/// and the inner expression.
pub(crate) fn read_plethysm(alloc: Global, words: &[String]) -> Result<Command, WordsFault>
    ensures { IsReadBy (plethysm_entry ∷ []) (map string_bytes words.now) result }
{
    let parts = &[Part::Target, Part::Expression, Part::Expression];
    let places = cut(words, "plethysm", parts)?;
    let letter = piece_at(words, &places, 0);
    let target = target_of(letter.words);
    let first = piece_at(words, &places, 1);
    let outer = text_of(first.words);
    let second = piece_at(words, &places, 2);
    let inner = text_of(second.words);
    judged(alloc, target, outer, inner)
}
