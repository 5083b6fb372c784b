//! The answers to the commands `rsk`, `unrsk` and `rect`.
ghost use Rattle.sym_model.specs.Command as commands;
ghost use Rattle.calc_words.specs.Pairs.{IsPair};
ghost use Rattle.calc_words.specs.Commands.{KeepsLimits};
ghost use Rattle.calc_replies.specs.Computed.{IsReplyTo};

use crate::outcome::Outcome;
use crate::tableau_answer::{TableauAnswer, told};
use calc_base::{NoMemory, Word};
use jeu_de_taquin::rectify;
use row_insertion::{insert_word, word_of_pair};
use skew_shapes::{Standard, Tableau};
use std::alloc::Global;

/// The outcome of `rsk`: the insertion tableau and the recording tableau of a word.
pub(crate) fn rsk(alloc: Global, letters: &Word) -> Result<Outcome, NoMemory>
    requires { KeepsLimits (commands.rsk letters.now) }
    ensures { IsReplyTo (commands.rsk letters.now) result }
{
    let (p, q) = insert_word(alloc, letters.as_slice())?;
    Ok(told(TableauAnswer::Paired { p, q }))
}

/// The outcome of `unrsk`: the word that row insertion takes to the pair of an insertion tableau P
/// and a recording tableau Q.
pub(crate) fn unrsk(alloc: Global, p: &Tableau, q: &Standard) -> Result<Outcome, NoMemory>
    requires { IsPair p.now q.now }
    ensures { IsReplyTo (commands.unrsk p.now.rows q.now.rows) result }
{
    let word = word_of_pair(alloc, p, q)?;
    Ok(told(TableauAnswer::Spelled { word }))
}

/// The outcome of `rect`: the rectification of a skew tableau.
pub(crate) fn rect(tableau: &Tableau) -> Result<Outcome, NoMemory>
    ensures { IsReplyTo (commands.rect tableau.now.outer tableau.now.inner tableau.now.rows)
        result }
{
    let tableau = rectify(tableau.copy()?);
    Ok(told(TableauAnswer::Straight { tableau }))
}
