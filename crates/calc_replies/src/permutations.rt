//! The answers to the commands `schubert`, `schubmult`, `dschubmult` and `stanley`.
ghost use Rattle.sym_model.specs.Command as commands;
ghost use Rattle.calc_words.specs.Commands.{KeepsLimits};
ghost use Rattle.calc_replies.specs.Computed.{IsReplyTo};

use crate::form::Form;
use crate::outcome::{Outcome, answered, as_block};
use calc_base::{NoMemory, SumFault};
use expansion_printer::Answer;
use perm_codes::Perm;
use schubert_transition::{Memo, schubert_terms};
use std::alloc::Global;

/// The outcome of `schubert`: the Schubert polynomial of a permutation, or `Large` if it is too
/// large.
pub(crate) fn schubert(alloc: Global, perm: &Perm) -> Result<Outcome, NoMemory>
    ensures { IsReplyTo (commands.schubert perm.now) result }
{
    match schubert_terms(alloc, perm) {
        Ok(terms) => Ok(as_block(Answer::Polynomial { terms })),
        Err(SumFault::Large) => Ok(Outcome::Large),
        Err(SumFault::NoMemory) => Err(NoMemory),
    }
}

/// The outcome of `schubert`: the Schubert polynomial of a permutation, or `Large` if it is too
/// large. If the store `memo` has the polynomial, it is taken from there.
pub(crate) fn schubert_by(memo: &mut Memo, perm: &Perm) -> Result<Outcome, NoMemory>
    ensures { IsReplyTo (commands.schubert perm.now) result }
{
    match memo.schubert_terms(perm) {
        Ok(terms) => Ok(as_block(Answer::Polynomial { terms })),
        Err(SumFault::Large) => Ok(Outcome::Large),
        Err(SumFault::NoMemory) => Err(NoMemory),
    }
}

/// The outcome of `schubmult`: the product of two Schubert polynomials, or `Large` if it is too
/// large.
pub(crate) fn schubmult(alloc: Global, left: &Perm, right: &Perm) -> Result<Outcome, NoMemory>
    requires { KeepsLimits (commands.schubmult left.now right.now) }
    ensures { IsReplyTo (commands.schubmult left.now right.now) result }
{
    match monk_product::schubmult(alloc, left, right) {
        Ok(terms) => Ok(as_block(Answer::Permutations { terms })),
        Err(SumFault::Large) => Ok(Outcome::Large),
        Err(SumFault::NoMemory) => Err(NoMemory),
    }
}

/// The outcome of `dschubmult`: the product of two double Schubert polynomials, or `Large` if it is
/// too large.
pub(crate) fn dschubmult(alloc: Global, left: &Perm, right: &Perm) -> Result<Outcome, NoMemory>
    requires { KeepsLimits (commands.dschubmult left.now right.now) }
    ensures { IsReplyTo (commands.dschubmult left.now right.now) result }
{
    match double_schubert::dschubmult(alloc, left, right) {
        Ok(terms) => Ok(as_block(Answer::Shifts { terms })),
        Err(SumFault::Large) => Ok(Outcome::Large),
        Err(SumFault::NoMemory) => Err(NoMemory),
    }
}

/// The outcome of `stanley`: the Stanley polynomial of a permutation, in `rows` variables, or
/// `Large` if it is too large.
pub(crate) fn stanley(alloc: Global, rows: u16, perm: &Perm) -> Result<Outcome, NoMemory>
    requires { KeepsLimits (commands.stanley rows perm.now) }
    ensures { IsReplyTo (commands.stanley rows perm.now) result }
{
    answered(
        stanley_expand::stanley(alloc, perm, rows).map(|terms| Answer::Product { terms }),
        Form::Block,
    )
}
