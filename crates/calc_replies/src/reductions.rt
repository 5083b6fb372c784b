//! The answers to the commands `quantum` and `fusion`.
ghost use Rattle.sym_model.specs.Command as commands;
ghost use Rattle.calc_words.specs.Commands.{KeepsLimits};
ghost use Rattle.calc_replies.specs.Computed.{IsReplyTo};

use crate::form::Form;
use crate::outcome::{Outcome, answered};
use calc_base::NoMemory;
use expansion_printer::Answer;
use partitions::Factors;
use std::alloc::Global;

/// The outcome of `quantum`: the quantum product of shapes for `rows` rows and `cols` columns, or
/// `Large` if it is too large.
pub(crate) fn quantum(
    alloc: Global,
    rows: u16,
    cols: u16,
    factors: &Factors,
) -> Result<Outcome, NoMemory>
    requires { KeepsLimits (commands.quantum rows cols factors.now) }
    ensures { IsReplyTo (commands.quantum rows cols factors.now) result }
{
    answered(
        rim_hooks::quantum(alloc, factors, rows, cols).map(|terms| Answer::Powers { terms }),
        Form::Block,
    )
}

/// The outcome of `fusion`: the fusion product of shapes for partitions with at most `rows` rows,
/// at level `level`, or `Large` if it is too large.
pub(crate) fn fusion(
    alloc: Global,
    rows: u16,
    level: u16,
    factors: &Factors,
) -> Result<Outcome, NoMemory>
    requires { KeepsLimits (commands.fusion rows level factors.now) }
    ensures { IsReplyTo (commands.fusion rows level factors.now) result }
{
    answered(
        rim_hooks::fusion(alloc, factors, rows, level).map(|terms| Answer::Product { terms }),
        Form::Block,
    )
}
