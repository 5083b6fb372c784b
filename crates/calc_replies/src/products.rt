//! The answers to the commands `mult`, `skew`, `coef` and `coprod`.
ghost use Rattle.sym_model.specs.Command as commands;
ghost use Rattle.calc_words.specs.Commands.{KeepsLimits};
ghost use Rattle.calc_replies.specs.Computed.{IsReplyTo};

use crate::form::{Form, asked_form};
use crate::outcome::{Outcome, answered, as_block};
use crate::written::written_product;
use calc_base::{Basis, NoMemory, SumFault};
use expansion_printer::Answer;
use partitions::{Factors, Partition};
use schur_products::mult_all;
use std::alloc::Global;

/// The outcome of `mult`: the product of Schur functions, or `Large` if it is too large. If `rows`
/// is given, the product is taken in `rows` variables. Only the text of the terms is kept if they
/// can be listed one after another, and not as terms.
pub(crate) fn mult(
    alloc: Global,
    rows: Option<u16>,
    one_line: bool,
    factors: &Factors,
) -> Result<Outcome, NoMemory>
    requires { KeepsLimits (commands.mult rows one_line factors.now) }
    ensures { IsReplyTo (commands.mult rows one_line factors.now) result }
{
    if rows.is_none() && !one_line {
        if let Some(outcome) = written_product(alloc, factors)? {
            return Ok(outcome);
        }
    }
    listed_product(alloc, rows, one_line, factors)
}

/// The outcome of `mult` with the terms of the product, as in `mult`.
fn listed_product(
    alloc: Global,
    rows: Option<u16>,
    one_line: bool,
    factors: &Factors,
) -> Result<Outcome, NoMemory>
    requires { KeepsLimits (commands.mult rows one_line factors.now) }
    ensures { IsReplyTo (commands.mult rows one_line factors.now) result }
{
    answered(
        mult_all(alloc, factors, rows).map(|terms| Answer::Product { terms }),
        asked_form(one_line, Basis::S),
    )
}

/// The outcome of `skew`: a skew Schur function as a sum of Schur functions, or `Large` if it is
/// too large. If `rows` is given, the skew Schur function is taken in `rows` variables.
pub(crate) fn skew(
    alloc: Global,
    rows: Option<u16>,
    one_line: bool,
    outer: &Partition,
    inner: &Partition,
) -> Result<Outcome, NoMemory>
    requires { KeepsLimits (commands.skew rows one_line outer.now inner.now) }
    ensures { IsReplyTo (commands.skew rows one_line outer.now inner.now) result }
{
    answered(
        lr_product::skew(alloc, outer, inner, rows).map(|terms| Answer::Product { terms }),
        asked_form(one_line, Basis::S),
    )
}

/// The outcome of `coef`: the coefficient of one Schur function in the product of two others, or
/// `Large` if it is too large.
pub(crate) fn coef(
    alloc: Global,
    outer: &Partition,
    left: &Partition,
    right: &Partition,
) -> Result<Outcome, NoMemory>
    requires { KeepsLimits (commands.coef outer.now left.now right.now) }
    ensures { IsReplyTo (commands.coef outer.now left.now right.now) result }
{
    answered(
        lr_coefficient::coef(alloc, outer, left, right).map(|value| Answer::Number { value }),
        Form::Block,
    )
}

/// The outcome of `coprod`: the coproduct of a Schur function, or `Large` if it is too large.
pub(crate) fn coprod(alloc: Global, shape: &Partition) -> Result<Outcome, NoMemory>
    ensures { IsReplyTo (commands.coprod shape.now) result }
{
    match lr_coproduct::coprod(alloc, shape) {
        Ok(terms) => Ok(as_block(Answer::Pairs { terms })),
        Err(SumFault::Large) => Ok(Outcome::Large),
        Err(SumFault::NoMemory) => Err(NoMemory),
    }
}
