//! The answer to the command `growth`.
ghost use Rattle.std.specs.Prelude.{◌≡◌, true};
ghost use Rattle.calc_base.specs.Puts.{Puts};
ghost use Rattle.sym_model.specs.Command as commands;
ghost use Rattle.sym_model.specs.TableauText.{grid_text};
ghost use Rattle.calc_replies.specs.Computed.{IsReplyTo};

use crate::outcome::Outcome;
use crate::tableau_answer::{TableauAnswer, told};
use calc_base::{NoMemory, Sink};
use expansion_printer::print_shapes;
use growth_diagrams::{Grid, grow};
use perm_codes::Perm;
use std::alloc::Global;

/// The outcome of `growth`: the growth diagram of a permutation.
pub(crate) fn growth(alloc: Global, perm: &Perm) -> Result<Outcome, NoMemory>
    ensures { IsReplyTo (commands.growth perm.now) result }
{
    let grid = grow(alloc, perm)?;
    Ok(told(TableauAnswer::Grown { grid }))
}

/// Writes the lines of a growth diagram to the sink, until a call of the sink fails. Returns
/// whether all calls succeeded.
pub(crate) fn put_grid<K: Sink>(grid: &Grid, sink: &mut K) -> bool
    ensures { Puts true (K.seen sink.old) result (K.seen sink.new) (grid_text grid.now) }
{
    for at in 0..grid.side() + 1 {
        let well = print_shapes(grid.line(at), sink).is_ok();
        if !well {
            return false;
        }
    }
    true
}
