//! Adds special rim hooks to shapes: rim hooks that begin in the first column, below the shape.
ghost use Rattle.std.specs.Prelude.{◌<◌, ◌≤◌, ◌^◌, nat_eq, OnOk, IsErrOf};
ghost use Rattle.linear_combinations.specs.Gains.{Gains, Overflows, scaled};
ghost use Rattle.basis_change.specs.RimHooks.{hook};

use beta_sets::{BetaSet, Shapes, turned};
use calc_base::SumFault;
use coeff_rings::Int;
use linear_combinations::Rule;

/// Adds to `sum` c times the result, with its sign, of adding a rim hook of `a` cells to the shape
/// of the beta set; the rim hook begins in the first column, in the row after the rows of the set.
/// Each beta number is increased by 1, and then the number `a` is added to the set; if `a` is one
/// of the increased numbers, nothing is added to `sum`. The last rows of the set may be empty.
fn add_hook(sum: &mut Shapes, beta: BetaSet, a: u16, c: Int) -> Result<(), SumFault>
    requires few { a ≤ 20 }
    requires low { beta < 2 ^ 63 }
    ensures gains { OnOk result (Gains sum.old (scaled c (hook a beta)) sum.new) }
    ensures large { IsErrOf result SumFault.Large
        → Overflows nat_eq sum.old (scaled c (hook a beta)) }
{
    let others = beta.raised();
    if others.has(a) {
        return Ok(());
    }
    let passed = others.len() - others.greater(a);
    let Some(number) = turned(c, passed) else {
        return Err(SumFault::Large);
    };
    sum.add_owned(others.with(a), number)
}

/// The rule that replaces a shape by a sum over the `cells` rows after its last row: for each of
/// these rows, the result, with its sign, of adding a rim hook of `cells` cells that begins in this
/// row, in the first column.
#[derive(Drop)]
pub(crate) struct HooksBelow {
    pub cells: u16,
}

impl Rule<BetaSet, BetaSet> for HooksBelow {
    ghost use Rattle.std.specs.Prelude.{◌-◌, ◌≤◌};
    ghost use Rattle.beta_sets.specs.BetaSets.{IsShape};
    ghost use Rattle.basis_change.specs.RimHooks.{hooks_below};

    ghost takes = { λ rule set. (rule.cells ≤ 20) × IsShape (20 - rule.cells) set };

    ghost image = { λ rule set. hooks_below rule.cells set };

    fn add_image(&self, label: &BetaSet, c: Int, sum: &mut Shapes) -> Result<(), SumFault> {
        let mut beta = *label;
        for _ in 0..self.cells {
            add_hook(sum, beta, self.cells, c)?;
            beta = beta.lengthened();
        }
        Ok(())
    }
}
