//! Adds rim hooks to partitions, by moving beads in their beta sets: there is a bead at the place b
//! for each beta number b.
ghost use Rattle.std.specs.Prelude.{◌+◌, ◌-◌, ◌^◌, ◌<◌, ◌≤◌, [], ◌∷◌, nat_eq, OnOk, IsErrOf};
ghost use Rattle.linear_combinations.specs.Gains.{Gains, Overflows, scaled};
ghost use Rattle.strip_rules.specs.HookMoves.{hook_from};

use beta_sets::{BetaSet, Shapes, turned};
use calc_base::SumFault;
use coeff_rings::Int;
use linear_combinations::Rule;

/// Adds c, times the sign of the rim hook, to the coefficient of the set that results if the bead
/// at `place` moves up by `cells` places. Returns `Large` only if, at that set, the absolute values
/// of the old coefficient and of c add up to 2^127 or more.
fn add_hook(sum: &mut Shapes, set: BetaSet, place: u16, cells: u16, c: Int) -> Result<(), SumFault>
    requires low { place + cells < 63 }
    requires there { (2 ^ place ≤ set) × (set < 2 ^ 63) }
    ensures gains { OnOk result (Gains sum.old (scaled c (hook_from cells set place ∷ []))
        sum.new) }
    ensures large { IsErrOf result SumFault.Large
        → Overflows nat_eq sum.old (scaled c (hook_from cells set place ∷ [])) }
{
    let to = place + cells;
    let Some(number) = turned(c, set.greater(place) - set.greater(to)) else {
        return Err(SumFault::Large);
    };
    sum.add_owned(set.moved(place, to), number)
}

/// The rule that replaces a partition by all partitions that result from adding a rim hook of
/// `cells` cells, with the signs of the hooks.
#[derive(Drop)]
pub(crate) struct HookAdded {
    pub cells: u16,
}

impl Rule<BetaSet, BetaSet> for HookAdded {
    ghost use Rattle.std.specs.Prelude.{◌-◌, ◌≤◌};
    ghost use Rattle.beta_sets.specs.BetaSets.{IsInRows};
    ghost use Rattle.strip_rules.specs.HookMoves.{hooks};

    ghost takes = { λ rule set. (1 ≤ rule.cells) × (rule.cells ≤ 20)
        × IsInRows 20 (20 - rule.cells) set };

    ghost image = { λ rule set. hooks rule.cells set };

    fn add_image(&self, label: &BetaSet, c: Int, sum: &mut Shapes) -> Result<(), SumFault> {
        let mut places = label.free(self.cells);
        while let Some(place) = places.greatest() {
            places = places.without(place);
            add_hook(sum, *label, place, self.cells, c)?;
        }
        Ok(())
    }
}
