//! Shapes as beta sets in 20 rows; the order of these sets is the order of their partitions.
use beta_sets::{BetaSet, Shapes};
use calc_base::SumFault;
use coeff_rings::{Int, product_of};
use linear_combinations::Rule;

/// The number of beta numbers of each set that the rule makes: its partition has at most as many
/// rows.
const ROWS: u16 = 20;

/// The rule that replaces each beta set by `times` times the beta set in 20 rows of the same
/// partition.
#[derive(Drop)]
pub(crate) struct InTwentyRows {
    pub times: Int,
}

impl Rule<BetaSet, BetaSet> for InTwentyRows {
    ghost use Rattle.std.specs.Prelude.{[], ◌∷◌};
    ghost use Rattle.beta_sets.specs.BetaSets.{in_rows, IsShape};

    ghost takes = { λ rule set. IsShape 20 set };

    ghost image = { λ rule set. (in_rows 20 set, rule.times) ∷ [] };

    fn add_image(&self, label: &BetaSet, c: Int, sum: &mut Shapes) -> Result<(), SumFault> {
        sum.add_owned(label.in_rows(ROWS), product_of(c, self.times)?)
    }
}
