//! Tables of terms: a term with a sign is added, and the terms are sorted.
ghost use Rattle.std.specs.Prelude.{[], ◌∷◌, IfOk, OnOk, IsErrOf};
ghost use Rattle.fraction_laws.specs.Fractions.{whole};
ghost use Rattle.linear_combinations.specs.Entries.{IsCombination};
ghost use Rattle.linear_combinations.specs.Gains.{Gains, Overflows, scaled};
ghost use Rattle.reduction_laws.specs.Collected.{IsSign};

use calc_base::{NoMemory, SumFault};
use coeff_rings::{Int, Ring};
use linear_combinations::{Label, Lin, Terms};

/// Adds sign·c to the coefficient of `label` in `sums`.
pub(crate) fn add_signed<L: Label>(
    sums: &mut Lin<L, Int>,
    label: L,
    sign: i8,
    c: Int,
) -> Result<(), SumFault>
    requires { IsSign sign }
    ensures gains { OnOk result (Gains sums.old (scaled c ((label, sign) ∷ [])) sums.new) }
    ensures table { OnOk result (IsCombination L.eq L.is_label whole sums.new) }
    ensures large { IsErrOf result SumFault.Large
        → Overflows L.eq sums.old (scaled c ((label, sign) ∷ [])) }
{
    let Some(signed) = c.mul(Int::new(i128::from(sign))) else {
        return Err(SumFault::Large);
    };
    sums.add_owned(label, signed)
}

/// The terms of the table in the order in which terms are printed.
pub(crate) fn sorted<L: Label>(sums: Lin<L, Int>) -> Result<Terms<L, Int>, NoMemory>
    ensures gains { IfOk result (Gains [] sums) }
    ensures table { IfOk result (IsCombination L.eq L.is_label whole) }
{
    Ok(sums.sorted_terms()?)
}
