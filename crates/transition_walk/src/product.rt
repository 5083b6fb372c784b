//! The product of a Schubert polynomial and the polynomial of a label, by the transition rule.
ghost use Rattle.std.specs.Prelude.{◌≡◌, ℕ, ◌^◌, ◌≤◌, ℤ, pos, FitsSigned, List, IfOk, IsErrOf};
ghost use Rattle.std.specs.Int.{w128};
ghost use Rattle.fraction_laws.specs.Fractions.{whole};
ghost use Rattle.linear_combinations.specs.Entries.{AreHeld, IsCombination};
ghost use Rattle.sym_model.specs.Polynomial.{pair};
ghost use Rattle.perm_codes.specs.Limits.{IsWithinLimits};
ghost use Rattle.linear_combinations.specs.Gains.{over};
ghost use Rattle.transition_walk.specs.Growth.{IsSingle, KeepsShares, OverflowsFrom, StaysWithin};
ghost use Rattle.transition_walk.specs.Growth.{limit_of};

use crate::factor::Factor;
use crate::todo::Waiting;
use crate::waiting::work_off;
use calc_base::SumFault;
use coeff_rings::{Int, Scalar};
use linear_combinations::{Label, Lin};
use perm_codes::Perm;
use std::alloc::Global;

/// The product of the Schubert polynomial of a permutation w and the polynomial of a label, as a
/// list of labels.
///
/// Let m be the greater one of the number of letters of w and the `extent` of the label, and let l
/// be the number of inversions of w. The sum m + l must be at most `most` + 1; `extent`, `most` and
/// `extra` belong to the trait `Factor`. Returns `Large` only if the value of the Schubert
/// polynomial at 1 in each variable, times (m + l + `extra`)^l, is 2^127 or more, and only if
/// `OverflowsFrom` holds. That is a condition on the shares of w and the label; a share is a
/// function of a permutation and a label that no step of the transition rule increases.
///
/// The list `todo` has the permutations that are not yet expanded, each with the list of terms by
/// which its Schubert polynomial is multiplied. The transition rule replaces the greatest of these
/// permutations by lower ones, until only the identity is left.
pub fn product_of<L: Label, F: Factor<L>>(
    alloc: Global,
    w: &Perm,
    label: &L,
) -> Result<Lin<L, Int>, SumFault>
    requires { IsWithinLimits w.now → StaysWithin F.extent F.most w.now label.now }
    ensures limits { IsWithinLimits w.now }
    ensures value { IfOk result (λ sum. (n : ℕ) (φ : List ℕ → ℤ)
        → over (λ x. pair (F.polynomial n x) φ) sum ≡ F.product n φ w.now label.now) }
    ensures table { IfOk result (IsCombination L.eq L.is_label whole) }
    ensures held { IfOk result (AreHeld L.eq (pos 0) (FitsSigned w128)) }
    ensures shares { IfOk result
        (KeepsShares (λ r v. F.image (F.made r v)) F.extent w.now label.now) }
    ensures overflow { IsErrOf result SumFault.Large
        → OverflowsFrom (λ r v. F.image (F.made r v)) F.extent w.now label.now }
    ensures large { IsErrOf result SumFault.Large
        → 2 ^ 127 ≤ limit_of w.now (F.extent label.now) F.extra }
{
    let mut todo = Vec::with_capacity(alloc, usize::from(w.len()))?;
    todo.push(Waiting {
        perm: w.copy()?,
        factor: single(alloc, label)?,
    })?;
    let mut sum = Lin::new(alloc);
    while let Some(waiting) = todo.pop() {
        work_off::<L, F>(alloc, &mut todo, waiting, &mut sum)?;
    }
    Ok(sum)
}

/// The list whose only term is `label`, with the coefficient 1.
fn single<L: Label>(alloc: Global, label: &L) -> Result<Lin<L, Int>, SumFault>
    ensures sums { IfOk result (λ list. (φ : L → ℤ) → over φ list ≡ φ label.now) }
    ensures few { IfOk result (λ list. IsSingle label.now list) }
    ensures small { ¬ IsErrOf result SumFault.Large }
{
    let mut list = Lin::new(alloc);
    list.add_at_label(label, Int::one())?;
    Ok(list)
}
