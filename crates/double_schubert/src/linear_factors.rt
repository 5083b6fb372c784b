//! Double Schubert polynomials that are products of factors x_r - y_c.
ghost use Rattle.std.specs.Prelude.{◌≡◌, ℕ, ◌+◌, ◌≤◌, [], ◌∷◌, length, map, IfOk, IfSome};
ghost use Rattle.sym_model.specs.DoubleSchubert as polynomials;
ghost use Rattle.sym_model.specs.DoubleSchubert.{double_schubert_in};
ghost use Rattle.sym_model.specs.Permutation.{IsTransition, covers_down, times_swap};
ghost use Rattle.sym_model.specs.PlaceOrders.{inversions};
ghost use Rattle.sym_model.specs.Polynomial.{Same};
ghost use Rattle.transition_walk.specs.Transitions.{IsShort};
ghost use Rattle.double_schubert.specs.LinearFactors.{AreWithin, IsOnlyLower, product_in};

use calc_base::NoMemory;
use perm_codes::Perm;
use std::alloc::Global;
use transition_walk::transition_places;

/// The pairs (r, c) of factors x_r - y_c whose product is the double Schubert polynomial of `w`.
/// Each step of the transition rule from `w` to the identity writes S_u as (x_r - y_c)·S_v plus a
/// sum over covers; the pairs are found if all of these sums are empty (for example if the code of
/// `w` is weakly decreasing). Otherwise None.
pub(crate) fn linear_factors(alloc: Global, w: &Perm) -> Result<Option<Vec<(u16, u16)>>, NoMemory>
    ensures value { IfOk result (λ found. IfSome found (λ factors. (n : ℕ)
        → Same (double_schubert_in w.now n) (product_in n factors.items))) }
    ensures places { IfOk result (λ found. IfSome found (λ factors.
        AreWithin (length w.now) factors.items)) }
    ensures count { IfOk result (λ found. IfSome found (λ factors.
        length factors.items ≡ inversions w.now)) }
{
    let mut factors = Vec::new(alloc);
    let mut rest = w.copy()?;
    while let Some((r, s)) = transition_places(&rest) {
        let Some(lower) = only_lower(&rest, r, s)? else {
            return Ok(None);
        };
        factors.push((r, lower.letter(r)))?;
        rest = lower;
    }
    Ok(Some(factors))
}

/// The permutation v = w·t_rs, if v has no cover v·t_ir with i < r; then S_w is S_v times a factor
/// x_r - y_c, by the transition rule. Otherwise None.
fn only_lower(w: &Perm, r: u16, s: u16) -> Result<Option<Perm>, NoMemory>
    requires places { IsTransition w.now r s }
    requires short { IsShort 255 w.now }
    ensures { IfOk result (λ found. IfSome found (IsOnlyLower w.now r s)) }
{
    let lower = w.times_swap(r, s)?;
    if lower.covers_down(r)?.is_empty() {
        Ok(Some(lower))
    } else {
        Ok(None)
    }
}
