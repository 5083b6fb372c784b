//! The product of two Schubert polynomials.
ghost use Rattle.std.specs.Prelude.{◌≡◌, ℕ, ◌+◌, ◌*◌, ◌^◌, ◌≤◌, max, nat_abs, length, IfOk};
ghost use Rattle.std.specs.Prelude.{IsErrOf};
ghost use Rattle.sym_model.specs.Expansion.{Represents};
ghost use Rattle.sym_model.specs.Kind.{permutations};
ghost use Rattle.sym_model.specs.PastLimit.{shorter, value_at_ones};
ghost use Rattle.sym_model.specs.PlaceOrders.{inversions};
ghost use Rattle.sym_model.specs.Polynomial.{times};
ghost use Rattle.sym_model.specs.Schubert as polynomials;
ghost use Rattle.sym_model.specs.Schubert.{schubert_in};
ghost use Rattle.sym_model.specs.WholeTerms.{as_fractions};
ghost use Rattle.sym_model.specs.Products.{IsSchubertProductOf};
ghost use Rattle.sym_model.specs.PastLimit.{pair_weight};

use crate::monk::TimesVar;
use crate::row_product::product_if_fast;
use crate::short_monk::written_out;
use crate::short_perm::{MOST_LETTERS, ShortPerm};
use calc_base::SumFault;
use coeff_rings::Int;
use linear_combinations::Terms;
use perm_codes::Perm;
use std::alloc::Global;
use transition_walk::product_of;

/// The product of the Schubert polynomials of two permutations, as a sum of Schubert polynomials.
/// Permutations with fewer inversions come first, those with equally many in lexicographic order.
/// The greater number of letters and the smaller number of inversions must add up to at most 255.
///
/// Let w be the one of the two permutations that has fewer inversions (`u` if both have the same
/// number), let l be its number of inversions, and let n be the greater of the two numbers of
/// letters. Returns `Large` only if S_w(1, .., 1)·(n + l)^l is 2^127 or more.
pub fn schubmult(alloc: Global, u: &Perm, v: &Perm) -> Result<Terms<Perm, Int>, SumFault>
    requires { max (length u.now) (length v.now) + inversions (shorter u.now v.now) ≤ 255 }
    ensures meets { IfOk result (λ terms.
        IsSchubertProductOf u.now v.now (as_fractions terms)) }
    ensures large { IsErrOf result SumFault.Large → 2 ^ 127 ≤ pair_weight u.now v.now }
{
    if let Ok(terms) = product_if_fast(alloc, u, v) {
        return Ok(terms);
    }
    if u.inversions() <= v.inversions() {
        act(alloc, u, v)
    } else {
        act(alloc, v, u)
    }
}

/// The product of S_w and S_other as a sum of Schubert polynomials, by the transition rule on `w`.
fn act(alloc: Global, w: &Perm, other: &Perm) -> Result<Terms<Perm, Int>, SumFault>
    requires { max (length w.now) (length other.now) + inversions w.now ≤ 255 }
    ensures value { IfOk result (λ terms. (n : ℕ)
        → Represents (λ x. schubert_in x n) (as_fractions terms)
        (times (schubert_in w.now n) (schubert_in other.now n)) 1) }
    ensures large { IsErrOf result SumFault.Large
        → 2 ^ 127 ≤ nat_abs (value_at_ones (polynomials.schubert w.now))
        * (max (length w.now) (length other.now) + inversions w.now) ^ inversions w.now }
{
    if usize::from(w.len().max(other.len()) + w.inversions()) <= MOST_LETTERS {
        return act_shortly(alloc, w, other);
    }
    let sum = product_of::<Perm, TimesVar>(alloc, w, other)?;
    Ok(sum.sorted_terms()?)
}

/// The product of S_w and S_other as a sum of Schubert polynomials, by the transition rule on `w`.
/// The greater number of letters of `w` and `other`, plus the number of inversions of `w`, must be
/// at most 32. So no permutation in the computation has more than 32 letters.
fn act_shortly(alloc: Global, w: &Perm, other: &Perm) -> Result<Terms<Perm, Int>, SumFault>
    requires { max (length w.now) (length other.now) + inversions w.now ≤ 32 }
    ensures value { IfOk result (λ terms. (n : ℕ)
        → Represents (λ x. schubert_in x n) (as_fractions terms)
        (times (schubert_in w.now n) (schubert_in other.now n)) 1) }
    ensures large { IsErrOf result SumFault.Large
        → 2 ^ 127 ≤ nat_abs (value_at_ones (polynomials.schubert w.now))
        * (max (length w.now) (length other.now) + inversions w.now) ^ inversions w.now }
{
    let sum = product_of::<ShortPerm, TimesVar>(alloc, w, &ShortPerm::of(other))?;
    Ok(written_out(alloc, sum.sorted_terms()?)?)
}
