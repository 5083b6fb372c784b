//! The product of two double Schubert polynomials.
ghost use Rattle.std.specs.Prelude.{◌≡◌, ℕ, ◌+◌, ◌*◌, ◌^◌, ◌≤◌, max, nat_abs, replicate, ℤ, List};
ghost use Rattle.std.specs.Prelude.{length, IfOk, IfSome, OnOk, IsErrOf, ◌+ℤ◌};
ghost use Rattle.sym_model.specs.DoubleSchubert.{double_schubert_in, shifted_in};
ghost use Rattle.sym_model.specs.Expansion.{Represents};
ghost use Rattle.sym_model.specs.Partition.{size};
ghost use Rattle.sym_model.specs.PastLimit.{value_at_ones};
ghost use Rattle.sym_model.specs.PlaceOrders.{inversions};
ghost use Rattle.sym_model.specs.Polynomial.{pair, times};
ghost use Rattle.sym_model.specs.Schubert as polynomials;
ghost use Rattle.sym_model.specs.WholeTerms.{as_fractions};
ghost use Rattle.sym_model.specs.Products.{IsDoubleProductOf};
ghost use Rattle.sym_model.specs.PastLimit.{double_weight};
ghost use Rattle.linear_combinations.specs.Gains.{over};
ghost use Rattle.transition_walk.specs.Waiting.{AreWaiting, growth, value_of};
ghost use Rattle.double_schubert.specs.ByPermutations.{at_general, at_pairs, one_each};
ghost use Rattle.double_schubert.specs.LinearFactors.{AreWithin, product_in};

use crate::by_permutations::{ByPermutations, InY, times_factor};
use crate::factor::TimesFactor;
use crate::linear_factors::linear_factors;
use crate::short_monomial::ShortMonomial;
use calc_base::{NoMemory, SumFault};
use coeff_rings::{Int, Scalar};
use linear_combinations::{Lin, Terms};
use perm_codes::Perm;
use sparse_polys::{Monomial, Shifted};
use std::alloc::Global;
use transition_walk::{Waiting, product_of};

/// The greatest number of factors x_r - y_c for `act_by_factors`. If r and c are at most 8, and w
/// has at most 8 letters, the product of 24 such factors and S_w is a sum of terms f_v·S_v with
/// polynomials f_v in y_1, .., y_32.
const MOST_FACTORS: u16 = 24;

/// The product of the double Schubert polynomials of two permutations of at most 8 letters, as a
/// sum of terms y^e·S_w in the printed order of their labels.
///
/// Returns `Large` only if S_w(1, .., 1)·(n + l + 2)^l is 2^127 or more, with w the one of the two
/// permutations that has fewer inversions, l the number of its inversions, and n the greater of the
/// two numbers of letters.
pub fn dschubmult(alloc: Global, u: &Perm, v: &Perm) -> Result<Terms<Shifted, Int>, SumFault>
    requires first { length u.now ≤ 8 }
    requires second { length v.now ≤ 8 }
    ensures meets { IfOk result (λ terms.
        IsDoubleProductOf u.now v.now (as_fractions terms)) }
    ensures large { IsErrOf result SumFault.Large → 2 ^ 127 ≤ double_weight u.now v.now }
{
    if u.inversions() <= v.inversions() {
        act(alloc, u, v)
    } else {
        act(alloc, v, u)
    }
}

/// The product of the double Schubert polynomials of `w` and `other`, computed by `act_by_factors`
/// if that returns it, and otherwise by the transition rule on `w`.
fn act(alloc: Global, w: &Perm, other: &Perm) -> Result<Terms<Shifted, Int>, SumFault>
    requires first { length w.now ≤ 8 }
    requires second { length other.now ≤ 8 }
    ensures value { IfOk result (λ terms. (n : ℕ)
        → Represents (λ label. shifted_in label n) (as_fractions terms)
        (times (double_schubert_in w.now n) (double_schubert_in other.now n)) 1) }
    ensures large { IsErrOf result SumFault.Large
        → 2 ^ 127 ≤ nat_abs (value_at_ones (polynomials.schubert w.now))
        * (max (length w.now) (length other.now) + inversions w.now + 2) ^ inversions w.now }
{
    match act_by_factors(alloc, w, other)? {
        Some(terms) => Ok(terms),
        None => act_by_transitions(alloc, w, other),
    }
}

/// The product of the double Schubert polynomials of `w` and `other`, by the transition rule on
/// `w`.
fn act_by_transitions(
    alloc: Global,
    w: &Perm,
    other: &Perm,
) -> Result<Terms<Shifted, Int>, SumFault>
    requires { max (length w.now) (length other.now) + inversions w.now ≤ 255 }
    ensures value { IfOk result (λ terms. (n : ℕ)
        → Represents (λ label. shifted_in label n) (as_fractions terms)
        (times (double_schubert_in w.now n) (double_schubert_in other.now n)) 1) }
    ensures large { IsErrOf result SumFault.Large
        → 2 ^ 127 ≤ nat_abs (value_at_ones (polynomials.schubert w.now))
        * (max (length w.now) (length other.now) + inversions w.now + 2) ^ inversions w.now }
{
    let label = Shifted {
        perm: other.copy()?,
        y: Monomial::one(alloc),
    };
    let sum = product_of::<Shifted, TimesFactor>(alloc, w, &label)?;
    Ok(sum.sorted_terms()?)
}

/// The product of the double Schubert polynomials of `w` and `other`: if that of `w` is found to be
/// a product of at most 24 factors x_r - y_c, that of `other` is multiplied by one factor after
/// another. Returns None if no such factors are found, or if the resulting terms fail the test for
/// the printed order.
fn act_by_factors(
    alloc: Global,
    w: &Perm,
    other: &Perm,
) -> Result<Option<Terms<Shifted, Int>>, SumFault>
    requires first { length w.now ≤ 8 }
    requires second { length other.now ≤ 8 }
    ensures value { IfOk result (λ found. IfSome found (λ terms. (n : ℕ)
        → Represents (λ label. shifted_in label n) (as_fractions terms)
        (times (double_schubert_in w.now n) (double_schubert_in other.now n)) 1)) }
    ensures large { IsErrOf result SumFault.Large
        → 2 ^ 127 ≤ nat_abs (value_at_ones (polynomials.schubert w.now))
        * (max (length w.now) (length other.now) + inversions w.now + 2) ^ inversions w.now }
{
    if w.inversions() > MOST_FACTORS {
        return Ok(None);
    }
    let Some(factors) = linear_factors(alloc, w)? else {
        return Ok(None);
    };
    let sum = times_factors(alloc, factors, other)?;
    Ok(terms_of(alloc, sum)?)
}

/// The product of the factors x_r - y_c, given by the pairs (r, c), and the double Schubert
/// polynomial of `perm`.
fn times_factors(
    alloc: Global,
    factors: Vec<(u16, u16)>,
    perm: &Perm,
) -> Result<ByPermutations, SumFault>
    requires places { AreWithin 8 factors.items }
    requires few { length factors.items ≤ 24 }
    requires letters { length perm.now ≤ 8 }
    ensures value { IfOk result (λ sum. (n : ℕ) (φ : List ℕ → ℤ)
        → value_of (at_pairs (λ label. pair (shifted_in label n) φ)) sum.items
        ≡ pair (times (product_in n factors.items) (shifted_in (perm.now, replicate 32 0) n)) φ) }
    ensures large { IsErrOf result SumFault.Large → (m : ℕ) → AreWithin m factors.items
        → length perm.now ≤ m
        → 2 ^ 127 ≤ (m + length factors.items + 2) ^ length factors.items }
{
    let mut sum = single(alloc, perm)?;
    for (r, c) in factors {
        sum = times_factor(alloc, sum, r, c)?;
    }
    Ok(sum)
}

/// The sum whose only term is the double Schubert polynomial of `perm`.
fn single(alloc: Global, perm: &Perm) -> Result<ByPermutations, SumFault>
    ensures value { IfOk result (λ sum. (φ : List ℕ × List ℕ → ℤ)
        → value_of (at_pairs φ) sum.items ≡ φ (perm.now, replicate 32 0)) }
    ensures weight { IfOk result (λ sum. growth one_each sum.items ≤ 1) }
    ensures bounds { IfOk result (λ sum. (n : ℕ) → length perm.now ≤ n
        → AreWaiting size n (n + inversions perm.now) sum.items) }
    ensures small { ¬ IsErrOf result SumFault.Large }
{
    let mut factor: InY = Lin::new(alloc);
    factor.add_owned(ShortMonomial::one(), Int::one())?;
    let mut sum = Vec::new(alloc);
    sum.push(Waiting {
        perm: perm.copy()?,
        factor,
    })?;
    Ok(sum)
}

/// The terms y^e·S_w of a sum in the printed order of their labels (w, e). The permutations of the
/// sum are sorted for this, and the order of the terms is tested: None if it is not the printed
/// order.
fn terms_of(alloc: Global, sum: ByPermutations) -> Result<Option<Terms<Shifted, Int>>, NoMemory>
    ensures { IfOk result (λ found. IfSome found (λ terms. (φ : List ℕ × List ℕ → ℤ)
        → over φ terms ≡ value_of (at_general φ) sum.items)) }
{
    let mut sum = sum;
    sum.sort_unstable_by(|a, b| a.perm.cmp_printed(&b.perm));
    let mut pairs = Vec::new(alloc);
    for term in sum {
        write_out(alloc, &mut pairs, term)?;
    }
    Ok(Terms::from_pairs(pairs))
}

/// Appends to `pairs` the terms k·y^e·S_w of f·S_w, with w the permutation of `term` and f its
/// polynomial in y.
fn write_out(
    alloc: Global,
    pairs: &mut Vec<(Shifted, Int)>,
    term: Waiting<InY>,
) -> Result<(), NoMemory>
    ensures { OnOk result ((φ : List ℕ × List ℕ → ℤ) → over φ pairs.new.items
        ≡ over φ pairs.old.items +ℤ over (at_general φ term.perm) term.factor) }
{
    let Waiting { perm, factor } = term;
    for (e, k) in factor.sorted_terms()? {
        let y = e.monomial(alloc)?;
        let copy = perm.copy()?;
        pairs.push((Shifted { perm: copy, y }, k))?;
    }
    Ok(())
}
