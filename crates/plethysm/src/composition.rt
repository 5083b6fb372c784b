//! The plethysm of two lists in the monomial basis m, that is, of two lists of terms c·m_λ; it is
//! computed by power sums.
ghost use Rattle.std.specs.Prelude.{◌≡◌, ℕ, ◌*◌, ◌≤◌, ◌^◌, IfOk, IsErrOf};
ghost use Rattle.sym_model.specs.Expansion.{monomials, IsExpansionOf};
ghost use Rattle.sym_model.specs.ListWeight.{IsBounded};
ghost use Rattle.sym_model.specs.Plethysm.{plethysm, plethysm_weight};
ghost use Rattle.sym_model.specs.Polynomial.{Poly};
ghost use Rattle.expression_reading.specs.Trees.{basis_of};
ghost use Rattle.sparse_polys.specs.MonomialProducts.{greatest_size};
ghost use Rattle.sparse_polys.specs.LabelSizes.{AreWithin};
ghost use Rattle.sparse_polys.specs.Tables.{IsWholeTable};
ghost use Rattle.plethysm.specs.Compositions.{IsComposition, IsPastWeight};
ghost use Rattle.plethysm.specs.PlethysmLists.{AreNaturalNumbers, IsPlethysmOf};

use crate::inner::numerators;
use crate::path::multiplied_out;
use crate::quotients::quotients;
use basis_change::{clearing_factor, greatest_size, in_basis, in_family, whole_terms};
use calc_base::{Basis, SumFault, Weight};
use coeff_rings::{Frac, denominator_product, factorial};
use linear_combinations::Lin;
use partitions::Partition;
use sparse_polys::{Family, Whole, divided};
use std::alloc::Global;

/// The plethysm F[G], for F = `outer` and G = `inner`: the variables of F are replaced by the
/// monomials of G, each repeated according to its coefficient (Macdonald, I.8). Both lists are in
/// m; the result is an expansion in the basis `target`, in every number of variables.
///
/// The coefficients of G are integers and not negative. (N, D) is a bound of F, and (K, 1) is a
/// bound of G, with N, D and K at least 1. This means that D is a multiple of all denominators in
/// F, that |c|·D·Π λ_i! ≤ N·|λ|! for each term c·m_λ of F, and that |c|·Π λ_i! ≤ K·|λ|! for each
/// term c·m_λ of G. The greatest sizes a and b of the labels of F and of G are at most 10, and so
/// is a·b.
///
/// If a is 0, the result is F for every G.
///
/// Let B(0) = 1, and B(d) = d!·(2d)^d for d > 0. Returns `Large` only if
/// N·D·(a+1)·(K·(b+1))^a·max(B(a)·(ab)!,B(ab)) is 2^127 or more.
///
/// Examples: h_2[h_2] = s_4 + s_(2,2); p_2[p_3] = p_6; h_2[3] = 6.
pub fn plethysm(
    alloc: Global,
    outer: &Lin<Partition, Frac>,
    outer_bound: Weight,
    inner: &Lin<Partition, Frac>,
    inner_bound: Weight,
    target: Basis,
) -> Result<Lin<Partition, Frac>, SumFault>
    requires outer { IsBounded outer_bound.num outer_bound.den outer.now }
    requires inner { IsBounded inner_bound.num inner_bound.den inner.now }
    requires positive { (1 ≤ outer_bound.num) × (1 ≤ outer_bound.den) × (1 ≤ inner_bound.num) }
    requires whole { inner_bound.den ≡ 1 }
    requires natural { AreNaturalNumbers inner.now }
    requires sizes { let a = greatest_size outer.now in let b = greatest_size inner.now in
        (a ≤ 10) × (b ≤ 10) × (a * b ≤ 10) }
    ensures value { IfOk result (λ list. (b : ℕ) → AreWithin b inner.now
        → IsPlethysmOf (basis_of target) b outer.now inner.now list) }
    ensures constant { IfOk result
        (λ list. AreWithin 0 outer.now → (n b q : ℕ) (f : ℕ → Poly) (g : Poly)
        → ((k : ℕ) → IsExpansionOf monomials outer.now k (f k) q)
        → IsExpansionOf (basis_of target) list n (plethysm f b n g) q) }
    ensures large { IsErrOf result SumFault.Large → (a b : ℕ) → AreWithin a outer.now
        → AreWithin b inner.now
        → 2 ^ 127 ≤ plethysm_weight outer_bound.num outer_bound.den a inner_bound.num b }
{
    let a = greatest_size(outer);
    let b = greatest_size(inner);
    let size = a * b;
    let den = denominator_product(outer_bound.den, clearing_factor(target, size))?;
    let whole = whole_terms(alloc, outer, outer_bound.den)?;
    let inner = numerators(alloc, inner)?;
    let terms = in_m(alloc, &whole, a, &inner)?;
    let answer = in_basis(alloc, terms, size, target)?;
    divided(alloc, &answer, den)
}

/// The plethysm F[G] in m, for the lists F = `outer` and G = `inner` in m with integer
/// coefficients; the labels of F have at most `size` cells.
fn in_m(alloc: Global, outer: &Whole, size: u16, inner: &Whole) -> Result<Whole, SumFault>
    requires size { size ≤ 10 }
    requires table { IsWholeTable outer.now }
    requires sizes { AreWithin size outer.now }
    requires low { size * greatest_size inner.now ≤ 512 }
    ensures value { IfOk result (IsComposition outer.now inner.now) }
    ensures table { IfOk result IsWholeTable }
    ensures large { IsErrOf result SumFault.Large → IsPastWeight size outer.now inner.now }
{
    let terms = in_family(alloc, outer, size, Family::PowerSum)?;
    let sum = multiplied_out(alloc, &terms, inner)?;
    quotients(alloc, &sum, factorial(size))
}
