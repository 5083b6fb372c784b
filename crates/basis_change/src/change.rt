//! The change of expansions in the monomial basis m into the basis m, e, h, p or s.
ghost use Rattle.std.specs.Prelude.{◌≡◌, ℕ, ◌*◌, ◌^◌, ◌<◌, ◌≤◌, IfOk, IsErrOf};
ghost use Rattle.sym_model.specs.ExpressionOffence.{degree_limit};
ghost use Rattle.sym_model.specs.Expansion.{monomials, IsExpansionOf};
ghost use Rattle.sym_model.specs.ListWeight.{IsBounded};
ghost use Rattle.sym_model.specs.Polynomial.{Poly};
ghost use Rattle.sym_model.specs.Weight.{growth};
ghost use Rattle.expression_reading.specs.Trees.{basis_of};
ghost use Rattle.sparse_polys.specs.LabelSizes.{AreWithin};
ghost use Rattle.sparse_polys.specs.Tables.{IsFractionTable, IsWholeTable};
ghost use Rattle.sparse_polys.specs.Families.{basis_in};
ghost use Rattle.basis_change.specs.Clearing.{clearing_factor, IsBoundedBy};
ghost use Rattle.basis_change.specs.ClearedAnswer.{IsChanged, IsQuotientOf, MultipliesOut};

use crate::clearing::{greatest_size, in_augmented, whole_terms};
use crate::rewriting::converted;
use crate::straightening::{by_arrangements, quotients_by_arrangements};
use calc_base::{Basis, SumFault, Weight};
use coeff_rings::{Frac, denominator_product, factorial};
use family_lists::power_sums;
use linear_combinations::Lin;
use partitions::Partition;
use sparse_polys::{Family, Whole, divided};
use std::alloc::Global;

/// The expansion `list` in m, changed into the basis `target`: in every number of variables, the
/// answer expands each polynomial that `list` expands.
///
/// `bound` has two numbers of at least 1: `den`, a multiple of all denominators of the list, and
/// `num`, with |c|·`den`·Π λ_i! ≤ `num`·|λ|! for each term c·m_λ of the list. The labels have at
/// most 20 cells for the target bases m and s, at most 15 for e, h and p. Let d be the greatest
/// size of a label, and B the growth into the target basis at d: 1 if d = 0, and otherwise d^d for
/// m and s, d!·(2d)^d for e, h and p. Returns `Large` only if `num`·`den`·B is 2^127 or more.
///
/// Into e, h and p: `den`·d! times each coefficient of the answer is an integer, the absolute
/// values of these products add up to at most `num`·B, and no label of the answer has more than d
/// cells.
pub fn to_basis(
    alloc: Global,
    list: &Lin<Partition, Frac>,
    bound: Weight,
    target: Basis,
) -> Result<Lin<Partition, Frac>, SumFault>
    requires bounded { IsBounded bound.num bound.den list.now }
    requires positive { (1 ≤ bound.num) × (1 ≤ bound.den) }
    requires sizes { AreWithin (degree_limit (basis_of target)) list.now }
    ensures value { IfOk result (λ answer. (n : ℕ) (f : Poly) (q : ℕ)
        → IsExpansionOf monomials list.now n f q → IsExpansionOf (basis_of target) answer n f q) }
    ensures cleared { IfOk result
        (MultipliesOut (basis_of target) bound.num bound.den list.now) }
    ensures table { IfOk result IsFractionTable }
    ensures large { IsErrOf result SumFault.Large → (d : ℕ) → AreWithin d list.now
        → 2 ^ 127 ≤ bound.num * bound.den * growth (basis_of target) d }
{
    let size = greatest_size(list);
    let den = denominator_product(bound.den, clearing_factor(target, size))?;
    let terms = whole_terms(alloc, list, bound.den)?;
    quotients_in(alloc, terms, size, target, den)
}

/// Changes `list` into the basis `target`, after multiplying it by `size`! if the target basis is
/// e, h or p, and divides each coefficient of the result by `den`. `list` is a list in m with
/// integer coefficients and labels of at most `size` cells, and `den` is positive and below 2^127.
/// Returns `Large` only if N·`growth`(target, size) is 2^127 or more for each N that bounds the
/// list (`IsBoundedBy`).
fn quotients_in(
    alloc: Global,
    list: Whole,
    size: u16,
    target: Basis,
    den: u128,
) -> Result<Lin<Partition, Frac>, SumFault>
    requires low { size ≤ degree_limit (basis_of target) }
    requires table { IsWholeTable list }
    requires sizes { AreWithin size list }
    requires den { (0 < den) × (den < 2 ^ 127) }
    ensures value { IfOk result (IsQuotientOf (basis_of target) size den list) }
    ensures table { IfOk result IsFractionTable }
    ensures large { IsErrOf result SumFault.Large → (N : ℕ) → IsBoundedBy N list
        → 2 ^ 127 ≤ N * growth (basis_of target) size }
{
    if let Basis::S = target {
        return quotients_by_arrangements(alloc, &list, size, den);
    }
    let answer = in_basis(alloc, list, size, target)?;
    divided(alloc, &answer, den)
}

/// The number that clears the fractions if a list in m with integer coefficients and labels of at
/// most `size` cells is changed into the basis `target`: `size`! for e, h and p, and 1 for m and s.
pub fn clearing_factor(target: Basis, size: u16) -> u128
    requires { size ≤ 20 }
    ensures { result ≡ clearing_factor (basis_of target) size }
{
    match target {
        Basis::M => 1,
        Basis::E => factorial(size),
        Basis::H => factorial(size),
        Basis::P => factorial(size),
        Basis::S => 1,
    }
}

/// Changes the product of `list` and the clearing factor for `size` (`clearing_factor`) into the
/// basis `target`, in every number of variables.
///
/// `list` is a list in m with integer coefficients and labels of at most `size` cells; `size` is at
/// most 20 for the target bases m and s, and at most 15 for e, h and p. Returns `Large` only if
/// N·`growth`(target, size) is 2^127 or more for each N with |c|·Π λ_i! ≤ N·|λ|! for all terms
/// c·m_λ of the list.
pub fn in_basis(alloc: Global, list: Whole, size: u16, target: Basis) -> Result<Whole, SumFault>
    requires low { size ≤ degree_limit (basis_of target) }
    requires table { IsWholeTable list }
    requires sizes { AreWithin size list }
    ensures { IsChanged (basis_of target) size list result }
{
    match target {
        Basis::M => Ok(list),
        Basis::E => in_family(alloc, &list, size, Family::Elementary),
        Basis::H => in_family(alloc, &list, size, Family::Complete),
        Basis::P => in_family(alloc, &list, size, Family::PowerSum),
        Basis::S => by_arrangements(alloc, &list, size),
    }
}

/// Changes `size`! times `list` into the basis e, h or p of `family`, in every number of variables.
/// `list` is a list in m with integer coefficients and labels of at most `size` cells, and `size`
/// is at most 15. It is first written in augmented monomials; then the parts of these become power
/// sums, one after another. Returns `Large` only if N·`size`!·(2·`size`)^`size` is 2^127 or more
/// for each N with |c|·Π λ_i! ≤ N·|λ|! for all terms c·m_λ of the list.
pub fn in_family(alloc: Global, list: &Whole, size: u16, family: Family) -> Result<Whole, SumFault>
    requires low { size ≤ 15 }
    requires table { IsWholeTable list.now }
    requires sizes { AreWithin size list.now }
    ensures { IsChanged (basis_in family) size list.now result }
{
    let powers = power_sums(alloc, family, size)?;
    let start = in_augmented(alloc, list, factorial(size))?;
    converted(alloc, start, &powers[1..], size)
}
