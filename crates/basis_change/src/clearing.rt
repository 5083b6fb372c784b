//! Multiplies a list of terms in the monomial basis m by a common denominator, and writes a list in
//! m with integer coefficients in augmented monomials.
ghost use Rattle.std.specs.Prelude.{◌≡◌, ℕ, ◌*◌, ◌/◌, ◌^◌, ◌<◌, ◌≤◌, List, [], ◌∷◌, pos, nat_abs};
ghost use Rattle.std.specs.Prelude.{MatchOption, IfOk, OnOk, IsErrOf};
ghost use Rattle.sym_model.specs.Sum.{Among};
ghost use Rattle.sym_model.specs.Expansion.{Fraction};
ghost use Rattle.sym_model.specs.Polynomial.{Same};
ghost use Rattle.monomial_laws.specs.ExpressionTerms.{over};
ghost use Rattle.basis_change_laws.specs.AugmentedMonomial.{multiplicity_factorials};
ghost use Rattle.sparse_polys.specs.LabelSizes.{AreWithin};
ghost use Rattle.sparse_polys.specs.Tables.{IsFractionTable, IsWholeTable};
ghost use Rattle.fraction_laws.specs.Fractions.{scaled};
ghost use Rattle.basis_change.specs.Clearing.{augmented_number, augmented_terms, HasFactors};
ghost use Rattle.basis_change.specs.AugmentedProducts.{equal, IsMixedTable};
ghost use Rattle.linear_combinations.specs.Gains.{Gains, Overflows};

use crate::parts::multiplicity_factorials;
use crate::products::Mixed;
use calc_base::SumFault;
use coeff_rings::{Frac, Int, Ring, product_of};
use linear_combinations::Lin;
use partitions::Partition;
use sparse_polys::{Pair, Whole};
use std::alloc::Global;

/// The greatest size of a label of the list, 0 for the empty list.
pub fn greatest_size(list: &Lin<Partition, Frac>) -> u16
    ensures within { AreWithin result list.now }
    ensures least { (d : ℕ) → AreWithin d list.now → result ≤ d }
    ensures table { IsFractionTable list.now }
{
    let mut greatest = 0;
    for (label, _) in list.iter() {
        let size = label.size();
        if size > greatest {
            greatest = size;
        }
    }
    greatest
}

/// The number `n`, below 2^127, as an `Int`.
pub fn whole_of(n: u128) -> Int
    requires { n < 2 ^ 127 }
    ensures { result ≡ pos n }
{
    Int::new(n as i128)
}

/// The numerator of the fraction c.
pub fn numerator_of(c: Frac) -> Int
    ensures { result ≡ c.0 }
{
    Int::new(c.num())
}

/// The denominator of the fraction c.
pub fn denominator_of(c: Frac) -> u128
    ensures value { result ≡ c.1 }
    ensures positive { 0 < c.1 }
    ensures low { c.1 < 2 ^ 127 }
{
    c.den() as u128
}

/// The integer c·`den`, for a multiple `den` of the denominator of the fraction c; `None` only if
/// its absolute value is 2^127 or more.
fn scaled_number(c: Frac, den: u128) -> Option<Int>
    requires { den < 2 ^ 127 }
    ensures { MatchOption result (2 ^ 127 ≤ nat_abs (scaled den c)) (λ z. z ≡ scaled den c) }
{
    let scale = den / denominator_of(c);
    numerator_of(c).mul(whole_of(scale))
}

/// The list times `den`, a common denominator of its coefficients. Returns `Large` only if the
/// absolute value of one of the products is 2^127 or more.
pub fn whole_terms(alloc: Global, list: &Lin<Partition, Frac>, den: u128) -> Result<Whole, SumFault>
    requires { den < 2 ^ 127 }
    ensures value { IfOk result (λ terms. Same terms (over den list.now)) }
    ensures table { IfOk result IsWholeTable }
    ensures large { IsErrOf result SumFault.Large
        → (t : List ℕ × Fraction) × Among t list.now × (2 ^ 127 ≤ nat_abs (scaled den t.1)) }
{
    let mut terms = Lin::new(alloc);
    for (label, c) in list.iter() {
        let Some(number) = scaled_number(*c, den) else {
            return Err(SumFault::Large);
        };
        terms.add_at_label(label, number)?;
    }
    Ok(terms)
}

/// Adds to `sum` the product of `factor` and the term c·m_`label`, written in augmented monomials.
/// For an exact result, `factor` must be a multiple of the product of the factorials of the
/// multiplicities of the parts of `label`.
fn add_augmented(
    alloc: Global,
    sum: &mut Mixed,
    label: &Partition,
    c: Int,
    factor: u128,
) -> Result<(), SumFault>
    requires factor { factor < 2 ^ 127 }
    requires multiplicities { multiplicity_factorials label.now ≤ factor }
    ensures gains { OnOk result (Gains sum.old
        ((([], label.now), augmented_number factor label.now c) ∷ []) sum.new) }
    ensures table { OnOk result (IsMixedTable sum.new) }
    ensures large { IsErrOf result SumFault.Large → Overflows equal sum.old
        ((([], label.now), augmented_number factor label.now c) ∷ []) }
{
    let quotient = factor / multiplicity_factorials(label.parts());
    let number = product_of(c, whole_of(quotient))?;
    let label = Pair {
        first: Partition::from_valid_parts(alloc, &[])?,
        second: label.copy()?,
    };
    sum.add_owned(label, number)
}

/// The product of `factor` and the list in m, written in augmented monomials: the augmented
/// monomial of λ is m_λ times the product of the factorials of the multiplicities of the parts of
/// λ. For each label λ of the list, `factor` must be a multiple of this product of factorials, so
/// that the result is exact.
pub(crate) fn in_augmented(alloc: Global, list: &Whole, factor: u128) -> Result<Mixed, SumFault>
    requires factor { factor < 2 ^ 127 }
    requires multiplicities { HasFactors factor list.now }
    ensures gains { IfOk result (Gains [] (augmented_terms factor list.now)) }
    ensures table { IfOk result IsMixedTable }
    ensures large { IsErrOf result SumFault.Large
        → Overflows equal [] (augmented_terms factor list.now) }
{
    let mut sum = Lin::new(alloc);
    for (label, c) in list.iter() {
        add_augmented(alloc, &mut sum, label, *c, factor)?;
    }
    Ok(sum)
}
