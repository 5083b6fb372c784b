//! The product of two Schur polynomials, expanded in Schur polynomials. A tableau is good for a
//! partition, the start, if start plus the content of its last k columns is a partition for each k.
ghost use Rattle.std.specs.Prelude.{◌≡◌, ◌+◌, ◌^◌, ◌<◌, ◌≤◌, ℕ, List, [], ◌∷◌, false, IfOk, OnOk};
ghost use Rattle.std.specs.Prelude.{IfSome, IsErrOf};
ghost use Rattle.std.specs.Option.{ForSome};
ghost use Rattle.sym_model.specs.Partition.{IsPartition, size, rows as number_of_rows};
ghost use Rattle.sym_model.specs.Polynomial.{Same};
ghost use Rattle.sym_model.specs.WholeTerms.{as_fractions};
ghost use Rattle.sym_model.specs.GoodTableau.{product_count};
ghost use Rattle.sym_model.specs.Products.{classical_product};
ghost use Rattle.sym_model.specs.ReductionSteps.{classical_weight};
ghost use Rattle.sym_model.specs.PastLimit.{variables_or};
ghost use Rattle.sym_model.specs.Products.{ExpandsInSchurs, schur_product};
ghost use Rattle.sym_model.specs.PastLimit.{HasPast, IsCoefficientOfProduct};
ghost use Rattle.alternant_laws.specs.GoodSums.{ListsCounts};
ghost use Rattle.lr_product.specs.Counts.{HasCounts, IsPastSomewhere};

use crate::counts::{good_counts, no_terms};
use calc_base::SumFault;
use coeff_rings::Int;
use linear_combinations::Terms;
use partitions::Partition;
use std::alloc::Global;

/// The product of the Schur polynomials of `left` and `right`, expanded in Schur polynomials. If
/// `rows` is `None`, the expansion holds in every number of variables; if `rows` is K, it holds in
/// K variables, and its labels have at most K rows. The coefficient of a label ν is the number of
/// good tableaux T of the shape `right` for the start `left` such that `left` + content(T) = ν
/// (Littlewood and Richardson).
///
/// Unless memory runs out, returns `Large` if and only if a coefficient exceeds 2^127 - 1.
pub fn mult(
    alloc: Global,
    left: &Partition,
    right: &Partition,
    rows: Option<u16>,
) -> Result<Terms<Partition, Int>, SumFault>
    requires sizes { size left.now + size right.now ≤ 4096 }
    requires lengths { number_of_rows left.now + number_of_rows right.now ≤ 512 }
    requires variables { ForSome rows (λ k. (1 ≤ k) × (k ≤ 512)) }
    ensures meets { IfOk result (λ terms.
        ExpandsInSchurs rows (schur_product (left.now ∷ right.now ∷ [])) (as_fractions terms)) }

    // The coefficients are the counts `product_count` of good tableaux.
    ensures counts { IfOk result (λ terms.
        ListsCounts (variables_or rows (number_of_rows left.now + number_of_rows right.now))
        (product_count (variables_or rows (number_of_rows left.now + number_of_rows right.now))
        left.now right.now)
        (as_fractions terms)) }
    ensures large { IsErrOf result SumFault.Large
        → HasPast (IsCoefficientOfProduct rows (left.now ∷ right.now ∷ [])) }
    ensures fits { OnOk result (HasPast (IsCoefficientOfProduct rows (left.now ∷ right.now ∷ [])) → ⊥) }

    // If `rows` is k, the list has the Schur coefficients of the product in k variables
    // (`classical_product`); and if the result is `Large`, the absolute values of these
    // coefficients add up to at least 2^127 (`classical_weight`).
    ensures classical { IfOk result (λ terms. IfSome rows (λ k.
        Same terms (classical_product k (left.now ∷ right.now ∷ [])))) }
    ensures heavy { IsErrOf result SumFault.Large → IfSome rows (λ k.
        2 ^ 127 ≤ classical_weight k (left.now ∷ right.now ∷ [])) }
{
    let variables = rows.unwrap_or(left.rows() + right.rows());
    counts_in(alloc, left, right, variables)
}

/// For each partition ν with at most `variables` rows, the number of good tableaux T of the shape
/// `right` for the start `left` such that `left` + content(T) = ν. The numbers do not change if the
/// two factors are exchanged; the one with fewer cells is taken as the shape.
pub(crate) fn counts_in(
    alloc: Global,
    left: &Partition,
    right: &Partition,
    variables: u16,
) -> Result<Terms<Partition, Int>, SumFault>
    requires sizes { size left.now + size right.now ≤ 4096 }
    requires variables { variables ≤ 512 }
    ensures counts { IfOk result (HasCounts variables
        (product_count variables left.now right.now)) }
    ensures fits { OnOk result ((parts : List ℕ) → IsPartition parts
        → number_of_rows parts ≤ variables
        → product_count variables left.now right.now parts < 2 ^ 127) }
    ensures large { IsErrOf result SumFault.Large
        → IsPastSomewhere variables (product_count variables left.now right.now) }
    ensures factors { IsPartition left.now × IsPartition right.now }
{
    if left.size() < right.size() {
        return counts_from(alloc, right, left, variables);
    }
    counts_from(alloc, left, right, variables)
}

/// For each partition ν with at most `variables` rows, the number of good tableaux T of the shape
/// `right` for the start `left` such that `left` + content(T) = ν. Letters greater than the number
/// of rows of both factors together do not occur in good tableaux.
fn counts_from(
    alloc: Global,
    left: &Partition,
    right: &Partition,
    variables: u16,
) -> Result<Terms<Partition, Int>, SumFault>
    requires sizes { size left.now + size right.now ≤ 4096 }
    requires variables { variables ≤ 512 }
    ensures counts { IfOk result (HasCounts variables
        (product_count variables left.now right.now)) }
    ensures fits { OnOk result ((parts : List ℕ) → IsPartition parts
        → number_of_rows parts ≤ variables
        → product_count variables left.now right.now parts < 2 ^ 127) }
    ensures large { IsErrOf result SumFault.Large
        → IsPastSomewhere variables (product_count variables left.now right.now) }
    ensures factors { IsPartition left.now × IsPartition right.now }
{
    let letters = variables.min(left.rows() + right.rows());
    if left.rows() > letters {
        return no_terms(alloc);
    }
    good_counts(alloc, left.parts(), right, &[], letters)
}
