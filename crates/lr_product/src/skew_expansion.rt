//! Skew Schur polynomials, expanded in Schur polynomials.
ghost use Rattle.std.specs.Prelude.{◌≡◌, ◌^◌, ◌<◌, ◌≤◌, ℕ, List, true, false, IfOk, OnOk, IsErrOf};
ghost use Rattle.std.specs.Option.{ForSome};
ghost use Rattle.sym_model.specs.Partition.{IsPartition, rows as number_of_rows};
ghost use Rattle.sym_model.specs.Schur.{contains};
ghost use Rattle.sym_model.specs.GoodTableau.{skew_count};
ghost use Rattle.sym_model.specs.WholeTerms.{as_fractions};
ghost use Rattle.sym_model.specs.PastLimit.{variables_or};
ghost use Rattle.sym_model.specs.Products.{ExpandsInSchurs};
ghost use Rattle.sym_model.specs.PastLimit.{HasPast, IsCoefficientOfSkew};
ghost use Rattle.sym_model.specs.Schur.{skew_schur};
ghost use Rattle.alternant_laws.specs.GoodSums.{ListsCounts};
ghost use Rattle.lr_product.specs.Counts.{HasCounts, IsPastSomewhere};

use crate::counts::{good_counts, no_terms};
use calc_base::SumFault;
use coeff_rings::Int;
use linear_combinations::Terms;
use partitions::Partition;
use std::alloc::Global;

/// The skew Schur polynomial of outer/inner, expanded in Schur polynomials. If `rows` is `None`,
/// the expansion holds in every number of variables; if `rows` is K, it holds in K variables, and
/// its labels have at most K rows. The polynomial is 0 if `inner` does not lie inside `outer`;
/// otherwise the coefficient of a label is the number of lattice tableaux of outer/inner whose
/// content is this label.
///
/// Unless memory runs out, returns `Large` if and only if a coefficient exceeds 2^127 - 1.
pub fn skew(
    alloc: Global,
    outer: &Partition,
    inner: &Partition,
    rows: Option<u16>,
) -> Result<Terms<Partition, Int>, SumFault>
    requires { ForSome rows (λ k. (1 ≤ k) × (k ≤ 512)) }
    ensures meets { IfOk result (λ terms.
        ExpandsInSchurs rows (skew_schur outer.now inner.now) (as_fractions terms)) }

    // If `inner` lies inside `outer`, the coefficients are the counts `skew_count` of lattice
    // tableaux.
    ensures counts { contains outer.now inner.now ≡ true
        → IfOk result (λ terms. ListsCounts (variables_or rows (number_of_rows outer.now))
        (skew_count outer.now inner.now)
        (as_fractions terms)) }
    ensures large { IsErrOf result SumFault.Large
        → HasPast (IsCoefficientOfSkew rows outer.now inner.now) }
    ensures fits { OnOk result (HasPast (IsCoefficientOfSkew rows outer.now inner.now)
        → ⊥) }
{
    if !outer.contains(inner) {
        return no_terms(alloc);
    }
    let variables = rows.unwrap_or(outer.rows());
    counts_in(alloc, outer, inner, variables)
}

/// For each partition with at most `variables` rows, the number of lattice tableaux of outer/inner
/// with this content. Letters greater than the number of rows of `outer` do not occur in lattice
/// tableaux.
fn counts_in(
    alloc: Global,
    outer: &Partition,
    inner: &Partition,
    variables: u16,
) -> Result<Terms<Partition, Int>, SumFault>
    requires inside { contains outer.now inner.now ≡ true }
    requires variables { variables ≤ 512 }
    ensures counts { IfOk result (HasCounts variables (skew_count outer.now inner.now)) }
    ensures fits { OnOk result ((parts : List ℕ) → IsPartition parts
        → number_of_rows parts ≤ variables
        → skew_count outer.now inner.now parts < 2 ^ 127) }
    ensures large { IsErrOf result SumFault.Large
        → IsPastSomewhere variables (skew_count outer.now inner.now) }
    ensures shape { IsPartition outer.now × IsPartition inner.now }
{
    let letters = variables.min(outer.rows());
    good_counts(alloc, &[], outer, inner.parts(), letters)
}
