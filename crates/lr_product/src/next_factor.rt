//! A list of terms multiplied by one more factor. The label of a term is a partition. A state of a
//! table is a sum, which is a partition plus the content of letters, followed by the column or row
//! added last. The table begins with one state for each label; then the shape of the factor is
//! filled with letters in all ways, for all these states at once.
ghost use Rattle.std.specs.Prelude.{◌≡◌, ℕ, ◌^◌, ◌≤◌, ℤ, pos, ◌≤ℤ◌, nat_eq, List, IfOk, OnOk};
ghost use Rattle.std.specs.Prelude.{IsErrOf};
ghost use Rattle.std.specs.Cmp.Lexicographic.{pointwise};
ghost use Rattle.sym_model.specs.LabelLimits.{is_label};
ghost use Rattle.sym_model.specs.Partition.{IsPartition, rows};
ghost use Rattle.sym_model.specs.Polynomial.{Same};
ghost use Rattle.sym_model.specs.Sum.{Among};
ghost use Rattle.fraction_laws.specs.Fractions.{whole};
ghost use Rattle.linear_combinations.specs.Entries.{IsCombination};
ghost use Rattle.product_laws.specs.FactorSteps.{multiplied};
ghost use Rattle.product_laws.specs.CountedProducts.{Reaches};
ghost use Rattle.lr_product.specs.Capped.{Agree};
ghost use Rattle.lr_product.specs.ProductOfFactors.{AreSmallCounts, AllMayMeet};
ghost use Rattle.lr_product.specs.WeighedSum.{started, weighed};

use crate::columns::add_start;
use crate::counts::terms_of_table;
use crate::rows::with_shape;
use crate::states::States;
use crate::table::Table;
use calc_base::{NoMemory, SumFault};
use coeff_rings::Int;
use linear_combinations::Terms;
use partitions::Partition;
use std::alloc::Global;

/// The greatest number of rows of a label of the list; 0 if the list is empty.
fn most_rows(product: &Terms<Partition, Int>) -> u16
    ensures most { (t : List ℕ × ℤ) → Among t product.now → rows t.0 ≤ result }
    ensures within { result ≤ 512 }
{
    let mut most = 0;
    for (label, _) in product.iter() {
        most = label.rows().max(most);
    }
    most
}

/// The table of the starts: for each label of the list `product` it has one state, whose count is
/// the coefficient of the label. The sum of this state is the label followed by zeros, `letters`
/// numbers in all; no column has been added to it.
fn starts_of(
    alloc: Global,
    product: &Terms<Partition, Int>,
    letters: u16,
) -> Result<States, NoMemory>
    requires rows { (t : List ℕ × ℤ) → Among t product.now → rows t.0 ≤ letters }
    requires counts { (t : List ℕ × ℤ) → Among t product.now → pos 1 ≤ℤ t.1 }
    ensures { IfOk result (λ table. (f : List ℕ → List ℕ → ℕ)
        → Agree (weighed letters f table.entries) (started letters f product.now)) }
{
    let mut table = Table::with_room(alloc, usize::from(letters), product.len())?;
    for (label, c) in product.iter() {
        add_start(
            alloc,
            &mut table,
            label.parts(),
            letters,
            c.get().unsigned_abs(),
        )?;
    }
    Ok(table.into_states())
}

/// The product of the linear combination `product` of Schur polynomials and the Schur polynomial of
/// `next`, in `variables` variables. Letters greater than the number of rows of `next` plus the
/// greatest number of rows of a label of `product` are not tried, since no label of the result has
/// more rows.
///
/// Unless memory runs out, returns `Large` if and only if a coefficient exceeds 2^127 - 1.
pub(crate) fn times_factor(
    alloc: Global,
    product: &Terms<Partition, Int>,
    next: &Partition,
    variables: u16,
) -> Result<Terms<Partition, Int>, SumFault>
    requires variables { variables ≤ 512 }
    requires factor { IsPartition next.now }
    requires terms { AllMayMeet variables next.now product.now }
    ensures product { IfOk result
        (λ terms. Same terms (multiplied variables next.now product.now)) }
    ensures table { IfOk result (IsCombination (pointwise nat_eq) is_label whole) }
    ensures small { OnOk result (AreSmallCounts (multiplied variables next.now product.now)) }
    ensures large { IsErrOf result SumFault.Large
        → Reaches variables (2 ^ 127) (multiplied variables next.now product.now) }
{
    let letters = variables.min(most_rows(product) + next.rows());
    let starts = starts_of(alloc, product, letters)?;
    let table = with_shape(alloc, starts, next, &[], letters, &[])?;
    terms_of_table(alloc, table, letters)
}
