//! The terms of the product of two Schur polynomials, listed one at a time.
ghost use Rattle.std.specs.Prelude.{◌+◌, ◌≤◌, IfOk, IfSome};
ghost use Rattle.sym_model.specs.Partition.{size, rows as number_of_rows};
ghost use Rattle.lattice_rows.specs.ListedProduct.{ListsProduct};
ghost use Rattle.schur_products.specs.ListedTerms.{ListsProductOf};

use crate::estimate::are_rows_faster;
use crate::factor_product::factor_at;
use calc_base::NoMemory;
use lattice_rows::ProductLister;
use partitions::{Factors, Partition};
use std::alloc::Global;

/// The lister of the terms of the product of the Schur polynomials of two factors, in every number
/// of variables, by the rows of the labels. `None` if there are more than two factors, if columns
/// are expected to be faster, or if the rule by rows does not apply. The contract does not say when
/// `None` is returned.
pub fn list_by_rows(alloc: Global, factors: &Factors) -> Result<Option<ProductLister>, NoMemory>
    ensures { IfOk result (λ o. IfSome o (ListsProductOf factors.now)) }
{
    if factors.len() != 2 {
        return Ok(None);
    }
    list_two(alloc, factor_at(factors, 0), factor_at(factors, 1))
}

/// The lister of the product of `left` and `right`. The one with fewer parts is taken as the
/// content.
fn list_two(
    alloc: Global,
    left: &Partition,
    right: &Partition,
) -> Result<Option<ProductLister>, NoMemory>
    requires sizes { size left.now + size right.now ≤ 4096 }
    requires lengths { number_of_rows left.now + number_of_rows right.now ≤ 512 }
    ensures { IfOk result (λ o. IfSome o (ListsProduct
        (number_of_rows left.now + number_of_rows right.now) left.now right.now)) }
{
    if left.rows() < right.rows() {
        return list_with_content(alloc, right, left);
    }
    list_with_content(alloc, left, right)
}

/// The lister of the product of `inner` and `content`.
fn list_with_content(
    alloc: Global,
    inner: &Partition,
    content: &Partition,
) -> Result<Option<ProductLister>, NoMemory>
    requires sizes { size inner.now + size content.now ≤ 4096 }
    requires lengths { number_of_rows inner.now + number_of_rows content.now ≤ 512 }
    ensures { IfOk result (λ o. IfSome o (ListsProduct
        (number_of_rows inner.now + number_of_rows content.now) inner.now content.now)) }
{
    if !are_rows_faster(inner, content) {
        return Ok(None);
    }
    ProductLister::new(alloc, inner, content)
}
