//! The product of two Schubert polynomials row by row of a diagram, where this is likely to be
//! faster than the transition rule.
ghost use Rattle.std.specs.Prelude.{◌≡◌, ℕ, ℤ, List, IfOk};
ghost use Rattle.sym_model.specs.Expansion.{Represents};
ghost use Rattle.sym_model.specs.Polynomial.{pair, times};
ghost use Rattle.sym_model.specs.Schubert.{schubert_in};
ghost use Rattle.sym_model.specs.WholeTerms.{as_fractions};
ghost use Rattle.linear_combinations.specs.Gains.{over};
ghost use Rattle.monk_product.specs.RowPaths.{IsPathFor};

use crate::row_path::RowPath;
use crate::row_summands::{Layers, likely_terms};
use crate::row_table::product_by_rows;
use crate::short_monk::{ShortSum, written_out};
use calc_base::SumFault;
use coeff_rings::Int;
use linear_combinations::Terms;
use perm_codes::Perm;
use std::alloc::Global;
use std::cmp::Ordering;
use transition_walk::transition_places;

/// A product by rows is likely to be faster than the transition rule if the size of its plan
/// (`Layers`), times this number, is at most the square of the size of the steps of the transition
/// rule (`most_size`).
const SIZE_IN_SQUARE: usize = 2000;

/// With so many steps of the transition rule, products are computed row by row, whatever the size.
const MOST_STEPS: usize = 2048;

/// How the product with the Schubert polynomial of a permutation is computed row by row.
#[derive(Drop)]
struct RowPlan {
    path: RowPath,
    layers: Layers,
}

impl RowPlan {
    /// The plan for the product with the Schubert polynomial of `v`. Returns `Large` if there is
    /// none, if there are too many permutations, or if its size is more than `most` (`Layers`).
    fn of(alloc: Global, v: &Perm, most: usize) -> Result<RowPlan, SumFault>
        ensures { IfOk result (λ plan. IsPathFor v.now plan.path.letters plan.path.rows.items
            plan.path.end) }
    {
        let path = RowPath::of(alloc, v)?;
        let layers = Layers::of(alloc, &path.end, path.letters, &path.rows, most)?;
        Ok(RowPlan { path, layers })
    }
}

/// The product of the Schubert polynomials of two permutations as a sum of Schubert polynomials, row
/// by row. Returns `Large` also if the transition rule is likely to be faster, or if a permutation
/// with more than 32 letters occurs.
pub(crate) fn product_if_fast(
    alloc: Global,
    u: &Perm,
    v: &Perm,
) -> Result<Terms<Perm, Int>, SumFault>
    ensures { IfOk result (λ terms. (n : ℕ) → Represents (λ x. schubert_in x n)
        (as_fractions terms) (times (schubert_in u.now n) (schubert_in v.now n)) 1) }
{
    let w = if u.inversions() < v.inversions() {
        u
    } else {
        v
    };
    let most = most_size(alloc, w)?;
    let sum = product_by_plan(alloc, u, v, most)?;
    Ok(written_out(alloc, sum.sorted_terms()?)?)
}

/// The product of the Schubert polynomials of two permutations, by the plan of less size. Returns
/// `Large` also if the sizes of both are more than `most`.
fn product_by_plan(alloc: Global, u: &Perm, v: &Perm, most: usize) -> Result<ShortSum, SumFault>
    ensures value { IfOk result (λ sum. (k : ℕ) (φ : List ℕ → ℤ)
        → over (λ w. pair (schubert_in w k) φ) sum
        ≡ pair (times (schubert_in u.now k) (schubert_in v.now k)) φ) }
{
    let Ok(left) = RowPlan::of(alloc, u, most) else {
        let right = RowPlan::of(alloc, v, most)?;
        return product_by_rows(alloc, &right.path, &right.layers.perms, u, v);
    };
    if let Ok(right) = RowPlan::of(alloc, v, left.layers.size) {
        return product_by_rows(alloc, &right.path, &right.layers.perms, u, v);
    }
    product_by_rows(alloc, &left.path, &left.layers.perms, v, u)
}

/// The greatest size of a plan by which a product is likely to be faster than by the transition rule
/// on `w`. The size of the steps of the transition rule is the sum over them of the likely number of
/// terms (`likely_terms`) by which the permutation of the step is multiplied.
fn most_size(alloc: Global, w: &Perm) -> Result<usize, SumFault> {
    let mut todo = Vec::new(alloc);
    todo.push(w.copy()?)?;
    let mut size: usize = 0;
    for _ in 0..MOST_STEPS {
        let Some(last) = todo.pop() else {
            return Ok(size.saturating_mul(size) / SIZE_IN_SQUARE);
        };
        if let Some((r, s)) = transition_places(&last) {
            let degree = w.inversions().saturating_sub(last.inversions());
            size = size.saturating_add(likely_terms(usize::from(degree)));
            let lower = last.times_swap(r, s)?;
            for cover in lower.covers_down(r)? {
                add_waiting(&mut todo, cover)?;
            }
            add_waiting(&mut todo, lower)?;
        }
    }
    Ok(usize::MAX)
}

/// Adds a permutation to a list in the order in which the transition rule replaces them, from the
/// last one on, unless it is there.
fn add_waiting(todo: &mut Vec<Perm>, w: Perm) -> Result<(), SumFault> {
    if let Err(at) = todo.binary_search_by(|other| compare(other, &w)) {
        todo.insert(at, w)?;
    }
    Ok(())
}

/// Compares the numbers of inversions, and then the letters, from great to small.
fn compare(v: &Perm, w: &Perm) -> Ordering {
    v.inversions()
        .cmp(&w.inversions())
        .then(w.letters().cmp(v.letters()))
}
