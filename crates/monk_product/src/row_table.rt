//! Tables of the values of the first rows of a diagram, in products with Schubert polynomials row
//! by row.
ghost use Rattle.std.specs.Prelude.{◌≡◌, ℕ, ◌+◌, ◌≤◌, ◌+ℤ◌, ◌*ℤ◌, ℤ, List, [], IfOk, OnOk, get_or};
ghost use Rattle.std.specs.Prelude.{length, take};
ghost use Rattle.sym_model.specs.Sum.{Among};
ghost use Rattle.sym_model.specs.Polynomial.{Poly, pair, times};
ghost use Rattle.sym_model.specs.Schubert.{schubert_in};
ghost use Rattle.schubert_laws.specs.Chains.{elementary_in};
ghost use Rattle.double_schubert_laws.specs.DiagramRows.{AreWithin};
ghost use Rattle.linear_combinations.specs.Gains.{over};
ghost use Rattle.monk_product.specs.RowPaths.{AreIn, AreValues, IsPathFor, signed_by};
ghost use Rattle.monk_product.specs.RowProducts.{IsValueAt};

use crate::chains::add_elementary_product;
use crate::row_path::{RowPath, longest};
use crate::row_summands::{Summand, row_summands, with_sign};
use crate::short_monk::ShortSum;
use crate::short_perm::{MOST_LETTERS, ShortPerm};
use calc_base::SumFault;
use coeff_rings::{Int, Scalar};
use linear_combinations::{Label, Lin};
use perm_codes::Perm;
use std::alloc::Global;

/// A permutation, and a list of Schubert polynomials: the value of the first rows of a diagram at
/// this permutation.
#[derive(Drop)]
pub(crate) struct Entry {
    perm: ShortPerm,
    sum: ShortSum,
}

/// The product of the Schubert polynomials of `u` and `v`, row by row of the diagram of `path`, a
/// path for `v`. `layers` has the permutations at which the values of the first rows are computed.
///
/// Returns `Large` also if a permutation is missing there, or if one of more than 32 letters
/// occurs.
pub(crate) fn product_by_rows(
    alloc: Global,
    path: &RowPath,
    layers: &[Vec<ShortPerm>],
    u: &Perm,
    v: &Perm,
) -> Result<ShortSum, SumFault>
    requires { IsPathFor v.now path.now.letters path.now.rows.items path.now.end }
    ensures value { IfOk result (λ sum. (k : ℕ) (φ : List ℕ → ℤ)
        → over (λ w. pair (schubert_in w k) φ) sum
        ≡ pair (times (schubert_in u.now k) (schubert_in v.now k)) φ) }
{
    let mut table = first_table(alloc, path.letters, u, v)?;
    for (i, cells) in path.rows.iter().enumerate() {
        let layer = layers.get(i + 1).ok_or(SumFault::Large)?;
        table = next_table(alloc, &table, layer, path.letters, i, *cells)?;
    }
    match table.pop() {
        Some(entry) if entry.perm == path.end => Ok(entry.sum),
        _ => Err(SumFault::Large),
    }
}

/// The table for no row: at n, .., 1 it has the Schubert polynomial of `u`, times the sign of `v`.
fn first_table(alloc: Global, n: usize, u: &Perm, v: &Perm) -> Result<Vec<Entry>, SumFault>
    ensures { IfOk result (λ table. AreValues (signed_by v.now u.now) n [] table.items) }
{
    if usize::from(u.len()) > MOST_LETTERS {
        return Err(SumFault::Large);
    }
    let mut sum = Lin::new(alloc);
    let sign = with_sign(usize::from(v.inversions()), Int::one())?;
    sum.add_owned(ShortPerm::of(u), sign)?;
    let mut table = Vec::with_capacity(alloc, 1)?;
    table.push(Entry {
        perm: longest(alloc, n)?,
        sum,
    })?;
    Ok(table)
}

/// The table for the first i + 1 rows, at the permutations of `layer`, from the one for the first i
/// rows. The row i, counted from 0, has `cells` cells.
fn next_table(
    alloc: Global,
    table: &[Entry],
    layer: &[ShortPerm],
    n: usize,
    i: usize,
    cells: usize,
) -> Result<Vec<Entry>, SumFault>
    ensures { (s : ℕ → Poly) (rows : List ℕ) → AreIn s → AreWithin n rows
        → get_or rows i 0 ≡ cells → AreValues s n (take i rows) table.now
        → IfOk result (λ next. AreValues s n (take (i + 1) rows) next.items) }
{
    let mut next = Vec::with_capacity(alloc, layer.len())?;
    for q in layer {
        next.push(Entry {
            perm: q.copy()?,
            sum: next_value(alloc, table, q, n, i, cells)?,
        })?;
    }
    Ok(next)
}

/// The value of the first i + 1 rows at q, from the table for the first i rows. The row i, counted
/// from 0, has `cells` cells.
fn next_value(
    alloc: Global,
    table: &[Entry],
    q: &ShortPerm,
    n: usize,
    i: usize,
    cells: usize,
) -> Result<ShortSum, SumFault>
    ensures { (s : ℕ → Poly) (rows : List ℕ) → AreIn s → AreWithin n rows
        → get_or rows i 0 ≡ cells → AreValues s n (take i rows) table.now
        → IfOk result (λ sum. IsValueAt s n (take (i + 1) rows) q.now sum) }
{
    let summands = row_summands(alloc, q, n, i, cells)?;
    let mut sum = Lin::new(alloc);
    for summand in &summands {
        add_summand(table, summand, cells, &mut sum)?;
    }
    Ok(sum)
}

/// Adds a summand of a row with `cells` cells: its coefficient times e_d(x_1, .., x_r), for the
/// degree d of the summand and r = `cells`, times the value in the table at its permutation.
/// Returns `Large` also if the table has no such entry.
fn add_summand(
    table: &[Entry],
    summand: &Summand,
    cells: usize,
    sum: &mut ShortSum,
) -> Result<(), SumFault>
    ensures { OnOk result ((k : ℕ) (φ : List ℕ → ℤ) (value : List ℕ → Poly)
        → ((e : Entry) → Among e table.now → (ψ : List ℕ → ℤ)
        → over (λ w. pair (schubert_in w k) ψ) e.sum ≡ pair (value e.perm) ψ)
        → over (λ w. pair (schubert_in w k) φ) sum.new
        ≡ over (λ w. pair (schubert_in w k) φ) sum.old +ℤ summand.now.coefficient
        *ℤ pair (times (elementary_in summand.now.degree cells k) (value summand.now.perm)) φ) }
{
    let Ok(at) = table.binary_search_by(|entry| entry.perm.cmp_printed(&summand.perm)) else {
        return Err(SumFault::Large);
    };
    let entry = &table[at];
    if entry.perm == summand.perm {
        let degree = summand.degree;
        add_elementary_product(&entry.sum, degree, cells, summand.coefficient, sum)
    } else {
        Err(SumFault::Large)
    }
}
