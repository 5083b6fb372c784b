//! The shapes that remain if a horizontal strip is removed from a shape, or from each shape of a
//! list.
ghost use Rattle.std.specs.Prelude.{◌≡◌, ◌≤◌, ◌++◌, map, IfOk, OnOk};
ghost use Rattle.sym_model.specs.Partition.{IsPartition, part, without_last_zeros};
ghost use Rattle.partitions.specs.Limits.{IsWithinLimits};
ghost use Rattle.schur_laws.specs.Kostka.{strips_off};
ghost use Rattle.basis_expand.specs.Strips.{AreRows};

use calc_base::{NoMemory, SumFault};
use coeff_rings::Int;
use linear_combinations::Rule;
use partitions::Partition;
use sparse_polys::Whole;
use std::alloc::Global;

/// The length of the first row; 0 if there are no rows.
fn first_row(rows: &[u16]) -> u16
    ensures { result ≡ part rows.now 1 }
{
    rows.first().copied().unwrap_or(0)
}

/// Removes a horizontal strip of k cells from `rows`, in all ways, and appends to `shapes` the
/// shapes that have the rows of `above` and below them the rows that remain. The first of `rows`
/// must have at least k cells; k must be 0 if there are no rows. At the end `above` is unchanged.
fn add_strips(
    alloc: Global,
    k: u16,
    rows: &[u16],
    above: &mut Vec<u16>,
    shapes: &mut Vec<Partition>,
) -> Result<(), NoMemory>
    requires shape { IsPartition rows.now }
    requires rows { AreRows (above.old.items ++ rows.now) }
    requires few { k ≤ part rows.now 1 }
    ensures same { OnOk result (above.new.items ≡ above.old.items) }
    ensures shapes { OnOk result (shapes.new.items
        ≡ shapes.old.items ++ map (λ rest. without_last_zeros (above.old.items ++ rest))
        (strips_off k rows.now)) }
{
    let [row, below @ ..] = rows else {
        shapes.push(Partition::from_valid_numbers(alloc, above)?)?;
        return Ok(());
    };
    // The first of the rows `below` has `next` cells, so at most `next` cells can be removed from
    // them.
    let next = first_row(below);
    for cells in k.saturating_sub(next)..k.min(*row - next) + 1 {
        above.push(*row - cells)?;
        add_strips(alloc, k - cells, below, above, shapes)?;
        above.pop();
    }
    Ok(())
}

/// The shapes that remain if a horizontal strip of k cells is removed from the shape with the rows
/// `rows`, in all ways, each shape once.
fn strips_off(alloc: Global, k: u16, rows: &[u16]) -> Result<Vec<Partition>, NoMemory>
    requires { IsWithinLimits rows.now }
    ensures { IfOk result (λ shapes. shapes.items ≡ strips_off k rows.now) }
{
    let mut shapes = Vec::new(alloc);
    if k > first_row(rows) {
        return Ok(shapes);
    }
    let mut above = Vec::with_capacity(alloc, rows.len())?;
    add_strips(alloc, k, rows, &mut above, &mut shapes)?;
    Ok(shapes)
}

/// The rule that replaces a shape by the shapes that remain if a horizontal strip of `cells` cells
/// is removed from it, in all ways.
#[derive(Drop)]
pub(crate) struct HorizontalStrip {
    pub(crate) alloc: Global,
    pub(crate) cells: u16,
}

impl Rule<Partition, Partition> for HorizontalStrip {
    ghost use Rattle.basis_expand.specs.Strips.{strips};

    ghost takes = { λ _ _. Unit {0} };

    ghost image = { λ rule shape. strips rule.cells shape };

    fn add_image(&self, shape: &Partition, c: Int, sum: &mut Whole) -> Result<(), SumFault> {
        let left = strips_off(self.alloc, self.cells, shape.parts())?;
        sum.add_each(&left, c)
    }
}
