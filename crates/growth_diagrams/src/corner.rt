//! The local rule of growth: the shape at the last corner of a square.
ghost use Rattle.std.specs.Prelude.{◌≡◌, ◌≤◌, IfOk};
ghost use Rattle.sym_model.specs.Growth.{at_corner, grown, union, with_cell};
ghost use Rattle.sym_model.specs.Polynomial.{same};
ghost use Rattle.partitions.specs.Limits.{IsWithinLimits};

use calc_base::NoMemory;
use partitions::Partition;
use std::alloc::Global;

/// The growth shape at the last corner of a square, given the shape `lower` at the opposite corner
/// and the shapes `left` and `right` at the other two corners. `marked` says whether the square is
/// that of a pair (i, w(i)) of the permutation w. Fails only if memory runs out.
pub(crate) fn shape_at_corner(
    alloc: Global,
    marked: bool,
    lower: &Partition,
    left: &Partition,
    right: &Partition,
) -> Result<Partition, NoMemory>
    requires { IsWithinLimits (at_corner marked lower.now left.now right.now) }
    ensures { IfOk result (λ shape. shape ≡ at_corner marked lower.now left.now right.now) }
{
    if !are_same(left, right) {
        return union_of(alloc, left, right);
    }
    if !are_same(left, lower) {
        return add_cell(alloc, left, first_longer(left, lower) + 1);
    }
    if marked {
        return add_cell(alloc, lower, 0);
    }
    lower.copy()
}

/// Whether the shapes `left` and `right` are equal.
fn are_same(left: &Partition, right: &Partition) -> bool
    ensures { result ≡ same left.now right.now }
{
    left.parts() == right.parts()
}

/// The first row, counted from 0, that is longer in `left` than in `lower`; the number of rows of
/// `left` if there is no such row.
pub(crate) fn first_longer(left: &Partition, lower: &Partition) -> u16
    ensures row { result ≡ grown left.now lower.now }
    ensures few { result ≤ 512 }
{
    for at in 0..left.rows() {
        if left.part(at + 1) > lower.part(at + 1) {
            return at;
        }
    }
    left.rows()
}

/// The shape with one more cell in row `row`, counted from 0. If the shape has no such row, the
/// cell is a new last row.
fn add_cell(alloc: Global, shape: &Partition, row: u16) -> Result<Partition, NoMemory>
    requires { IsWithinLimits (with_cell row shape.now) }
    ensures { IfOk result (λ larger. larger ≡ with_cell row shape.now) }
{
    let mut parts = Vec::from_slice(alloc, shape.parts())?;
    let at = usize::from(row);
    if at < parts.len() {
        parts[at] += 1;
    } else {
        parts.push(1)?;
    }
    Partition::from_valid_parts(alloc, &parts)
}

/// The union of two shapes: row i is the longer one of their rows i.
fn union_of(alloc: Global, left: &Partition, right: &Partition) -> Result<Partition, NoMemory>
    requires { IsWithinLimits (union left.now right.now) }
    ensures { IfOk result (λ shape. shape ≡ union left.now right.now) }
{
    let mut parts = Vec::new(alloc);
    for at in 0..left.rows().max(right.rows()) {
        parts.push(left.part(at + 1).max(right.part(at + 1)))?;
    }
    Partition::from_valid_parts(alloc, &parts)
}
