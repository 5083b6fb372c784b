//! The length of a row of a partition, the cells of a skew shape, and the type of the rows of a rim
//! hook.
ghost use Rattle.std.specs.Prelude.{◌≡◌, ◌+◌, ◌<◌, ◌≤◌, length};
ghost use Rattle.skew_shapes.specs.Rows.{reaches};
ghost use Rattle.sym_model.specs.Partition.{part};

use partitions::number_at;

/// The first and the last row of a rim hook, counted from 1.
#[derive(Clone, Copy)]
pub(crate) struct HookRows {
    pub(crate) first: u16,
    pub(crate) last: u16,
}

/// The length of row `row` of the partition, counted from 1; 0 after its last row.
pub(crate) fn length_of(parts: &[u16], row: u16) -> u16
    requires { 1 ≤ row }
    ensures { result ≡ part parts.now row }
{
    match parts.get(usize::from(row) - 1) {
        Some(part) => *part,
        None => 0,
    }
}

/// Whether outer/inner has a cell in column `column` of row `row`, with rows counted from 0 and
/// columns from 1. `row` must be a row of outer.
pub fn has_cell(outer: &[u16], inner: &[u16], row: usize, column: u16) -> bool
    requires { row < length outer.now }
    ensures { result ≡ reaches outer.now inner.now column (row + 1) }
{
    number_at(inner, row) < column && column <= outer[row]
}
