//! The lengths of the columns of a partition.
ghost use Rattle.std.specs.Prelude.{◌≡◌, ◌≤◌, length, IfOk, IsOk};
ghost use Rattle.sym_model.specs.Conjugate.{conjugate, count_from};
ghost use Rattle.sym_model.specs.Partition.{Falls, columns};

use smallvec::SmallVec;
use std::alloc::{AllocError, Global};

/// The length of each column of weakly decreasing parts, from the first column on. Up to 16 columns
/// allocate no memory.
pub(crate) fn column_lengths(alloc: Global, parts: &[u16]) -> Result<SmallVec<u16, 16>, AllocError>
    requires falls { Falls parts.now }
    requires few { length parts.now ≤ 512 }
    ensures ok { IfOk result (λ lengths. lengths.items ≡ conjugate parts.now) }
    ensures inline { columns parts.now ≤ 16 → IsOk result }
{
    let columns = parts.first().copied().unwrap_or(0);
    let mut lengths = SmallVec::with_capacity(alloc, usize::from(columns))?;
    let mut rows = parts.len();
    for j in 0..columns {
        rows = rows_reaching(parts, rows, j + 1);
        lengths.push_reserved(rows as u16);
    }
    Ok(lengths)
}

/// The number of parts, in a weakly decreasing list, that are at least `least`. This number must be
/// at most `most`.
fn rows_reaching(parts: &[u16], most: usize, least: u16) -> usize
    requires falls { Falls parts.now }
    requires within { most ≤ length parts.now }
    requires enough { count_from least parts.now ≤ most }
    ensures { result ≡ count_from least parts.now }
{
    let mut rows = most;
    while rows > 0 && parts[rows - 1] < least {
        rows -= 1;
    }
    rows
}
