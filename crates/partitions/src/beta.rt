//! Beta lists of partitions.
ghost use Rattle.std.specs.Prelude.{◌≡◌, ◌+◌, ◌≤◌, length, IfOk};
ghost use Rattle.sym_model.specs.BetaList.{beta, less_the_rest};
ghost use Rattle.sym_model.specs.Partition.{rows};
ghost use Rattle.partitions.specs.Limits.{IsWithinLimits};

use crate::lists::number_at;
use smallvec::SmallVec;
use std::alloc::{AllocError, Global};
use std::marker::Model;

/// A beta list of a partition λ: the numbers λ_i + k - i for i from 1 to some k. A list of up to 16
/// entries allocates no memory.
#[derive(Debug, Drop)]
pub struct Beta {
    entries: SmallVec<u16, 16>,
}

impl Model for Beta {
    ghost use Rattle.std.specs.Prelude.{ℕ, List};

    ghost Value = { List ℕ };

    ghost view = { λ b. b.entries.items };
}

impl Beta {
    pub(crate) fn new(entries: SmallVec<u16, 16>) -> Beta
        ensures { result ≡ entries.items }
    {
        Beta { entries }
    }

    /// The entries of the beta list.
    pub fn as_slice(&self) -> &[u16]
        ensures { result.now ≡ self.now }
    {
        self.entries.as_slice()
    }
}

/// The beta list of length `k` of a partition.
pub(crate) fn lengthened(
    alloc: Global,
    parts: &[u16],
    k: u16,
) -> Result<SmallVec<u16, 16>, AllocError>
    requires limits { IsWithinLimits parts.now }
    requires rows { rows parts.now ≤ k }
    requires few { k ≤ 512 }
    ensures { IfOk result (λ entries. entries.items ≡ beta k parts.now) }
{
    let mut entries = SmallVec::with_capacity(alloc, usize::from(k))?;
    for i in 0..k {
        let part = number_at(parts, usize::from(i));
        entries.push(part + (k - 1 - i))?;
    }
    Ok(entries)
}

/// The list in which each entry is replaced by the entry minus the number of entries after it.
pub(crate) fn less_the_later(
    alloc: Global,
    entries: &[u16],
) -> Result<SmallVec<u16, 16>, AllocError>
    requires { length entries.now ≤ 512 }
    ensures { IfOk result (λ numbers. numbers.items ≡ less_the_rest entries.now) }
{
    let mut numbers = SmallVec::with_capacity(alloc, entries.len())?;
    let mut later = entries.len() as u16;
    for entry in entries {
        later -= 1;
        numbers.push(entry.saturating_sub(later))?;
    }
    Ok(numbers)
}
