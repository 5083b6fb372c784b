//! The errors of calls that fail because of memory, a source, a sink or a number that is too large.
ghost use Rattle.std.specs.Prelude.{◌≡◌};
ghost use Rattle.calc_base.specs.declared.faults.SumFault.TheVariants.{Large as large, NoMemory as no_memory};

use std::alloc::{AllocError, AllocFailed};
use thiserror::Error;

/// The limit 2^127: a number that is at least as great is too large.
pub const LIMIT: u128 = 1 << 127;

/// Memory could not be allocated.
#[derive(Clone, Copy, Debug, PartialEq, Eq, Hash, Error)]
#[error("out of memory")]
pub struct NoMemory;

/// A number is too large. This type is the error of functions that allocate no memory and so cannot
/// fail for lack of memory.
#[derive(Clone, Copy, Debug, PartialEq, Eq, Hash, Error)]
#[error("a number is too large")]
pub struct Large;

/// Reading from a source failed.
#[derive(Clone, Copy, Debug, PartialEq, Eq, Hash, Error)]
#[error("reading failed")]
pub struct SourceFault;

/// Writing to a sink failed.
#[derive(Clone, Copy, Debug, PartialEq, Eq, Hash, Error)]
#[error("writing failed")]
pub struct SinkFault;

/// The reasons for which a sum of terms is not returned.
#[derive(Clone, Copy, Debug, PartialEq, Eq, Hash, Error)]
pub enum SumFault {
    /// A coefficient is too large.
    #[error("a coefficient is too large")]
    Large,
    /// Memory could not be allocated.
    #[error("out of memory")]
    NoMemory,
}

impl From<AllocError> for NoMemory {
    fn from(_: AllocError) -> Self {
        NoMemory
    }
}

impl<T: Drop> From<AllocFailed<T>> for NoMemory {
    fn from(_: AllocFailed<T>) -> Self {
        NoMemory
    }
}

impl From<Large> for SumFault {
    ghost from_gives = { λ _ e. e ≡ large };

    fn from(_: Large) -> Self {
        SumFault::Large
    }
}

impl From<NoMemory> for SumFault {
    ghost from_gives = { λ _ e. e ≡ no_memory };

    fn from(_: NoMemory) -> Self {
        SumFault::NoMemory
    }
}

impl From<AllocError> for SumFault {
    ghost from_gives = { λ _ e. e ≡ no_memory };

    fn from(_: AllocError) -> Self {
        SumFault::NoMemory
    }
}

impl<T: Drop> From<AllocFailed<T>> for SumFault {
    ghost from_gives = { λ _ e. e ≡ no_memory };

    fn from(_: AllocFailed<T>) -> Self {
        SumFault::NoMemory
    }
}
