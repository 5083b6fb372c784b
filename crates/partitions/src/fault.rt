//! The errors of lists of numbers that are not partitions.
ghost use Rattle.std.specs.Prelude.{◌≡◌};
ghost use Rattle.partitions.specs.declared.fault.PartFault.TheVariants.{NoMemory as no_memory};

use calc_base::NoMemory;
use std::alloc::AllocError;
use thiserror::Error;

/// The reasons for which a list of numbers is not a partition with at most 512 rows and 4,096
/// cells.
#[derive(Clone, Copy, Debug, PartialEq, Eq, Hash, Error)]
pub enum PartFault {
    /// There are more than 512 parts.
    #[error("more than 512 parts")]
    TooMany,
    /// The number at the place `at`, counted from 0, is greater than the one before it.
    #[error("the number at place {at} is greater than the one before it")]
    Rising { at: usize },
    /// The parts have more than 4,096 cells together.
    #[error("more than 4096 cells")]
    TooBig,
    /// Memory could not be allocated.
    #[error("out of memory")]
    NoMemory,
}

impl From<AllocError> for PartFault {
    ghost from_gives = { λ _ e. e ≡ no_memory };

    fn from(_: AllocError) -> Self {
        PartFault::NoMemory
    }
}

impl From<NoMemory> for PartFault {
    ghost from_gives = { λ _ e. e ≡ no_memory };

    fn from(_: NoMemory) -> Self {
        PartFault::NoMemory
    }
}
