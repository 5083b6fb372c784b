//! The errors of lists of factors.
ghost use Rattle.std.specs.Prelude.{◌≡◌};
ghost use Rattle.partitions.specs.declared.factors_fault.FactorsFault.TheVariants.{NoMemory as no_memory};

use calc_base::NoMemory;
use std::alloc::{AllocError, AllocFailed};
use thiserror::Error;

/// The reasons for which a list of factors cannot be formed, or no factor can be appended to it.
#[derive(Clone, Copy, Debug, PartialEq, Eq, Hash, Error)]
pub enum FactorsFault {
    /// There would be more than 8 factors.
    #[error("more than 8 factors")]
    TooMany,
    /// The factors would have more than 4,096 cells or more than 512 rows together.
    #[error("more than 4096 cells or 512 rows in all")]
    TooBig,
    /// Memory could not be allocated.
    #[error("out of memory")]
    NoMemory,
}

impl From<AllocError> for FactorsFault {
    ghost from_gives = { λ _ e. e ≡ no_memory };

    fn from(_: AllocError) -> Self {
        FactorsFault::NoMemory
    }
}

impl<T: Drop> From<AllocFailed<T>> for FactorsFault {
    ghost from_gives = { λ _ e. e ≡ no_memory };

    fn from(_: AllocFailed<T>) -> Self {
        FactorsFault::NoMemory
    }
}

impl From<NoMemory> for FactorsFault {
    ghost from_gives = { λ _ e. e ≡ no_memory };

    fn from(_: NoMemory) -> Self {
        FactorsFault::NoMemory
    }
}
