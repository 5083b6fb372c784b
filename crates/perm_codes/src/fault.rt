//! The errors of lists of numbers that are not the letters, or not the code, of a permutation.
ghost use Rattle.std.specs.Prelude.{◌≡◌};
ghost use Rattle.perm_codes.specs.declared.fault.PermFault.TheVariants.{NoMemory as no_memory};

use calc_base::NoMemory;
use std::alloc::AllocError;
use thiserror::Error;

/// The reasons for which a list of numbers is not a list of the letters of a permutation, or is not
/// the code of a permutation.
#[derive(Clone, Copy, Debug, PartialEq, Eq, Hash, Error)]
pub enum PermFault {
    /// The list is empty.
    #[error("no letter")]
    Empty,
    /// The list has more than 255 numbers.
    #[error("more than 255 letters")]
    TooMany,
    /// The number at the place `at`, counted from 0, is not allowed: as a letter, it is 0, exceeds
    /// the number of letters or occurs at an earlier place; as an entry of a code, it exceeds the
    /// number of entries after it.
    #[error("the number at place {at} can't stand there")]
    Letter { at: usize },
    /// Memory could not be allocated.
    #[error("out of memory")]
    NoMemory,
}

impl From<AllocError> for PermFault {
    ghost from_gives = { λ _ e. e ≡ no_memory };

    fn from(_: AllocError) -> Self {
        PermFault::NoMemory
    }
}

impl From<NoMemory> for PermFault {
    ghost from_gives = { λ _ e. e ≡ no_memory };

    fn from(_: NoMemory) -> Self {
        PermFault::NoMemory
    }
}
