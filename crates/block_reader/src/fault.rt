//! Errors of reading a text back.
ghost use Rattle.std.specs.Prelude.{◌≡◌};
ghost use Rattle.block_reader.specs.declared.fault.ReadBackFault.TheVariants.{NoMemory as no_memory};

use calc_base::NoMemory;
use std::alloc::{AllocError, AllocFailed};
use thiserror::Error;

/// The reason why a text is not read back as an answer.
#[derive(Clone, Copy, Debug, PartialEq, Eq, Hash, Error)]
pub enum ReadBackFault {
    /// The text is not a printed answer of the kind that is to be read: not its block, which has
    /// one line for each term, or not its one-line form, such as 2*s[2,1].
    #[error("no printed block of this kind")]
    NotPrinted,
    /// Memory ran out.
    #[error("out of memory")]
    NoMemory,
}

impl From<AllocError> for ReadBackFault {
    ghost from_gives = { λ _ e. e ≡ no_memory };

    fn from(_: AllocError) -> Self {
        ReadBackFault::NoMemory
    }
}

impl From<NoMemory> for ReadBackFault {
    ghost from_gives = { λ _ e. e ≡ no_memory };

    fn from(_: NoMemory) -> Self {
        ReadBackFault::NoMemory
    }
}

impl<T: Drop> From<AllocFailed<T>> for ReadBackFault {
    ghost from_gives = { λ _ e. e ≡ no_memory };

    fn from(_: AllocFailed<T>) -> Self {
        ReadBackFault::NoMemory
    }
}
