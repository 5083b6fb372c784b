//! The reasons why a list of tableaux cannot be continued after a given word.
ghost use Rattle.std.specs.Prelude.{◌≡◌};
ghost use Rattle.tableau_iter.specs.declared.fault.ResumeFault.TheVariants.{NoMemory as no_memory};

use calc_base::NoMemory;
use std::alloc::AllocError;
use thiserror::Error;

/// The reason why a list of tableaux, in which each is given by its column reading, cannot be
/// continued after a word.
#[derive(Clone, Copy, Debug, PartialEq, Eq, Hash, Error)]
pub enum ResumeFault {
    /// The word is not the column reading of a tableau of the list.
    #[error("the word is not in the list")]
    NotInList,
    /// Memory ran out.
    #[error("out of memory")]
    NoMemory,
}

impl From<AllocError> for ResumeFault {
    ghost from_gives = { λ _ e. e ≡ no_memory };

    fn from(_: AllocError) -> Self {
        ResumeFault::NoMemory
    }
}

impl From<NoMemory> for ResumeFault {
    ghost from_gives = { λ _ e. e ≡ no_memory };

    fn from(_: NoMemory) -> Self {
        ResumeFault::NoMemory
    }
}
