//! The errors of making a monomial from a list of exponents.
ghost use Rattle.std.specs.Prelude.{◌≡◌};
ghost use Rattle.sparse_polys.specs.declared.fault.MonoFault.TheVariants.{NoMemory as no_memory};

use calc_base::NoMemory;
use std::alloc::AllocError;
use thiserror::Error;

/// The reasons for which `Monomial::from_exponents` refuses a list of exponents.
#[derive(Clone, Copy, Debug, PartialEq, Eq, Hash, Error)]
pub enum MonoFault {
    /// There are more than 255 exponents, not counting zeros at the end.
    #[error("more than 255 exponents")]
    TooMany,
    /// The sum of the exponents exceeds 32,385.
    #[error("a degree of more than 32385")]
    TooBig,
    /// Memory could not be allocated.
    #[error("out of memory")]
    NoMemory,
}

impl From<AllocError> for MonoFault {
    ghost from_gives = { λ _ e. e ≡ no_memory };

    fn from(_: AllocError) -> Self {
        MonoFault::NoMemory
    }
}

impl From<NoMemory> for MonoFault {
    ghost from_gives = { λ _ e. e ≡ no_memory };

    fn from(_: NoMemory) -> Self {
        MonoFault::NoMemory
    }
}
