//! The reasons why a list of numbers is not the column reading of a tableau.
ghost use Rattle.std.specs.Prelude.{◌≡◌};
ghost use Rattle.skew_shapes.specs.declared.fault.TableauFault.TheVariants.{NoMemory as no_memory};

use calc_base::NoMemory;
use std::alloc::AllocError;
use thiserror::Error;

/// The reason why a list of numbers is not the column reading of a tableau of a given shape.
#[derive(Clone, Copy, Debug, PartialEq, Eq, Hash, Error)]
pub enum TableauFault {
    /// The number of entries differs from the number of cells.
    #[error("the number of entries is not that of the cells")]
    Length,
    /// The filling is not semistandard with entries at least 1.
    #[error("the filling is not semistandard with entries at least 1")]
    Order,
    /// Memory ran out.
    #[error("out of memory")]
    NoMemory,
}

impl From<AllocError> for TableauFault {
    ghost from_gives = { λ _ e. e ≡ no_memory };

    fn from(_: AllocError) -> Self {
        TableauFault::NoMemory
    }
}

impl From<NoMemory> for TableauFault {
    ghost from_gives = { λ _ e. e ≡ no_memory };

    fn from(_: NoMemory) -> Self {
        TableauFault::NoMemory
    }
}
