//! The results and the errors of reading the next line.
ghost use Rattle.std.specs.Prelude.{◌≡◌};
ghost use Rattle.batch_lines.specs.declared.next.LineFault.TheVariants.{NoMemory as no_memory};

use calc_base::NoMemory;
use thiserror::Error;

/// The result of reading the next line.
#[derive(Clone, Copy, Debug, PartialEq, Eq, Hash)]
pub enum Next {
    /// A line of at most 4,096 bytes.
    Line,
    /// A line of more than 4,096 bytes.
    TooLong,
    /// No line: the source has ended.
    End,
}

/// The reason why no line was read.
#[derive(Clone, Copy, Debug, PartialEq, Eq, Hash, Error)]
pub enum LineFault {
    /// A call of the source failed.
    #[error("reading failed")]
    SourceFault,
    /// Memory ran out.
    #[error("out of memory")]
    NoMemory,
}

impl From<NoMemory> for LineFault {
    ghost from_gives = { λ _ e. e ≡ no_memory };

    fn from(_: NoMemory) -> Self {
        LineFault::NoMemory
    }
}
