//! Positions in the words of a command line, the errors of reading these words, the bases of the
//! symmetric functions, and bounds of coefficients.
ghost use Rattle.std.specs.Prelude.{◌≡◌};
ghost use Rattle.calc_base.specs.declared.words.WordsFault.TheVariants.{NoMemory as no_memory};

use crate::NoMemory;
use std::alloc::{AllocError, AllocFailed};
use thiserror::Error;

/// A position in the words of a command: the index of a word and of a byte in it.
#[derive(Clone, Copy, Debug, PartialEq, Eq, PartialOrd, Ord, Hash)]
pub struct Place {
    /// The word of the command, counted from 0; word 0 is the name of the command.
    pub word: u64,
    /// The byte in that word, counted from 0.
    pub byte: u64,
}

/// The reason why words are not a command that can be run: their first error, with its place, or
/// that memory ran out.
#[derive(Clone, Copy, Debug, PartialEq, Eq, Hash, Error)]
pub enum WordsFault {
    /// No command has these words; the first error is at this place.
    #[error("no command, at byte {byte} of word {word}", byte = .at.byte, word = .at.word)]
    Syntax { at: Place },
    /// A number that exceeds 2^127 - 1 begins at this place.
    #[error("a number too large, at byte {byte} of word {word}", byte = .at.byte, word = .at.word)]
    Literal { at: Place },
    /// A limit is exceeded at this place.
    #[error("past a limit, at byte {byte} of word {word}", byte = .at.byte, word = .at.word)]
    Range { at: Place },
    /// A list at this place is not of the required kind, for example a partition with increasing
    /// parts.
    #[error("a list out of shape, at byte {byte} of word {word}", byte = .at.byte, word = .at.word)]
    Shape { at: Place },
    /// Out of memory.
    #[error("out of memory")]
    NoMemory,
}

impl From<NoMemory> for WordsFault {
    ghost from_gives = { λ _ e. e ≡ no_memory };

    fn from(_: NoMemory) -> Self {
        WordsFault::NoMemory
    }
}

impl From<AllocError> for WordsFault {
    ghost from_gives = { λ _ e. e ≡ no_memory };

    fn from(_: AllocError) -> Self {
        WordsFault::NoMemory
    }
}

impl<T: Drop> From<AllocFailed<T>> for WordsFault {
    ghost from_gives = { λ _ e. e ≡ no_memory };

    fn from(_: AllocFailed<T>) -> Self {
        WordsFault::NoMemory
    }
}

/// A basis of the symmetric functions: monomial, elementary, complete homogeneous,
/// power sums and Schur functions.
#[derive(Clone, Copy, Debug, PartialEq, Eq, Hash)]
pub enum Basis {
    /// Monomial symmetric functions.
    M,
    /// Elementary symmetric functions.
    E,
    /// Complete homogeneous symmetric functions.
    H,
    /// Power sums.
    P,
    /// Schur functions.
    S,
}

/// Bounds of the coefficients of a list of terms: `den` is a multiple of the denominator of each
/// coefficient, and for each coefficient c, |c|·`den` is at most `num` times a number that depends
/// only on the partition that labels the term of c.
#[derive(Clone, Copy, Debug, PartialEq, Eq, Hash)]
pub struct Weight {
    /// The bound for the coefficients times `den`, up to a factor that depends only on the
    /// partition that labels the term.
    pub num: u128,
    /// A multiple of the denominator of each coefficient.
    pub den: u128,
}
