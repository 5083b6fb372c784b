//! Readers and writers for which no call changes whether their bytes are known.
ghost use Rattle.std.specs.Prelude.{◌≡◌, refl, is_some};

use std::io::{Read, Stdin, Stdout, Write};

/// A reader of which the bytes that are left are known at all times or at none. `Read` does not
/// exclude that a call makes them known.
pub trait SteadyRead: Read {
    /// If the bytes that are left are known in one state, they are known in every other.
    ghost steady: { (a b : Self) → is_some (Self.remaining b) ≡ is_some (Self.remaining a) };
}

impl SteadyRead for Stdin {
    ghost steady = { λ a b. refl };
}

/// A writer of which the bytes that it received are known at all times or at none. `Write` does not
/// exclude that a call makes them known.
pub trait SteadyWrite: Write {
    /// If the bytes received are known in one state, they are known in every other.
    ghost steady: { (a b : Self) → is_some (Self.contents b) ≡ is_some (Self.contents a) };
}

impl SteadyWrite for Stdout {
    ghost steady = { λ a b. refl };
}

impl<W: SteadyWrite> SteadyWrite for &mut W {
    ghost steady = { λ a b. W.steady a.now b.now };
}
