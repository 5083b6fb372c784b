//! Tables of the number of entries for each remainder modulo n.
ghost use Rattle.std.specs.Prelude.{◌≡◌, replicate};

/// The greatest number n of cells of a rim hook, which is the length of a table of remainders.
pub(crate) const MAX_CELLS: usize = 512;

/// The table in which each number is 0.
pub(crate) fn no_counts() -> [u16; MAX_CELLS]
    ensures { result ≡ replicate 512 0 }
{
    [0; MAX_CELLS]
}
