//! Lists of terms in the monomial basis m with integer coefficients. Each list is the value of an
//! expression times the denominator of the expression, so that no fractions occur in the
//! computation.
ghost use Rattle.std.specs.Prelude.{◌<◌, ◌^◌};
ghost use Rattle.std.proofs.Props.{props};
ghost use Rattle.sparse_polys.specs.Tables.{IsWholeTable};

use sparse_polys::Whole;

/// The value of an expression times its denominator `den`, as the list `terms` in m.
#[derive(Drop)]
pub(crate) struct Cleared {
    pub(crate) terms: Whole,
    pub(crate) den: u128,
    ghost table: { IsWholeTable terms } by { Prim.hlevel props },
    ghost positive: { 0 < den },
    ghost small: { den < 2 ^ 127 },
}
