//! The values of expressions: lists of terms with integer coefficients in the target basis, which
//! is e, h or p in which the expressions are expanded.
ghost use Rattle.std.specs.Prelude.{◌<◌, ◌^◌};
ghost use Rattle.std.proofs.Props.{props};
ghost use Rattle.sparse_polys.specs.Tables.{IsWholeTable};

use sparse_polys::Whole;

/// The value of an expression of degree d = `degree` with the denominator `den`: the list `terms`
/// in the target basis is the expression times `den`·d!.
#[derive(Drop)]
pub(crate) struct Node {
    pub(crate) terms: Whole,
    pub(crate) den: u128,
    pub(crate) degree: u16,
    ghost table: { IsWholeTable terms } by { Prim.hlevel props },
    ghost positive: { 0 < den },
    ghost small: { den < 2 ^ 127 },
}
