//! The trait of the targets. A target is a basis in which expressions are expanded, with the
//! operations that compute their values.
ghost use Rattle.std.specs.Prelude.{◌≡◌, ℕ, ◌<◌, ◌≤◌, ◌^◌, ◌≤ℤ◌, pos, nat_abs};
ghost use Rattle.sym_model.specs.Expression.{Tree, number, fraction, atom, negation, sum};
ghost use Rattle.sym_model.specs.Expression.{difference, product};
ghost use Rattle.sym_model.specs.Partition.{size};
ghost use Rattle.expression_reading.specs.Trees.{basis_of};
ghost use Rattle.basis_expand.specs.Values.{AreOperands, IsMade, IsMadeOf, IsTaken};
ghost use Rattle.basis_expand.specs.Values.{IsNoHeavier};

use calc_base::{Basis, SumFault};
use partitions::Partition;
use std::alloc::Global;

/// A target: a type of values of expressions, and the operations that compute the value of a node
/// from those of its operands. The contract of each operation states which expression its result
/// represents; it returns `Large` only if that expression is heavy (`heavy`).
pub trait Target {
    /// The type of the value of an expression.
    type Value: Drop;

    /// The greatest degree of an expression that is expanded in the target basis.
    ghost limit: { ℕ };

    /// The relation between an expression and a value that represents it.
    ghost stands: { Self → Tree → Self.Value → Type 0 };

    /// The property of the expressions for which `Large` may be returned.
    ghost heavy: { Self → Tree → Type 0 };

    /// The value of the number `num`/`den`.
    fn quotient(&self, alloc: Global, num: i128, den: u128) -> Result<Self::Value, SumFault>
        requires sign { pos 0 ≤ℤ num }
        requires den { (0 < den) × (den < 2 ^ 127) }
        ensures number { den ≡ 1 → IsMade (stands self.now) (heavy self.now)
            (number (nat_abs num)) result }
        ensures fraction { IsMade (stands self.now) (heavy self.now)
            (fraction (nat_abs num) den) result };

    /// The value of the basis polynomial of the partition `label` in `basis`.
    fn atom(&self, alloc: Global, basis: Basis, label: &Partition) -> Result<Self::Value, SumFault>
        requires { size label.now ≤ limit }
        ensures { IsMade (stands self.now) (heavy self.now)
            (atom (basis_of basis) label.now) result };

    /// The value of the negation of an expression with the value `inner`.
    fn negated(&self, alloc: Global, inner: Self::Value) -> Result<Self::Value, SumFault>
        requires { (e : Tree) × IsTaken limit e × stands self.now e inner }
        ensures { (e : Tree) → IsTaken limit e → stands self.now e inner
            → IsMade (stands self.now) (heavy self.now) (negation e) result };

    /// The value of the sum of two expressions with the values `left` and `right`.
    fn added(
        &self,
        alloc: Global,
        left: Self::Value,
        right: Self::Value,
    ) -> Result<Self::Value, SumFault>
        requires { AreOperands sum limit (stands self.now) left right }
        ensures { IsMadeOf sum limit (stands self.now) (heavy self.now) left right result };

    /// The value of the product of two expressions with the values `left` and `right`.
    fn multiplied(
        &self,
        alloc: Global,
        left: Self::Value,
        right: Self::Value,
    ) -> Result<Self::Value, SumFault>
        requires { AreOperands product limit (stands self.now) left right }
        ensures { IsMadeOf product limit (stands self.now) (heavy self.now) left right result };

    /// Each value that represents e + (-f) also represents e - f.
    ghost differs: { (t : Self) (e f : Tree) (v : Self.Value) → stands t (sum e (negation f)) v
        → stands t (difference e f) v };

    /// If e is heavy, and the numerator, the denominator and the degree of f are at least those of
    /// e, then f is heavy.
    ghost grows: { (t : Self) (e f : Tree) → IsNoHeavier e f → heavy t e → heavy t f };
}
