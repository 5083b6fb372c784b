//! Bounds for the coefficients of the value of an expression.

ghost use Rattle.std.specs.Prelude.{◌≡◌, ℕ, ◌*◌, ◌<◌, ◌≤◌, pos, nat_abs, List, length};
ghost use Rattle.sym_model.specs.Polynomial.{coefficient};
ghost use Rattle.sym_model.specs.Partition.{size};
ghost use Rattle.sym_model.specs.Expression.{Tree, degree, cleared_value};
ghost use Rattle.sym_model.specs.Weight.{factorial, numerator};
ghost use Rattle.monomial_laws.specs.Majorant.{IsBounded};
ghost use Rattle.sym_model.specs.ListWeight.{factorials};

/// Let V be the value of an expression times its common denominator, in n variables. Let N be
/// `numerator e`, which is computed from the numbers of the expression: if V is multiplied out into
/// a sum of products of atoms, the absolute values of the coefficients of these products add up to
/// at most N. Then V is bounded, coefficient by coefficient, by a sum of at most N powers of
/// x₁ + .. + xₙ with exponents up to the degree of the expression (`IsBounded`). So the coefficient
/// of x^α in V, if α has the sum d, is at most N·d!/Π αᵢ! in absolute value, and it is 0 if d
/// exceeds the degree.
pub fn expression_bound_law()
    ensures bounded { (e : Tree) (n : ℕ)
        → IsBounded (numerator e) (degree e) n (cleared_value e n) }
    ensures coefficients { (e : Tree) (n : ℕ) (α : List ℕ) → length α ≡ n
        → nat_abs (coefficient (cleared_value e n) α) * factorials α
        ≤ numerator e * factorial (size α) }
    ensures no_higher { (e : Tree) (n : ℕ) (α : List ℕ) → length α ≡ n → degree e < size α
        → coefficient (cleared_value e n) α ≡ pos 0 }
{}
