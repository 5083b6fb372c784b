//! Monomials are linearly independent.

ghost use Rattle.std.specs.Prelude.{ℕ, List};
ghost use Rattle.sym_model.specs.Polynomial.{same};
ghost use Rattle.sym_model.specs.DividedDifference.{x_to_in};
ghost use Rattle.independence_laws.specs.Independence.{AreIndependent, HasPlaces};

/// Let n be a number of variables. The monomials x^α, for all lists α of at most n exponents
/// without zeros at the end, are linearly independent over the integers.
pub fn power_independence_law()
    ensures { (n : ℕ) → AreIndependent same (HasPlaces n) (λ (α : List ℕ). x_to_in α n) }
{}
