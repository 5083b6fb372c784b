//! The m_λ are linearly independent.

ghost use Rattle.std.specs.Prelude.{ℕ, List};
ghost use Rattle.sym_model.specs.Polynomial.{same};
ghost use Rattle.sym_model.specs.Bases.{monomial};
ghost use Rattle.independence_laws.specs.Independence.{AreIndependent, HasRows};

/// In n variables, the m_λ of all partitions λ with at most n rows are linearly independent over
/// the integers (Macdonald, I.2).
pub fn monomial_independence_law()
    ensures { (n : ℕ) → AreIndependent same (HasRows n) (λ (parts : List ℕ). monomial parts n) }
{}
