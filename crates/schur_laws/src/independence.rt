//! Schur polynomials are linearly independent, and so are products of Schur polynomials in two sets
//! of variables.

ghost use Rattle.std.specs.Prelude.{ℕ, List};
ghost use Rattle.sym_model.specs.Polynomial.{same};
ghost use Rattle.sym_model.specs.Schur.{schur};
ghost use Rattle.sym_model.specs.Expansion.{pair_polynomial};
ghost use Rattle.sym_model.specs.WholeTerms.{same_pair};
ghost use Rattle.independence_laws.specs.Independence.{AreIndependent, HasRows};
ghost use Rattle.schur_laws.specs.IndependentLabels.{HavePairRows};

/// In k variables, the Schur polynomials s_λ of all partitions λ with at most k rows are linearly
/// independent over the integers (Macdonald, I.3). In n and k further variables, so are the
/// products of s_λ in the first n variables and s_μ in the others, for all λ with at most n rows
/// and μ with at most k.
pub fn schur_independence_law()
    ensures schur { (k : ℕ) → AreIndependent same (HasRows k) (λ (parts : List ℕ). schur parts k) }
    ensures pairs { (n k : ℕ)
        → AreIndependent same_pair (HavePairRows n k) (pair_polynomial n k) }
{}
