//! Schubert polynomials are linearly independent.

ghost use Rattle.std.specs.Prelude.{ℕ, List};
ghost use Rattle.sym_model.specs.Polynomial.{same};
ghost use Rattle.sym_model.specs.Schubert.{schubert_in};
ghost use Rattle.independence_laws.specs.Independence.{AreIndependent};
ghost use Rattle.schubert_laws.specs.ShortPermutations.{IsShort};

/// In n variables, the Schubert polynomials S_w of all permutations w of at most n letters, each
/// written without fixed letters at the end, are linearly independent over the integers (Macdonald,
/// Notes on Schubert Polynomials, 4).
pub fn schubert_independence_law()
    ensures { (n : ℕ) → AreIndependent same (IsShort n) (λ (w : List ℕ). schubert_in w n) }
{}
