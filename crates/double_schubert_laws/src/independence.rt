//! Double Schubert polynomials are linearly independent over the polynomials in y.

ghost use Rattle.std.specs.Prelude.{ℕ, List};
ghost use Rattle.sym_model.specs.WholeTerms.{same_pair};
ghost use Rattle.sym_model.specs.DoubleSchubert.{shifted_in};
ghost use Rattle.independence_laws.specs.Independence.{AreIndependent};
ghost use Rattle.double_schubert_laws.specs.ShortShifts.{IsShortShift};

/// In n variables x and n variables y, the products y^β·S_w(x; y), for all permutations w of at
/// most n letters, each written without fixed letters at the end, and all lists β of at most n
/// exponents without zeros at the end, are linearly independent over the integers. In other words,
/// the S_w(x; y) are linearly independent over the polynomials in y (Macdonald, Notes on Schubert
/// Polynomials, 6).
pub fn double_schubert_independence_law()
    ensures { (n : ℕ) → AreIndependent same_pair (IsShortShift n)
        (λ (label : List ℕ × List ℕ). shifted_in label n) }
{}
