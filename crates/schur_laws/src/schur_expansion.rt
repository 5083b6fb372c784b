//! Schur polynomials in the monomial basis: their coefficients are Kostka numbers, in every number
//! of variables.

ghost use Rattle.std.specs.Prelude.{◌≡◌, ℕ, ◌≤◌, ℤ, pos, nat_abs, List, [], ◌∷◌, length};
ghost use Rattle.sym_model.specs.Partition.{IsPartition, size};
ghost use Rattle.sym_model.specs.Polynomial.{coefficient};
ghost use Rattle.sym_model.specs.Schur.{schur};
ghost use Rattle.sym_model.specs.Expansion.{monomials};
ghost use Rattle.sym_model.specs.Weight.{growth};
ghost use Rattle.sym_model.specs.WholeTerms.{WholeTerms};
ghost use Rattle.monomial_laws.specs.ExpressionTerms.{IsList};
ghost use Rattle.schur_laws.specs.Kostka.{kostka};

/// If the coefficient of a list of terms in the monomial basis m is, at each partition κ, the
/// Kostka number K(λ,κ), then the list is s_λ, in every number of variables. K(λ,κ) is the number
/// of ways to remove all cells of λ by horizontal strips of κ₁, κ₂, .. cells, one strip after
/// another. It is the coefficient of x^κ in s_λ, that is, the number of semistandard tableaux of
/// shape λ and content κ, also if κ is not decreasing. It is at most d^d for the size d of λ, or 1
/// if d = 0.
///
/// Example: K((2,1),(1,1,1)) is 2: two tableaux of shape (2,1) have the content (1,1,1).
pub fn schur_in_monomials_law()
    ensures expansion { (parts : List ℕ) (terms : WholeTerms) → IsPartition parts
        → ((κ : List ℕ) → IsPartition κ → coefficient terms κ ≡ kostka parts κ)
        → IsList terms (schur parts) }
    ensures numbers { (parts content : List ℕ) → IsPartition parts
        → kostka parts content ≡ coefficient (schur parts (length content)) content }
    ensures bounded { (parts content : List ℕ) → IsPartition parts
        → nat_abs (kostka parts content) ≤ growth monomials (size parts) }
    ensures example { kostka (2 ∷ 1 ∷ []) (1 ∷ 1 ∷ 1 ∷ []) ≡ pos 2 }
{}
