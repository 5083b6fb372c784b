//! A polynomial whose greatest monomial has the coefficient 1 or -1 can be cancelled from a
//! product.

ghost use Rattle.std.specs.Prelude.{◌≡◌, ℕ, ℤ, pos, neg_ℤ, ◌⊎◌, List, [], ◌∷◌};
ghost use Rattle.sym_model.specs.Sum.{Among};
ghost use Rattle.sym_model.specs.Polynomial.{Term, Poly, Same, In, nothing, join, coefficient};
ghost use Rattle.sym_model.specs.Polynomial.{times};
ghost use Rattle.sym_model.specs.Leading.{Above, Leads};

/// Let f be a polynomial in n variables whose greatest monomial, in the lexicographic order of
/// exponent lists, has the coefficient 1 or -1. If f·g = f·h for polynomials g and h in n
/// variables, then g = h; and f·g is 0 only if g is 0. If the greatest monomial of g has the
/// coefficient 1 or -1 too, then the greatest monomial of f·g is the product of the greatest
/// monomials of f and g, and it also has the coefficient 1 or -1. If the first term of a polynomial
/// is x^top or -x^top, and x^top is above the monomials of all other terms, then x^top is the
/// greatest monomial of the polynomial.
///
/// Example: x₁ - x₂ leads with x₁, so from (x₁ - x₂)·g = (x₁ - x₂)·h follows g = h.
pub fn leading_cancel_law()
    ensures cancel { (n : ℕ) (f g h : Poly) (top : List ℕ) → In n f → In n g → In n h → Leads f top
        → Same (times f g) (times f h) → Same g h }
    ensures not_zero { (n : ℕ) (f g : Poly) (top : List ℕ) → In n f → In n g → Leads f top
        → Same (times f g) nothing → Same g nothing }
    ensures product { (n : ℕ) (f g : Poly) (first second : List ℕ) → In n f → In n g → Leads f first
        → Leads g second → Leads (times f g) (join first second) }
    ensures first_term { (top : List ℕ) (c : ℤ) (f : Poly) → (c ≡ pos 1) ⊎ (c ≡ neg_ℤ (pos 1))
        → ((t : Term) → Among t f → Above top t.0) → Leads ((top, c) ∷ f) top }
    ensures example { let difference = ((1 ∷ 0 ∷ []), pos 1) ∷ ((0 ∷ 1 ∷ []), neg_ℤ (pos 1)) ∷ [] in
        Leads difference (1 ∷ 0 ∷ []) }
    ensures example_product { let difference = ((1 ∷ 0 ∷ []), pos 1) ∷ ((0 ∷ 1 ∷ []), neg_ℤ (pos 1))
        ∷ [] in
        coefficient (times difference difference) (2 ∷ 0 ∷ []) ≡ pos 1 }
{}
