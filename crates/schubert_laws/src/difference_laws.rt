//! The laws of divided differences ∂_i of polynomials.

ghost use Rattle.std.specs.Prelude.{ℕ, ◌+◌, ◌<◌, ◌≤◌, ℤ};
ghost use Rattle.sym_model.specs.Polynomial.{Poly, Same, In, nothing, plus, scale, negate, times};
ghost use Rattle.sym_model.specs.DividedDifference.{variable, with_exchanged, divided_difference};

/// ∂_i f is the quotient of f - s_i f by x_i - x_(i+1); s_i exchanges x_i and x_(i+1). ∂_i is
/// linear, and ∂_i f depends only on the coefficients of f; ∂_i∂_i = 0; ∂_i and ∂_j commute if they
/// share no variable; ∂_i and ∂_(i+1) satisfy the braid relation; and ∂_i (f·g) is (∂_i f)·g + (s_i
/// f)·(∂_i g).
pub fn divided_difference_law()
    ensures variables { (i n : ℕ) (f : Poly) → In n f → In n (divided_difference i f) }
    ensures quotient { (i n : ℕ) (f : Poly) → 1 ≤ i → i < n → In n f
        → Same (times (plus (variable i) (negate (variable (i + 1)))) (divided_difference i f))
        (plus f (negate (with_exchanged i f))) }
    ensures respects { (i : ℕ) (f g : Poly) → Same f g
        → Same (divided_difference i f) (divided_difference i g) }
    ensures plus { (i : ℕ) (f g : Poly)
        → Same (divided_difference i (plus f g))
        (plus (divided_difference i f) (divided_difference i g)) }
    ensures scale { (i : ℕ) (c : ℤ) (f : Poly)
        → Same (divided_difference i (scale c f)) (scale c (divided_difference i f)) }
    ensures square { (i : ℕ) (f : Poly)
        → Same (divided_difference i (divided_difference i f)) nothing }
    ensures commute { (i j : ℕ) (f : Poly) → i + 2 ≤ j
        → Same (divided_difference i (divided_difference j f))
        (divided_difference j (divided_difference i f)) }
    ensures braid { (i : ℕ) (f : Poly)
        → Same (divided_difference i (divided_difference (i + 1) (divided_difference i f)))
        (divided_difference (i + 1) (divided_difference i (divided_difference (i + 1) f))) }
    ensures product { (i n : ℕ) (f g : Poly) → 1 ≤ i → i < n → In n f → In n g
        → Same (divided_difference i (times f g))
        (plus (times (divided_difference i f) g)
        (times (with_exchanged i f) (divided_difference i g))) }
{}
