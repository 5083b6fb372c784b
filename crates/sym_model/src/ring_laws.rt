//! Polynomials form a commutative ring, and restriction to fewer variables respects its operations.

ghost use Rattle.std.specs.Prelude.{◌≡◌, ℕ, ℤ, ◌+ℤ◌, ◌*ℤ◌};
ghost use Rattle.sym_model.specs.Polynomial.{Poly, Same, In, nothing, one, plus, scale, negate};
ghost use Rattle.sym_model.specs.Polynomial.{times, restrict};

/// Polynomials form a commutative ring with 1: sum and product are associative and commutative,
/// have their units, and distribute; each polynomial has a negative. Sum, product and multiples
/// depend only on the coefficients, and restricting to n variables respects sums, products and 1.
/// If f and g are polynomials in n variables, then f + g, f·g, -f and 1 are polynomials in n
/// variables.
pub fn poly_ring_law()
    ensures plus_associative { (f g h : Poly) → Same (plus (plus f g) h) (plus f (plus g h)) }
    ensures plus_commutative { (f g : Poly) → Same (plus f g) (plus g f) }
    ensures plus_nothing { (f : Poly) → Same (plus f nothing) f }
    ensures plus_negate { (f : Poly) → Same (plus f (negate f)) nothing }
    ensures times_associative { (f g h : Poly) → Same (times (times f g) h) (times f (times g h)) }
    ensures times_commutative { (f g : Poly) → Same (times f g) (times g f) }
    ensures times_one { (n : ℕ) (f : Poly) → In n f → Same (times (one n) f) f }
    ensures distributive { (f g h : Poly)
        → Same (times f (plus g h)) (plus (times f g) (times f h)) }
    ensures scale_times { (c : ℤ) (f g : Poly) → Same (scale c (times f g)) (times (scale c f) g) }
    ensures plus_respects { (f g h k : Poly) → Same f g → Same h k → Same (plus f h) (plus g k) }
    ensures times_respects { (f g h k : Poly) → Same f g → Same h k → Same (times f h) (times g k) }
    ensures scale_respects { (c : ℤ) (f g : Poly) → Same f g → Same (scale c f) (scale c g) }
    ensures restrict_respects { (n : ℕ) (f g : Poly) → Same f g
        → Same (restrict n f) (restrict n g) }
    ensures restrict_plus { (n : ℕ) (f g : Poly)
        → Same (restrict n (plus f g)) (plus (restrict n f) (restrict n g)) }
    ensures restrict_times { (n : ℕ) (f g : Poly)
        → Same (restrict n (times f g)) (times (restrict n f) (restrict n g)) }
    ensures restrict_one { (n k : ℕ) → Same (restrict n (one k)) (one n) }
    ensures one_in { (n : ℕ) → In n (one n) }
    ensures plus_in { (n : ℕ) (f g : Poly) → In n f → In n g → In n (plus f g) }
    ensures times_in { (n : ℕ) (f g : Poly) → In n f → In n g → In n (times f g) }
    ensures negate_in { (n : ℕ) (f : Poly) → In n f → In n (negate f) }
{}
