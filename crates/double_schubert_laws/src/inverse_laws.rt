//! The double Schubert polynomial at x = 0.

ghost use Rattle.std.specs.Prelude.{ℕ, List, length};
ghost use Rattle.sym_model.specs.PlaceOrders.{sign};
ghost use Rattle.sym_model.specs.Polynomial.{Same, scale};
ghost use Rattle.sym_model.specs.Permutation.{IsOneLine, AreInverse};
ghost use Rattle.sym_model.specs.Schubert.{schubert};
ghost use Rattle.sym_model.specs.DoubleSchubert.{double_schubert};
ghost use Rattle.double_schubert_laws.specs.AtZero.{at_x_zero};

/// At x = 0 the double Schubert polynomial S(w; x, y) is, up to the sign of w, the Schubert
/// polynomial of the inverse of w in the variables y (Lascoux and Schützenberger; Macdonald, Notes
/// on Schubert polynomials, VI).
///
/// Example: S(2,1; x, y) = x_1 - y_1 is -y_1 = -S_(2,1)(y) at x = 0.
pub fn double_at_zero_law()
    ensures inverse { (v w : List ℕ) → IsOneLine v → IsOneLine w → AreInverse v w
        → Same (at_x_zero (length w) (double_schubert w (length w)))
        (scale (sign v) (schubert v)) }
{}
