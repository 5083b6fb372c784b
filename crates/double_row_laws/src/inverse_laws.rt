//! Double Schubert polynomials of inverse permutations.

ghost use Rattle.std.specs.Prelude.{ℕ, List, length};
ghost use Rattle.sym_model.specs.PlaceOrders.{sign};
ghost use Rattle.sym_model.specs.Polynomial.{Same, scale};
ghost use Rattle.sym_model.specs.Permutation.{IsOneLine, AreInverse};
ghost use Rattle.sym_model.specs.DoubleSchubert.{double_schubert};
ghost use Rattle.double_row_laws.specs.ExchangedAlphabets.{exchange_alphabets};

/// S_w(y; x), the double Schubert polynomial of w with the two alphabets exchanged, is, up to the
/// sign of w, the double Schubert polynomial S_v(x; y) of the inverse v of w (Lascoux and
/// Schützenberger; Macdonald, Notes on Schubert polynomials, VI).
///
/// Example: S_(3,1,2)(y; x) = (y_1 - x_1)(y_1 - x_2) is S_(2,3,1)(x; y).
pub fn double_inverse_law()
    ensures inverse { (v w : List ℕ) → IsOneLine v → IsOneLine w → AreInverse v w
        → Same (exchange_alphabets (length w) (double_schubert w (length w)))
        (scale (sign v) (double_schubert v (length v))) }
{}
