//! Monk's rule for the divided differences of a product.

ghost use Rattle.std.specs.Prelude.{ℕ, ◌+◌, ◌-◌, ◌≤◌, List, length};
ghost use Rattle.sym_model.specs.Polynomial.{Poly, Same, In, plus, negate, times};
ghost use Rattle.sym_model.specs.Permutation.{IsOneLine, letter};
ghost use Rattle.sym_model.specs.DividedDifference.{variable};
ghost use Rattle.sym_model.specs.Schubert.{schubert_over};
ghost use Rattle.schubert_laws.specs.PathCovers.{covers_after, covers_before, each_over};

/// For a polynomial g and a permutation p of m letters, let U_p(g) be the divided difference of g
/// along a path from m, .., 1 to p (`schubert_over`), so that U_p of the staircase monomial is S_p.
/// Then, for each place r of p and j = m + 1 - p(r), x_r·U_p(g) is U_p(x_j·g), plus the sum of U_v(g) over the covers v =
/// p·t_rb of p with r < b ≤ m, minus the sum of U_v(g) over the covers v = p·t_ar with a < r.
///
/// For the staircase monomial, and m greater than the last place that Monk's rule exchanges, this
/// is Monk's rule. At x = 0 it gives the coefficients of a product x_j·g in the basis of Schubert
/// polynomials from those of g.
///
/// Example: for p = 1 2 and g = x_1^2, U_p(g) = x_1 + x_2; with r = 1, j = 2: x_1·(x_1 + x_2) is
/// U_p(x_2·g) = x_1·x_2, plus U_(2,1)(g) = x_1^2.
pub fn dual_monk_law()
    ensures dual { (g : Poly) (n r : ℕ) (p : List ℕ) → In n g → length p ≤ n → IsOneLine p → 1 ≤ r
        → r ≤ length p → Same (times (variable r) (schubert_over g p))
        (plus (schubert_over (times (variable (length p + 1 - letter p r)) g) p)
        (plus (each_over g (covers_after r p)) (negate (each_over g (covers_before r p))))) }
{}
