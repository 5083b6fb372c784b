//! Double Schubert polynomials do not depend on the path of divided differences nor on fixed
//! letters at the end of the permutation. A letter is fixed if it is equal to its place.

ghost use Rattle.std.specs.Prelude.{◌≡◌, ℕ, ◌+◌, ◌≤◌, List, [], None, map, length};
ghost use Rattle.sym_model.specs.Sum.{Once};
ghost use Rattle.sym_model.specs.Polynomial.{Same, In, one};
ghost use Rattle.sym_model.specs.Partition.{Falls, cells};
ghost use Rattle.sym_model.specs.Permutation.{IsOneLine, IsDescent, exchanged, last_descent, kept};
ghost use Rattle.sym_model.specs.Permutation.{code};
ghost use Rattle.sym_model.specs.DividedDifference.{divided_difference};
ghost use Rattle.sym_model.specs.DoubleSchubert.{product_of, difference_in, double_schubert};
ghost use Rattle.sym_model.specs.DoubleSchubert.{double_schubert_in, restrict_both};

/// Every path of divided differences in x gives the same polynomial: for each descent i of a list
/// w, ∂_i takes S(w; x, y) to S(w·s_i; x, y). S(w; x, y) in m variables x and m variables y is a
/// polynomial in 2m variables.
///
/// If the letters of w are different and its code is weakly decreasing, S(w; x, y) is the product
/// of the x_i - y_j over the cells (i, j) of the diagram of the code. For every w, the restriction
/// of S(w; x, y) to n variables x and n variables y is the same for all numbers m of variables that
/// are at least the length of w. If w is a permutation, the restriction does not depend on fixed
/// letters at the end of w, and for the identity it is 1.
///
/// Example: ∂_2 takes (x_1 - y_1)(x_1 - y_2)(x_2 - y_1) = S(3,2,1; x, y) to (x_1 - y_1)(x_1 - y_2)
/// = S(3,1,2; x, y).
pub fn double_schubert_law()
    ensures descent { (w : List ℕ) (m i : ℕ) → IsDescent w i
        → Same (divided_difference i (double_schubert w m)) (double_schubert (exchanged i w) m) }
    ensures variables { (w : List ℕ) (m : ℕ) → In (m + m) (double_schubert w m) }
    ensures dominant { (w : List ℕ) (m : ℕ) → length w ≤ m → Once w → Falls (code w)
        → Same (double_schubert w m)
        (product_of (m + m) (map (λ cell. difference_in cell.0 cell.1 m) (cells (code w) []))) }
    ensures any_places { (w : List ℕ) (m n : ℕ) → length w ≤ m
        → Same (restrict_both m n (double_schubert w m)) (double_schubert_in w n) }
    ensures identity { (w : List ℕ) (n : ℕ) → IsOneLine w → last_descent w ≡ None
        → Same (double_schubert_in w n) (one (n + n)) }
    ensures kept { (w : List ℕ) (n : ℕ) → IsOneLine w
        → Same (double_schubert_in (kept w) n) (double_schubert_in w n) }
{}
