//! Monk's rule and the transition rule for double Schubert polynomials.

ghost use Rattle.std.specs.Prelude.{ℕ, ◌≤◌, List};
ghost use Rattle.sym_model.specs.Polynomial.{Same, plus, negate, times};
ghost use Rattle.sym_model.specs.Permutation.{IsOneLine, IsTransition, letter, times_swap};
ghost use Rattle.sym_model.specs.Permutation.{covers_up, covers_down};
ghost use Rattle.sym_model.specs.DoubleSchubert.{difference_in, double_schubert_in};
ghost use Rattle.sym_model.specs.DoubleSchubert.{double_schuberts_in};

/// Monk's rule in every number of variables: (x_r - y_w(r))·S_w is the sum of S_v over the covers v
/// = w·t_rj with j > r minus that over the covers v = w·t_ir with i < r. The transition rule is
/// this rule at the last descent r of w: with s the last place whose letter is smaller than that at
/// place r, and v = w·t_rs, S_w is (x_r - y_v(r))·S_v plus the sum of S_u over the covers u =
/// v·t_ir with i < r.
///
/// Example: (x_2 - y_3)·S_(1,3,2) = S_(1,4,2,3) - S_(3,1,2), so S_(1,4,2,3) = (x_2 - y_3)·S_(1,3,2)
/// + S_(3,1,2).
pub fn double_monk_law()
    ensures monk { (w : List ℕ) (r n : ℕ) → IsOneLine w → 1 ≤ r
        → Same (times (difference_in r (letter w r) n) (double_schubert_in w n))
        (plus (double_schuberts_in (covers_up r w) n)
        (negate (double_schuberts_in (covers_down r w) n))) }
    ensures transition { (w : List ℕ) (r s n : ℕ) → IsOneLine w → IsTransition w r s
        → Same (double_schubert_in w n)
        (plus (times (difference_in r (letter (times_swap r s w) r) n)
        (double_schubert_in (times_swap r s w) n))
        (double_schuberts_in (covers_down r (times_swap r s w)) n)) }
{}
