//! Monk's rule and the transition rule for Schubert polynomials.

ghost use Rattle.std.specs.Prelude.{ℕ, ◌≤◌, List};
ghost use Rattle.sym_model.specs.Polynomial.{Same, plus, negate, times};
ghost use Rattle.sym_model.specs.Permutation.{IsOneLine, IsTransition, times_swap, covers_up};
ghost use Rattle.sym_model.specs.Permutation.{covers_down};
ghost use Rattle.sym_model.specs.DividedDifference.{variable_in};
ghost use Rattle.sym_model.specs.Schubert.{schubert_in, schuberts_in};

/// Monk's rule in every number of variables: x_r·S_w is the sum of S_v over the covers v = w·t_rj
/// of w with j > r, minus the sum of S_v over the covers v = w·t_ir of w with i < r. The transition
/// rule: let r be the last descent of w, s the last place whose letter is smaller than that at
/// place r, and v = w·t_rs. Then S_w is x_r·S_v plus the sum of S_u over the covers u = v·t_ir of v
/// with i < r.
///
/// Example: x_2·S_(1,3,2) = S_(1,4,2,3) - S_(3,1,2), so S_(1,4,2,3) = x_2·S_(1,3,2) + S_(3,1,2).
pub fn monk_law()
    ensures monk { (w : List ℕ) (r n : ℕ) → IsOneLine w → 1 ≤ r
        → Same (times (variable_in r n) (schubert_in w n))
        (plus (schuberts_in (covers_up r w) n) (negate (schuberts_in (covers_down r w) n))) }
    ensures transition { (w : List ℕ) (r s n : ℕ) → IsOneLine w → IsTransition w r s
        → Same (schubert_in w n)
        (plus (times (variable_in r n) (schubert_in (times_swap r s w) n))
        (schuberts_in (covers_down r (times_swap r s w)) n)) }
{}
