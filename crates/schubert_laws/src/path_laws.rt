//! Schubert polynomials depend neither on the path of divided differences that computes them, nor
//! on fixed letters at the end of the permutation.

ghost use Rattle.std.specs.Prelude.{◌≡◌, ℕ, ◌+◌, List, [], ◌∷◌, ◌++◌, length};
ghost use Rattle.sym_model.specs.Sum.{Once};
ghost use Rattle.sym_model.specs.Polynomial.{Poly, Same, In, restrict};
ghost use Rattle.sym_model.specs.Partition.{Falls};
ghost use Rattle.sym_model.specs.Permutation.{IsOneLine, IsDescent, first_ascent, exchanged, code};
ghost use Rattle.sym_model.specs.DividedDifference.{x_to, divided_difference};
ghost use Rattle.sym_model.specs.Schubert.{schubert, schubert_over, schubert_in};

/// Let S(w), for any polynomial g, be g if w has no ascent, and otherwise ∂_i of S(w·s_i), with i
/// the first ascent of w (`schubert_over`). Every path gives the same polynomials: ∂_i takes S(w)
/// to S(w·s_i) for each descent i of w. The Schubert polynomial S_w of a list w of n letters is a
/// polynomial in n variables. A fixed letter added at the end of a permutation w does not change
/// S_w. If the letters of w are different, and its code is weakly decreasing, S_w is the monomial
/// whose exponents are the code.
///
/// Example: ∂_2 takes S_(3,2,1) = x_1^2·x_2 to S_(3,1,2) = x_1^2.
pub fn path_law()
    ensures top { (g : Poly) (w : List ℕ) → first_ascent w ≡ None → schubert_over g w ≡ g }
    ensures step { (g : Poly) (w : List ℕ) (i : ℕ) → first_ascent w ≡ Some i
        → schubert_over g w ≡ divided_difference i (schubert_over g (exchanged i w)) }
    ensures every_path { (g : Poly) (w : List ℕ) (i : ℕ) → IsDescent w i
        → Same (divided_difference i (schubert_over g w)) (schubert_over g (exchanged i w)) }
    ensures descent { (w : List ℕ) (i : ℕ) → IsDescent w i
        → Same (divided_difference i (schubert w)) (schubert (exchanged i w)) }
    ensures variables { (w : List ℕ) → In (length w) (schubert w) }
    ensures fixed_letter { (w : List ℕ) → IsOneLine w
        → Same (schubert (w ++ ((length w + 1) ∷ []))) (restrict (length w + 1) (schubert w)) }
    ensures fixed_letter_in { (w : List ℕ) (n : ℕ) → IsOneLine w
        → Same (schubert_in (w ++ ((length w + 1) ∷ [])) n) (schubert_in w n) }
    ensures dominant { (w : List ℕ) → Once w → Falls (code w) → Same (schubert w) (x_to (code w)) }
{}
