//! Pieri's formula for Schubert polynomials.

ghost use Rattle.std.specs.Prelude.{ℕ, List};
ghost use Rattle.sym_model.specs.Polynomial.{Same, times};
ghost use Rattle.sym_model.specs.Permutation.{IsOneLine};
ghost use Rattle.sym_model.specs.Schubert.{schubert_in, schuberts_in};
ghost use Rattle.schubert_laws.specs.Chains.{elementary_in, chains};

/// Pieri's formula in every number of variables (Sottile; conjectured by Bergeron and Billey): e_d(x_1, .., x_k)·S_w is
/// the sum of S_v over the chains of d covers w → w·t_ab → .. → v with a ≤ k < b in each cover, in
/// which the greater letters of the exchanged pairs decrease strictly.
///
/// The proof adds one place to k at a time. For chains whose greater letters are at most m, the
/// step is Monk's rule without its terms with a letter above m; this follows by induction on m from
/// two relations of covers, of which one exchanges two covers at four different places, and the
/// other is (ab)(kb) + (ak)(ab) = (kb)(ak).
///
/// Example: e_2(x_1, x_2)·S_(2,1) = x_1·x_2·x_1 = S_(3,2,1).
pub fn schubert_pieri_law()
    ensures pieri { (w : List ℕ) (d k n : ℕ) → IsOneLine w
        → Same (times (elementary_in d k n) (schubert_in w n)) (schuberts_in (chains d k w) n) }
{}
