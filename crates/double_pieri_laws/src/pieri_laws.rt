//! Pieri's formula for double Schubert polynomials.

ghost use Rattle.std.specs.Prelude.{ℕ, ◌+◌, List};
ghost use Rattle.sym_model.specs.Polynomial.{Same, times};
ghost use Rattle.sym_model.specs.Permutation.{IsOneLine};
ghost use Rattle.sym_model.specs.DoubleSchubert.{double_schubert_in};
ghost use Rattle.double_pieri_laws.specs.DoubleChains.{elementary_of, first_x, over_chains};

/// Pieri's formula for double Schubert polynomials, in every number of variables: e_d(x_1, ..,
/// x_k)·S_w(x; y) is the sum of e_(d-j)(y_a)·S_v(x; y) over the chains of j ≤ d covers w → w·t_ab →
/// .. → v with a ≤ k < b in each cover, in which the greater letters of the exchanged pairs decrease
/// strictly; here y_a runs over the variables y of the letters a = w(i) = v(i) that have the
/// same place i ≤ k in w and v (a form of the equivariant Pieri rule of Robinson, of Li, Ravikumar,
/// Sottile and Yang, and of Samuel). At y = 0 this is Sottile's formula.
///
/// The proof adds one place to k at a time, as that of Sottile's formula: the step is Monk's rule
/// for double Schubert polynomials without its terms with a letter above m.
///
/// Example: e_1(x_1)·S_(2,1)(x; y) = y_2·S_(2,1)(x; y) + S_(3,1,2)(x; y).
pub fn double_pieri_law()
    ensures pieri { (w : List ℕ) (d k n : ℕ) → IsOneLine w
        → Same (times (elementary_of (n + n) d (first_x k n)) (double_schubert_in w n))
        (over_chains d k w n) }
{}
