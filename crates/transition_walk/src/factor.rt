//! The trait `Factor`. The transition rule writes S_w as a factor times S_v, plus a sum of other
//! Schubert polynomials; a `Factor` is this factor, as an operation on lists of labels.
ghost use Rattle.std.specs.Prelude.{◌≡◌, ℕ, ◌≤◌, ◌+ℤ◌, ℤ, List, [], ◌∷◌, IsTrue};
ghost use Rattle.sym_model.specs.Permutation.{IsOneLine, IsTransition, times_swap, covers_down};
ghost use Rattle.sym_model.specs.Polynomial.{Poly, pair};
ghost use Rattle.sym_model.specs.Sum.{total};
ghost use Rattle.linear_combinations.specs.Gains.{over};
ghost use Rattle.transition_walk.specs.Transitions.{IsShort};
ghost use Rattle.transition_walk.specs.Growth.{GrowsBy};

use linear_combinations::{Label, Rule};
use perm_codes::Perm;

/// A factor of the transition rule. Let r be the last descent of a permutation w, s the last place
/// whose letter is smaller than the letter at r, and v = w·t_rs. Then S_w is the factor times S_v,
/// plus the sum of the S_u over the covers u = v·t_ir with i < r.
pub trait Factor<L: Label>: Rule<L, L> + Drop {
    // `made r v`: the factor of S_v in the transition rule with the last descent r.
    ghost made: { ℕ → List ℕ → Self };

    // `extent x` measures a label x. A factor turns a label of extent at most k into labels of
    // extent at most k + 1 (`grows`).
    ghost extent: { L → ℕ };

    // The greatest `extent` of a label to which a factor can be applied.
    ghost most: { ℕ };

    // A factor turns a label of `extent` at most k into terms (x, c) for which the sum of |c| is at
    // most k + `extra`.
    ghost extra: { ℕ };

    // `polynomial n x`: the polynomial of the label x in n variables.
    ghost polynomial: { ℕ → L → Poly };

    // `product n φ w x`: the sum of c·φ(α) over the terms c·x^α of the product of S_w and the
    // polynomial of the label x, in n variables. The laws `start` and `step` determine it.
    ghost product: { ℕ → (List ℕ → ℤ) → List ℕ → L → ℤ };

    /// The factor of S_v in the transition rule with the last descent r, for v = `lower`.
    fn at(r: u16, lower: &Perm) -> Self
        requires { 1 ≤ r }
        ensures { result ≡ made r lower.now };

    ghost start: { (n : ℕ) (φ : List ℕ → ℤ) (label : L)
        → product n φ (1 ∷ []) label ≡ pair (polynomial n label) φ };

    ghost step: { (n r s : ℕ) (φ : List ℕ → ℤ) (w : List ℕ) (label : L) → IsOneLine w
        → IsTransition w r s
        → IsTrue (L.is_label label) → product n φ w label
        ≡ over (product n φ (times_swap r s w)) (Self.image (made r (times_swap r s w)) label)
        +ℤ total (λ (x : List ℕ). product n φ x label) (covers_down r (times_swap r s w)) };

    ghost grows: { (k r : ℕ) (v : List ℕ) (label : L) → IsShort k v → 1 ≤ r → r ≤ k → r ≤ 255
        → k ≤ most
        → extent label ≤ k → GrowsBy extent (Self.takes (made r v))
        (Self.image (made r v)) k extra label };
}
