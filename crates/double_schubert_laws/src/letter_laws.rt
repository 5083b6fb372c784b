//! Covers and chains of permutations that are written without fixed letters at the end.

ghost use Rattle.std.specs.Prelude.{◌≡◌, ℕ, ◌-◌, ◌<◌, ◌≤◌, max, List, [], map, length};
ghost use Rattle.sym_model.specs.Sum.{Among};
ghost use Rattle.sym_model.specs.Partition.{after};
ghost use Rattle.sym_model.specs.Permutation.{covers_among, covers_down, times_swap, with_fixed};
ghost use Rattle.sym_model.specs.Polynomial.{Same, times};
ghost use Rattle.sym_model.specs.Schubert.{schubert_in, schuberts_in};
ghost use Rattle.schubert_laws.specs.Chains.{elementary_in, letters_before};
ghost use Rattle.schubert_laws.specs.PathCovers.{covers_after, covers_before};
ghost use Rattle.schubert_laws.specs.ShortPermutations.{IsShort};
ghost use Rattle.double_schubert_laws.specs.KeptChains.{kept_chains, less_among};

/// Permutations may be written without fixed letters at the end, which are equal to their places.
/// If such letters are added, up to n letters, the covers at a place are the same (`before`,
/// `after`), they have at most n letters without them, too (`before_short`, `after_short`), and the
/// place of a letter does not depend on n (`place`).
///
/// Sottile's Pieri formula: e_d(x_1, .., x_k)·S_w is the sum of S_v over the chains of d covers w →
/// w·t_ab → .. → v with a ≤ k < b in each cover, in which the greater letters of the exchanged
/// pairs decrease strictly. Here each permutation of a chain is written without fixed letters at
/// the end, and b is at most n, for any n greater than k and the number of letters of w (`pieri`).
/// There are no chains of d covers whose greater letters are at most a if fewer than d of the first
/// k letters are less than a (`none`).
///
/// Example: for n = 3, the only cover of 2 1 that exchanges the letter at place 2 with a later one
/// is 2 3 1.
pub fn fixed_letters_law()
    ensures before { (r n : ℕ) (w : List ℕ) → IsShort n w → 1 ≤ r → r ≤ n
        → covers_before r (with_fixed n w) ≡ map (with_fixed n) (covers_down r w) }
    ensures after { (r n : ℕ) (w : List ℕ) → IsShort n w → 1 ≤ r → r ≤ n
        → covers_after r (with_fixed n w)
        ≡ map (with_fixed n) (covers_among w (map (λ b. times_swap r b w) (after r (n - r)))) }
    ensures before_short { (r n : ℕ) (w v : List ℕ) → IsShort n w → 1 ≤ r → r ≤ n
        → Among v (covers_down r w) → IsShort n v }
    ensures after_short { (r n : ℕ) (w v : List ℕ) → IsShort n w → 1 ≤ r → r ≤ n
        → Among v (covers_among w (map (λ b. times_swap r b w) (after r (n - r)))) → IsShort n v }
    ensures place { (a m n : ℕ) (w : List ℕ) → IsShort m w → m ≤ n → 1 ≤ a → a ≤ m
        → letters_before a (with_fixed n w) ≡ letters_before a (with_fixed m w) }
    ensures pieri { (d k m n : ℕ) (w : List ℕ) → IsShort n w → max (length w) k < n
        → Same (times (elementary_in d k m) (schubert_in w m))
        (schuberts_in (kept_chains n d k n w) m) }
    ensures none { (a d k n : ℕ) (w : List ℕ) → IsShort n w → a ≤ n
        → less_among k a (with_fixed n w) < d → kept_chains a d k n w ≡ [] }
{}
