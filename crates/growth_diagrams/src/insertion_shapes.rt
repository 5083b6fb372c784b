//! Laws: growth shapes are shapes of insertion tableaux (Fomin; Stanley, Enumerative Combinatorics
//! 2, 7.13; Fulton, 4.2).
ghost use Rattle.std.specs.Prelude.{◌≡◌, ◌≤◌, ℕ, List, length, take};
ghost use Rattle.sym_model.specs.Growth.{at_most, growth_shape, tableau_of_chain};
ghost use Rattle.sym_model.specs.Insertion.{insertion_pair};
ghost use Rattle.sym_model.specs.Permutation.{AreInverse, IsOneLine};
ghost use Rattle.sym_model.specs.Tableau.{shape_of};

/// For a permutation w, take the word of those of the first i letters of w that are at most j: the
/// growth shape at (i, j) is the shape of its insertion tableau. So the insertion tableau of w is
/// the tableau of the chain of shapes in the last line (`tableau_of_chain`), and the recording
/// tableau of w is the tableau of the chain of shapes in the last column. For w = 3 1 2 the chain
/// in the last line is (1), (2), (2,1), and that in the last column is (1), (1,1), (2,1).
pub fn growth_law()
    ensures shapes { (w : List ℕ) (i j : ℕ) → IsOneLine w → i ≤ length w → j ≤ length w
        → growth_shape w i j ≡ shape_of (insertion_pair (at_most j (take i w))).0 }
    ensures insertion { (w : List ℕ) → IsOneLine w
        → (insertion_pair w).0 ≡ tableau_of_chain (λ j. growth_shape w (length w) j) (length w) }
    ensures recording { (w : List ℕ) → IsOneLine w
        → (insertion_pair w).1 ≡ tableau_of_chain (λ i. growth_shape w i (length w)) (length w) }
{}

/// If v is the inverse of w, the growth shape of v at (i, j) is that of w at (j, i). Moreover, the
/// insertion tableau of v is the recording tableau of w, and the recording tableau of v is the
/// insertion tableau of w (Schützenberger). For example, 2 3 1 is the inverse of 3 1 2.
pub fn inverse_law()
    ensures shapes { (v w : List ℕ) (i j : ℕ) → AreInverse v w → i ≤ length w → j ≤ length w
        → growth_shape v i j ≡ growth_shape w j i }
    ensures insertion { (v w : List ℕ) → IsOneLine v → IsOneLine w → AreInverse v w
        → (insertion_pair v).0 ≡ (insertion_pair w).1 }
    ensures recording { (v w : List ℕ) → IsOneLine v → IsOneLine w → AreInverse v w
        → (insertion_pair v).1 ≡ (insertion_pair w).0 }
{}
