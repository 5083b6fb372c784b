//! The Schubert polynomial of a Grassmannian permutation.

ghost use Rattle.std.specs.Prelude.{◌≡◌, ℕ, ◌≤◌, List, [], ◌∷◌};
ghost use Rattle.sym_model.specs.Partition.{IsPartition, rows};
ghost use Rattle.sym_model.specs.Polynomial.{Same};
ghost use Rattle.sym_model.specs.Schubert.{schubert_in};
ghost use Rattle.sym_model.specs.Schur.{schur};
ghost use Rattle.stanley_expand.specs.Grassmannian.{IsGrassmannian, front_shape};

/// Let u be a permutation that has no descent at a place other than m. In m variables, its Schubert
/// polynomial is the Schur polynomial of the partition whose parts are the numbers u(i) - i for i
/// from m down to 1, without the zeros (Macdonald, Notes on Schubert polynomials, IV).
///
/// Example: 1 3 4 2 has its descent at place 3, so its Schubert polynomial in three variables is
/// the Schur polynomial of (1,1).
pub fn grassmannian_law()
    ensures schur { (m : ℕ) (u : List ℕ) → IsGrassmannian m u
        → Same (schubert_in u m) (schur (front_shape m u) m) }
    ensures partition { (m : ℕ) (u : List ℕ) → IsGrassmannian m u → IsPartition (front_shape m u) }
    ensures rows { (m : ℕ) (u : List ℕ) → IsGrassmannian m u → rows (front_shape m u) ≤ m }
    ensures example { front_shape 3 (1 ∷ 3 ∷ 4 ∷ 2 ∷ []) ≡ (1 ∷ 1 ∷ []) }
{}
