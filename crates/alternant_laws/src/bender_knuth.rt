//! The Bender–Knuth involutions on semistandard tableaux, and the symmetry of Schur polynomials.

ghost use Rattle.std.specs.Prelude.{ℕ, suc, ◌<◌, List};
ghost use Rattle.sym_model.specs.Partition.{IsPartition};
ghost use Rattle.sym_model.specs.Schur.{skew_schur};
ghost use Rattle.sym_model.specs.Symmetric.{Symmetric};
ghost use Rattle.alternant_laws.specs.BenderKnuth.{BenderKnuth};

/// For each skew shape and each k from 1 to n - 1 there is an involution on the semistandard
/// tableaux of that shape with entries from 1 to n. It exchanges the number of entries k and the
/// number of entries k+1 of a tableau, and leaves every other entry in its cell. So the skew Schur
/// polynomial in n variables is symmetric.
///
/// Example: the tableaux of the shape (2) with entries from 1 to 2 are 11, 12 and 22; the
/// involution for k = 1 exchanges 11 and 22 and leaves 12.
pub fn bender_knuth_law()
    ensures involution { (n k : ℕ) (outer inner : List ℕ) → 0 < k → k < n → IsPartition outer
        → IsPartition inner
        → BenderKnuth n k outer inner }
    ensures symmetric { (n : ℕ) (outer inner : List ℕ) → IsPartition outer → IsPartition inner
        → Symmetric (skew_schur outer inner n) }
{}
