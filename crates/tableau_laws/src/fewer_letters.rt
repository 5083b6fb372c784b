//! If all variables after the k-th are set to 0, a skew Schur polynomial becomes the skew Schur
//! polynomial of the same shape in k variables.

ghost use Rattle.std.specs.Prelude.{ℕ, ◌≤◌, List};
ghost use Rattle.sym_model.specs.Partition.{IsPartition};
ghost use Rattle.sym_model.specs.Polynomial.{Same, restrict};
ghost use Rattle.sym_model.specs.Schur.{skew_schur};

/// If k ≤ n, the skew Schur polynomial of outer/inner in n variables, with the variables after the
/// k-th set to 0, is the skew Schur polynomial of outer/inner in k variables.
pub fn schur_restriction_law()
    ensures { (outer inner : List ℕ) (k n : ℕ) → k ≤ n → IsPartition inner
        → Same (restrict k (skew_schur outer inner n)) (skew_schur outer inner k) }
{}
