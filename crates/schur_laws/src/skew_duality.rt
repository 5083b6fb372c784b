//! The duality of good tableaux of two skew shapes λ/μ and τ/σ.

ghost use Rattle.std.specs.Prelude.{◌≡◌, ℕ, pos, true, false, List, []};
ghost use Rattle.sym_model.specs.Partition.{IsPartition, rows};
ghost use Rattle.sym_model.specs.Polynomial.{resize};
ghost use Rattle.sym_model.specs.Schur.{contains};
ghost use Rattle.sym_model.specs.GoodTableau.{product_count};
ghost use Rattle.tableau_laws.specs.ColumnFold.{over_columns, column_lines, is_sum};

/// A tableau T is good for a start if, for each column, start plus the content of that column and
/// of the columns to its right is a partition. The sum of T is start plus the content of T. For
/// partitions σ inside τ and μ inside λ: the number of good tableaux of the shape λ/μ for the start
/// σ with the sum τ equals the number of good tableaux of the shape τ/σ for the start μ with the
/// sum λ. (The proof pairs them: the number of letters k in row r of a tableau is the number of
/// letters r in row k of its partner.)
///
/// So the coefficient of s_ν in s_λ·s_μ is the number of lattice tableaux of the shape ν/λ with the
/// content μ; it is 0 if λ is not inside ν; and λ and μ can be exchanged.
///
/// Example: s_(2,1) has the coefficient 2 in s_((3,2,1)/(2,1)), and s_(3,2,1) has the coefficient 2
/// in the square of s_(2,1).
pub fn duality_law()
    ensures skew_shapes { (σ τ λ' μ : List ℕ) → IsPartition σ → IsPartition λ' → IsPartition μ
        → IsPartition τ
        → contains λ' μ ≡ true → contains τ σ ≡ true
        → over_columns (rows τ) (column_lines λ' μ) (is_sum τ) (resize (rows τ) σ) []
        ≡ over_columns (rows λ') (column_lines τ σ) (is_sum λ') (resize (rows λ') μ) [] }
    ensures product { (λ' μ ν : List ℕ) → IsPartition λ' → IsPartition μ → IsPartition ν
        → contains ν λ' ≡ true
        → pos (product_count (rows ν) λ' μ ν)
        ≡ over_columns (rows μ) (column_lines ν λ') (is_sum μ) (resize (rows μ) []) [] }
    ensures outside { (λ' μ ν : List ℕ) → IsPartition λ' → IsPartition μ → IsPartition ν
        → contains ν λ' ≡ false
        → product_count (rows ν) λ' μ ν ≡ 0 }
    ensures exchange { (λ' μ ν : List ℕ) → IsPartition λ' → IsPartition μ → IsPartition ν
        → product_count (rows ν) λ' μ ν ≡ product_count (rows ν) μ λ' ν }
{}
