//! Complements in rectangles with k rows.

ghost use Rattle.std.specs.Prelude.{◌≡◌, ℕ, ◌+◌, ◌-◌, ◌≤◌, pos, List, map};
ghost use Rattle.sym_model.specs.Partition.{IsPartition, rows, columns};
ghost use Rattle.sym_model.specs.Polynomial.{Poly, Term, Same};
ghost use Rattle.sym_model.specs.Schur.{schur};
ghost use Rattle.sym_model.specs.GoodTableau.{product_count};
ghost use Rattle.complement_laws.specs.Complement.{complement};

/// Let λ be a partition with at most k rows and n columns. In k variables, the Schur polynomial of
/// its complement in the rectangle with k rows and n columns has the exponents n - a in place of
/// the exponents a of s_λ: it is (x_1 ⋯ x_k)^n · s_λ(1/x_1, .., 1/x_k).
///
/// So the coefficient of s_ν in s_λ·s_μ is that of the complements: of λ in the rectangle with n
/// columns, of μ in that with m columns, and of ν in that with n + m columns, all with k rows. (For
/// the general linear group of k × k matrices: the representations are replaced by their duals,
/// times powers of the determinant.)
///
/// If n is the number of columns of λ, its complement has fewer than k rows. So two such steps
/// remove all columns of k cells from the factors, and as many from ν.
///
/// Example: for k = 3, s_(3,2,1) has the coefficient 2 in the square of s_(2,1). The complement of
/// (2,1) with 2 columns is (2,1), and that of (3,2,1) with 4 columns is (3,2,1).
pub fn complement_law()
    ensures schur { (k n : ℕ) (parts : List ℕ) → IsPartition parts → rows parts ≤ k
        → columns parts ≤ n
        → Same (schur (complement k n parts) k)
        (map (λ (t : Term). (map (λ a. n - a) t.0, t.1)) (schur parts k)) }
    ensures product { (k n m : ℕ) (λ' μ ν : List ℕ) → IsPartition λ' → IsPartition μ
        → IsPartition ν
        → rows λ' ≤ k → rows μ ≤ k → rows ν ≤ k
        → columns λ' ≤ n → columns μ ≤ m → columns ν ≤ n + m
        → product_count k (complement k n λ') (complement k m μ) (complement k (n + m) ν)
        ≡ product_count k λ' μ ν }
{}
