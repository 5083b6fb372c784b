//! Every Stanley polynomial is a sum of Schur polynomials.

ghost use Rattle.std.specs.Prelude.{◌≡◌, ℕ, ◌≤◌, ◌≤ℤ◌, pos, List, [], ◌∷◌};
ghost use Rattle.sym_model.specs.Alternant.{schur_coefficient};
ghost use Rattle.sym_model.specs.Partition.{IsPartition, rows};
ghost use Rattle.sym_model.specs.Permutation.{IsOneLine};
ghost use Rattle.sym_model.specs.Polynomial.{coefficient};
ghost use Rattle.sym_model.specs.Stanley.{stanley_in};
ghost use Rattle.stanley_expand.specs.SchurPositive.{IsSchurPositive};

/// A Stanley polynomial in m variables is a sum of Schur polynomials of partitions with at most m
/// rows, since the transition rule ends in Grassmannian permutations (Lascoux and Schützenberger;
/// Edelman and Greene). So none of its Schur coefficients is negative.
///
/// Example: the Stanley polynomial of 2 1 4 3 in two variables is the sum of the Schur polynomials
/// of (2) and (1,1), so the coefficient of x_1·x_2 is 2.
pub fn stanley_law()
    ensures positive { (w : List ℕ) (m : ℕ) → IsOneLine w → IsSchurPositive m (stanley_in w m) }
    ensures natural { (w : List ℕ) (m : ℕ) (parts : List ℕ) → IsOneLine w → IsPartition parts
        → rows parts ≤ m → pos 0 ≤ℤ schur_coefficient m parts (stanley_in w m) }
    ensures example { coefficient (stanley_in (2 ∷ 1 ∷ 4 ∷ 3 ∷ []) 2) (1 ∷ 1 ∷ []) ≡ pos 2 }
{}
