//! The product of a monomial symmetric polynomial and e_k.

ghost use Rattle.std.specs.Prelude.{◌≡◌, ◌↔◌, ℕ, suc, ◌+◌, ◌*◌, ◌<◌, ◌≤◌, pos, List, [], ◌∷◌, ◌++◌};
ghost use Rattle.std.specs.Prelude.{map, length};
ghost use Rattle.sym_model.specs.Sum.{Among, Once};
ghost use Rattle.sym_model.specs.Polynomial.{coefficient, pair};
ghost use Rattle.sym_model.specs.Partition.{IsPartition, size, sorted_parts};
ghost use Rattle.sym_model.specs.Schur.{times_in};
ghost use Rattle.sym_model.specs.Strip.{IsVerticalStrip};
ghost use Rattle.sym_model.specs.WholeTerms.{WholeTerms};
ghost use Rattle.monomial_laws.specs.MonomialProduct.{arrangements, product_coefficient};
ghost use Rattle.strip_rules.specs.StripProduct.{column};

/// The coefficient of m_ν in m_μ·e_k, for e_k = m_(1^k), is 0 unless ν/μ is a vertical strip of k
/// cells.
///
/// If ν/μ is such a strip, the coefficient is computed row by row from the first row on, beginning
/// with 1; the rows of μ are followed by zeros. A row of length c in both μ and ν leaves the
/// coefficient unchanged. A row of length c + 1 in ν and c in μ multiplies it by a fraction: the
/// numerator is the number of rows of ν up to this one that have length c + 1, and the denominator
/// is the number of these rows that have length c in μ. So the coefficient is a product of binomial
/// coefficients: for each different part of ν, the number of its rows over the number of those rows
/// that are shorter in μ (Macdonald, I.2). The list of all ν for which ν/μ is a vertical strip of k
/// cells, each with this number, has the coefficients of the product.
///
/// Examples: m_(2,1)·e_2 has m_(2,2,1) twice, and m_(1,1)·e_1 has m_(1,1,1) three times.
pub fn column_product_law()
    ensures strips { (k : ℕ) (μ ν : List ℕ) → IsPartition μ → IsPartition ν
        → 0 < arrangements μ (column k) ν
        → IsVerticalStrip ν μ × (size ν ≡ size μ + k) }
    ensures kept { (c k : ℕ) (μ ν : List ℕ) → 0 < c → IsPartition μ → length μ ≡ length ν
        → ((b : ℕ) → Among b μ → c ≤ b)
        → arrangements (sorted_parts (μ ++ c ∷ [])) (column k) (ν ++ c ∷ [])
        ≡ arrangements μ (column k) ν }
    ensures raised { (c k : ℕ) (α ν : List ℕ) → length α ≡ length ν → ((d : ℕ) → Among d ν → c < d)
        → arrangements (sorted_parts (α ++ c ∷ [])) (column (suc k)) (ν ++ suc c ∷ [])
        * suc (times_in c α)
        ≡ arrangements (sorted_parts α) (column k) ν * suc (times_in (suc c) ν) }
    ensures shapes { (k : ℕ) (μ : List ℕ) (shapes : List (List ℕ)) → IsPartition μ → Once shapes
        → ((ν : List ℕ)
        → Among ν shapes ↔ (IsPartition ν × (size ν ≡ size μ + k) × IsVerticalStrip ν μ))
        → (ν : List ℕ) → IsPartition ν
        → coefficient (map (λ ρ. (ρ, pos (arrangements μ (column k) ρ))) shapes) ν
        ≡ pos (arrangements μ (column k) ν) }
    ensures lists { (k : ℕ) (left : WholeTerms) (ν : List ℕ)
        → product_coefficient left ((column k, pos 1) ∷ []) ν
        ≡ pair left (λ μ. pos (arrangements μ (column k) ν)) }
    ensures two { arrangements (2 ∷ 1 ∷ []) (column 2) (2 ∷ 2 ∷ 1 ∷ []) ≡ 2 }
    ensures three { arrangements (1 ∷ 1 ∷ []) (column 1) (1 ∷ 1 ∷ 1 ∷ []) ≡ 3 }
{}
