//! The product of a monomial symmetric polynomial and h_k.

ghost use Rattle.std.specs.Prelude.{◌≡◌, ◌↔◌, ℕ, suc, ◌+◌, ◌-◌, ◌*◌, ◌<◌, ◌==◌, pos, cond, List};
ghost use Rattle.std.specs.Prelude.{[], ◌∷◌, ◌++◌, map, length};
ghost use Rattle.sym_model.specs.Sum.{Among, Once};
ghost use Rattle.sym_model.specs.Polynomial.{coefficient, pair};
ghost use Rattle.sym_model.specs.Partition.{IsPartition, Holds, size};
ghost use Rattle.sym_model.specs.Schur.{times_in};
ghost use Rattle.sym_model.specs.Conjugate.{count_from};
ghost use Rattle.sym_model.specs.WholeTerms.{WholeTerms};
ghost use Rattle.monomial_laws.specs.MonomialProduct.{product_coefficient};
ghost use Rattle.strip_rules.specs.StripProduct.{placings};

/// The coefficient of m_ν in m_μ·h_k, for |ν| = |μ| + k, is the number of ways to give each row of
/// ν a part of μ or 0, such that each part of μ is used once and no row is shorter than the number
/// given to it; exchanging equal parts gives no new way. (h_k is the sum of all m_λ with λ of size
/// k.) The coefficient is 0 unless ν contains μ.
///
/// The coefficient is computed from the greatest part of μ on, beginning with 1. After i parts, r
/// of which are v, the next part v multiplies it by (ν'_v - i)/(r + 1), where ν'_v is the number of
/// parts of ν that are at least v. So it is the product, over the different parts v of μ, of the
/// binomial coefficient "n over r", with n = ν'_v less the number of parts of μ that are greater
/// than v, and r the multiplicity of v in μ (Macdonald, I.2).
///
/// Examples: m_(1)·h_2 has m_(2,1) twice, and m_(2,1)·h_1 has m_(2,2) twice.
pub fn row_product_law()
    ensures contained { (μ ν : List ℕ) → IsPartition μ → IsPartition ν
        → 0 < placings μ ν → Holds ν μ }
    ensures first { (ν : List ℕ) → placings [] ν ≡ 1 }
    ensures next { (v : ℕ) (μ ν : List ℕ) → IsPartition (μ ++ v ∷ [])
        → placings (μ ++ v ∷ []) ν * suc (times_in v μ)
        ≡ placings μ ν * (count_from v ν - length μ) }
    ensures shapes { (k : ℕ) (μ : List ℕ) (shapes : List (List ℕ)) → IsPartition μ → Once shapes
        → ((ν : List ℕ) → Among ν shapes ↔ (IsPartition ν × (size ν ≡ size μ + k) × Holds ν μ))
        → (ν : List ℕ) → IsPartition ν → size ν ≡ size μ + k
        → coefficient (map (λ ρ. (ρ, pos (placings μ ρ))) shapes) ν ≡ pos (placings μ ν) }
    ensures lists { (k : ℕ) (left right : WholeTerms)
        → ((parts : List ℕ) → IsPartition parts
        → coefficient right parts ≡ cond (size parts == k) (pos 1) (pos 0))
        → (ν : List ℕ)
        → product_coefficient left right ν
        ≡ pair left (λ μ. cond (size μ + k == size ν) (pos (placings μ ν)) (pos 0)) }
    ensures two { placings (1 ∷ []) (2 ∷ 1 ∷ []) ≡ 2 }
    ensures square { placings (2 ∷ 1 ∷ []) (2 ∷ 2 ∷ []) ≡ 2 }
{}
