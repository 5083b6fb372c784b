//! Products of monomial symmetric polynomials, and their coefficients in the monomial basis.

ghost use Rattle.std.specs.Prelude.{◌≡◌, ℕ, pos, List, [], ◌∷◌};
ghost use Rattle.sym_model.specs.Polynomial.{Same, coefficient, times};
ghost use Rattle.sym_model.specs.Partition.{IsPartition};
ghost use Rattle.sym_model.specs.Bases.{monomial};
ghost use Rattle.sym_model.specs.WholeTerms.{WholeTerms, combined};
ghost use Rattle.monomial_laws.specs.MonomialProduct.{arrangements, product_coefficient};

/// The coefficient of m_ν in m_λ·m_μ is the number of ways to write ν as an arrangement of λ plus
/// an arrangement of μ, with zeros inserted. The coefficient of m_ν in the product of two lists of
/// terms in m is the sum of c·d times this number over all pairs of a term c·m_λ of the first list
/// and a term d·m_μ of the second. This holds in every number of variables.
///
/// Examples: m_(1)·m_(1) = m_(2) + 2·m_(1,1), and m_(2,1)·m_(1) has m_(2,1,1) twice.
pub fn monomial_product_law()
    ensures product { (left right : List ℕ) (terms : WholeTerms)
        → ((ν : List ℕ) → IsPartition ν → coefficient terms ν ≡ pos (arrangements left right ν))
        → (n : ℕ) → Same (times (monomial left n) (monomial right n))
        (combined (λ label. monomial label n) terms) }
    ensures lists { (left right terms : WholeTerms)
        → ((ν : List ℕ) → IsPartition ν → coefficient terms ν ≡ product_coefficient left right ν)
        → (n : ℕ) → Same (times (combined (λ label. monomial label n) left)
        (combined (λ label. monomial label n) right))
        (combined (λ label. monomial label n) terms) }
    ensures square { arrangements (1 ∷ []) (1 ∷ []) (2 ∷ []) ≡ 1 }
    ensures apart { arrangements (1 ∷ []) (1 ∷ []) (1 ∷ 1 ∷ []) ≡ 2 }
    ensures two_ones { arrangements (2 ∷ 1 ∷ []) (1 ∷ []) (2 ∷ 1 ∷ 1 ∷ []) ≡ 2 }
{}
