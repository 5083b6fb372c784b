//! Products of power sums and augmented monomial symmetric polynomials.

ghost use Rattle.std.specs.Prelude.{◌≡◌, ℕ, ◌<◌, List, [], ◌∷◌, flat_map};
ghost use Rattle.sym_model.specs.Polynomial.{Same, plus, times};
ghost use Rattle.sym_model.specs.Partition.{IsPartition, insert_part};
ghost use Rattle.sym_model.specs.Bases.{power_sum_of};
ghost use Rattle.sym_model.specs.RaisedPart.{raise};
ghost use Rattle.basis_change_laws.specs.AugmentedMonomial.{multiplicity_factorials, augmented};

/// Let M_λ be the augmented monomial symmetric polynomial of λ: m_λ times the product of the
/// factorials of the multiplicities of the parts. For a ≥ 1, in every number of variables, p_a·M_λ
/// is M_μ plus the sum of M_ν over the parts b of λ (counted with multiplicity); here μ is λ with
/// an additional part a, and ν is λ with one part b replaced by a + b. So M_μ is p_a·M_λ minus a
/// sum of M_ν for partitions ν that have the same number of parts as λ.
///
/// Example: p_1 times the augmented m_(1), which is m_(1), is 2·m_(1,1) + m_(2).
pub fn augmented_monomial_law()
    ensures power_sum { (a n : ℕ) (parts : List ℕ) → 0 < a → IsPartition parts
        → Same (times (power_sum_of a n) (augmented parts n))
        (plus (augmented (insert_part a parts) n)
        (flat_map (λ b. augmented (raise a b parts) n) parts)) }
    ensures factorials { multiplicity_factorials (3 ∷ 1 ∷ 1 ∷ 1 ∷ []) ≡ 6 }
{}
