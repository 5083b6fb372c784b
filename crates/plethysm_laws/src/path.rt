//! Plethysm by way of power sums: f[g] computed from the p_k[g].

ghost use Rattle.std.specs.Prelude.{◌≡◌, ℕ, pos, List, [], ◌∷◌};
ghost use Rattle.sym_model.specs.Partition.{ArePositive};
ghost use Rattle.sym_model.specs.Polynomial.{Poly, Same, coefficient, one, scale};
ghost use Rattle.sym_model.specs.Bases.{complete_of, elementary_of, power_sum};
ghost use Rattle.sym_model.specs.Plethysm.{plethysm};
ghost use Rattle.sym_model.specs.WholeTerms.{WholeTerms, HaveLabels, combined};
ghost use Rattle.plethysm_laws.specs.SumsOfMonomials.{IsMonomialSum};
ghost use Rattle.plethysm_laws.specs.PowerSumPlethysm.{power_sum_plethysm};

/// If no coefficient of g is negative, p_λ[g] is the product of the p_k[g] over the parts k of λ;
/// and if f is the sum of the c·p_λ over the terms of a list, then f[g] is the sum of the c·p_λ[g],
/// in every number of variables.
///
/// Examples, tested on some coefficients in two variables: h_2[h_2] = s_4 + s_(2,2) and
/// e_2[h_2] = s_(3,1). A constant: h_2[3] = 6.
pub fn power_sum_path_law()
    ensures power_sum { (parts : List ℕ) (d n : ℕ) (g : Poly)
        → ArePositive parts → IsMonomialSum d n g
        → Same (plethysm (power_sum parts) d n g) (power_sum_plethysm parts g n) }
    ensures list { (terms : WholeTerms) (d n : ℕ) (g : Poly)
        → HaveLabels ArePositive terms → IsMonomialSum d n g
        → Same (plethysm (λ m. combined (λ label. power_sum label m) terms) d n g)
        (combined (λ label. power_sum_plethysm label g n) terms) }
    ensures square { coefficient (plethysm (complete_of 2) 2 2 (complete_of 2 2)) (2 ∷ 2 ∷ [])
        ≡ pos 2 }
    ensures front { coefficient (plethysm (complete_of 2) 2 2 (complete_of 2 2)) (3 ∷ 1 ∷ [])
        ≡ pos 1 }
    ensures exterior { coefficient (plethysm (elementary_of 2) 2 2 (complete_of 2 2)) (3 ∷ 1 ∷ [])
        ≡ pos 1 }
    ensures no_square { coefficient (plethysm (elementary_of 2) 2 2 (complete_of 2 2)) (4 ∷ 0 ∷ [])
        ≡ pos 0 }
    ensures number { coefficient (plethysm (complete_of 2) 0 1 (scale (pos 3) (one 1))) (0 ∷ [])
        ≡ pos 6 }
{}
