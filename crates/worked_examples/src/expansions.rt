//! Worked examples of expansions: the lists that commands print are the expansions, in sufficiently
//! many variables. The lists were computed by other programs (lrcalc, Symmetrica) or worked out by
//! hand.

ghost use Rattle.std.specs.Prelude.{◌≡◌, pos, negsuc, [], ◌∷◌, map, Some, None};
ghost use Rattle.sym_model.specs.Polynomial.{coefficient, times};
ghost use Rattle.sym_model.specs.Bases.{monomial, elementary, complete, power_sum};
ghost use Rattle.sym_model.specs.Schur.{schur, skew_schur};
ghost use Rattle.sym_model.specs.Alternant.{schur_coefficient};
ghost use Rattle.sym_model.specs.Schubert.{schubert_in};
ghost use Rattle.sym_model.specs.Reductions.{reduced_terms, reflected_terms};
ghost use Rattle.sym_model.specs.Expansion.{value, value_by, pair_polynomial, elementaries};
ghost use Rattle.sym_model.specs.Expansion.{completes, power_sums, schurs};

/// Changes of basis, by the coefficients at the exponents (3,0,0), (2,1,0) and (1,1,1): s_(2,1) in
/// p, h and e, and m_(2,1) and p_3 in s; and m_(5,3,1) in p, by the coefficients at five monomials
/// of degree 9.
pub fn change_of_basis_examples_law()
    // s_(2,1) = (p_1^3 - p_3)/3: its coefficients 0, 1 and 2 at the exponents (3,0,0), (2,1,0) and
    // (1,1,1), each multiplied by the denominators 3 and 3
    ensures power_sums { map
        (coefficient (value power_sums
        (((3 ∷ []), (negsuc 0, 3)) ∷ ((1 ∷ 1 ∷ 1 ∷ []), (pos 1, 3)) ∷ []) 3))
        ((3 ∷ 0 ∷ 0 ∷ []) ∷ (2 ∷ 1 ∷ 0 ∷ []) ∷ (1 ∷ 1 ∷ 1 ∷ []) ∷ [])
        ≡ pos 0 ∷ pos 9 ∷ pos 18 ∷ [] }
    ensures completes { map
        (coefficient (value completes
        (((3 ∷ []), (negsuc 0, 1)) ∷ ((2 ∷ 1 ∷ []), (pos 1, 1)) ∷ []) 3))
        ((3 ∷ 0 ∷ 0 ∷ []) ∷ (2 ∷ 1 ∷ 0 ∷ []) ∷ (1 ∷ 1 ∷ 1 ∷ []) ∷ [])
        ≡ pos 0 ∷ pos 1 ∷ pos 2 ∷ [] }
    ensures elementaries { map
        (coefficient (value elementaries
        (((3 ∷ []), (negsuc 0, 1)) ∷ ((2 ∷ 1 ∷ []), (pos 1, 1)) ∷ []) 3))
        ((3 ∷ 0 ∷ 0 ∷ []) ∷ (2 ∷ 1 ∷ 0 ∷ []) ∷ (1 ∷ 1 ∷ 1 ∷ []) ∷ [])
        ≡ pos 0 ∷ pos 1 ∷ pos 2 ∷ [] }
    ensures schur { map (coefficient (schur (2 ∷ 1 ∷ []) 3))
        ((3 ∷ 0 ∷ 0 ∷ []) ∷ (2 ∷ 1 ∷ 0 ∷ []) ∷ (1 ∷ 1 ∷ 1 ∷ []) ∷ [])
        ≡ pos 0 ∷ pos 1 ∷ pos 2 ∷ [] }
    ensures schurs { map
        (coefficient (value schurs
        (((2 ∷ 1 ∷ []), (pos 1, 1)) ∷ ((1 ∷ 1 ∷ 1 ∷ []), (negsuc 1, 1)) ∷ []) 3))
        ((3 ∷ 0 ∷ 0 ∷ []) ∷ (2 ∷ 1 ∷ 0 ∷ []) ∷ (1 ∷ 1 ∷ 1 ∷ []) ∷ [])
        ≡ map (coefficient (monomial (2 ∷ 1 ∷ []) 3))
        ((3 ∷ 0 ∷ 0 ∷ []) ∷ (2 ∷ 1 ∷ 0 ∷ []) ∷ (1 ∷ 1 ∷ 1 ∷ []) ∷ []) }
    ensures hooks { map
        (coefficient
        (value schurs (((3 ∷ []), (pos 1, 1)) ∷ ((2 ∷ 1 ∷ []), (negsuc 0, 1))
        ∷ ((1 ∷ 1 ∷ 1 ∷ []), (pos 1, 1)) ∷ []) 3))
        ((3 ∷ 0 ∷ 0 ∷ []) ∷ (2 ∷ 1 ∷ 0 ∷ []) ∷ (1 ∷ 1 ∷ 1 ∷ []) ∷ [])
        ≡ map (coefficient (power_sum (3 ∷ []) 3))
        ((3 ∷ 0 ∷ 0 ∷ []) ∷ (2 ∷ 1 ∷ 0 ∷ []) ∷ (1 ∷ 1 ∷ 1 ∷ []) ∷ []) }
    ensures degree_nine { map
        (coefficient
        (value power_sums
        (((9 ∷ []), (pos 2, 1)) ∷ ((8 ∷ 1 ∷ []), (negsuc 0, 1)) ∷ ((6 ∷ 3 ∷ []), (negsuc 0, 1))
        ∷ ((5 ∷ 4 ∷ []), (negsuc 0, 1))
        ∷ ((5 ∷ 3 ∷ 1 ∷ []), (pos 1, 1)) ∷ []) 3))
        ((9 ∷ 0 ∷ 0 ∷ []) ∷ (8 ∷ 1 ∷ 0 ∷ []) ∷ (6 ∷ 3 ∷ 0 ∷ []) ∷ (5 ∷ 4 ∷ 0 ∷ [])
        ∷ (5 ∷ 3 ∷ 1 ∷ []) ∷ [])
        ≡ pos 0 ∷ pos 0 ∷ pos 0 ∷ pos 0 ∷ pos 1 ∷ [] }
{}

/// The skew Schur polynomial of (3,2,1)/(2,1) in Schur polynomials, s_(2,1) in two sets of
/// variables, and products of two Schubert polynomials.
pub fn expansion_examples_law()
    // the Schur coefficients of s_((3,2,1)/(2,1)) at (3), (2,1) and (1,1,1)
    ensures skew { map (λ κ. schur_coefficient 3 κ (skew_schur (3 ∷ 2 ∷ 1 ∷ []) (2 ∷ 1 ∷ []) 3))
        ((3 ∷ []) ∷ (2 ∷ 1 ∷ []) ∷ (1 ∷ 1 ∷ 1 ∷ []) ∷ [])
        ≡ pos 1 ∷ pos 2 ∷ pos 1 ∷ [] }
    ensures coproduct { map
        (coefficient
        (value_by (pair_polynomial 2 2)
        (((2 ∷ 1 ∷ [], []), (pos 1, 1)) ∷ ((2 ∷ [], 1 ∷ []), (pos 1, 1))
        ∷ ((1 ∷ 1 ∷ [], 1 ∷ []), (pos 1, 1))
        ∷ ((1 ∷ [], 2 ∷ []), (pos 1, 1)) ∷ ((1 ∷ [], 1 ∷ 1 ∷ []), (pos 1, 1))
        ∷ (([], 2 ∷ 1 ∷ []), (pos 1, 1)) ∷ [])))
        ((2 ∷ 1 ∷ 0 ∷ 0 ∷ []) ∷ (2 ∷ 0 ∷ 1 ∷ 0 ∷ []) ∷ (1 ∷ 1 ∷ 1 ∷ 0 ∷ []) ∷ (1 ∷ 0 ∷ 2 ∷ 0 ∷ [])
        ∷ (1 ∷ 0 ∷ 1 ∷ 1 ∷ [])
        ∷ (0 ∷ 0 ∷ 1 ∷ 2 ∷ []) ∷ (3 ∷ 0 ∷ 0 ∷ 0 ∷ []) ∷ [])
        ≡ pos 1 ∷ pos 1 ∷ pos 2 ∷ pos 1 ∷ pos 2 ∷ pos 1 ∷ pos 0 ∷ [] }
    // S_(1,3,2)^2 = S_(1,4,2,3) + S_(2,3,1), in two variables: (x + y)^2 = (x^2 + x y + y^2) + x y
    ensures square { map
        (coefficient
        (value_by (λ w. schubert_in w 2)
        ((1 ∷ 4 ∷ 2 ∷ 3 ∷ [], (pos 1, 1)) ∷ (2 ∷ 3 ∷ 1 ∷ [], (pos 1, 1)) ∷ [])))
        ((2 ∷ 0 ∷ []) ∷ (1 ∷ 1 ∷ []) ∷ (0 ∷ 2 ∷ []) ∷ [])
        ≡ map (coefficient (times (schubert_in (1 ∷ 3 ∷ 2 ∷ []) 2)
        (schubert_in (1 ∷ 3 ∷ 2 ∷ []) 2)))
        ((2 ∷ 0 ∷ []) ∷ (1 ∷ 1 ∷ []) ∷ (0 ∷ 2 ∷ []) ∷ []) }
    // S_(2,1) S_(1,3,2) = S_(2,3,1) + S_(3,1,2), in two variables: x (x + y) = x y + x^2
    ensures product { map
        (coefficient
        (value_by (λ w. schubert_in w 2)
        ((2 ∷ 3 ∷ 1 ∷ [], (pos 1, 1)) ∷ (3 ∷ 1 ∷ 2 ∷ [], (pos 1, 1)) ∷ [])))
        ((2 ∷ 0 ∷ []) ∷ (1 ∷ 1 ∷ []) ∷ (0 ∷ 2 ∷ []) ∷ [])
        ≡ map (coefficient (times (schubert_in (2 ∷ 1 ∷ []) 2) (schubert_in (1 ∷ 3 ∷ 2 ∷ []) 2)))
        ((2 ∷ 0 ∷ []) ∷ (1 ∷ 1 ∷ []) ∷ (0 ∷ 2 ∷ []) ∷ []) }
{}

/// The products h_2 p_1 and e_2 m_1 in s, h_2 = s_2, a skew Schur polynomial in one variable,
/// products reduced by rim hooks and into the alcove, and the square of a Schubert polynomial.
pub fn reduced_product_examples_law()
    // h_2 p_1 = s_3 + s_(2,1) and e_2 m_1 = s_(2,1) + s_(1,1,1), at the exponents (3,0,0), (2,1,0)
    // and (1,1,1)
    ensures row_added { map
        (coefficient (value schurs (((3 ∷ []), (pos 1, 1)) ∷ ((2 ∷ 1 ∷ []), (pos 1, 1)) ∷ []) 3))
        ((3 ∷ 0 ∷ 0 ∷ []) ∷ (2 ∷ 1 ∷ 0 ∷ []) ∷ (1 ∷ 1 ∷ 1 ∷ []) ∷ [])
        ≡ map (coefficient (times (complete (2 ∷ []) 3) (power_sum (1 ∷ []) 3)))
        ((3 ∷ 0 ∷ 0 ∷ []) ∷ (2 ∷ 1 ∷ 0 ∷ []) ∷ (1 ∷ 1 ∷ 1 ∷ []) ∷ []) }
    ensures column_added { map
        (coefficient (value schurs
        (((2 ∷ 1 ∷ []), (pos 1, 1)) ∷ ((1 ∷ 1 ∷ 1 ∷ []), (pos 1, 1)) ∷ []) 3))
        ((3 ∷ 0 ∷ 0 ∷ []) ∷ (2 ∷ 1 ∷ 0 ∷ []) ∷ (1 ∷ 1 ∷ 1 ∷ []) ∷ [])
        ≡ map (coefficient (times (elementary (2 ∷ []) 3) (monomial (1 ∷ []) 3)))
        ((3 ∷ 0 ∷ 0 ∷ []) ∷ (2 ∷ 1 ∷ 0 ∷ []) ∷ (1 ∷ 1 ∷ 1 ∷ []) ∷ []) }
    ensures equal { map (coefficient (complete (2 ∷ []) 2)) ((2 ∷ 0 ∷ []) ∷ (1 ∷ 1 ∷ []) ∷ [])
        ≡ map (coefficient (schur (2 ∷ []) 2)) ((2 ∷ 0 ∷ []) ∷ (1 ∷ 1 ∷ []) ∷ []) }
    ensures one_variable { schur_coefficient 1 (2 ∷ []) (skew_schur (2 ∷ 1 ∷ []) (1 ∷ []) 1)
        ≡ pos 1 }
    // s_(2,2)^2 in two variables is s_(4,4); two rim hooks of four cells are removed from (4,4)
    ensures two_hooks { reduced_terms (((4 ∷ 4 ∷ []), pos 1) ∷ []) (Some ([], pos 1, 2) ∷ [])
        ≡ ((2, []), pos 1) ∷ [] }
    // s_(2,1)^2 in three variables, reduced by rim hooks of six cells: the reduction of (4,2) is 0,
    // since no such hook can be removed from it and it has more than three columns
    ensures three_rows { reduced_terms
        ((4 ∷ 2 ∷ [], pos 1) ∷ (4 ∷ 1 ∷ 1 ∷ [], pos 1) ∷ (3 ∷ 3 ∷ [], pos 1)
        ∷ (3 ∷ 2 ∷ 1 ∷ [], pos 2) ∷ (2 ∷ 2 ∷ 2 ∷ [], pos 1) ∷ [])
        (None ∷ Some ([], pos 1, 1) ∷ Some (3 ∷ 3 ∷ [], pos 1, 0) ∷ Some (3 ∷ 2 ∷ 1 ∷ [], pos 1, 0)
        ∷ Some (2 ∷ 2 ∷ 2 ∷ [], pos 1, 0) ∷ [])
        ≡ ((1, []), pos 1) ∷ ((0, 3 ∷ 3 ∷ []), pos 1) ∷ ((0, 3 ∷ 2 ∷ 1 ∷ []), pos 2)
        ∷ ((0, 2 ∷ 2 ∷ 2 ∷ []), pos 1) ∷ [] }
    // s_(2,1)^2 in three variables at level 2: (4,2) is reflected to minus (3,2,1), and (3,3) and
    // (4,1,1) to 0
    ensures at_level_two { map
        (coefficient (reflected_terms 3 5
        ((4 ∷ 2 ∷ [], pos 1) ∷ (4 ∷ 1 ∷ 1 ∷ [], pos 1) ∷ (3 ∷ 3 ∷ [], pos 1)
        ∷ (3 ∷ 2 ∷ 1 ∷ [], pos 2) ∷ (2 ∷ 2 ∷ 2 ∷ [], pos 1) ∷ [])))
        ((3 ∷ 2 ∷ 1 ∷ []) ∷ (2 ∷ 2 ∷ 2 ∷ []) ∷ (3 ∷ 3 ∷ []) ∷ (4 ∷ 2 ∷ []) ∷ [])
        ≡ pos 1 ∷ pos 1 ∷ pos 0 ∷ pos 0 ∷ [] }
    // S_(2,1)^2 = S_(3,1,2), in two variables: the square of x is x^2
    ensures squared_letter { map (coefficient
        (times (schubert_in (2 ∷ 1 ∷ []) 2) (schubert_in (2 ∷ 1 ∷ []) 2)))
        ((2 ∷ 0 ∷ []) ∷ (1 ∷ 1 ∷ []) ∷ [])
        ≡ map (coefficient (schubert_in (3 ∷ 1 ∷ 2 ∷ []) 2)) ((2 ∷ 0 ∷ []) ∷ (1 ∷ 1 ∷ []) ∷ []) }
{}
