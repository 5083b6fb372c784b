//! Worked examples of permutations, divided differences, Schubert polynomials and straightening.
//! The Schubert polynomials were computed from quotients (f - s_i f)/(x_i - x_(i+1)) and agree with
//! Symmetrica; the other examples are worked out by hand.

ghost use Rattle.std.specs.Prelude.{◌≡◌, pos, negsuc, [], ◌∷◌};
ghost use Rattle.sym_model.specs.Polynomial.{coefficient, nothing, one};
ghost use Rattle.sym_model.specs.PlaceOrders.{inversions};
ghost use Rattle.sym_model.specs.Permutation.{letter, with_fixed, kept, first_ascent, last_descent};
ghost use Rattle.sym_model.specs.Permutation.{code, IsCode, from_code, swapped, exchanged};
ghost use Rattle.sym_model.specs.Permutation.{times_swap, covers_up, covers_down};
ghost use Rattle.sym_model.specs.DividedDifference.{x_to, x_to_in, variable, variable_in};
ghost use Rattle.sym_model.specs.DividedDifference.{divided_difference};
ghost use Rattle.sym_model.specs.Schubert.{schubert, schubert_in};
ghost use Rattle.sym_model.specs.Straightening.{straightened};

/// Permutations in one-line form. Fixed letters at the end are dropped, but the identity is written
/// as (1); letters after the end are fixed.
pub fn permutation_examples_law()
    ensures letter { letter (3 ∷ 1 ∷ 2 ∷ []) 2 ≡ 1 }
    ensures letter_past_the_end { letter (3 ∷ 1 ∷ 2 ∷ []) 5 ≡ 5 }
    ensures with_fixed { with_fixed 4 (2 ∷ 1 ∷ []) ≡ 2 ∷ 1 ∷ 3 ∷ 4 ∷ [] }
    ensures kept { kept (2 ∷ 1 ∷ 3 ∷ 4 ∷ []) ≡ 2 ∷ 1 ∷ [] }
    ensures kept_middle { kept (1 ∷ 2 ∷ 4 ∷ 3 ∷ 5 ∷ []) ≡ 1 ∷ 2 ∷ 4 ∷ 3 ∷ [] }
    ensures kept_identity { kept (1 ∷ 2 ∷ 3 ∷ []) ≡ 1 ∷ [] }
    ensures first_ascent { first_ascent (3 ∷ 2 ∷ 4 ∷ 1 ∷ []) ≡ Some 2 }
    ensures no_ascent { first_ascent (3 ∷ 2 ∷ 1 ∷ []) ≡ None }
    ensures no_letter { first_ascent [] ≡ None }
    ensures last_descent { last_descent (2 ∷ 1 ∷ 4 ∷ 3 ∷ 5 ∷ []) ≡ Some 3 }
    ensures no_descent { last_descent (1 ∷ 2 ∷ 3 ∷ []) ≡ None }
    ensures one_letter { last_descent (1 ∷ []) ≡ None }
    // the code of 4 2 5 1 3: there are 1, 2, 3 right of 4, 1 right of 2, and 1, 3 right of 5;
    // nothing smaller is right of 1 or 3
    ensures code { code (4 ∷ 2 ∷ 5 ∷ 1 ∷ 3 ∷ []) ≡ 3 ∷ 1 ∷ 2 ∷ 0 ∷ 0 ∷ [] }
    ensures inversions { inversions (4 ∷ 2 ∷ 5 ∷ 1 ∷ 3 ∷ []) ≡ 6 }
    ensures from_code { from_code (3 ∷ 1 ∷ 2 ∷ 0 ∷ 0 ∷ []) ≡ 4 ∷ 2 ∷ 5 ∷ 1 ∷ 3 ∷ [] }
    ensures from_code_three { from_code (2 ∷ 0 ∷ 0 ∷ []) ≡ 3 ∷ 1 ∷ 2 ∷ [] }
    ensures code_three { code (3 ∷ 1 ∷ 2 ∷ []) ≡ 2 ∷ 0 ∷ 0 ∷ [] }
    ensures from_zeros { from_code (0 ∷ 0 ∷ 0 ∷ []) ≡ 1 ∷ [] }
    ensures last_entry_positive { IsCode (1 ∷ 1 ∷ []) → ⊥ }
    ensures swapped { swapped 1 3 (2 ∷ 1 ∷ 3 ∷ []) ≡ 3 ∷ 1 ∷ 2 ∷ [] }
    ensures exchanged { exchanged 2 (2 ∷ 1 ∷ 3 ∷ []) ≡ 2 ∷ 3 ∷ 1 ∷ [] }
    ensures times_swap { times_swap 1 3 (2 ∷ 1 ∷ []) ≡ 3 ∷ 1 ∷ 2 ∷ [] }
    ensures times_swap_back { times_swap 1 2 (2 ∷ 1 ∷ []) ≡ 1 ∷ [] }
    ensures covers_up { covers_up 1 (2 ∷ 1 ∷ []) ≡ (3 ∷ 1 ∷ 2 ∷ []) ∷ [] }
    ensures covers_down { covers_down 1 (2 ∷ 1 ∷ []) ≡ [] }
    ensures covers_of_identity { covers_up 2 (1 ∷ []) ≡ (1 ∷ 3 ∷ 2 ∷ []) ∷ [] }
    ensures covers_down_of_identity { covers_down 2 (1 ∷ []) ≡ (2 ∷ 1 ∷ []) ∷ [] }
    // (1,2,4,3)·t_13 = (4,2,1,3) is not listed, since it has three inversions more than (1,2,4,3)
    ensures three_more { covers_down 3 (1 ∷ 2 ∷ 4 ∷ 3 ∷ []) ≡ (1 ∷ 4 ∷ 2 ∷ 3 ∷ []) ∷ [] }
{}

/// ∂_i of monomials in which the exponent of x_i is greater than, less than or equal to the
/// exponent of x_(i+1), and ∂_1 of the number 1; also single variables and a monomial, written in a
/// given number of variables.
pub fn divided_difference_examples_law()
    // (x^3 y - x y^3)/(x - y) = x y^2 + x^2 y
    ensures falling { divided_difference 1 (x_to (3 ∷ 1 ∷ []))
        ≡ ((1 ∷ 2 ∷ []), pos 1) ∷ ((2 ∷ 1 ∷ []), pos 1) ∷ [] }
    ensures rising { divided_difference 1 (x_to (1 ∷ 3 ∷ []))
        ≡ ((1 ∷ 2 ∷ []), negsuc 0) ∷ ((2 ∷ 1 ∷ []), negsuc 0) ∷ [] }
    ensures equal { divided_difference 1 (x_to (2 ∷ 2 ∷ [])) ≡ nothing }
    ensures later_place { divided_difference 2 (x_to (5 ∷ 1 ∷ 0 ∷ 4 ∷ []))
        ≡ ((5 ∷ 0 ∷ 0 ∷ 4 ∷ []), pos 1) ∷ [] }
    ensures number { divided_difference 1 (one 2) ≡ nothing }
    ensures variable { variable 3 ≡ ((0 ∷ 0 ∷ 1 ∷ []), pos 1) ∷ [] }
    ensures in_more_variables { variable_in 2 3 ≡ ((0 ∷ 1 ∷ 0 ∷ []), pos 1) ∷ [] }
    ensures in_fewer_variables { variable_in 3 2 ≡ nothing }
    ensures last_zero { x_to_in (2 ∷ 0 ∷ []) 1 ≡ ((2 ∷ []), pos 1) ∷ [] }
{}

/// The Schubert polynomials of all permutations of four letters.
pub fn schubert_examples_law()
    ensures s1234 { schubert (1 ∷ 2 ∷ 3 ∷ 4 ∷ []) ≡ ((0 ∷ 0 ∷ 0 ∷ 0 ∷ []), pos 1) ∷ [] }
    ensures s1243 { schubert (1 ∷ 2 ∷ 4 ∷ 3 ∷ [])
        ≡ ((0 ∷ 0 ∷ 1 ∷ 0 ∷ []), pos 1) ∷ ((0 ∷ 1 ∷ 0 ∷ 0 ∷ []), pos 1)
        ∷ ((1 ∷ 0 ∷ 0 ∷ 0 ∷ []), pos 1) ∷ [] }
    ensures s1324 { schubert (1 ∷ 3 ∷ 2 ∷ 4 ∷ [])
        ≡ ((0 ∷ 1 ∷ 0 ∷ 0 ∷ []), pos 1) ∷ ((1 ∷ 0 ∷ 0 ∷ 0 ∷ []), pos 1) ∷ [] }
    ensures s1342 { schubert (1 ∷ 3 ∷ 4 ∷ 2 ∷ [])
        ≡ ((0 ∷ 1 ∷ 1 ∷ 0 ∷ []), pos 1) ∷ ((1 ∷ 0 ∷ 1 ∷ 0 ∷ []), pos 1)
        ∷ ((1 ∷ 1 ∷ 0 ∷ 0 ∷ []), pos 1) ∷ [] }
    ensures s1423 { schubert (1 ∷ 4 ∷ 2 ∷ 3 ∷ [])
        ≡ ((0 ∷ 2 ∷ 0 ∷ 0 ∷ []), pos 1) ∷ ((1 ∷ 1 ∷ 0 ∷ 0 ∷ []), pos 1)
        ∷ ((2 ∷ 0 ∷ 0 ∷ 0 ∷ []), pos 1) ∷ [] }
    ensures s1432 { schubert (1 ∷ 4 ∷ 3 ∷ 2 ∷ [])
        ≡ ((0 ∷ 2 ∷ 1 ∷ 0 ∷ []), pos 1) ∷ ((1 ∷ 1 ∷ 1 ∷ 0 ∷ []), pos 1)
        ∷ ((2 ∷ 0 ∷ 1 ∷ 0 ∷ []), pos 1)
        ∷ ((1 ∷ 2 ∷ 0 ∷ 0 ∷ []), pos 1) ∷ ((2 ∷ 1 ∷ 0 ∷ 0 ∷ []), pos 1) ∷ [] }
    ensures s2134 { schubert (2 ∷ 1 ∷ 3 ∷ 4 ∷ []) ≡ ((1 ∷ 0 ∷ 0 ∷ 0 ∷ []), pos 1) ∷ [] }
    ensures s2143 { schubert (2 ∷ 1 ∷ 4 ∷ 3 ∷ [])
        ≡ ((1 ∷ 0 ∷ 1 ∷ 0 ∷ []), pos 1) ∷ ((1 ∷ 1 ∷ 0 ∷ 0 ∷ []), pos 1)
        ∷ ((2 ∷ 0 ∷ 0 ∷ 0 ∷ []), pos 1) ∷ [] }
    ensures s2314 { schubert (2 ∷ 3 ∷ 1 ∷ 4 ∷ []) ≡ ((1 ∷ 1 ∷ 0 ∷ 0 ∷ []), pos 1) ∷ [] }
    ensures s2341 { schubert (2 ∷ 3 ∷ 4 ∷ 1 ∷ []) ≡ ((1 ∷ 1 ∷ 1 ∷ 0 ∷ []), pos 1) ∷ [] }
    ensures s2413 { schubert (2 ∷ 4 ∷ 1 ∷ 3 ∷ [])
        ≡ ((1 ∷ 2 ∷ 0 ∷ 0 ∷ []), pos 1) ∷ ((2 ∷ 1 ∷ 0 ∷ 0 ∷ []), pos 1) ∷ [] }
    ensures s2431 { schubert (2 ∷ 4 ∷ 3 ∷ 1 ∷ [])
        ≡ ((1 ∷ 2 ∷ 1 ∷ 0 ∷ []), pos 1) ∷ ((2 ∷ 1 ∷ 1 ∷ 0 ∷ []), pos 1) ∷ [] }
    ensures s3124 { schubert (3 ∷ 1 ∷ 2 ∷ 4 ∷ []) ≡ ((2 ∷ 0 ∷ 0 ∷ 0 ∷ []), pos 1) ∷ [] }
    ensures s3142 { schubert (3 ∷ 1 ∷ 4 ∷ 2 ∷ [])
        ≡ ((2 ∷ 0 ∷ 1 ∷ 0 ∷ []), pos 1) ∷ ((2 ∷ 1 ∷ 0 ∷ 0 ∷ []), pos 1) ∷ [] }
    ensures s3214 { schubert (3 ∷ 2 ∷ 1 ∷ 4 ∷ []) ≡ ((2 ∷ 1 ∷ 0 ∷ 0 ∷ []), pos 1) ∷ [] }
    ensures s3241 { schubert (3 ∷ 2 ∷ 4 ∷ 1 ∷ []) ≡ ((2 ∷ 1 ∷ 1 ∷ 0 ∷ []), pos 1) ∷ [] }
    ensures s3412 { schubert (3 ∷ 4 ∷ 1 ∷ 2 ∷ []) ≡ ((2 ∷ 2 ∷ 0 ∷ 0 ∷ []), pos 1) ∷ [] }
    ensures s3421 { schubert (3 ∷ 4 ∷ 2 ∷ 1 ∷ []) ≡ ((2 ∷ 2 ∷ 1 ∷ 0 ∷ []), pos 1) ∷ [] }
    ensures s4123 { schubert (4 ∷ 1 ∷ 2 ∷ 3 ∷ []) ≡ ((3 ∷ 0 ∷ 0 ∷ 0 ∷ []), pos 1) ∷ [] }
    ensures s4132 { schubert (4 ∷ 1 ∷ 3 ∷ 2 ∷ [])
        ≡ ((3 ∷ 0 ∷ 1 ∷ 0 ∷ []), pos 1) ∷ ((3 ∷ 1 ∷ 0 ∷ 0 ∷ []), pos 1) ∷ [] }
    ensures s4213 { schubert (4 ∷ 2 ∷ 1 ∷ 3 ∷ []) ≡ ((3 ∷ 1 ∷ 0 ∷ 0 ∷ []), pos 1) ∷ [] }
    ensures s4231 { schubert (4 ∷ 2 ∷ 3 ∷ 1 ∷ []) ≡ ((3 ∷ 1 ∷ 1 ∷ 0 ∷ []), pos 1) ∷ [] }
    ensures s4312 { schubert (4 ∷ 3 ∷ 1 ∷ 2 ∷ []) ≡ ((3 ∷ 2 ∷ 0 ∷ 0 ∷ []), pos 1) ∷ [] }
    ensures s4321 { schubert (4 ∷ 3 ∷ 2 ∷ 1 ∷ []) ≡ ((3 ∷ 2 ∷ 1 ∷ 0 ∷ []), pos 1) ∷ [] }
{}

/// Schubert polynomials of permutations of five letters, of one letter and of no letter, and their
/// restrictions to other numbers of variables.
pub fn schubert_more_examples_law()
    ensures s14352 { schubert (1 ∷ 4 ∷ 3 ∷ 5 ∷ 2 ∷ [])
        ≡ ((0 ∷ 2 ∷ 1 ∷ 1 ∷ 0 ∷ []), pos 1) ∷ ((1 ∷ 1 ∷ 1 ∷ 1 ∷ 0 ∷ []), pos 1)
        ∷ ((2 ∷ 0 ∷ 1 ∷ 1 ∷ 0 ∷ []), pos 1)
        ∷ ((1 ∷ 2 ∷ 0 ∷ 1 ∷ 0 ∷ []), pos 1) ∷ ((2 ∷ 1 ∷ 0 ∷ 1 ∷ 0 ∷ []), pos 1)
        ∷ ((1 ∷ 2 ∷ 1 ∷ 0 ∷ 0 ∷ []), pos 1)
        ∷ ((2 ∷ 1 ∷ 1 ∷ 0 ∷ 0 ∷ []), pos 1) ∷ [] }
    ensures s21534 { schubert (2 ∷ 1 ∷ 5 ∷ 3 ∷ 4 ∷ [])
        ≡ ((1 ∷ 0 ∷ 2 ∷ 0 ∷ 0 ∷ []), pos 1) ∷ ((1 ∷ 1 ∷ 1 ∷ 0 ∷ 0 ∷ []), pos 1)
        ∷ ((1 ∷ 2 ∷ 0 ∷ 0 ∷ 0 ∷ []), pos 1)
        ∷ ((2 ∷ 0 ∷ 1 ∷ 0 ∷ 0 ∷ []), pos 1) ∷ ((2 ∷ 1 ∷ 0 ∷ 0 ∷ 0 ∷ []), pos 1)
        ∷ ((3 ∷ 0 ∷ 0 ∷ 0 ∷ 0 ∷ []), pos 1) ∷ [] }
    ensures s21543 { coefficient (schubert (2 ∷ 1 ∷ 5 ∷ 4 ∷ 3 ∷ [])) (2 ∷ 1 ∷ 1 ∷ 0 ∷ 0 ∷ [])
        ≡ pos 2 }
    ensures one_letter { schubert (1 ∷ []) ≡ one 1 }
    ensures no_letter { schubert [] ≡ one 0 }
    ensures identity { schubert (1 ∷ 2 ∷ 3 ∷ []) ≡ one 3 }
    // the Schubert polynomial x_1 + x_2 + x_3 of (1,2,4,3) loses its last term in two variables
    ensures drops_a_term { schubert_in (1 ∷ 2 ∷ 4 ∷ 3 ∷ []) 2
        ≡ ((0 ∷ 1 ∷ []), pos 1) ∷ ((1 ∷ 0 ∷ []), pos 1) ∷ [] }
    ensures more_variables { schubert_in (2 ∷ 1 ∷ []) 3 ≡ ((1 ∷ 0 ∷ 0 ∷ []), pos 1) ∷ [] }
    ensures no_variables { schubert_in (2 ∷ 1 ∷ []) 0 ≡ nothing }
    ensures identity_without_variables { schubert_in (1 ∷ []) 0 ≡ one 0 }
{}

/// Straightening: s_(0,2) = -s_(1,1), s_(1,2) = 0, s_(0,0,3) = s_(1,1,1), and a partition
/// straightens to itself.
pub fn straightening_examples_law()
    ensures negative { straightened (0 ∷ 2 ∷ []) ≡ Some (negsuc 0, (1 ∷ 1 ∷ [])) }
    ensures equal { straightened (1 ∷ 2 ∷ []) ≡ None }
    ensures two_exchanges { straightened (0 ∷ 0 ∷ 3 ∷ []) ≡ Some (pos 1, (1 ∷ 1 ∷ 1 ∷ [])) }
    ensures partition { straightened (2 ∷ 1 ∷ 0 ∷ []) ≡ Some (pos 1, (2 ∷ 1 ∷ [])) }
    ensures no_place { straightened [] ≡ Some (pos 1, []) }
{}
