//! Worked examples of polynomials, of orders, and of blocks (the texts of lists of terms, one line
//! for each term), with values worked out by hand or taken from other sources.

ghost use Rattle.std.specs.Prelude.{◌≡◌, ◌^◌, ◌-◌, true, false, pos, negsuc, [], ◌∷◌, map, codes};
ghost use Rattle.std.specs.declared.cmp.Ordering.TheVariants.{Less, Equal, Greater};
ghost use Rattle.sym_model.specs.Polynomial.{coefficient, nothing, one};
ghost use Rattle.sym_model.specs.Partition.{cells, sorted_parts, without_last_zeros};
ghost use Rattle.sym_model.specs.Bases.{monomial, elementary, complete, power_sum};
ghost use Rattle.sym_model.specs.Schur.{schur};
ghost use Rattle.sym_model.specs.Expansion.{value, power_sums};
ghost use Rattle.sym_model.specs.PrintedOrder.{printed_order};
ghost use Rattle.sym_model.specs.Canonical.{gcd, is_label, fits_128_bits};
ghost use Rattle.sym_model.specs.PrintedBlock.{block, read, decimal_value};

/// The polynomials of the bases in few variables, multiplied out by hand. m_λ is 0 if there are
/// fewer variables than parts, and e_λ is 0 if there are fewer variables than the greatest part;
/// every basis has 1 for the empty partition. The clause `schur` is a Kostka number, the
/// coefficient of `x_1^2 x_2^2 x_3 x_4` in `s_(3,2,1)`.
pub fn worked_examples_law()
    // m_(2,1) in three variables: x^2 y + x^2 z + x y^2 + x z^2 + y^2 z + y z^2
    ensures monomial_three { monomial (2 ∷ 1 ∷ []) 3
        ≡ ((2 ∷ 1 ∷ 0 ∷ []), pos 1) ∷ ((2 ∷ 0 ∷ 1 ∷ []), pos 1) ∷ ((1 ∷ 2 ∷ 0 ∷ []), pos 1)
        ∷ ((1 ∷ 0 ∷ 2 ∷ []), pos 1) ∷ ((0 ∷ 2 ∷ 1 ∷ []), pos 1) ∷ ((0 ∷ 1 ∷ 2 ∷ []), pos 1) ∷ [] }
    // m_(2,1) in two variables: x^2 y + x y^2
    ensures monomial_two { monomial (2 ∷ 1 ∷ []) 2
        ≡ ((2 ∷ 1 ∷ []), pos 1) ∷ ((1 ∷ 2 ∷ []), pos 1) ∷ [] }
    ensures monomial_one { monomial (2 ∷ 1 ∷ []) 1 ≡ nothing }
    ensures monomial_none { monomial (1 ∷ []) 0 ≡ nothing }
    ensures monomial_empty { monomial [] 2 ≡ one 2 }
    // e_2 in three variables: x y + x z + y z
    ensures elementary_three { elementary (2 ∷ []) 3
        ≡ ((1 ∷ 1 ∷ 0 ∷ []), pos 1) ∷ ((1 ∷ 0 ∷ 1 ∷ []), pos 1) ∷ ((0 ∷ 1 ∷ 1 ∷ []), pos 1) ∷ [] }
    // e_(2,1) in two variables: x y · (x + y)
    ensures elementary_two { elementary (2 ∷ 1 ∷ []) 2
        ≡ ((2 ∷ 1 ∷ []), pos 1) ∷ ((1 ∷ 2 ∷ []), pos 1) ∷ [] }
    ensures elementary_one { elementary (2 ∷ 1 ∷ []) 1 ≡ nothing }
    ensures elementary_none { elementary (1 ∷ []) 0 ≡ nothing }
    ensures elementary_empty { elementary [] 0 ≡ one 0 }
    // h_(2,1) in three variables: (x^2 + y^2 + z^2 + x y + x z + y z)(x + y + z) has the term 3 x y
    // z
    ensures complete_three { coefficient (complete (2 ∷ 1 ∷ []) 3) (1 ∷ 1 ∷ 1 ∷ []) ≡ pos 3 }
    // h_(2,1) in two variables: (x^2 + x y + y^2)(x + y) = x^3 + 2 x^2 y + 2 x y^2 + y^3
    ensures complete_two { coefficient (complete (2 ∷ 1 ∷ []) 2) (2 ∷ 1 ∷ []) ≡ pos 2 }
    ensures complete_two_top { coefficient (complete (2 ∷ 1 ∷ []) 2) (3 ∷ 0 ∷ []) ≡ pos 1 }
    ensures complete_one { complete (2 ∷ 1 ∷ []) 1 ≡ ((3 ∷ []), pos 1) ∷ [] }
    ensures complete_none { complete (1 ∷ []) 0 ≡ nothing }
    // p_(2,1) in three variables: (x^2 + y^2 + z^2)(x + y + z) has no term x y z
    ensures power_sum_three { coefficient (power_sum (2 ∷ 1 ∷ []) 3) (1 ∷ 1 ∷ 1 ∷ []) ≡ pos 0 }
    // p_(2,1) in two variables: (x^2 + y^2)(x + y)
    ensures power_sum_two { power_sum (2 ∷ 1 ∷ []) 2
        ≡ ((3 ∷ 0 ∷ []), pos 1) ∷ ((2 ∷ 1 ∷ []), pos 1) ∷ ((1 ∷ 2 ∷ []), pos 1)
        ∷ ((0 ∷ 3 ∷ []), pos 1) ∷ [] }
    ensures power_sum_one { power_sum (2 ∷ 1 ∷ []) 1 ≡ ((3 ∷ []), pos 1) ∷ [] }
    ensures power_sum_none { power_sum (1 ∷ []) 0 ≡ nothing }
    ensures schur { coefficient (schur (3 ∷ 2 ∷ 1 ∷ []) 4) (2 ∷ 2 ∷ 1 ∷ 1 ∷ []) ≡ pos 4 }
    // s_(2,1) = (p_1^3 - p_3)/3: its coefficient 1 at x^2 y, multiplied by the denominators 3 and 3
    ensures value { coefficient
        (value power_sums
        (((3 ∷ []), (negsuc 0, 3)) ∷ ((1 ∷ 1 ∷ 1 ∷ []), (pos 1, 3)) ∷ []) 2) (2 ∷ 1 ∷ [])
        ≡ pos 9 }
{}

/// The printed order, which is decreasing size, then decreasing lexicographic order; and functions
/// on partitions and numbers that the definitions use: cells, sorting, greatest common divisors,
/// and the limits of labels and of 128-bit numbers.
pub fn order_examples_law()
    ensures greater_size { printed_order (1 ∷ 1 ∷ 1 ∷ 1 ∷ []) (3 ∷ []) ≡ Less }
    ensures greater_part { printed_order (3 ∷ []) (2 ∷ 1 ∷ []) ≡ Less }
    ensures later_part { printed_order (2 ∷ 1 ∷ 1 ∷ []) (2 ∷ 2 ∷ []) ≡ Greater }
    ensures itself { printed_order (2 ∷ 1 ∷ []) (2 ∷ 1 ∷ []) ≡ Equal }
    // the cells (1,2) and (1,3) of (3,2)/(1) in the first row, and (2,1) and (2,2) in the second
    ensures cells { cells (3 ∷ 2 ∷ []) (1 ∷ []) ≡ (1, 2) ∷ (1, 3) ∷ (2, 1) ∷ (2, 2) ∷ [] }
    ensures sorted { sorted_parts (0 ∷ 2 ∷ 1 ∷ 0 ∷ 2 ∷ []) ≡ 2 ∷ 2 ∷ 1 ∷ [] }
    ensures zeros { without_last_zeros (2 ∷ 0 ∷ 1 ∷ 0 ∷ 0 ∷ []) ≡ 2 ∷ 0 ∷ 1 ∷ [] }
    ensures gcd { gcd 12 18 ≡ 6 }
    ensures gcd_of_zero { gcd 0 5 ≡ 5 }
    ensures empty_label { is_label [] ≡ true }
    ensures rising_label { is_label (1 ∷ 2 ∷ []) ≡ false }
    ensures zero_part { is_label (2 ∷ 0 ∷ []) ≡ false }
    ensures too_many_cells { is_label (4097 ∷ []) ≡ false }
    ensures least_number { fits_128_bits (negsuc (2 ^ 127 - 1)) ≡ true }
    ensures past_the_greatest { fits_128_bits (pos (2 ^ 127)) ≡ false }
{}

/// Blocks, texts that are no blocks, and a number with leading zeros. The first block is the output
/// of `expand m p[2,1]`, since `p_(2,1)` is `m_(3) + m_(2,1)`; the second is `s_(2,1)` in power sums.
pub fn block_examples_law()
    ensures whole { block (((3 ∷ []), (pos 1, 1)) ∷ ((2 ∷ 1 ∷ []), (pos 1, 1)) ∷ [])
        ≡ codes "1  (3)\n1  (2,1)\n" }
    ensures fraction { block (((3 ∷ []), (negsuc 0, 3)) ∷ ((1 ∷ 1 ∷ 1 ∷ []), (pos 1, 3)) ∷ [])
        ≡ codes "-1/3  (3)\n1/3  (1,1,1)\n" }
    ensures empty { block [] ≡ codes "0\n" }
    ensures empty_label { block (([], (pos 12, 1)) ∷ []) ≡ codes "12  ()\n" }
    ensures reads_fraction { read (codes "-1/3  (3)\n1/3  (1,1,1)\n")
        ≡ Some (((3 ∷ []), (negsuc 0, 3)) ∷ ((1 ∷ 1 ∷ 1 ∷ []), (pos 1, 3)) ∷ []) }
    ensures reads_empty { read (codes "0\n") ≡ Some [] }
    ensures reads_empty_label { read (codes "12  ()\n") ≡ Some (([], (pos 12, 1)) ∷ []) }
    ensures unreduced { read (codes "2/4  (2)\n") ≡ None }
    ensures whole_over_one { read (codes "2/1  (2)\n") ≡ None }
    ensures out_of_order { read (codes "1  (2,1)\n1  (3)\n") ≡ None }
    ensures twice { read (codes "1  (2)\n1  (2)\n") ≡ None }
    ensures leading_zero { read (codes "01  (2)\n") ≡ None }
    ensures leading_zero_in_label { read (codes "1  (02)\n") ≡ None }
    ensures zero_coefficient { read (codes "0  (2)\n") ≡ None }
    ensures minus_zero { read (codes "-0  (2)\n") ≡ None }
    ensures missing_line_feed { read (codes "1  (2)") ≡ None }
    ensures one_space { read (codes "1 (2)\n") ≡ None }
    ensures rising_label { read (codes "1  (1,2)\n") ≡ None }
    ensures past_128_bits { read (codes "170141183460469231731687303715884105728  (1)\n") ≡ None }
    ensures nothing { read [] ≡ None }
    ensures leading_zeros_of_a_word { decimal_value (codes "0012") ≡ 12 }
{}
