//! Worked examples of blocks. A block is the text of a list of terms, with one line for each term:
//! a coefficient and a label. The kind of a block says what its labels are, such as pairs of
//! partitions or permutations. There are also examples of the orders and the limits of the labels.

ghost use Rattle.std.specs.Prelude.{◌≡◌, ◌^◌, ◌-◌, ◌++◌, true, false, pos, negsuc, [], ◌∷◌, codes};
ghost use Rattle.std.specs.Prelude.{Some, None};
ghost use Rattle.std.specs.declared.cmp.Ordering.TheVariants.{Less, Equal, Greater};
ghost use Rattle.sym_model.specs.Partition.{after};
ghost use Rattle.sym_model.specs.PrintedOrder.{pair_order, power_order, permutation_order};
ghost use Rattle.sym_model.specs.PrintedOrder.{printed_order};
ghost use Rattle.sym_model.specs.LabelLimits.{is_power_label, is_permutation_label};
ghost use Rattle.sym_model.specs.LabelLimits.{is_monomial_label};
ghost use Rattle.sym_model.specs.Kind.{label_rules, number, expansion, product, pairs, powers};
ghost use Rattle.sym_model.specs.Kind.{permutations, polynomial, shifts};
ghost use Rattle.sym_model.specs.PrintedBlock.{block_by, read_by};

/// Blocks of each kind, and texts that are no blocks.
pub fn kind_examples_law()
    // the block of s_(2,1) in two sets of variables
    ensures pairs { block_by (label_rules pairs)
        (((2 ∷ 1 ∷ [], []), (pos 1, 1)) ∷ ((2 ∷ [], 1 ∷ []), (pos 1, 1))
        ∷ ((1 ∷ 1 ∷ [], 1 ∷ []), (pos 1, 1))
        ∷ ((1 ∷ [], 2 ∷ []), (pos 1, 1)) ∷ ((1 ∷ [], 1 ∷ 1 ∷ []), (pos 1, 1))
        ∷ (([], 2 ∷ 1 ∷ []), (pos 1, 1)) ∷ [])
        ≡ codes "1  (2,1) ()\n1  (2) (1)\n1  (1,1) (1)\n1  (1) (2)\n1  (1) (1,1)\n1  () (2,1)\n" }
    ensures reads_pairs { read_by (label_rules pairs) (codes "1  (2) (1)\n-2  () (2,1)\n")
        ≡ Some (((2 ∷ [], 1 ∷ []), (pos 1, 1)) ∷ (([], 2 ∷ 1 ∷ []), (negsuc 1, 1)) ∷ []) }
    ensures one_label_of_two { read_by (label_rules pairs) (codes "1  (2)\n") ≡ None }
    ensures two_spaces_between { read_by (label_rules pairs) (codes "1  (2)  (1)\n") ≡ None }
    // the block of the quantum product of (1) and (2,1) with two rows and two columns
    ensures powers { block_by (label_rules powers)
        (((0, 2 ∷ 2 ∷ []), (pos 1, 1)) ∷ ((1, []), (pos 1, 1)) ∷ [])
        ≡ codes "1  q^0  (2,2)\n1  q^1  ()\n" }
    ensures reads_powers { read_by (label_rules powers) (codes "1  q^0  (2,2)\n1  q^1  ()\n")
        ≡ Some (((0, 2 ∷ 2 ∷ []), (pos 1, 1)) ∷ ((1, []), (pos 1, 1)) ∷ []) }
    ensures powers_fall { read_by (label_rules powers) (codes "1  q^1  ()\n1  q^0  (2,2)\n")
        ≡ None }
    ensures power_with_zero { read_by (label_rules powers) (codes "1  q^01  ()\n") ≡ None }
    // the block of the square of the Schubert polynomial of (1,3,2)
    ensures permutations { block_by (label_rules permutations)
        ((1 ∷ 4 ∷ 2 ∷ 3 ∷ [], (pos 1, 1)) ∷ (2 ∷ 3 ∷ 1 ∷ [], (pos 1, 1)) ∷ [])
        ≡ codes "1  (1,4,2,3)\n1  (2,3,1)\n" }
    ensures reads_permutations { read_by (label_rules permutations)
        (codes "1  (1,4,2,3)\n1  (2,3,1)\n")
        ≡ Some ((1 ∷ 4 ∷ 2 ∷ 3 ∷ [], (pos 1, 1)) ∷ (2 ∷ 3 ∷ 1 ∷ [], (pos 1, 1)) ∷ []) }
    ensures identity { read_by (label_rules permutations) (codes "1  (1)\n")
        ≡ Some ((1 ∷ [], (pos 1, 1)) ∷ []) }
    ensures no_letter { read_by (label_rules permutations) (codes "1  ()\n") ≡ None }
    ensures fixed_letter { read_by (label_rules permutations) (codes "1  (2,1,3)\n") ≡ None }
    ensures letter_twice { read_by (label_rules permutations) (codes "1  (1,1)\n") ≡ None }
    ensures letter_past_the_end { read_by (label_rules permutations) (codes "1  (3,1)\n") ≡ None }
    // the block of the Schubert polynomial of (2,1,4,3)
    ensures polynomial { block_by (label_rules polynomial)
        ((2 ∷ [], (pos 1, 1)) ∷ (1 ∷ 1 ∷ [], (pos 1, 1)) ∷ (1 ∷ 0 ∷ 1 ∷ [], (pos 1, 1)) ∷ [])
        ≡ codes "1  (2)\n1  (1,1)\n1  (1,0,1)\n" }
    ensures reads_polynomial { read_by (label_rules polynomial)
        (codes "1  (2)\n1  (1,1)\n1  (1,0,1)\n")
        ≡ Some ((2 ∷ [], (pos 1, 1)) ∷ (1 ∷ 1 ∷ [], (pos 1, 1)) ∷ (1 ∷ 0 ∷ 1 ∷ [], (pos 1, 1))
        ∷ []) }
    ensures constant { read_by (label_rules polynomial) (codes "5  ()\n")
        ≡ Some (([], (pos 5, 1)) ∷ []) }
    ensures zero_at_the_end { read_by (label_rules polynomial) (codes "1  (1,0)\n") ≡ None }
    // the block of the square of the double Schubert polynomial of (2,1)
    ensures shifts { block_by (label_rules shifts)
        (((2 ∷ 1 ∷ [], 1 ∷ []), (negsuc 0, 1)) ∷ ((2 ∷ 1 ∷ [], 0 ∷ 1 ∷ []), (pos 1, 1))
        ∷ ((3 ∷ 1 ∷ 2 ∷ [], []), (pos 1, 1)) ∷ [])
        ≡ codes "-1  (2,1) (1)\n1  (2,1) (0,1)\n1  (3,1,2) ()\n" }
    ensures reads_shifts { read_by (label_rules shifts) (codes "-1  (2,1) (1)\n1  (3,1,2) ()\n")
        ≡ Some (((2 ∷ 1 ∷ [], 1 ∷ []), (negsuc 0, 1)) ∷ ((3 ∷ 1 ∷ 2 ∷ [], []), (pos 1, 1)) ∷ []) }
    ensures shifts_fall { read_by (label_rules shifts) (codes "1  (2,1) (0,1)\n-1  (2,1) (1)\n")
        ≡ None }
    ensures whole { read_by (label_rules product) (codes "1  (2)\n")
        ≡ Some ((2 ∷ [], (pos 1, 1)) ∷ []) }
    ensures fraction_in_product { read_by (label_rules product) (codes "1/2  (2)\n") ≡ None }
    ensures fraction_in_expansion { read_by (label_rules expansion) (codes "1/2  (2)\n") ≡ Some ((2 ∷ [], (pos 1, 2)) ∷ []) }
    ensures unreduced { read_by (label_rules expansion) (codes "2/4  (2)\n") ≡ None }
    ensures number { block_by (label_rules number) ((tt, (pos 2, 1)) ∷ []) ≡ codes "2\n" }
    ensures number_zero { block_by (label_rules number) [] ≡ codes "0\n" }
    ensures reads_number { read_by (label_rules number) (codes "-12\n")
        ≡ Some ((tt, (negsuc 11, 1)) ∷ []) }
    ensures reads_number_zero { read_by (label_rules number) (codes "0\n") ≡ Some [] }
    ensures two_numbers { read_by (label_rules number) (codes "1\n2\n") ≡ None }
    ensures number_with_label { read_by (label_rules number) (codes "1  (2)\n") ≡ None }
{}

/// The orders of the labels of each kind, and labels at their limits and just over them.
pub fn label_examples_law()
    ensures first_partition { pair_order (2 ∷ [], []) (1 ∷ [], 3 ∷ []) ≡ Less }
    ensures second_partition { pair_order (1 ∷ [], 1 ∷ 1 ∷ []) (1 ∷ [], 2 ∷ []) ≡ Greater }
    ensures same_pair { pair_order (1 ∷ [], 2 ∷ []) (1 ∷ [], 2 ∷ []) ≡ Equal }
    ensures lesser_power { power_order (0, []) (1, 5 ∷ []) ≡ Less }
    ensures same_power { power_order (1, 2 ∷ []) (1, 1 ∷ 1 ∷ []) ≡ Less }
    ensures fewer_inversions { permutation_order (2 ∷ 1 ∷ []) (1 ∷ 4 ∷ 2 ∷ 3 ∷ []) ≡ Less }
    ensures first_letter { permutation_order (2 ∷ 3 ∷ 1 ∷ []) (3 ∷ 1 ∷ 2 ∷ []) ≡ Less }
    ensures fixed_letters_go_on { permutation_order (2 ∷ 1 ∷ []) (1 ∷ 2 ∷ 4 ∷ 3 ∷ []) ≡ Greater }
    ensures same_permutation { permutation_order (2 ∷ 1 ∷ []) (2 ∷ 1 ∷ []) ≡ Equal }
    ensures lesser_degree { printed_order (1 ∷ []) (0 ∷ 0 ∷ 2 ∷ []) ≡ Greater }
    ensures later_exponent { printed_order (1 ∷ 1 ∷ []) (1 ∷ 0 ∷ 1 ∷ []) ≡ Less }
    ensures greatest_power { is_power_label (2 ^ 32 - 1, []) ≡ true }
    ensures power_too_great { is_power_label (2 ^ 32, []) ≡ false }
    ensures many_letters { is_permutation_label (after 1 254 ++ (1 ∷ [])) ≡ true }
    ensures too_many_letters { is_permutation_label (after 1 255 ++ (1 ∷ [])) ≡ false }
    ensures greatest_degree { is_monomial_label (32385 ∷ []) ≡ true }
    ensures degree_too_great { is_monomial_label (32385 ∷ 1 ∷ []) ≡ false }
    ensures many_exponents { is_monomial_label (after 0 254 ++ (0 ∷ 1 ∷ [])) ≡ false }
{}
