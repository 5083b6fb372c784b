//! Worked examples of one-line forms, such as s[4,2]+2*s[3,2,1] for a list of two terms, and of
//! texts that are no such forms.

ghost use Rattle.std.specs.Prelude.{◌≡◌, pos, negsuc, [], ◌∷◌, codes, Some, None};
ghost use Rattle.sym_model.specs.Expansion.{monomials, elementaries, completes, power_sums, schurs};
ghost use Rattle.sym_model.specs.Kind.{label_rules, expansion, product};
ghost use Rattle.sym_model.specs.OneLine.{one_line, read_one_line};

/// One-line forms in each basis, the lists obtained by reading such forms, and texts that are no
/// one-line forms.
pub fn line_examples_law()
    // the square of s_(2,1), on one line
    ensures square { one_line schurs
        ((4 ∷ 2 ∷ [], (pos 1, 1)) ∷ (4 ∷ 1 ∷ 1 ∷ [], (pos 1, 1)) ∷ (3 ∷ 3 ∷ [], (pos 1, 1))
        ∷ (3 ∷ 2 ∷ 1 ∷ [], (pos 2, 1)) ∷ (3 ∷ 1 ∷ 1 ∷ 1 ∷ [], (pos 1, 1))
        ∷ (2 ∷ 2 ∷ 2 ∷ [], (pos 1, 1))
        ∷ (2 ∷ 2 ∷ 1 ∷ 1 ∷ [], (pos 1, 1)) ∷ [])
        ≡ codes "s[4,2]+s[4,1,1]+s[3,3]+2*s[3,2,1]+s[3,1,1,1]+s[2,2,2]+s[2,2,1,1]\n" }
    ensures reads_square { read_one_line schurs (label_rules product)
        (codes "s[4,2]+s[4,1,1]+s[3,3]+2*s[3,2,1]+s[3,1,1,1]+s[2,2,2]+s[2,2,1,1]\n")
        ≡ Some ((4 ∷ 2 ∷ [], (pos 1, 1)) ∷ (4 ∷ 1 ∷ 1 ∷ [], (pos 1, 1)) ∷ (3 ∷ 3 ∷ [], (pos 1, 1))
        ∷ (3 ∷ 2 ∷ 1 ∷ [], (pos 2, 1)) ∷ (3 ∷ 1 ∷ 1 ∷ 1 ∷ [], (pos 1, 1))
        ∷ (2 ∷ 2 ∷ 2 ∷ [], (pos 1, 1))
        ∷ (2 ∷ 2 ∷ 1 ∷ 1 ∷ [], (pos 1, 1)) ∷ []) }
    // s_(2,1) in power sums, on one line
    ensures fractions { one_line power_sums
        ((3 ∷ [], (negsuc 0, 3)) ∷ (1 ∷ 1 ∷ 1 ∷ [], (pos 1, 3)) ∷ [])
        ≡ codes "-1/3*p[3]+1/3*p[1,1,1]\n" }
    ensures reads_fractions { read_one_line power_sums (label_rules expansion)
        (codes "-1/3*p[3]+1/3*p[1,1,1]\n")
        ≡ Some ((3 ∷ [], (negsuc 0, 3)) ∷ (1 ∷ 1 ∷ 1 ∷ [], (pos 1, 3)) ∷ []) }
    ensures fractions_in_product { read_one_line power_sums (label_rules product)
        (codes "-1/3*p[3]+1/3*p[1,1,1]\n") ≡ None }
    ensures nothing { one_line monomials [] ≡ codes "0\n" }
    ensures reads_nothing { read_one_line monomials (label_rules expansion) (codes "0\n")
        ≡ Some [] }
    ensures negative_first { one_line schurs (([], (negsuc 0, 1)) ∷ []) ≡ codes "-s[]\n" }
    ensures reads_negative_first { read_one_line schurs (label_rules expansion) (codes "-s[]\n")
        ≡ Some (([], (negsuc 0, 1)) ∷ []) }
    // h_12 - 10 h_(10,2)/3 + h_1, on one line: parts and a numerator of two digits
    ensures signs { one_line completes
        ((12 ∷ [], (pos 1, 1)) ∷ (10 ∷ 2 ∷ [], (negsuc 9, 3)) ∷ (1 ∷ [], (pos 1, 1)) ∷ [])
        ≡ codes "h[12]-10/3*h[10,2]+h[1]\n" }
    ensures reads_signs { read_one_line completes (label_rules expansion)
        (codes "h[12]-10/3*h[10,2]+h[1]\n")
        ≡ Some ((12 ∷ [], (pos 1, 1)) ∷ (10 ∷ 2 ∷ [], (negsuc 9, 3)) ∷ (1 ∷ [], (pos 1, 1)) ∷ []) }
    ensures coefficient_one { read_one_line schurs (label_rules expansion) (codes "1*s[1]\n")
        ≡ None }
    ensures plus_in_front { read_one_line schurs (label_rules expansion) (codes "+s[1]\n") ≡ None }
    ensures other_letter { read_one_line elementaries (label_rules expansion) (codes "s[1]\n")
        ≡ None }
    ensures other_order { read_one_line elementaries (label_rules expansion) (codes "e[1,1]+e[2]\n")
        ≡ None }
    ensures no_end_of_line { read_one_line schurs (label_rules expansion) (codes "s[1]") ≡ None }
    ensures coefficient_zero { read_one_line schurs (label_rules expansion) (codes "0*s[1]\n")
        ≡ None }
    ensures not_in_lowest_terms { read_one_line schurs (label_rules expansion) (codes "2/4*s[1]\n")
        ≡ None }
    ensures two_signs { read_one_line schurs (label_rules expansion) (codes "s[2]+-s[1]\n") ≡ None }
    ensures atom_alone { read_one_line schurs (label_rules expansion) (codes "3\n") ≡ None }
    ensures no_text { read_one_line schurs (label_rules expansion) [] ≡ None }
{}
