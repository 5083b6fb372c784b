//! Worked examples of words that are refused, each with the place of its first error, and of words
//! at the limits that are not refused.

ghost use Rattle.std.specs.Prelude.{ℕ, true, false, List, [], ◌∷◌, ◌++◌, codes, replicate};
ghost use Rattle.std.specs.Prelude.{flat_map};
ghost use Rattle.sym_model.specs.Expansion.{monomials, elementaries, completes, power_sums, schurs};
ghost use Rattle.sym_model.specs.Expression.{number, fraction, atom, negation};
ghost use Rattle.sym_model.specs.ExpressionOffence.{literal, range, shape};
ghost use Rattle.sym_model.specs.Command.{mult, skew, coprod, quantum, tab, schubert, schubmult};
ghost use Rattle.sym_model.specs.Command.{expand, rsk, unrsk, rect, plethysm, dschubmult, stanley};
ghost use Rattle.sym_model.specs.Command.{work};
ghost use Rattle.sym_model.specs.Grammar.{all_entries, line_entries};
ghost use Rattle.sym_model.specs.SyntaxPlace.{IsSyntaxPlace};
ghost use Rattle.sym_model.specs.BatchLine.{words_of_line};
ghost use Rattle.worked_examples.specs.Examples.{Says, Offends, GoesWrong, repeated};
ghost use Rattle.worked_examples.specs.Examples.{zeros_of};

/// Words that are no command, each with the place of its first error of syntax: a word and a byte
/// in it, both counted from 0.
pub fn words_that_go_wrong_law()
    ensures no_words { GoesWrong (codes "") 0 0 }
    ensures number_for_minus { GoesWrong (codes "mult 1 -1") 2 0 }
    ensures no_target { GoesWrong (codes "expand q p[1]") 1 0 }
    ensures open_list { GoesWrong (codes "expand s p[2,1") 2 5 }
    ensures too_early { GoesWrong (codes "mult 2 1") 3 0 }
    ensures letter { GoesWrong (codes "mult 1 2 - x") 4 0 }
    ensures two_slashes { GoesWrong (codes "expand m 1/2/3") 2 3 }
    ensures two_minus { GoesWrong (codes "expand m --1") 2 1 }
    ensures minus_inside { GoesWrong (codes "expand m 2*-1") 2 2 }
    ensures past_ascii { GoesWrong (codes "expand m p[" ++ (195 ∷ 169 ∷ codes "]")) 2 2 }
    ensures empty_word { IsSyntaxPlace all_entries (codes "expand" ∷ codes "m" ∷ [] ∷ []) 2 0 }
    ensures no_expression { GoesWrong (codes "expand m") 2 0 }
    ensures a_word_more { GoesWrong (codes "expand m 1 1") 3 0 }
    ensures form_before_rows { GoesWrong (codes "mult -m -r 2 1 - 1") 2 0 }
    ensures form_twice { GoesWrong (codes "skew -m -m 1 /") 2 0 }
    ensures form_behind_target { GoesWrong (codes "expand s -m 1") 2 2 }
    ensures no_form { GoesWrong (codes "quantum -m 2 2 1 - 1") 1 0 }
    ensures second_expression { GoesWrong (codes "plethysm s h[2] h[2") 3 3 }
    ensures no_second_expression { GoesWrong (codes "plethysm s h[2]") 3 0 }
    ensures first_expression { GoesWrong (codes "plethysm s h[2 h[2") 2 3 }
    ensures no_rows { GoesWrong (codes "stanley 1") 1 0 }
    ensures slash_twice { GoesWrong (codes "skew / / 1") 2 0 }
    ensures more_than_batch { GoesWrong (codes "batch x") 1 0 }
    ensures no_batch_in_a_batch { IsSyntaxPlace line_entries
        (words_of_line (codes "batch")) 0 0 }
    ensures no_work_in_a_batch { IsSyntaxPlace line_entries
        (words_of_line (codes "work 1 0")) 0 0 }
    ensures byte_255 { IsSyntaxPlace line_entries
        (words_of_line (codes "mult 1 - " ++ (255 ∷ []))) 3 0 }
{}

/// Errors of numbers, partitions, permutations and words of letters, and such lists at the limits
/// that have no error.
pub fn refused_lists_law()
    ensures rows_65 { Offends (codes "mult -r 65 1 - 1") (2, 0, range) }
    ensures rows_64 { Says (codes "mult -r 64 1 - 1")
        (mult (Some 64) false ((1 ∷ []) ∷ (1 ∷ []) ∷ [])) }
    ensures rows_0 { Offends (codes "quantum 0 2 1 - 1") (1, 0, range) }
    ensures level_65 { Offends (codes "fusion 2 65 1 - 1") (2, 0, range) }
    ensures cells_513 { Offends (codes "mult 513 - 1") (1, 0, range) }
    ensures cells_512 { Says (codes "mult 512 - 1") (mult None false ((512 ∷ []) ∷ (1 ∷ []) ∷ [])) }
    ensures sum_513 { Offends (codes "coprod 300 212 1 1") (3, 0, range) }
    ensures numbers_65 { Offends (codes "coprod " ++ repeated 65 (codes "1")) (65, 0, range) }
    ensures numbers_64 { Says (codes "coprod " ++ repeated 64 (codes "1"))
        (coprod (replicate 64 1)) }
    ensures nine_factors { Offends (codes "mult 1 - 1 - 1 - 1 - 1 - 1 - 1 - 1 - 1") (16, 0, range) }
    ensures nine_factors_on_one_line { Offends (codes "mult -r 2 -m 1 - 1 - 1 - 1 - 1 - 1 - 1 - 1 - 1") (19, 0, range) }
    ensures nine_reduced { Offends (codes "fusion 1 1 1 - 1 - 1 - 1 - 1 - 1 - 1 - 1 - 1")
        (18, 0, range) }
    ensures earlier_than_nine { Offends (codes "mult 1 2 - 1 - 1 - 1 - 1 - 1 - 1 - 1 - 1")
        (2, 0, shape) }
    ensures eight_factors { Says (codes "mult 1 - 1 - 1 - 1 - 1 - 1 - 1 - 1")
        (mult None false ((1 ∷ []) ∷ (1 ∷ []) ∷ (1 ∷ []) ∷ (1 ∷ []) ∷ (1 ∷ []) ∷ (1 ∷ []) ∷ (1 ∷ [])
        ∷ (1 ∷ []) ∷ [])) }
    ensures empty_factors { Says (codes "mult -r 2 -m - - 1")
        (mult (Some 2) true ([] ∷ [] ∷ (1 ∷ []) ∷ [])) }
    ensures three_reduced { Says (codes "quantum 2 3 1 - 2 - 1 1")
        (quantum 2 3 ((1 ∷ []) ∷ (2 ∷ []) ∷ (1 ∷ 1 ∷ []) ∷ [])) }
    ensures skew_on_one_line { Says (codes "skew -m 2 1 / 1")
        (skew None true (2 ∷ 1 ∷ []) (1 ∷ [])) }
    ensures rises { Offends (codes "mult 1 2 - 1") (2, 0, shape) }
    ensures rises_after_zero { Offends (codes "mult 0 1 - 1") (2, 0, shape) }
    ensures zeros { Says (codes "mult 0 0 - 1") (mult None false ([] ∷ (1 ∷ []) ∷ [])) }
    ensures two_hundred_zeros { Says (codes "mult " ++ (replicate 200 48 ++ codes "1 - 1"))
        (mult None false ((1 ∷ []) ∷ (1 ∷ []) ∷ [])) }
    ensures wide_number { Offends (codes "quantum 170141183460469231731687303715884105728 2 1 - 1")
        (1, 0, literal) }
    ensures widest_number { Offends
        (codes "quantum 170141183460469231731687303715884105727 2 1 - 1") (1, 0, range) }
    ensures letter_17 { Offends (codes "schubert 1 17") (2, 0, range) }
    ensures letter_5_of_2 { Offends (codes "schubert 1 5") (2, 0, shape) }
    ensures letter_twice { Offends (codes "schubert 1 1") (2, 0, shape) }
    ensures seventeen_letters { Offends (codes "schubert 1 2 3 4 5 6 7 8 9 10 11 12 13 14 15 16 17")
        (17, 0, range) }
    ensures sixteen_letters { Says (codes "schubert 2 1 3 4 5 6 7 8 9 10 11 12 13 14 15 16")
        (schubert (2 ∷ 1 ∷ [])) }
    ensures identity { Says (codes "schubmult 1 2 - 1 3 2") (schubmult (1 ∷ []) (1 ∷ 3 ∷ 2 ∷ [])) }
    ensures letter_9 { Offends (codes "dschubmult 9 - 1") (1, 0, range) }
    ensures nine_letters { Offends (codes "dschubmult 1 - 2 1 3 4 5 6 7 8 9") (11, 0, range) }
    ensures eight_letters { Says (codes "dschubmult 1 - 2 1 3 4 5 6 7 8")
        (dschubmult (1 ∷ []) (2 ∷ 1 ∷ [])) }
    ensures variables_65 { Offends (codes "stanley -r 65 2 1") (2, 0, range) }
    ensures two_variables { Says (codes "stanley -r 2 2 1") (stanley 2 (2 ∷ 1 ∷ [])) }
    ensures letter_0 { Offends (codes "rsk 0") (1, 0, range) }
    ensures letter_65536 { Offends (codes "rsk 65535 65536") (2, 0, range) }
    ensures letters_257 { Offends (codes "rsk " ++ repeated 257 (codes "1")) (257, 0, range) }
    ensures letters_256 { Says (codes "rsk " ++ repeated 256 (codes "1")) (rsk (replicate 256 1)) }
    ensures no_lines { Offends (codes "work 0 0") (1, 0, range) }
    ensures most_work { Says (codes "work 10000 65536") (work 10000 65536) }
    ensures seed { Offends (codes "work 10000 65537") (2, 0, range) }
{}

/// Errors of tableaux, and tableaux without an error.
pub fn refused_tableaux_law()
    ensures inner_outside { Offends (codes "rect 1 / 2 - .") (3, 0, shape) }
    ensures no_cells { Says (codes "rect 1 / 1 - .") (rect (1 ∷ []) (1 ∷ []) ([] ∷ [])) }
    ensures no_rows { Says (codes "rect / - .") (rect [] [] []) }
    ensures rectified { Says (codes "rect 2 2 / 1 - 1 / 1 2")
        (rect (2 ∷ 2 ∷ []) (1 ∷ []) ((1 ∷ []) ∷ (1 ∷ 2 ∷ []) ∷ [])) }
    ensures row_too_long { Offends (codes "rect 2 2 / 1 - 1 1 / 1 2") (7, 0, shape) }
    ensures ends_too_early { Offends (codes "rect 2 2 / 1 - 1 / 1") (9, 0, shape) }
    ensures falls { Offends (codes "rect 2 2 / 1 - 1 / 3 2") (9, 0, shape) }
    ensures column_stays { Offends (codes "rect 2 2 / 1 - 2 / 1 2") (9, 0, shape) }
    ensures shapes_differ { Offends (codes "unrsk 1 2 / 3 - 1 2") (8, 0, shape) }
    ensures pair { Says (codes "unrsk 1 2 / 3 - 1 3 / 2")
        (unrsk ((1 ∷ 2 ∷ []) ∷ (3 ∷ []) ∷ []) ((1 ∷ 3 ∷ []) ∷ (2 ∷ []) ∷ [])) }
    ensures empty_pair { Says (codes "unrsk . - .") (unrsk [] []) }
    ensures dot_below { Offends (codes "unrsk 1 / . - 1") (3, 0, shape) }
    ensures row_grows { Offends (codes "unrsk 1 / 2 3 - 1 / 2 3") (4, 0, shape) }
    ensures recorded_twice { Offends (codes "unrsk 1 2 - 1 1") (5, 0, shape) }
    ensures past_the_cells { Offends (codes "unrsk 1 2 - 1 3") (5, 0, shape) }
    ensures not_in_the_list { Offends (codes "tab 3 2 1 / 2 1 -from 1 / 2 / 2") (7, 0, shape) }
    ensures in_the_list { Says (codes "tab 3 2 1 / 2 1 -from 1 / 1 / 2")
        (tab (3 ∷ 2 ∷ 1 ∷ []) (2 ∷ 1 ∷ []) (Some (1 ∷ 1 ∷ 2 ∷ []))) }
    ensures from_the_start { Says (codes "tab 3 2 1 / 2 1")
        (tab (3 ∷ 2 ∷ 1 ∷ []) (2 ∷ 1 ∷ []) None) }
    ensures entry_65536 { Offends (codes "rect 1 / - 65536") (4, 0, range) }
    ensures numbers_257 { Offends (codes "unrsk " ++ (repeated 257 (codes "1") ++ codes "- 1"))
        (257, 0, range) }
    ensures numbers_257_in_rows { Offends
        (codes "unrsk " ++ (repeated 256 (codes "1") ++ codes "/ 2 - 1")) (258, 0, range) }
    ensures wide_entry { Offends (codes "rect 1 / - 170141183460469231731687303715884105728")
        (4, 0, literal) }
{}

/// Errors of the two expressions of a `plethysm`, and expressions at the limits without an error.
pub fn refused_plethysms_law()
    ensures minus_inside { Offends (codes "plethysm s h[2] h[1]-h[1]") (3, 4, shape) }
    ensures fraction_inside { Offends (codes "plethysm s h[2] 3*1/2") (3, 2, shape) }
    ensures fraction_outside { Says (codes "plethysm s -1/2 1")
        (plethysm schurs (negation (fraction 1 2)) (number 1)) }
    ensures degree_11 { Offends (codes "plethysm s h[11] 1-1") (2, 5, range) }
    ensures degree_11_inside { Offends (codes "plethysm s 2 h[11]") (3, 5, range) }
    ensures product_12 { Offends (codes "plethysm s h[4] h[3]") (3, 4, range) }
    ensures product_10 { Says (codes "plethysm p h[5] e[2]")
        (plethysm power_sums (atom completes (5 ∷ [])) (atom elementaries (2 ∷ []))) }
{}

/// Errors of the expression of a command, and expressions at the limits without an error.
pub fn refused_expressions_law()
    ensures rising_list { Offends (codes "expand s p[1,2]") (2, 4, shape) }
    ensures rising_on_one_line { Offends (codes "expand -m s s[1,2]") (3, 4, shape) }
    ensures on_one_line { Says (codes "expand -m s 1") (expand schurs true (number 1)) }
    ensures denominator_0 { Offends (codes "expand s 1/0") (2, 2, shape) }
    ensures degree_16 { Offends (codes "expand p p[16]") (2, 5, range) }
    ensures degree_15 { Says (codes "expand p p[15]")
        (expand power_sums false (atom power_sums (15 ∷ []))) }
    ensures degree_21 { Offends (codes "expand s m[21]") (2, 5, range) }
    ensures degree_20 { Says (codes "expand s m[20]")
        (expand schurs false (atom monomials (20 ∷ []))) }
    ensures degree_of_a_product { Offends (codes "expand p m[15]*m[1]") (2, 10, range) }
    ensures wide_number { Offends (codes "expand s 170141183460469231731687303715884105728*p[]")
        (2, 0, literal) }
    ensures wide_after_minus { Offends (codes "expand m -170141183460469231731687303715884105728")
        (2, 1, literal) }
    ensures depth_65 { Offends (codes "expand m "
        ++ (replicate 65 40 ++ (codes "1" ++ replicate 65 41))) (2, 64, range) }
    ensures depth_64 { Says (codes "expand m "
        ++ (replicate 64 40 ++ (codes "1" ++ replicate 64 41)))
        (expand monomials false (number 1)) }
    ensures entries_65 { Offends (codes "expand m p[0"
        ++ (flat_map (λ b. 44 ∷ b ∷ []) (replicate 64 48) ++ codes "]")) (2, 130, range) }
    ensures entries_64 { Says (codes "expand m p[0"
        ++ (flat_map (λ b. 44 ∷ b ∷ []) (replicate 63 48) ++ codes "]"))
        (expand monomials false (atom power_sums [])) }
    ensures bytes_4096 { Says (codes "expand m p["
        ++ (zeros_of 63 ++ (flat_map (λ n. 44 ∷ zeros_of n) (replicate 61 63 ++ (62 ∷ 62 ∷ []))
        ++ codes "]"))) (expand monomials false (atom power_sums [])) }
    ensures bytes_4097 { Offends (codes "expand m p["
        ++ (zeros_of 63 ++ (flat_map (λ n. 44 ∷ zeros_of n) (replicate 62 63 ++ (62 ∷ []))
        ++ codes "]"))) (2, 4096, range) }
    ensures widest_after_minus { Says (codes "expand m -170141183460469231731687303715884105727")
        (expand monomials false (negation (number 170141183460469231731687303715884105727))) }
{}
