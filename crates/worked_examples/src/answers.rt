//! Worked examples of what the answers to commands must be, of the weights by which commands are
//! refused as too large, and of the texts of commands and batches.

ghost use Rattle.std.specs.Prelude.{◌≡◌, ◌^◌, ◌-◌, ℕ, true, false, pos, negsuc, List, [], ◌∷◌};
ghost use Rattle.std.specs.Prelude.{codes, replicate, Some, None};
ghost use Rattle.sym_model.specs.Polynomial.{coefficient, nothing};
ghost use Rattle.sym_model.specs.Schur.{schur};
ghost use Rattle.sym_model.specs.Kind.{number, product};
ghost use Rattle.sym_model.specs.Expansion.{value_by, pair_polynomial, Represents};
ghost use Rattle.sym_model.specs.ListWeight.{list_weight};
ghost use Rattle.sym_model.specs.Answer.{answer};
ghost use Rattle.sym_model.specs.ExpressionOffence.{literal, range, shape};
ghost use Rattle.sym_model.specs.Command.{coef, fusion, tab, rsk, unrsk, rect};
ghost use Rattle.sym_model.specs.Target.{Meets};
ghost use Rattle.sym_model.specs.Products.{classical_product};
ghost use Rattle.sym_model.specs.Reductions.{reduced_terms, reflected_terms};
ghost use Rattle.sym_model.specs.PastLimit.{is_past, pair_weight};
ghost use Rattle.sym_model.specs.ReductionSteps.{classical_weight};
ghost use Rattle.sym_model.specs.RefusalText.{refusal_line, offence_line};
ghost use Rattle.sym_model.specs.Ending.{done, some_refused, range as out_of_range, past};
ghost use Rattle.sym_model.specs.Outcome.{Answers, ending_of};
ghost use Rattle.sym_model.specs.BatchOutcome.{batch_text, batch_ending, RunsInput};

/// Classical products (products of Schur polynomials in a number of variables), their reductions to
/// quantum and fusion products, and the weights of lists and of pairs of permutations.
pub fn target_examples_law()
    // s_(2,1)^2 in two variables: s_(4,2) + s_(3,3)
    ensures classical { classical_product 2 ((2 ∷ 1 ∷ []) ∷ (2 ∷ 1 ∷ []) ∷ [])
        ≡ (4 ∷ 2 ∷ [], pos 1) ∷ (3 ∷ 3 ∷ [], pos 1) ∷ [] }
    // s_(2,1)^2 in four variables: all its Schur polynomials have at most four rows
    ensures classical_in_four { classical_product 4 ((2 ∷ 1 ∷ []) ∷ (2 ∷ 1 ∷ []) ∷ [])
        ≡ (4 ∷ 2 ∷ [], pos 1) ∷ (4 ∷ 1 ∷ 1 ∷ [], pos 1) ∷ (3 ∷ 3 ∷ [], pos 1)
        ∷ (3 ∷ 2 ∷ 1 ∷ [], pos 2)
        ∷ (3 ∷ 1 ∷ 1 ∷ 1 ∷ [], pos 1) ∷ (2 ∷ 2 ∷ 2 ∷ [], pos 1) ∷ (2 ∷ 2 ∷ 1 ∷ 1 ∷ [], pos 1) ∷ [] }
    ensures more_rows_than_variables { classical_product 1 ((1 ∷ 1 ∷ []) ∷ (1 ∷ []) ∷ []) ≡ [] }
    ensures empty_factors { classical_product 2 ([] ∷ [] ∷ []) ≡ ([], pos 1) ∷ [] }
    ensures classical_weight { classical_weight 2 ((2 ∷ 1 ∷ []) ∷ (2 ∷ 1 ∷ []) ∷ []) ≡ 2 }
    // s_1·s_(2,1) for two rows and two columns: a rim hook of four cells is removed from (3,1), and
    // none can be removed from (2,2)
    ensures quantum { reduced_terms (classical_product 2 ((1 ∷ []) ∷ (2 ∷ 1 ∷ []) ∷ []))
        (Some ([], pos 1, 1) ∷ Some (2 ∷ 2 ∷ [], pos 1, 0) ∷ [])
        ≡ ((1, []), pos 1) ∷ ((0, 2 ∷ 2 ∷ []), pos 1) ∷ [] }
    ensures quantum_to_nothing { reduced_terms ((3 ∷ [], pos 2) ∷ (2 ∷ 1 ∷ [], pos 5) ∷ [])
        (None ∷ Some ([], negsuc 0, 1) ∷ [])
        ≡ ((1, []), negsuc 4) ∷ [] }
    // s_1·s_1 for two rows at level 1: (2) is on the wall of the alcove, so its reduction is 0
    ensures fusion { reflected_terms 2 3 (classical_product 2 ((1 ∷ []) ∷ (1 ∷ []) ∷ []))
        ≡ (1 ∷ 1 ∷ [], pos 1) ∷ [] }
    ensures fusion_whole { Meets (fusion 2 1 ((1 ∷ []) ∷ (1 ∷ []) ∷ []))
        (answer product ((1 ∷ 1 ∷ [], (pos 1, 1)) ∷ [])) }
    // s_(2,1)^2 for three rows at level 2: (3,2,1) has the coefficient 2 in the classical product,
    // and (4,2) is reflected to minus (3,2,1)
    ensures fusion_sign { coefficient
        (reflected_terms 3 5 (classical_product 3 ((2 ∷ 1 ∷ []) ∷ (2 ∷ 1 ∷ []) ∷ [])))
        (3 ∷ 2 ∷ 1 ∷ [])
        ≡ pos 1 }
    ensures coefficient_of_product { Meets (coef (3 ∷ 2 ∷ 1 ∷ []) (2 ∷ 1 ∷ []) (2 ∷ 1 ∷ []))
        (answer number ((tt, (pos 2, 1)) ∷ [])) }
    ensures coefficient_nothing { Meets (coef (3 ∷ []) (1 ∷ []) (1 ∷ [])) (answer number []) }
    // s_(2,1)(x, y) = x^2 y + x y^2, for one variable x and one variable y
    ensures coproduct { coefficient
        (value_by (pair_polynomial 1 1)
        (((2 ∷ [], 1 ∷ []), (pos 1, 1)) ∷ ((1 ∷ [], 2 ∷ []), (pos 1, 1)) ∷ [])) (2 ∷ 1 ∷ [])
        ≡ pos 1 }
    ensures pair_in_no_variables { pair_polynomial 0 1 ([], 1 ∷ []) ≡ (1 ∷ [], pos 1) ∷ [] }
    ensures pair_that_vanishes { pair_polynomial 0 1 (1 ∷ [], []) ≡ nothing }
    // the list with the coefficient 1/0 at (1) represents no polynomial, not even the polynomial 0
    ensures denominator_zero { Represents (λ parts. schur parts 1)
        ((1 ∷ [], (pos 1, 0)) ∷ []) nothing 1 → ⊥ }
    // the weight S_w(1, .., 1)·(n + l)^l = 2·4 of the pair w, w with w = (1,3,2): S_w is x_1 + x_2,
    // w has l = 1 inversion and n = 3 letters
    ensures pair_weight { pair_weight (1 ∷ 3 ∷ 2 ∷ []) (1 ∷ 3 ∷ 2 ∷ []) ≡ 8 }
    ensures pair_with_identity { pair_weight (2 ∷ 3 ∷ 1 ∷ []) (1 ∷ []) ≡ 1 }
    ensures weight_of_fractions { list_weight {Label = List ℕ}
        ((3 ∷ [], (negsuc 0, 3)) ∷ (1 ∷ 1 ∷ 1 ∷ [], (pos 1, 3)) ∷ []) ≡ 6 }
    ensures weight_of_whole { list_weight {Label = List ℕ}
        ((2 ∷ [], (pos 1, 1)) ∷ (1 ∷ [], (negsuc 2, 1)) ∷ []) ≡ 4 }
    ensures weight_of_small { list_weight {Label = List ℕ} ((2 ∷ [], (pos 1, 2)) ∷ []) ≡ 2 }
    ensures past { is_past (pos (2 ^ 127)) ≡ true }
    ensures not_past { is_past (pos (2 ^ 127 - 1)) ≡ false }
{}

/// The texts of the commands on tableaux and words, the lines of refusals, and the text of a batch.
pub fn outcome_texts_law()
    ensures lattice_tableaux { Answers (tab (3 ∷ 2 ∷ 1 ∷ []) (2 ∷ 1 ∷ []) None)
        (codes "1 / 1 / 1\n1 / 1 / 2\n1 / 2 / 1\n1 / 2 / 3\n") done }
    ensures tableaux_after { Answers (tab (3 ∷ 2 ∷ 1 ∷ []) (2 ∷ 1 ∷ []) (Some (1 ∷ 1 ∷ 2 ∷ [])))
        (codes "1 / 2 / 1\n1 / 2 / 3\n") done }
    ensures none_after { Answers (tab (3 ∷ 2 ∷ 1 ∷ []) (2 ∷ 1 ∷ []) (Some (1 ∷ 2 ∷ 3 ∷ [])))
        (codes "0\n") done }
    ensures insertion { Answers (rsk (3 ∷ 1 ∷ 2 ∷ [])) (codes "P 1 2 / 3\nQ 1 3 / 2\n") done }
    ensures insertion_of_nothing { Answers (rsk []) (codes "P .\nQ .\n") done }
    ensures word_of_pair { Answers
        (unrsk ((1 ∷ 2 ∷ []) ∷ (3 ∷ []) ∷ []) ((1 ∷ 3 ∷ []) ∷ (2 ∷ []) ∷ []))
        (codes "3 1 2\n") done }
    ensures rectified { Answers (rect (2 ∷ 2 ∷ []) (1 ∷ []) ((1 ∷ []) ∷ (1 ∷ 2 ∷ []) ∷ []))
        (codes "1 1 / 2\n") done }
    ensures syntax_line { refusal_line (codes "Syntax") 3 0 ≡ codes "! Syntax 3:0\n" }
    ensures range_line { offence_line (2, 5, range) ≡ codes "! Range 2:5\n" }
    ensures literal_ends { ending_of literal ≡ past }
    ensures range_ends { ending_of range ≡ out_of_range }
    ensures shape_ends { ending_of shape ≡ out_of_range }
    ensures batch { batch_text ((codes "1  (2)\n1  (1,1)\n", done)
        ∷ (codes "! Shape 2:0\n", out_of_range) ∷ (codes "1  (3)\n1  (2,1)\n", done) ∷ [])
        ≡ codes "1  (2)\n1  (1,1)\n--\n! Shape 2:0\n--\n1  (3)\n1  (2,1)\n" }
    ensures batch_with_refusal { batch_ending
        ((codes "0\n", done) ∷ (codes "! Shape 2:0\n", out_of_range) ∷ []) ≡ some_refused }
    ensures empty_batch { RunsInput [] [] [] done }
    ensures only_passed_over { RunsInput [] (codes "# x\n\n") [] done }
    // a line of 4,097 bytes is refused, since a line has at most 4,096 bytes
    ensures long_line { RunsInput [] (replicate 4097 97) (codes "! Range 0:4096\n") some_refused }
{}
