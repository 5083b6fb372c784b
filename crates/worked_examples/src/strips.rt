//! Worked examples of strips, rim hooks and their removals.

ghost use Rattle.std.specs.Prelude.{◌≡◌, pos, negsuc, [], ◌∷◌, Some, None};
ghost use Rattle.sym_model.specs.Answer.{answer};
ghost use Rattle.sym_model.specs.Command.{quantum};
ghost use Rattle.sym_model.specs.Kind.{powers};
ghost use Rattle.sym_model.specs.Target.{Meets};
ghost use Rattle.sym_model.specs.Strip.{IsHorizontalStrip, IsVerticalStrip, IsRimHook, height};
ghost use Rattle.sym_model.specs.RimHookReduction.{IsRemoval, HasNoRemoval, GoesTo, ReducesTo};

/// Horizontal strips, vertical strips and rim hooks with their heights, and skew shapes that are
/// not such strips or rim hooks.
pub fn strip_examples_law()
    ensures row_of_two { IsHorizontalStrip (4 ∷ 1 ∷ []) (2 ∷ 1 ∷ []) }
    ensures three_rows { IsHorizontalStrip (3 ∷ 1 ∷ 1 ∷ []) (2 ∷ 1 ∷ []) }
    ensures not_horizontal { IsHorizontalStrip (2 ∷ 2 ∷ 2 ∷ []) (2 ∷ 1 ∷ []) → ⊥ }
    ensures column_of_two { IsVerticalStrip (2 ∷ 1 ∷ 1 ∷ 1 ∷ []) (2 ∷ 1 ∷ []) }
    ensures not_vertical { IsVerticalStrip (4 ∷ 1 ∷ []) (2 ∷ 1 ∷ []) → ⊥ }
    ensures flat_hook { IsRimHook (3 ∷ []) (1 ∷ []) }
    ensures flat_height { height (3 ∷ []) (1 ∷ []) ≡ 1 }
    ensures upright_hook { IsRimHook (1 ∷ 1 ∷ 1 ∷ []) (1 ∷ []) }
    ensures upright_height { height (1 ∷ 1 ∷ 1 ∷ []) (1 ∷ []) ≡ 2 }
    ensures corner_hook { IsRimHook (2 ∷ 1 ∷ []) [] }
    ensures corner_height { height (2 ∷ 1 ∷ []) [] ≡ 2 }
    ensures square { IsRimHook (2 ∷ 2 ∷ []) [] → ⊥ }
    ensures apart { IsRimHook (2 ∷ 1 ∷ []) (1 ∷ []) → ⊥ }
    ensures no_cell { IsRimHook (1 ∷ []) (1 ∷ []) → ⊥ }
{}

/// Removals of rim hooks from partitions that occur in the products of (1) and (2,1) and of (2,2)
/// and (2,2) in two rows and two columns, and from partitions of 6 in three rows and three columns.
pub fn removal_examples_law()
    ensures one_hook { GoesTo 2 4 (3 ∷ 1 ∷ []) [] (pos 1) 1 }
    ensures stays { GoesTo 2 4 (2 ∷ 2 ∷ []) (2 ∷ 2 ∷ []) (pos 1) 0 }
    ensures two_hooks { GoesTo 2 4 (4 ∷ 4 ∷ []) [] (pos 1) 2 }
    ensures other_order { IsRemoval 4 (4 ∷ 4 ∷ []) (4 ∷ []) }
    ensures negative { GoesTo 2 4 (4 ∷ []) [] (negsuc 0) 1 }
    ensures hook_of_six { ReducesTo 3 6 (4 ∷ 1 ∷ 1 ∷ []) (Some ([], pos 1, 1)) }
    ensures too_wide { ReducesTo 3 6 (4 ∷ 2 ∷ []) None }
    ensures empty { HasNoRemoval 3 [] }
    // the answers to `quantum 2 2 1 - 2 1` and `quantum 2 2 2 2 - 2 2`: σ_(2,2) + q, and q^2
    ensures product { Meets (quantum 2 2 ((1 ∷ []) ∷ (2 ∷ 1 ∷ []) ∷ []))
        (answer powers (((0, 2 ∷ 2 ∷ []), (pos 1, 1)) ∷ ((1, []), (pos 1, 1)) ∷ [])) }
    ensures product_of_squares { Meets (quantum 2 2 ((2 ∷ 2 ∷ []) ∷ (2 ∷ 2 ∷ []) ∷ []))
        (answer powers (((2, []), (pos 1, 1)) ∷ [])) }
{}
