//! Worked examples of tableaux, alternants, beta lists and reductions, with values worked out by
//! hand or taken from other sources.

ghost use Rattle.std.specs.Prelude.{◌≡◌, pos, negsuc, [], ◌∷◌, length, Some, None};
ghost use Rattle.sym_model.specs.Polynomial.{coefficient};
ghost use Rattle.sym_model.specs.Bases.{complete};
ghost use Rattle.sym_model.specs.Schur.{tableaux, skew_schur, schur};
ghost use Rattle.sym_model.specs.PlaceOrders.{orders, places, inversions, sign};
ghost use Rattle.sym_model.specs.Alternant.{rearranged, alternant, staircase, schur_coefficient};
ghost use Rattle.sym_model.specs.Alternant.{alternants_over};
ghost use Rattle.sym_model.specs.GoodTableau.{column_reading, good_readings, product_count};
ghost use Rattle.sym_model.specs.GoodTableau.{lattice_readings, skew_count};
ghost use Rattle.sym_model.specs.BetaList.{beta, from_beta, sorting_sign};
ghost use Rattle.sym_model.specs.AlcoveReduction.{alcove_reduction};

/// Tableaux: their number by the hook content formula, the column readings of single fillings, and
/// the good tableaux that Stembridge's rule counts for a product and for a skew shape.
pub fn tableaux_examples_law()
    ensures count { length (tableaux 5 (3 ∷ 2 ∷ 1 ∷ []) []) ≡ 280 }
    ensures listed { tableaux 2 (2 ∷ 1 ∷ []) []
        ≡ ((1 ∷ 1 ∷ []) ∷ (2 ∷ []) ∷ []) ∷ ((1 ∷ 2 ∷ []) ∷ (2 ∷ []) ∷ []) ∷ [] }
    ensures not_contained { tableaux 3 (2 ∷ []) (3 ∷ []) ≡ [] }
    ensures skew { coefficient (skew_schur (3 ∷ 2 ∷ 1 ∷ []) (2 ∷ 1 ∷ []) 3) (1 ∷ 1 ∷ 1 ∷ [])
        ≡ pos 6 }
    ensures reading { column_reading (2 ∷ 1 ∷ []) [] ((1 ∷ 2 ∷ []) ∷ (2 ∷ []) ∷ [])
        ≡ 2 ∷ 1 ∷ 2 ∷ [] }
    ensures skew_reading { column_reading (3 ∷ 2 ∷ 1 ∷ []) (2 ∷ 1 ∷ [])
        ((1 ∷ []) ∷ (2 ∷ []) ∷ (3 ∷ []) ∷ []) ≡ 1 ∷ 2 ∷ 3 ∷ [] }
    ensures good { good_readings 3 (2 ∷ 1 ∷ []) (2 ∷ 1 ∷ []) []
        ≡ (1 ∷ 1 ∷ 2 ∷ [])
        ∷ (1 ∷ 1 ∷ 3 ∷ [])
        ∷ (2 ∷ 1 ∷ 2 ∷ [])
        ∷ (2 ∷ 1 ∷ 3 ∷ [])
        ∷ (3 ∷ 1 ∷ 2 ∷ [])
        ∷ (3 ∷ 2 ∷ 3 ∷ [])
        ∷ [] }
    ensures many_rows { good_readings 1 (2 ∷ 1 ∷ []) (1 ∷ []) [] ≡ [] }
    ensures product { product_count 3 (2 ∷ 1 ∷ []) (2 ∷ 1 ∷ []) (3 ∷ 2 ∷ 1 ∷ []) ≡ 2 }
    ensures product_in_two_rows { product_count 2 (2 ∷ 1 ∷ []) (2 ∷ 1 ∷ []) (3 ∷ 3 ∷ []) ≡ 1 }
    ensures lattice { lattice_readings (3 ∷ 2 ∷ 1 ∷ []) (2 ∷ 1 ∷ [])
        ≡ (1 ∷ 1 ∷ 1 ∷ []) ∷ (1 ∷ 1 ∷ 2 ∷ []) ∷ (1 ∷ 2 ∷ 1 ∷ []) ∷ (1 ∷ 2 ∷ 3 ∷ []) ∷ [] }
    ensures skew_product { skew_count (3 ∷ 2 ∷ 1 ∷ []) (2 ∷ 1 ∷ []) (2 ∷ 1 ∷ []) ≡ 2 }
    ensures empty_skew { skew_count (2 ∷ []) (3 ∷ []) [] ≡ 0 }
{}

/// Alternants: the number of orders of four places, inversions and signs of orders, the Vandermonde
/// determinant in two variables, coefficients of alternants, and Schur coefficients of polynomials
/// whose expansions in Schur polynomials are known.
pub fn alternant_examples_law()
    ensures orders { length (orders (places 4)) ≡ 24 }
    ensures no_places { orders (places 0) ≡ [] ∷ [] }
    ensures inversions { inversions (3 ∷ 1 ∷ 2 ∷ []) ≡ 2 }
    ensures sign { sign (3 ∷ 2 ∷ 1 ∷ []) ≡ negsuc 0 }
    ensures rearranged { rearranged (3 ∷ 1 ∷ 2 ∷ []) (5 ∷ 6 ∷ 7 ∷ []) ≡ 7 ∷ 5 ∷ 6 ∷ [] }
    ensures staircase { staircase 3 ≡ 2 ∷ 1 ∷ 0 ∷ [] }
    ensures vandermonde { alternant (staircase 2)
        ≡ ((1 ∷ 0 ∷ []), pos 1) ∷ ((0 ∷ 1 ∷ []), negsuc 0) ∷ [] }
    ensures turned { coefficient (alternant (4 ∷ 2 ∷ 0 ∷ [])) (0 ∷ 2 ∷ 4 ∷ []) ≡ negsuc 0 }
    ensures schur { schur_coefficient 3 (2 ∷ 1 ∷ []) (schur (2 ∷ 1 ∷ []) 3) ≡ pos 1 }
    ensures complete { schur_coefficient 3 (2 ∷ 1 ∷ []) (complete (1 ∷ 1 ∷ 1 ∷ []) 3) ≡ pos 2 }
    ensures over_terms { coefficient (alternants_over (2 ∷ 1 ∷ 0 ∷ []) (schur (1 ∷ []) 3))
        (3 ∷ 1 ∷ 0 ∷ []) ≡ pos 1 }
{}

/// Beta lists, and reductions into the alcove of partitions that occur in the products of (1) and
/// (1) at level 1 with two rows, and of (2,1) and (2,1) at level 2 with three rows.
pub fn reflection_examples_law()
    ensures beta { beta 3 (2 ∷ 1 ∷ []) ≡ 4 ∷ 2 ∷ 0 ∷ [] }
    ensures from_beta { from_beta (4 ∷ 2 ∷ 0 ∷ []) ≡ 2 ∷ 1 ∷ [] }
    ensures sorting { sorting_sign (1 ∷ 3 ∷ 5 ∷ []) ≡ negsuc 0 }
    ensures on_the_wall { alcove_reduction 2 3 (2 ∷ []) ≡ None }
    ensures stays { alcove_reduction 2 3 (1 ∷ 1 ∷ []) ≡ Some ((1 ∷ 1 ∷ []), pos 1) }
    ensures reflected { alcove_reduction 3 5 (4 ∷ 2 ∷ []) ≡ Some ((3 ∷ 2 ∷ 1 ∷ []), negsuc 0) }
    ensures wall_of_three { alcove_reduction 3 5 (4 ∷ 1 ∷ 1 ∷ []) ≡ None }
    ensures wall_of_two_rows { alcove_reduction 3 5 (3 ∷ 3 ∷ []) ≡ None }
    ensures inside { alcove_reduction 3 5 (2 ∷ 2 ∷ 2 ∷ []) ≡ Some ((2 ∷ 2 ∷ 2 ∷ []), pos 1) }
{}
