//! Worked examples of arrangements, lists of tableaux, insertion, slides and growth, with values
//! worked out by hand or taken from other sources.

ghost use Rattle.std.specs.Prelude.{◌≡◌, ℕ, List, [], ◌∷◌, Some, map};
ghost use Rattle.sym_model.specs.Arrangement.{arrangements};
ghost use Rattle.sym_model.specs.Conjugate.{conjugate};
ghost use Rattle.sym_model.specs.GoodTableau.{column_reading, lattice_readings};
ghost use Rattle.sym_model.specs.TableauList.{tableau_readings, readings_with_content, later_than};
ghost use Rattle.sym_model.specs.TableauList.{filling_of};
ghost use Rattle.sym_model.specs.Growth.{growth_shape, tableau_of_chain};
ghost use Rattle.sym_model.specs.Insertion.{inserted, insertion_pair, reading_word};
ghost use Rattle.sym_model.specs.Knuth.{IsKnuthStep, AreKnuthEquivalent};
ghost use Rattle.sym_model.specs.Slide.{slide, IsReached};
ghost use Rattle.sym_model.specs.StandardTableau.{IsStandard};

/// Arrangements and conjugates: the exponents of `m_(2,1)` in three variables, no arrangement if
/// there are more parts than places, and the empty partition.
pub fn arrangement_examples_law()
    ensures three_places { arrangements (2 ∷ 1 ∷ []) 3
        ≡ (2 ∷ 1 ∷ 0 ∷ []) ∷ (2 ∷ 0 ∷ 1 ∷ []) ∷ (1 ∷ 2 ∷ 0 ∷ []) ∷ (1 ∷ 0 ∷ 2 ∷ [])
        ∷ (0 ∷ 2 ∷ 1 ∷ []) ∷ (0 ∷ 1 ∷ 2 ∷ []) ∷ [] }
    ensures equal_parts { arrangements (1 ∷ 1 ∷ []) 2 ≡ (1 ∷ 1 ∷ []) ∷ [] }
    ensures too_few_places { arrangements (2 ∷ 1 ∷ []) 1 ≡ [] }
    ensures empty { arrangements [] 2 ≡ (0 ∷ 0 ∷ []) ∷ [] }
    ensures no_places { arrangements [] 0 ≡ [] ∷ [] }
    ensures conjugate { conjugate (3 ∷ 1 ∷ []) ≡ 2 ∷ 1 ∷ 1 ∷ [] }
    ensures back { conjugate (2 ∷ 1 ∷ 1 ∷ []) ≡ 3 ∷ 1 ∷ [] }
    ensures empty_conjugate { conjugate [] ≡ [] }
{}

/// Lists of tableaux by their column readings: all tableaux of (2,1) with two letters, the standard
/// tableaux of (2,1), and those lattice tableaux of (3,2,1)/(2,1) that come after the second one
/// (and none after a tableau that is not in the list). A filling and its reading determine each
/// other.
pub fn tableau_list_examples_law()
    ensures all { tableau_readings 2 (2 ∷ 1 ∷ []) [] ≡ (1 ∷ 1 ∷ 2 ∷ []) ∷ (2 ∷ 1 ∷ 2 ∷ []) ∷ [] }
    ensures standard { readings_with_content (1 ∷ 1 ∷ 1 ∷ []) (2 ∷ 1 ∷ []) []
        ≡ (2 ∷ 1 ∷ 3 ∷ []) ∷ (3 ∷ 1 ∷ 2 ∷ []) ∷ [] }
    ensures empty_shape { tableau_readings 0 [] [] ≡ [] ∷ [] }
    ensures not_contained { tableau_readings 2 (1 ∷ []) (2 ∷ []) ≡ [] }
    ensures too_few_letters { tableau_readings 1 (1 ∷ 1 ∷ []) [] ≡ [] }
    ensures other_degree { readings_with_content (1 ∷ 1 ∷ []) (2 ∷ 1 ∷ []) [] ≡ [] }
    ensures later { later_than (1 ∷ 1 ∷ 2 ∷ []) (lattice_readings (3 ∷ 2 ∷ 1 ∷ []) (2 ∷ 1 ∷ []))
        ≡ (1 ∷ 2 ∷ 1 ∷ []) ∷ (1 ∷ 2 ∷ 3 ∷ []) ∷ [] }
    ensures after_the_last { later_than (1 ∷ 2 ∷ 3 ∷ [])
        (lattice_readings (3 ∷ 2 ∷ 1 ∷ []) (2 ∷ 1 ∷ [])) ≡ [] }
    ensures not_in_the_list { later_than (1 ∷ 2 ∷ 2 ∷ [])
        (lattice_readings (3 ∷ 2 ∷ 1 ∷ []) (2 ∷ 1 ∷ [])) ≡ [] }
    ensures filling { filling_of (2 ∷ 1 ∷ []) [] (2 ∷ 1 ∷ 2 ∷ []) ≡ (1 ∷ 2 ∷ []) ∷ (2 ∷ []) ∷ [] }
    ensures reading { column_reading (2 ∷ 1 ∷ []) [] ((1 ∷ 2 ∷ []) ∷ (2 ∷ []) ∷ [])
        ≡ 2 ∷ 1 ∷ 2 ∷ [] }
    ensures row_without_cells { filling_of (3 ∷ 2 ∷ 1 ∷ []) (3 ∷ 1 ∷ []) (1 ∷ 2 ∷ [])
        ≡ [] ∷ (1 ∷ []) ∷ (2 ∷ []) ∷ [] }
{}

/// Row insertion. The pair of 4 2 7 3 6 1 5 is the one that the growth diagram of this permutation
/// gives; the insertion of 2 into the rows 1 2 2 3 / 2 3 5 5 / 4 4 6 / 5 6 is the example in
/// Fulton's first chapter.
pub fn insertion_examples_law()
    ensures three { insertion_pair (3 ∷ 1 ∷ 2 ∷ [])
        ≡ (((1 ∷ 2 ∷ []) ∷ (3 ∷ []) ∷ []), ((1 ∷ 3 ∷ []) ∷ (2 ∷ []) ∷ [])) }
    ensures empty { insertion_pair [] ≡ ([], []) }
    ensures equal_letters { insertion_pair (1 ∷ 1 ∷ [])
        ≡ (((1 ∷ 1 ∷ []) ∷ []), ((1 ∷ 2 ∷ []) ∷ [])) }
    ensures seven { insertion_pair (4 ∷ 2 ∷ 7 ∷ 3 ∷ 6 ∷ 1 ∷ 5 ∷ [])
        ≡ (
          ((1 ∷ 3 ∷ 5 ∷ []) ∷ (2 ∷ 6 ∷ []) ∷ (4 ∷ 7 ∷ []) ∷ []),
          ((1 ∷ 3 ∷ 5 ∷ []) ∷ (2 ∷ 4 ∷ []) ∷ (6 ∷ 7 ∷ []) ∷ []),
        ) }
    ensures into_four_rows { inserted
        ((1 ∷ 2 ∷ 2 ∷ 3 ∷ []) ∷ (2 ∷ 3 ∷ 5 ∷ 5 ∷ []) ∷ (4 ∷ 4 ∷ 6 ∷ []) ∷ (5 ∷ 6 ∷ []) ∷ [])
        (Some 2)
        ≡ (1 ∷ 2 ∷ 2 ∷ 2 ∷ []) ∷ (2 ∷ 3 ∷ 3 ∷ 5 ∷ []) ∷ (4 ∷ 4 ∷ 5 ∷ []) ∷ (5 ∷ 6 ∷ 6 ∷ []) ∷ [] }
    ensures reading_word { reading_word ((1 ∷ 2 ∷ []) ∷ (2 ∷ []) ∷ []) ≡ 2 ∷ 1 ∷ 2 ∷ [] }
    ensures standard { IsStandard ((1 ∷ 3 ∷ []) ∷ (2 ∷ []) ∷ []) }
    ensures empty_standard { IsStandard [] }
    ensures twice { IsStandard ((1 ∷ 2 ∷ []) ∷ (2 ∷ []) ∷ []) → ⊥ }
    ensures from_two { IsStandard ((2 ∷ []) ∷ []) → ⊥ }
{}

/// Knuth steps: the two relations in the letters 1, 2 and 3, in both directions, with equal
/// letters, and inside a longer word; and a word that is Knuth equivalent to the reading word of
/// its insertion tableau.
pub fn knuth_examples_law()
    ensures first { IsKnuthStep (2 ∷ 3 ∷ 1 ∷ []) (2 ∷ 1 ∷ 3 ∷ []) }
    ensures first_back { IsKnuthStep (2 ∷ 1 ∷ 3 ∷ []) (2 ∷ 3 ∷ 1 ∷ []) }
    ensures second { IsKnuthStep (1 ∷ 3 ∷ 2 ∷ []) (3 ∷ 1 ∷ 2 ∷ []) }
    ensures first_equal { IsKnuthStep (2 ∷ 2 ∷ 1 ∷ []) (2 ∷ 1 ∷ 2 ∷ []) }
    ensures second_equal { IsKnuthStep (1 ∷ 2 ∷ 1 ∷ []) (2 ∷ 1 ∷ 1 ∷ []) }
    ensures inside { IsKnuthStep (4 ∷ 1 ∷ 3 ∷ 2 ∷ 5 ∷ []) (4 ∷ 3 ∷ 1 ∷ 2 ∷ 5 ∷ []) }
    ensures joined { AreKnuthEquivalent (1 ∷ 3 ∷ 4 ∷ 2 ∷ [])
        (reading_word (insertion_pair (1 ∷ 3 ∷ 4 ∷ 2 ∷ [])).0) }
    ensures itself { (w : List ℕ) → AreKnuthEquivalent w w }
{}

/// Slides: of two equal neighbours the lower one moves; a corner without neighbours is removed;
/// slides from the inner corners of (3,2,1)/(2,1) reach a straight tableau of one row, whichever
/// corner is first.
pub fn slide_examples_law()
    ensures tie { slide 1 (record {
      outer = 2 ∷ 2 ∷ [];
      inner = 1 ∷ [];
      rows = (1 ∷ []) ∷ (1 ∷ 2 ∷ []) ∷ [];
    })
        ≡ record { outer = 2 ∷ 1 ∷ []; inner = []; rows = (1 ∷ 1 ∷ []) ∷ (2 ∷ []) ∷ [] } }
    ensures right { slide 1 (record {
      outer = 2 ∷ 1 ∷ [];
      inner = 1 ∷ [];
      rows = (1 ∷ []) ∷ (2 ∷ []) ∷ [];
    })
        ≡ record { outer = 1 ∷ 1 ∷ []; inner = []; rows = (1 ∷ []) ∷ (2 ∷ []) ∷ [] } }
    ensures no_neighbour { slide 2
        (record { outer = 1 ∷ 1 ∷ []; inner = 1 ∷ 1 ∷ []; rows = [] ∷ [] ∷ [] })
        ≡ record { outer = 1 ∷ []; inner = 1 ∷ []; rows = [] ∷ [] } }
    ensures down_twice { slide 1 (record {
      outer = 3 ∷ 3 ∷ 2 ∷ [];
      inner = 1 ∷ [];
      rows = (2 ∷ 3 ∷ []) ∷ (1 ∷ 3 ∷ 4 ∷ []) ∷ (2 ∷ 5 ∷ []) ∷ [];
    })
        ≡ record {
          outer = 3 ∷ 3 ∷ 1 ∷ [];
          inner = [];
          rows = (1 ∷ 2 ∷ 3 ∷ []) ∷ (2 ∷ 3 ∷ 4 ∷ []) ∷ (5 ∷ []) ∷ [];
        } }
    ensures one_row { IsReached (record {
      outer = 3 ∷ 2 ∷ 1 ∷ [];
      inner = 2 ∷ 1 ∷ [];
      rows = (2 ∷ []) ∷ (1 ∷ []) ∷ (1 ∷ []) ∷ [];
    })
        (record { outer = 3 ∷ []; inner = []; rows = (1 ∷ 1 ∷ 2 ∷ []) ∷ [] }) }
    ensures other_corner { slide 1
        (slide 1 (slide 2 (record {
          outer = 3 ∷ 2 ∷ 1 ∷ [];
          inner = 2 ∷ 1 ∷ [];
          rows = (2 ∷ []) ∷ (1 ∷ []) ∷ (1 ∷ []) ∷ [];
        })))
        ≡ record { outer = 3 ∷ []; inner = []; rows = (1 ∷ 1 ∷ 2 ∷ []) ∷ [] } }
{}

/// Growth: the lines 1, 2 and 3 of the growth grid of 3 1 2, and the tableaux that the chains of
/// shapes in its last line and in its last column give.
pub fn growth_examples_law()
    ensures first { map (growth_shape (3 ∷ 1 ∷ 2 ∷ []) 1) (0 ∷ 1 ∷ 2 ∷ 3 ∷ [])
        ≡ [] ∷ [] ∷ [] ∷ (1 ∷ []) ∷ [] }
    ensures second { map (growth_shape (3 ∷ 1 ∷ 2 ∷ []) 2) (0 ∷ 1 ∷ 2 ∷ 3 ∷ [])
        ≡ [] ∷ (1 ∷ []) ∷ (1 ∷ []) ∷ (1 ∷ 1 ∷ []) ∷ [] }
    ensures third { map (growth_shape (3 ∷ 1 ∷ 2 ∷ []) 3) (0 ∷ 1 ∷ 2 ∷ 3 ∷ [])
        ≡ [] ∷ (1 ∷ []) ∷ (2 ∷ []) ∷ (2 ∷ 1 ∷ []) ∷ [] }
    ensures last_line { tableau_of_chain (λ j. growth_shape (3 ∷ 1 ∷ 2 ∷ []) 3 j) 3
        ≡ (1 ∷ 2 ∷ []) ∷ (3 ∷ []) ∷ [] }
    ensures last_column { tableau_of_chain (λ i. growth_shape (3 ∷ 1 ∷ 2 ∷ []) i 3) 3
        ≡ (1 ∷ 3 ∷ []) ∷ (2 ∷ []) ∷ [] }
{}
