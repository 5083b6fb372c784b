//! Worked examples of the printed forms of tableaux and words, and of the lines that are generated
//! for the command `work`.

ghost use Rattle.std.specs.Prelude.{◌≡◌, [], ◌∷◌, codes, map};
ghost use Rattle.sym_model.specs.Partition.{after};
ghost use Rattle.sym_model.specs.GoodTableau.{lattice_readings};
ghost use Rattle.sym_model.specs.TableauList.{later_than};
ghost use Rattle.sym_model.specs.Insertion.{insertion_pair};
ghost use Rattle.sym_model.specs.TableauText.{tableau_line, pair_text, word_line, readings_text};
ghost use Rattle.sym_model.specs.Workload.{after_draws, work_line, work_lines, after_line};
ghost use Rattle.sym_model.specs.Workload.{summary_text};

/// The lines of `rsk`, `unrsk`, `rect` and `tab`: rows without cells, tableaux without rows, the
/// empty word, a list that continues after a tableau, an empty list.
pub fn tableau_text_examples_law()
    ensures pair { pair_text (insertion_pair (3 ∷ 1 ∷ 2 ∷ [])).0 (insertion_pair (3 ∷ 1 ∷ 2 ∷ [])).1
        ≡ codes "P 1 2 / 3\nQ 1 3 / 2\n" }
    ensures empty_pair { pair_text [] [] ≡ codes "P .\nQ .\n" }
    ensures word { word_line (3 ∷ 1 ∷ 2 ∷ []) ≡ codes "3 1 2\n" }
    ensures empty_word { word_line [] ≡ codes "\n" }
    ensures straight { tableau_line ((1 ∷ 1 ∷ []) ∷ (2 ∷ []) ∷ []) ≡ codes "1 1 / 2\n" }
    ensures one_row { tableau_line ((1 ∷ 1 ∷ 2 ∷ []) ∷ []) ≡ codes "1 1 2\n" }
    ensures row_without_cells { tableau_line ([] ∷ (12 ∷ []) ∷ []) ≡ codes ". / 12\n" }
    ensures without_rows { tableau_line [] ≡ codes ".\n" }
    ensures lattice { readings_text (3 ∷ 2 ∷ 1 ∷ []) (2 ∷ 1 ∷ [])
        (lattice_readings (3 ∷ 2 ∷ 1 ∷ []) (2 ∷ 1 ∷ []))
        ≡ codes "1 / 1 / 1\n1 / 1 / 2\n1 / 2 / 1\n1 / 2 / 3\n" }
    ensures later { readings_text (3 ∷ 2 ∷ 1 ∷ []) (2 ∷ 1 ∷ [])
        (later_than (1 ∷ 1 ∷ 2 ∷ []) (lattice_readings (3 ∷ 2 ∷ 1 ∷ []) (2 ∷ 1 ∷ [])))
        ≡ codes "1 / 2 / 1\n1 / 2 / 3\n" }
    ensures none { readings_text (1 ∷ []) (2 ∷ []) (lattice_readings (1 ∷ []) (2 ∷ []))
        ≡ codes "0\n" }
    ensures empty_shape { readings_text [] [] (lattice_readings [] []) ≡ codes ".\n" }
    ensures no_cells { readings_text (1 ∷ 1 ∷ []) (1 ∷ 1 ∷ [])
        (lattice_readings (1 ∷ 1 ∷ []) (1 ∷ 1 ∷ [])) ≡ codes ". / .\n" }
{}

/// The generator of `work` with the seeds 0 and 65,536: its first draws, its lines, and the
/// summaries of the blocks of these lines.
pub fn workload_examples_law()
    ensures draws { map (λ k. after_draws k 0) (after 0 11)
        ≡ 74 ∷ 5624 ∷ 28652 ∷ 51790 ∷ 17641 ∷ 12409 ∷ 13231 ∷ 9344 ∷ 45504 ∷ 4950 ∷ 43639 ∷ [] }
    ensures fixed { after_draws 1 65536 ≡ 65536 }
    ensures first_lines { work_lines 2 0
        ≡ codes "expand p m[5,3,1]" ∷ codes "skew 4 3 / 1 1 1" ∷ [] }
    ensures fixed_lines { work_lines 2 65536 ≡ codes "skew /" ∷ codes "skew /" ∷ [] }
    ensures one { summary_text (codes "2  (9)\n-1  (8,1)\n-1  (6,3)\n-1  (5,4)\n1  (5,3,1)\n" ∷ [])
        ≡ codes "lines 1\nterms 5\nbytes 48\n" }
    ensures two { summary_text (codes "2  (9)\n-1  (8,1)\n-1  (6,3)\n-1  (5,4)\n1  (5,3,1)\n"
        ∷ codes "0\n" ∷ [])
        ≡ codes "lines 2\nterms 5\nbytes 50\n" }
    ensures empty_skews { summary_text (codes "1  ()\n" ∷ codes "1  ()\n" ∷ [])
        ≡ codes "lines 2\nterms 2\nbytes 12\n" }
    ensures none { summary_text [] ≡ codes "lines 0\nterms 0\nbytes 0\n" }
{}
