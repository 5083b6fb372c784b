//! Worked examples: the lines of a batch and their words.

ghost use Rattle.std.specs.Prelude.{◌≡◌, ℕ, List, [], ◌∷◌, ◌++◌, codes, replicate};
ghost use Rattle.sym_model.specs.BatchLine.{lines_of, batch_line, too_long, passed_over, spoken};

/// A text is cut at its line feeds, a carriage return at the end of a line is dropped, and words
/// are separated by spaces and tabs. Comments, blank lines and lines of more than 4,096 bytes, the
/// carriage return included, have no words.
pub fn batch_lines_law()
    ensures lines { lines_of (codes "a" ++ (10 ∷ 10 ∷ codes "b"))
        ≡ codes "a" ∷ [] ∷ codes "b" ∷ [] }
    ensures last_line_feed { lines_of (codes "a" ++ (10 ∷ [])) ≡ codes "a" ∷ [] }
    ensures no_lines { lines_of [] ≡ [] }
    ensures words { batch_line (codes " mult  1" ++ (9 ∷ codes "- 1"))
        ≡ spoken (codes "mult" ∷ codes "1" ∷ codes "-" ∷ codes "1" ∷ []) }
    ensures one_return { batch_line (codes "coprod 1" ++ (13 ∷ 13 ∷ []))
        ≡ spoken (codes "coprod" ∷ (49 ∷ 13 ∷ []) ∷ []) }
    ensures comment { batch_line (codes "# x") ≡ passed_over }
    ensures comment_word { batch_line (codes "  #mult 1 - 1") ≡ passed_over }
    ensures blank { batch_line (32 ∷ 9 ∷ 32 ∷ 13 ∷ []) ≡ passed_over }
    ensures empty { batch_line [] ≡ passed_over }
    ensures bytes_4096 { batch_line (35 ∷ replicate 4095 120) ≡ passed_over }
    ensures bytes_4097 { batch_line ((35 ∷ replicate 4095 120) ++ (13 ∷ [])) ≡ too_long }
{}
