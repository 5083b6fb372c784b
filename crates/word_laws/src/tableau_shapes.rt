//! The words of a tableau whose rows must have given lengths.

ghost use Rattle.std.specs.Prelude.{◌≡◌, ◌↔◌, ◌+◌, ℕ, List, [], ◌∷◌, map, length};
ghost use Rattle.sym_model.specs.Sum.{Among};
ghost use Rattle.sym_model.specs.LongestPrefix.{IsLongestPrefix};
ghost use Rattle.sym_model.specs.ExpressionOffence.{shape};
ghost use Rattle.sym_model.specs.Form.{Written, May, words_of, Has, Begins};
ghost use Rattle.sym_model.specs.CommandOffence.{Offence};
ghost use Rattle.sym_model.specs.WordForms.{tableau_words, tableau_rows, tableau_of};
ghost use Rattle.sym_model.specs.WordForms.{shape_offences};

/// The words of a tableau that must have rows of given lengths have no error of shape if and only
/// if they are a tableau whose rows have these lengths. Otherwise they have one error. It is at the
/// word after the first k words, for the greatest k such that some tableau with rows of these
/// lengths begins with these k words. A tableau without rows and one with a single row without
/// cells are both written `.`.
pub fn tableau_shape_law()
    ensures none { (k : ℕ) (lengths : List ℕ) (words : List (List ℕ))
        → (shape_offences k lengths words ≡ []) ↔ Has (tableau_of lengths) words }
    ensures place { (k : ℕ) (lengths : List ℕ) (words : List (List ℕ)) (o : Offence)
        → Among o (shape_offences k lengths words)
        → (n : ℕ) × (o ≡ (k + n, 0, shape))
        × IsLongestPrefix (Begins (tableau_of lengths)) words n }
    ensures rows { (n : ℕ) (lengths : List ℕ) (tableau : Written tableau_words)
        → May tableau_words tableau
        → Has (tableau_of (n ∷ lengths)) (words_of tableau_words tableau)
        ↔ (map length (tableau_rows tableau) ≡ n ∷ lengths) }
    ensures no_rows { tableau_of [] ≡ tableau_of (0 ∷ []) }
{}
