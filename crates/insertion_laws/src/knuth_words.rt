//! All words of a Knuth class have the same insertion tableau; if the words have positive letters,
//! this tableau is the only straight tableau whose reading word is in the class (Knuth; Fulton, 2.1
//! and 3).
ghost use Rattle.std.specs.Prelude.{◌≡◌, ℕ, List, true};
ghost use Rattle.sym_model.specs.Insertion.{insertion_pair, reading_word};
ghost use Rattle.sym_model.specs.Knuth.{AreKnuthEquivalent, IsOnlyTableauOf};
ghost use Rattle.sym_model.specs.Tableau.{are_letters};

/// The reading word of the insertion tableau of a word is in the Knuth class of the word, and all
/// words of a Knuth class have the same insertion tableau. So, for a word with positive letters,
/// this tableau is the only straight tableau whose reading word is in the class of the word.
/// Example: the words 1 3 2 4, 3 1 2 4 and 1 3 4 2 are one class, and the insertion tableau of each
/// has the rows 1 2 4 and 3.
pub fn class_law()
    ensures stays { (w : List ℕ) → AreKnuthEquivalent w (reading_word (insertion_pair w).0) }
    ensures same { (v w : List ℕ) → AreKnuthEquivalent v w
        → (insertion_pair v).0 ≡ (insertion_pair w).0 }
    ensures only { (w : List ℕ) → are_letters w ≡ true → IsOnlyTableauOf w (insertion_pair w).0 }
{}
