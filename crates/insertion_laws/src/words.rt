//! The correspondence of Robinson, Schensted and Knuth between words with positive letters and
//! pairs of tableaux of the same straight shape, the second of which is standard (Fulton, 4.1).
ghost use Rattle.std.specs.Prelude.{◌≡◌, ℕ, List, length, true};
ghost use Rattle.sym_model.specs.Insertion.{insertion_pair};
ghost use Rattle.sym_model.specs.Partition.{size};
ghost use Rattle.sym_model.specs.StandardTableau.{IsStandard};
ghost use Rattle.sym_model.specs.Tableau.{IsStraightTableau, are_letters, shape_of};
ghost use Rattle.insertion_laws.specs.Removal.{word_back};

/// The insertion tableau of a word with positive letters is a straight tableau. The recording
/// tableau of each word is standard. The two tableaux have the same shape, whose size is the number
/// of letters.
pub fn insertion_law()
    ensures tableau { (w : List ℕ) → are_letters w ≡ true → IsStraightTableau (insertion_pair w).0 }
    ensures recording { (w : List ℕ) → IsStandard (insertion_pair w).1 }
    ensures one_shape { (w : List ℕ)
        → shape_of (insertion_pair w).0 ≡ shape_of (insertion_pair w).1 }
    ensures cells { (w : List ℕ) → size (shape_of (insertion_pair w).0) ≡ length w }
{}

/// For a straight tableau p and a standard tableau q of the same shape, undoing the insertions
/// (`word_back`) gives a word whose insertion tableau is p and whose recording tableau is q; and
/// for the tableaux of any word w it gives w. So each such pair p, q consists of the tableaux of
/// exactly one word.
pub fn pair_law()
    ensures inserted { (p q : List (List ℕ)) → IsStraightTableau p → IsStandard q
        → shape_of p ≡ shape_of q
        → insertion_pair (word_back p q) ≡ (p, q) }
    ensures back { (w : List ℕ) → word_back (insertion_pair w).0 (insertion_pair w).1 ≡ w }
{}
