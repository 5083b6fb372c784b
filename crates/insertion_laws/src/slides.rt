//! A slide keeps the Knuth class of the reading word of a tableau (Fulton, 2.1).
ghost use Rattle.std.specs.Prelude.{ℕ};
ghost use Rattle.sym_model.specs.Insertion.{reading_word};
ghost use Rattle.sym_model.specs.Knuth.{AreKnuthEquivalent, IsOnlyTableauOf};
ghost use Rattle.sym_model.specs.Slide.{HasInnerCorner, IsReached, slide};
ghost use Rattle.sym_model.specs.Tableau.{IsTableau, SkewFilling};

/// If a tableau is slid from an inner corner, the reading words before and after the slide are in
/// the same Knuth class. So the straight tableau that slides reach is the only straight tableau
/// whose reading word is in this class, whichever inner corners are chosen. Example: slides take
/// the tableau of the shape (3,2,1)/(2,1) with the rows 2, 1 and 1, whose reading word is 1 1 2, to
/// the single row 1 1 2.
pub fn slide_class_law()
    ensures class { (row : ℕ) (t : SkewFilling)
        → IsTableau t.outer t.inner t.rows → HasInnerCorner row t.inner
        → AreKnuthEquivalent (reading_word t.rows) (reading_word (slide row t).rows) }
    ensures reached { (t s : SkewFilling) → IsTableau t.outer t.inner t.rows → IsReached t s
        → IsOnlyTableauOf (reading_word t.rows) s.rows }
{}
