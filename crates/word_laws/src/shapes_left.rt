//! The place of the error in the rows of a typed tableau that must have given lengths.

ghost use Rattle.std.specs.Prelude.{◌≡◌, ◌<◌, ℕ, List, ◌∷◌, length};
ghost use Rattle.sym_model.specs.Form.{EachOf, is_number_word};
ghost use Rattle.std.specs.Prelude.{true};
ghost use Rattle.sym_model.specs.WordForms.{shape_offences};
ghost use Rattle.word_laws.specs.WrittenRows.{rows_text, left_at};

/// The error of typed rows that must have given lengths (`left_at`): if the first row of a wrong
/// length has l numbers and must have n, it is at word min(n, l) of this row, counted from 0;
/// otherwise, if there are too many rows, it is at the `/` before the first row in excess, and if
/// there are too few, it is after the last row.
pub fn left_shape_law()
    ensures { (k n : ℕ) (lengths : List ℕ) (row : List (List ℕ)) (rows : List (List (List ℕ)))
        → EachOf (EachOf (λ w. is_number_word w ≡ true)) (row ∷ rows)
        → shape_offences k (n ∷ lengths) (rows_text (row ∷ rows))
        ≡ left_at k (n ∷ lengths) (row ∷ rows) }
{}
