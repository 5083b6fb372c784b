//! The errors of the rows of a tableau: the first error is found if all rules are applied to each
//! number in turn.

ghost use Rattle.std.specs.Prelude.{◌≡◌, ℕ, List, [], ◌∷◌, ◌++◌, None};
ghost use Rattle.sym_model.specs.CommandOffence.{Offence, PlacedRow, first_offence, row_offences};
ghost use Rattle.sym_model.specs.CommandOffence.{entry_rule, count_offences, order_offences};
ghost use Rattle.sym_model.specs.CommandOffence.{standard_offences, empty_row_offences};
ghost use Rattle.sym_model.specs.Grammar.{insertion_offences, filled_offences};
ghost use Rattle.word_laws.specs.JudgedRows.{earlier, inserted, recorded, skewed};

/// The first error of two lists of errors together is the earlier of the first error of the one and
/// that of the other. A law: it does nothing when it runs.
pub fn earlier_offence_law()
    ensures { (left right : List Offence)
        → first_offence (left ++ right) ≡ earlier (first_offence left) (first_offence right) }
{}

/// The first error of the rows of a tableau is the same if all rules are applied to each number in
/// turn, and if each rule in turn is applied to all numbers. A law: it does nothing when it runs.
pub fn judged_rows_law()
    ensures inserted { (rows : List PlacedRow)
        → first_offence (insertion_offences rows)
        ≡ first_offence (inserted 0 None [] rows ++ empty_row_offences rows) }
    ensures recorded { (cells : ℕ) (rows : List PlacedRow)
        → first_offence (filled_offences rows ++ standard_offences cells [] [] rows)
        ≡ first_offence (recorded cells 0 [] [] rows) }
    ensures skewed { (inner : List ℕ) (rows : List PlacedRow)
        → first_offence (row_offences entry_rule rows ++ order_offences 0 [] inner rows)
        ≡ first_offence (skewed 0 [] inner rows) }
{}
