//! The rows of a tableau, taken from the words of a command. A tableau is typed as its entries,
//! with the word `/` between two rows, and the word `.` for a row without entries.
ghost use Rattle.std.specs.Prelude.{◌≡◌, ◌++◌, ◌<◌, ◌≤◌, List, ℕ, map, length, string_bytes, IfOk};
ghost use Rattle.sym_model.specs.Form.{EachOf};
ghost use Rattle.word_laws.specs.WrittenRows.{row_text, further_text, rows_text};
ghost use Rattle.calc_words.specs.NumberRuns.{IsNumber};

use calc_base::NoMemory;
use calc_words::{behind, numbers_first as numbers};
use std::alloc::Global;

/// The entries of the row at the front of the words, as words of digits, and the words after that
/// row.
fn row_first(words: &[String]) -> (&[String], &[String])
    ensures is { (row : List (List ℕ)) (rows : List (List (List ℕ))) → EachOf IsNumber row
        → map string_bytes words.now ≡ row_text row ++ further_text rows
        → (map string_bytes result.0.now ≡ row)
        × (map string_bytes result.1.now ≡ further_text rows) }
    ensures shorter { length result.1.now ≤ length words.now }
{
    match behind(words, ".") {
        Some(rest) => (&words[..0], rest),
        None => numbers(words),
    }
}

/// For each row of the tableau that `words` spells, the entries of the row, as words of digits.
pub(crate) fn rows_of_words(alloc: Global, words: &[String]) -> Result<Vec<&[String]>, NoMemory>
    ensures { (rows : List (List (List ℕ))) → 0 < length rows → EachOf (EachOf IsNumber) rows
        → map string_bytes words.now ≡ rows_text rows
        → IfOk result (λ v. map (λ r. map string_bytes r.now) v.items ≡ rows) }
{
    let (first, mut rest) = row_first(words);
    let mut rows = Vec::new(alloc);
    rows.push(first)?;
    while let Some(more) = behind(rest, "/") {
        let (row, later) = row_first(more);
        rows.push(row)?;
        rest = later;
    }
    Ok(rows)
}
