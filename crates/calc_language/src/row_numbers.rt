//! The numbers in the rows of a tableau; each number over 65,535 is replaced by 65,535.
ghost use Rattle.std.specs.Prelude.{◌≡◌, map, string_bytes, IfOk};
ghost use Rattle.sym_model.specs.PrintedBlock.{decimal_value};
ghost use Rattle.sym_model.specs.WordForms.{numbers as numbers_of};
ghost use Rattle.calc_language.specs.FoundOffences.{at_most_entry};

use calc_base::NoMemory;
use calc_words::value_of;
use std::alloc::Global;

/// The greatest entry of a tableau.
const GREATEST_ENTRY: u128 = 65_535;

/// The number that a word of decimal digits spells, or 65,535 if the number is greater.
fn entry(word: &String) -> u16
    ensures { result ≡ at_most_entry (decimal_value (string_bytes word.now)) }
{
    match value_of(word.as_bytes()) {
        None => u16::MAX,
        Some(value) => value.min(GREATEST_ENTRY) as u16,
    }
}

/// The numbers of a row, each replaced by 65,535 if it is greater.
fn row_numbers(alloc: Global, row: &[String]) -> Result<Vec<u16>, NoMemory>
    ensures { IfOk result (λ v. v.items
        ≡ map at_most_entry (numbers_of (map string_bytes row.now))) }
{
    let mut numbers = Vec::new(alloc);
    for word in row {
        numbers.push(entry(word))?;
    }
    Ok(numbers)
}

/// The numbers of rows, row by row, each replaced by 65,535 if it is greater.
pub(crate) fn rows_numbers(alloc: Global, rows: &[&[String]]) -> Result<Vec<Vec<u16>>, NoMemory>
    ensures { IfOk result (λ v. map (λ r. r.items) v.items
        ≡ map (λ r. map at_most_entry (numbers_of (map string_bytes r.now))) rows.now) }
{
    let mut numbers = Vec::new(alloc);
    for row in rows {
        numbers.push(row_numbers(alloc, row)?)?;
    }
    Ok(numbers)
}
