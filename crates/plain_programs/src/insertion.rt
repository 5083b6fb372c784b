//! Slow programs that follow the definitions, for row insertion: the tableau after a letter is
//! inserted, and the insertion and recording tableaux of a word.

ghost use Rattle.std.specs.Prelude.{◌≡◌, ◌+◌, ◌<◌, ◌^◌, ◌++◌, Some, IfOk, OnOk, length};
ghost use Rattle.sym_model.specs.Insertion.{row_with, bumped, inserted, with_step, inserted_from};
ghost use Rattle.sym_model.specs.Insertion.{insertion_pair, reading_word};
ghost use Rattle.plain_programs.specs.Words.{words_of};
ghost use Rattle.plain_programs.specs.Pairs.{tableaux_of};

use crate::fillings::push_rows;
use std::alloc::{AllocError, Global};

/// The insertion tableau and the recording tableau of a word, each by its rows.
#[derive(Drop)]
pub struct TableauPair {
    /// The rows of the insertion tableau.
    pub insertion: Vec<Vec<u64>>,
    /// The rows of the recording tableau.
    pub recording: Vec<Vec<u64>>,
}

/// The insertion tableau and the recording tableau of a word, by row insertion. Fails only if
/// memory runs out.
pub fn plain_insertion_pair(alloc: Global, word: &[u64]) -> Result<TableauPair, AllocError>
    ensures { IfOk result (λ pair. tableaux_of pair ≡ insertion_pair word.now) }
{
    let empty = TableauPair {
        insertion: Vec::new(alloc),
        recording: Vec::new(alloc),
    };
    inserted_from(alloc, 1, word, empty)
}

/// The pair of tableaux after the letters of a word are inserted into `pair` one by one; the
/// recording tableau gets the number `step` for the first letter, and the following numbers for the
/// others.
fn inserted_from(
    alloc: Global,
    step: u64,
    word: &[u64],
    pair: TableauPair,
) -> Result<TableauPair, AllocError>
    requires { step + length word.now < 2 ^ 64 }
    ensures { IfOk result (λ after. tableaux_of after
        ≡ inserted_from step word.now (words_of pair.insertion.items)
        (words_of pair.recording.items)) }
{
    let [letter, others @ ..] = word else {
        return Ok(pair);
    };
    let insertion = plain_inserted(alloc, &pair.insertion, *letter)?;
    let recording = with_step(alloc, step, &insertion, &pair.recording)?;
    let next = TableauPair {
        insertion,
        recording,
    };
    inserted_from(alloc, step + 1, others, next)
}

/// The rows of the tableau after row insertion of a letter. Fails only if memory runs out.
pub fn plain_inserted(
    alloc: Global,
    rows: &[Vec<u64>],
    letter: u64,
) -> Result<Vec<Vec<u64>>, AllocError>
    ensures { IfOk result (λ list. words_of list.items
        ≡ inserted (words_of rows.now) (Some letter)) }
{
    let mut list = Vec::new(alloc);
    push_inserted(alloc, &mut list, rows, letter)?;
    Ok(list)
}

fn push_inserted(
    alloc: Global,
    list: &mut Vec<Vec<u64>>,
    rows: &[Vec<u64>],
    letter: u64,
) -> Result<(), AllocError>
    ensures { OnOk result (words_of list.new.items
        ≡ words_of list.old.items ++ inserted (words_of rows.now) (Some letter)) }
{
    let mut longer = Vec::new(alloc);
    let [row, below @ ..] = rows else {
        longer.push(letter)?;
        list.push(longer)?;
        return Ok(());
    };
    push_row_with(&mut longer, row, letter)?;
    list.push(longer)?;
    match bumped_letter(row, letter) {
        Some(next) => push_inserted(alloc, list, below, next),
        None => push_rows(alloc, list, below),
    }
}

/// Appends to `list` the row after row insertion of the letter: it replaces the first greater
/// letter, or comes at the end if there is no greater letter.
fn push_row_with(list: &mut Vec<u64>, row: &[u64], letter: u64) -> Result<(), AllocError>
    ensures { OnOk result (list.new.items ≡ list.old.items ++ row_with letter row.now) }
{
    let [first, others @ ..] = row else {
        list.push(letter)?;
        return Ok(());
    };
    if letter < *first {
        list.push(letter)?;
        list.extend_from_slice(others)
    } else {
        list.push(*first)?;
        push_row_with(list, others, letter)
    }
}

/// The first letter of the row that is greater than `letter`, if there is one.
fn bumped_letter(row: &[u64], letter: u64) -> Option<u64>
    ensures { result ≡ bumped letter row.now }
{
    let [first, others @ ..] = row else {
        return None;
    };
    if letter < *first {
        Some(*first)
    } else {
        bumped_letter(others, letter)
    }
}

/// The recording tableau with the number `step` added in the cell that the insertion tableau has
/// and the recording tableau does not have yet.
fn with_step(
    alloc: Global,
    step: u64,
    insertion: &[Vec<u64>],
    recording: &[Vec<u64>],
) -> Result<Vec<Vec<u64>>, AllocError>
    ensures { IfOk result (λ list. words_of list.items
        ≡ with_step step (words_of insertion.now) (words_of recording.now)) }
{
    let mut list = Vec::new(alloc);
    push_with_step(alloc, &mut list, step, insertion, recording)?;
    Ok(list)
}

fn push_with_step(
    alloc: Global,
    list: &mut Vec<Vec<u64>>,
    step: u64,
    insertion: &[Vec<u64>],
    recording: &[Vec<u64>],
) -> Result<(), AllocError>
    ensures { OnOk result (words_of list.new.items
        ≡ words_of list.old.items
        ++ with_step step (words_of insertion.now) (words_of recording.now)) }
{
    let [row, lower @ ..] = insertion else {
        return push_rows(alloc, list, recording);
    };
    let [steps, others @ ..] = recording else {
        let mut last = Vec::new(alloc);
        last.push(step)?;
        list.push(last)?;
        return Ok(());
    };
    let mut kept = Vec::from_slice(alloc, steps)?;
    if steps.len() < row.len() {
        kept.push(step)?;
        list.push(kept)?;
        push_rows(alloc, list, others)
    } else {
        list.push(kept)?;
        push_with_step(alloc, list, step, lower, others)
    }
}

/// The reading word of a tableau: its rows from the bottom up. Fails only if memory runs out.
pub fn plain_reading_word(alloc: Global, rows: &[Vec<u64>]) -> Result<Vec<u64>, AllocError>
    ensures { IfOk result (λ word. word.items ≡ reading_word (words_of rows.now)) }
{
    let [row, below @ ..] = rows else {
        return Ok(Vec::new(alloc));
    };
    let mut word = plain_reading_word(alloc, below)?;
    word.extend_from_slice(row)?;
    Ok(word)
}
