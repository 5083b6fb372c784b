//! Slow programs that follow the definitions, for the fillings of a skew shape, and for its
//! semistandard tableaux, which are found by testing all fillings.

ghost use Rattle.std.specs.Prelude.{◌≡◌, ◌∷◌, ◌++◌, map, IfOk, OnOk, filter, flat_map};
ghost use Rattle.sym_model.specs.Schur.{row_lengths, fillings_of, semistandard, tableaux};
ghost use Rattle.plain_programs.specs.Words.{words_of, fillings_in};

use crate::semistandard::{plain_contains, plain_semistandard};
use crate::words::plain_words;
use std::alloc::{AllocError, Global};

/// The semistandard tableaux of the shape outer/inner with entries from 1 to n, each by its rows;
/// none if inner is not contained in outer. Fails only if memory runs out.
pub fn plain_tableaux(
    alloc: Global,
    n: u64,
    outer: &[u64],
    inner: &[u64],
) -> Result<Vec<Vec<Vec<u64>>>, AllocError>
    ensures { IfOk result (λ list. fillings_in list.items ≡ tableaux n outer.now inner.now) }
{
    if !plain_contains(outer, inner) {
        return Ok(Vec::new(alloc));
    }
    let mut lengths = Vec::new(alloc);
    push_row_lengths(&mut lengths, outer, inner)?;
    let fillings = plain_fillings(alloc, n, &lengths)?;
    semistandard_among(alloc, inner, &fillings)
}

/// All fillings of rows with the given lengths by letters from 1 to n. Fails only if memory runs
/// out.
pub fn plain_fillings(
    alloc: Global,
    n: u64,
    lengths: &[u64],
) -> Result<Vec<Vec<Vec<u64>>>, AllocError>
    ensures { IfOk result (λ list. fillings_in list.items ≡ fillings_of n lengths.now) }
{
    let [length, others @ ..] = lengths else {
        let mut empty = Vec::new(alloc);
        empty.push(Vec::new(alloc))?;
        return Ok(empty);
    };
    let rows = plain_words(alloc, n, *length)?;
    let rest = plain_fillings(alloc, n, others)?;
    stacked(alloc, &rows, &rest)
}

fn push_row_lengths(lengths: &mut Vec<u64>, outer: &[u64], inner: &[u64]) -> Result<(), AllocError>
    ensures { OnOk result (lengths.new.items
        ≡ lengths.old.items ++ row_lengths outer.now inner.now) }
{
    let [whole, outer @ ..] = outer else {
        return Ok(());
    };
    match inner {
        [] => {
            lengths.push(*whole)?;
            push_row_lengths(lengths, outer, inner)
        }
        [part, inner @ ..] => {
            lengths.push(whole.saturating_sub(*part))?;
            push_row_lengths(lengths, outer, inner)
        }
    }
}

/// The fillings that consist of one of the given rows on top of one of the given fillings.
fn stacked(
    alloc: Global,
    rows: &[Vec<u64>],
    rest: &[Vec<Vec<u64>>],
) -> Result<Vec<Vec<Vec<u64>>>, AllocError>
    ensures { IfOk result (λ list. fillings_in list.items
        ≡ flat_map (λ row. map (λ filling. row ∷ filling) (fillings_in rest.now))
        (words_of rows.now)) }
{
    let mut list = Vec::new(alloc);
    for row in rows {
        push_stacked(alloc, &mut list, row, rest)?;
    }
    Ok(list)
}

fn push_stacked(
    alloc: Global,
    list: &mut Vec<Vec<Vec<u64>>>,
    row: &[u64],
    rest: &[Vec<Vec<u64>>],
) -> Result<(), AllocError>
    ensures { OnOk result (fillings_in list.new.items
        ≡ fillings_in list.old.items ++ map (λ filling. row.now ∷ filling) (fillings_in rest.now)) }
{
    for filling in rest {
        list.push(with_first_row(alloc, row, filling)?)?;
    }
    Ok(())
}

fn with_first_row(
    alloc: Global,
    row: &[u64],
    filling: &[Vec<u64>],
) -> Result<Vec<Vec<u64>>, AllocError>
    ensures { IfOk result (λ longer. words_of longer.items ≡ row.now ∷ words_of filling.now) }
{
    let mut longer = Vec::new(alloc);
    longer.push(Vec::from_slice(alloc, row)?)?;
    push_rows(alloc, &mut longer, filling)?;
    Ok(longer)
}

/// Appends copies of the rows to the list.
pub(crate) fn push_rows(
    alloc: Global,
    list: &mut Vec<Vec<u64>>,
    rows: &[Vec<u64>],
) -> Result<(), AllocError>
    ensures { OnOk result (words_of list.new.items ≡ words_of list.old.items ++ words_of rows.now) }
{
    for row in rows {
        list.push(Vec::from_slice(alloc, row)?)?;
    }
    Ok(())
}

fn semistandard_among(
    alloc: Global,
    inner: &[u64],
    fillings: &[Vec<Vec<u64>>],
) -> Result<Vec<Vec<Vec<u64>>>, AllocError>
    ensures { IfOk result (λ list. fillings_in list.items
        ≡ filter (semistandard inner.now) (fillings_in fillings.now)) }
{
    let mut list = Vec::new(alloc);
    for filling in fillings {
        if plain_semistandard(inner, filling) {
            let mut kept = Vec::new(alloc);
            push_rows(alloc, &mut kept, filling)?;
            list.push(kept)?;
        }
    }
    Ok(list)
}
