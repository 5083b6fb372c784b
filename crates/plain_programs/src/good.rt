//! Slow programs that follow the definitions, for the good tableaux of a skew shape, which are
//! found by testing all tableaux. A tableau is good for a list `start` if, for each j from 0 to the
//! last column, `start` plus the content of the columns to the right of column j is weakly
//! decreasing.

ghost use Rattle.std.specs.Prelude.{◌≡◌, [], ◌∷◌, ◌++◌, ◌+◌, ◌<◌, ◌≤◌, ◌^◌, IfOk, OnOk, cond};
ghost use Rattle.std.specs.Prelude.{length, map, filter};
ghost use Rattle.sym_model.specs.Polynomial.{same, join};
ghost use Rattle.sym_model.specs.Partition.{after, cells};
ghost use Rattle.sym_model.specs.Schur.{times_in, content};
ghost use Rattle.sym_model.specs.GoodTableau.{column_reading, is_falling, is_good, is_among};
ghost use Rattle.sym_model.specs.GoodTableau.{good_tableaux, good_readings};
ghost use Rattle.plain_programs.specs.Words.{words_of, fillings_in};

use crate::fillings::{plain_tableaux, push_rows};
use crate::numbers::number_at;
use crate::readings::{plain_column_reading, plain_reading_right_of};
use crate::words::plain_words;
use std::alloc::{AllocError, Global};

/// The column readings, in increasing lexicographic order, of the tableaux of the shape outer/inner
/// with entries from 1 to k that are good for the given start (`plain_is_good`); none if start has
/// more than k parts. The number of cells is below 2^64. Fails only if memory runs out.
pub fn plain_good_readings(
    alloc: Global,
    k: u64,
    start: &[u64],
    outer: &[u64],
    inner: &[u64],
) -> Result<Vec<Vec<u64>>, AllocError>
    requires fits { length (cells outer.now inner.now) < 2 ^ 64 }
    ensures { IfOk result (λ list. words_of list.items
        ≡ good_readings k start.now outer.now inner.now) }
{
    let good = plain_good_tableaux(alloc, k, start, outer, inner)?;
    let readings = readings_of(alloc, outer, inner, &good)?;
    let words = plain_words(alloc, k, count_cells(outer, inner))?;
    those_among(alloc, &words, &readings)
}

/// The tableaux of the shape outer/inner with entries from 1 to k that are good for the given start
/// (`plain_is_good`), each by its rows; none if start has more than k parts. Fails only if memory
/// runs out.
pub fn plain_good_tableaux(
    alloc: Global,
    k: u64,
    start: &[u64],
    outer: &[u64],
    inner: &[u64],
) -> Result<Vec<Vec<Vec<u64>>>, AllocError>
    ensures { IfOk result (λ list. fillings_in list.items
        ≡ good_tableaux k start.now outer.now inner.now) }
{
    if start.len() as u64 > k {
        return Ok(Vec::new(alloc));
    }
    let tableaux = plain_tableaux(alloc, k, outer, inner)?;
    good_among(alloc, k, start, outer, inner, &tableaux)
}

fn good_among(
    alloc: Global,
    k: u64,
    start: &[u64],
    outer: &[u64],
    inner: &[u64],
    tableaux: &[Vec<Vec<u64>>],
) -> Result<Vec<Vec<Vec<u64>>>, AllocError>
    ensures { IfOk result (λ list. fillings_in list.items
        ≡ filter (is_good k start.now outer.now inner.now) (fillings_in tableaux.now)) }
{
    let mut list = Vec::new(alloc);
    for tableau in tableaux {
        let good = plain_is_good(alloc, k, start, outer, inner, tableau)?;
        push_if(alloc, &mut list, good, tableau)?;
    }
    Ok(list)
}

/// Appends a copy of the tableau if `keeps` is true.
fn push_if(
    alloc: Global,
    list: &mut Vec<Vec<Vec<u64>>>,
    keeps: bool,
    tableau: &[Vec<u64>],
) -> Result<(), AllocError>
    ensures { OnOk result (fillings_in list.new.items
        ≡ fillings_in list.old.items ++ cond keeps (words_of tableau.now ∷ []) []) }
{
    if keeps {
        let mut kept = Vec::new(alloc);
        push_rows(alloc, &mut kept, tableau)?;
        list.push(kept)?;
    }
    Ok(())
}

/// Whether a tableau of the shape outer/inner, given by its rows, is good for a start: for each j
/// from 0 to the last column, start plus the content of the columns to the right of column j, in
/// letters from 1 to k, is weakly decreasing. Fails only if memory runs out.
pub fn plain_is_good(
    alloc: Global,
    k: u64,
    start: &[u64],
    outer: &[u64],
    inner: &[u64],
    filling: &[Vec<u64>],
) -> Result<bool, AllocError>
    ensures { IfOk result (λ good. good
        ≡ is_good k start.now outer.now inner.now (words_of filling.now)) }
{
    let whole = plain_column_reading(alloc, outer, inner, filling)?;
    let all_fall = falls_with(alloc, k, start, &whole)?;
    if !all_fall {
        return Ok(false);
    }
    for j in 0..number_at(outer, 0) {
        let reading = plain_reading_right_of(alloc, j + 1, outer, inner, filling)?;
        let these_fall = falls_with(alloc, k, start, &reading)?;
        if !these_fall {
            return Ok(false);
        }
    }
    Ok(true)
}

/// Whether start plus the content of the word, in letters from 1 to k, is weakly decreasing.
fn falls_with(alloc: Global, k: u64, start: &[u64], word: &[u64]) -> Result<bool, AllocError>
    ensures { IfOk result (λ falls. falls ≡ is_falling (join start.now (content k word.now))) }
{
    let counts = counts_of(alloc, k, word)?;
    let mut sums = Vec::new(alloc);
    push_sums(&mut sums, start, &counts)?;
    Ok(falls(&sums))
}

/// The content of the word: for each letter from 1 to k, the number of times that it occurs.
pub(crate) fn counts_of(alloc: Global, k: u64, word: &[u64]) -> Result<Vec<u64>, AllocError>
    ensures { IfOk result (λ counts. counts.items ≡ content k word.now) }
{
    let mut counts = Vec::new(alloc);
    for letter in 0..k {
        counts.push(count_of(letter + 1, word))?;
    }
    Ok(counts)
}

/// The number of times that the letter occurs in the word.
fn count_of(letter: u64, word: &[u64]) -> u64
    ensures count { result ≡ times_in letter word.now }
    ensures bound { result ≤ length word.now }
{
    let [first, others @ ..] = word else {
        return 0;
    };
    let rest = count_of(letter, others);
    if *first == letter { rest + 1 } else { rest }
}

/// Appends to `sums` the sum of the two lists `first` and `second`, place by place, a missing
/// number being 0.
fn push_sums(sums: &mut Vec<u128>, first: &[u64], second: &[u64]) -> Result<(), AllocError>
    ensures { OnOk result (sums.new.items ≡ sums.old.items ++ join first.now second.now) }
{
    let [a, rest @ ..] = first else {
        return push_wide(sums, second);
    };
    let [b, later @ ..] = second else {
        return push_wide(sums, first);
    };
    sums.push(u128::from(*a) + u128::from(*b))?;
    push_sums(sums, rest, later)
}

fn push_wide(list: &mut Vec<u128>, numbers: &[u64]) -> Result<(), AllocError>
    ensures { OnOk result (list.new.items ≡ list.old.items ++ numbers.now) }
{
    for number in numbers {
        list.push(u128::from(*number))?;
    }
    Ok(())
}

fn falls(numbers: &[u128]) -> bool
    ensures { result ≡ is_falling numbers.now }
{
    let [first, later @ ..] = numbers else {
        return true;
    };
    let [second, ..] = later else {
        return true;
    };
    *second <= *first && falls(later)
}

pub(crate) fn readings_of(
    alloc: Global,
    outer: &[u64],
    inner: &[u64],
    fillings: &[Vec<Vec<u64>>],
) -> Result<Vec<Vec<u64>>, AllocError>
    ensures { IfOk result (λ list. words_of list.items
        ≡ map (column_reading outer.now inner.now) (fillings_in fillings.now)) }
{
    let mut list = Vec::new(alloc);
    for filling in fillings {
        list.push(plain_column_reading(alloc, outer, inner, filling)?)?;
    }
    Ok(list)
}

pub(crate) fn count_cells(outer: &[u64], inner: &[u64]) -> u64
    requires { length (cells outer.now inner.now) < 2 ^ 64 }
    ensures { result ≡ length (cells outer.now inner.now) }
{
    let mut count = 0;
    for i in 0..outer.len() {
        let part = number_at(outer, i);
        let taken = number_at(inner, i);
        count += part.saturating_sub(taken);
    }
    count
}

pub(crate) fn those_among(
    alloc: Global,
    words: &[Vec<u64>],
    readings: &[Vec<u64>],
) -> Result<Vec<Vec<u64>>, AllocError>
    ensures { IfOk result (λ list. words_of list.items
        ≡ filter (λ w. is_among w (words_of readings.now)) (words_of words.now)) }
{
    let mut list = Vec::new(alloc);
    for word in words {
        if is_one_of(word, readings) {
            list.push(Vec::from_slice(alloc, word)?)?;
        }
    }
    Ok(list)
}

fn is_one_of(word: &[u64], readings: &[Vec<u64>]) -> bool
    ensures { result ≡ is_among word.now (words_of readings.now) }
{
    let [reading, others @ ..] = readings else {
        return false;
    };
    are_same(word, reading) || is_one_of(word, others)
}

pub(crate) fn are_same(first: &[u64], second: &[u64]) -> bool
    ensures { result ≡ same first.now second.now }
{
    match first {
        [] => second.is_empty(),
        [a, rest @ ..] => match second {
            [] => false,
            [b, later @ ..] => *a == *b && are_same(rest, later),
        },
    }
}
