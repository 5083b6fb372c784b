//! Slow programs that follow the definitions, for lists of tableaux, in which a tableau is given by
//! its column reading, and for the part of such a list after a given tableau.

ghost use Rattle.std.specs.Prelude.{◌≡◌, ◌<◌, ◌^◌, IfOk, length, filter};
ghost use Rattle.sym_model.specs.Polynomial.{same};
ghost use Rattle.sym_model.specs.Partition.{cells};
ghost use Rattle.sym_model.specs.Schur.{content};
ghost use Rattle.sym_model.specs.TableauList.{tableau_readings, readings_with_content, later_than};
ghost use Rattle.plain_programs.specs.Words.{words_of};

use crate::fillings::plain_tableaux;
use crate::good::{are_same, count_cells, counts_of, readings_of, those_among};
use crate::words::plain_words;
use std::alloc::{AllocError, Global};

/// The column readings, in increasing lexicographic order, of the semistandard tableaux of the
/// shape outer/inner with entries from 1 to n. The number of cells is below 2^64. Fails only if
/// memory runs out.
pub fn plain_tableau_readings(
    alloc: Global,
    n: u64,
    outer: &[u64],
    inner: &[u64],
) -> Result<Vec<Vec<u64>>, AllocError>
    requires fits { length (cells outer.now inner.now) < 2 ^ 64 }
    ensures { IfOk result (λ list. words_of list.items ≡ tableau_readings n outer.now inner.now) }
{
    let tableaux = plain_tableaux(alloc, n, outer, inner)?;
    let readings = readings_of(alloc, outer, inner, &tableaux)?;
    let words = plain_words(alloc, n, count_cells(outer, inner))?;
    those_among(alloc, &words, &readings)
}

/// The column readings of the semistandard tableaux of the shape outer/inner with the content
/// `counts`; the entries are from 1 to the length of the content. The number of cells is below
/// 2^64. Fails only if memory runs out.
pub fn plain_readings_with_content(
    alloc: Global,
    counts: &[u64],
    outer: &[u64],
    inner: &[u64],
) -> Result<Vec<Vec<u64>>, AllocError>
    requires fits { length (cells outer.now inner.now) < 2 ^ 64 }
    ensures { IfOk result (λ list. words_of list.items
        ≡ readings_with_content counts.now outer.now inner.now) }
{
    let readings = plain_tableau_readings(alloc, counts.len() as u64, outer, inner)?;
    those_with_content(alloc, counts, &readings)
}

fn those_with_content(
    alloc: Global,
    counts: &[u64],
    words: &[Vec<u64>],
) -> Result<Vec<Vec<u64>>, AllocError>
    ensures { IfOk result (λ list. words_of list.items
        ≡ filter (λ w. same (content (length counts.now) w) counts.now) (words_of words.now)) }
{
    let mut list = Vec::new(alloc);
    for word in words {
        let found = counts_of(alloc, counts.len() as u64, word)?;
        if are_same(&found, counts) {
            list.push(Vec::from_slice(alloc, word)?)?;
        }
    }
    Ok(list)
}

/// The words that come after `word` in a list of words; none if `word` is not in the list. No
/// memory is allocated.
pub fn plain_later_than<'a>(word: &[u64], list: &'a [Vec<u64>]) -> &'a [Vec<u64>]
    ensures { words_of result.now ≡ later_than word.now (words_of list.now) }
{
    let [first, others @ ..] = list else {
        return list;
    };
    if are_same(word, first) {
        others
    } else {
        plain_later_than(word, others)
    }
}
