//! A slow program that follows the definition, for all words of a given length, in lexicographic
//! order.

ghost use Rattle.std.specs.Prelude.{◌≡◌, ◌+◌, ◌∷◌, ◌++◌, map, IfOk, OnOk, flat_map};
ghost use Rattle.sym_model.specs.Partition.{after};
ghost use Rattle.sym_model.specs.Schur.{words};
ghost use Rattle.plain_programs.specs.Words.{words_of};

use std::alloc::{AllocError, Global};

/// All words of a length with letters from 1 to n, in lexicographic order. Fails only if memory
/// runs out.
pub fn plain_words(alloc: Global, n: u64, length: u64) -> Result<Vec<Vec<u64>>, AllocError>
    ensures { IfOk result (λ list. words_of list.items ≡ words n length) }
{
    let mut list = Vec::new(alloc);
    list.push(Vec::new(alloc))?;
    for done in 0..length {
        list = prefixed(alloc, n, &list)?;
    }
    Ok(list)
}

/// The words that consist of a letter from 1 to n followed by one of the given words.
fn prefixed(alloc: Global, n: u64, words: &[Vec<u64>]) -> Result<Vec<Vec<u64>>, AllocError>
    ensures { IfOk result (λ list. words_of list.items
        ≡ flat_map (λ a. map (λ w. a ∷ w) (words_of words.now)) (after 0 n)) }
{
    let mut list = Vec::new(alloc);
    for below in 0..n {
        push_prefixed(alloc, &mut list, below + 1, words)?;
    }
    Ok(list)
}

fn push_prefixed(
    alloc: Global,
    list: &mut Vec<Vec<u64>>,
    first: u64,
    words: &[Vec<u64>],
) -> Result<(), AllocError>
    ensures { OnOk result (words_of list.new.items
        ≡ words_of list.old.items ++ map (λ w. first ∷ w) (words_of words.now)) }
{
    for word in words {
        list.push(with_first(alloc, first, word)?)?;
    }
    Ok(())
}

/// The word that consists of the letter `first` followed by `word`.
fn with_first(alloc: Global, first: u64, word: &[u64]) -> Result<Vec<u64>, AllocError>
    ensures { IfOk result (λ longer. longer.items ≡ first ∷ word.now) }
{
    let mut longer = Vec::new(alloc);
    longer.push(first)?;
    longer.extend_from_slice(word)?;
    Ok(longer)
}
