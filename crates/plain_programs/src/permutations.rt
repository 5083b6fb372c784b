//! Slow programs that follow the definitions, for the inversions and the code of a list of letters.

ghost use Rattle.std.specs.Prelude.{◌≡◌, ◌*◌, ◌^◌, ◌<◌, ◌≤◌, ◌++◌, length, IfOk, OnOk};
ghost use Rattle.sym_model.specs.PlaceOrders.{smaller, inversions};
ghost use Rattle.sym_model.specs.Permutation.{code};

use std::alloc::{AllocError, Global};

/// The number of inversions: the pairs of letters in which the left letter is greater than the
/// right one. There are fewer than 2^31 letters.
pub fn plain_inversions(letters: &[u64]) -> u64
    requires { length letters.now < 2 ^ 31 }
    ensures count { result ≡ inversions letters.now }
    ensures most { result ≤ length letters.now * length letters.now }
{
    let [first, rest @ ..] = letters else {
        return 0;
    };
    let here = count_smaller(*first, rest);
    here + plain_inversions(rest)
}

/// The code of a list of letters: for each place the number of smaller letters to the right. Fails
/// only if memory runs out.
pub fn plain_code(alloc: Global, letters: &[u64]) -> Result<Vec<u64>, AllocError>
    ensures { IfOk result (λ list. list.items ≡ code letters.now) }
{
    let mut list = Vec::new(alloc);
    push_code(&mut list, letters)?;
    Ok(list)
}

fn push_code(list: &mut Vec<u64>, letters: &[u64]) -> Result<(), AllocError>
    ensures { OnOk result (list.new.items ≡ list.old.items ++ code letters.now) }
{
    let [first, rest @ ..] = letters else {
        return Ok(());
    };
    list.push(count_smaller(*first, rest))?;
    push_code(list, rest)
}

fn count_smaller(bound: u64, letters: &[u64]) -> u64
    ensures count { result ≡ smaller bound letters.now }
    ensures most { result ≤ length letters.now }
{
    let [first, rest @ ..] = letters else {
        return 0;
    };
    let later = count_smaller(bound, rest);
    if *first < bound { later + 1 } else { later }
}
