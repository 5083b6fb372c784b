//! Functions on lists of letters: tests, counts, and permutations from letters or codes. A letter
//! is fixed if it is equal to its place, counted from 1.
ghost use Rattle.std.specs.Prelude.{◌≡◌, ℕ, ◌+◌, ◌<◌, ◌≤◌, ◌==◌, ◌&&◌, nat_lt, length, take, swap};
ghost use Rattle.std.specs.Prelude.{IsOk, IfOk, MatchOption};
ghost use Rattle.std.specs.List.{count_by, list_any};
ghost use Rattle.sym_model.specs.Sum.{Once};
ghost use Rattle.sym_model.specs.PlaceOrders.{smaller, inversions, places};
ghost use Rattle.sym_model.specs.Permutation.{IsOneLine, IsCode, kept, last_descent};
ghost use Rattle.sym_model.specs.Permutation.{letters_by_code, with_fixed};
ghost use Rattle.perm_codes.specs.Limits.{ExceedsFirstAt, IsShortPermutation, OffendsFirstAt};

use smallvec::SmallVec;
use std::alloc::{AllocError, Global};

/// The letters of a permutation. Up to 16 letters allocate no memory.
pub(crate) type Letters = SmallVec<u8, 16>;

/// The first place, counted from 0, whose letter is 0, is greater than the number of letters or
/// occurs at an earlier place; None if the letters are a permutation.
pub(crate) fn first_offence(letters: &[u16]) -> Option<usize>
    ensures { MatchOption result (IsOneLine letters.now) (OffendsFirstAt letters.now) }
{
    for (at, letter) in letters.iter().enumerate() {
        if *letter == 0 || usize::from(*letter) > letters.len() || letters[..at].contains(letter) {
            return Some(at);
        }
    }
    None
}

/// The first place, counted from 0, whose entry is greater than the number of entries after it;
/// None if the list is a code.
pub(crate) fn first_excess(code: &[u16]) -> Option<usize>
    requires { length code.now ≤ 255 }
    ensures { MatchOption result (IsCode code.now) (ExceedsFirstAt code.now) }
{
    for (at, entry) in code.iter().enumerate() {
        if usize::from(*entry) + at + 1 > code.len() {
            return Some(at);
        }
    }
    None
}

/// The number of letters smaller than `bound`.
pub(crate) fn count_smaller(bound: u8, letters: &[u8]) -> u16
    requires { length letters.now ≤ 255 }
    ensures count { result ≡ smaller bound letters.now }
    ensures most { result ≤ length letters.now }
{
    letters.iter().filter(|letter| **letter < bound).count() as u16
}

/// The number of inversions of the list of letters.
pub(crate) fn count_inversions(letters: &[u8]) -> u16
    requires { length letters.now ≤ 255 }
    ensures { result ≡ inversions letters.now }
{
    let mut count: u16 = 0;
    for (i, letter) in letters.iter().enumerate() {
        count += count_smaller(*letter, &letters[i + 1..]);
    }
    count
}

/// The last place, counted from 1, whose letter is greater than the next one; None if there is no
/// such place.
pub(crate) fn find_last_descent(letters: &[u8]) -> Option<u16>
    requires some { 0 < length letters.now }
    requires few { length letters.now ≤ 255 }
    ensures { result ≡ last_descent letters.now }
{
    let mut i = letters.len() - 1;
    while i > 0 {
        if letters[i - 1] > letters[i] {
            return Some(i as u16);
        }
        i -= 1;
    }
    None
}

/// The number of letters that are left after the fixed letters at the end are removed; the first
/// letter always stays.
pub(crate) fn count_kept(letters: &[u8]) -> usize
    ensures { take result letters.now ≡ kept letters.now }
{
    let mut len = letters.len();
    while len > 1 && usize::from(letters[len - 1]) == len {
        len -= 1;
    }
    len
}

/// Whether exchanging the letters at the places `first` < `second`, counted from 0, makes exactly
/// one more inversion: the letter at `first` is the smaller one, and no letter at a place between
/// `first` and `second` has a value between these two letters.
pub(crate) fn makes_one_inversion(letters: &[u8], first: usize, second: usize) -> bool
    requires order { first < second }
    requires inside { second < length letters.now }
    requires once { Once letters.now }
    ensures { result ≡ (inversions (swap letters.now first second) == inversions letters.now + 1) }
{
    let low = letters[first];
    let high = letters[second];
    low < high && !has_between(&letters[first + 1..second], low, high)
}

/// The number of inversions after exchanging the letters at the places `first` < `second`, counted
/// from 0, if `count` is the number before. Let d be 1 plus twice the number of letters that are
/// between these two letters both in place and in value. The result is `count` + d if the letter at
/// `first` is smaller than that at `second`, and otherwise `count` - d.
pub(crate) fn inversions_exchanged(letters: &[u8], first: usize, second: usize, count: u16) -> u16
    requires permutation { IsShortPermutation letters.now }
    requires order { first < second }
    requires inside { second < length letters.now }
    requires count { count ≡ inversions letters.now }
    ensures { result ≡ inversions (swap letters.now first second) }
{
    let between = &letters[first + 1..second];
    let left = letters[first];
    let right = letters[second];
    if left < right {
        count + 1 + 2 * count_between(between, left, right)
    } else {
        count - 1 - 2 * count_between(between, right, left)
    }
}

/// The number of letters greater than `low` and smaller than `high`.
fn count_between(letters: &[u8], low: u8, high: u8) -> u16
    requires { length letters.now ≤ 255 }
    ensures { result ≡ count_by (λ letter. nat_lt low letter && nat_lt letter high) letters.now }
{
    letters
        .iter()
        .filter(|letter| low < **letter && **letter < high)
        .count() as u16
}

/// Whether some letter is greater than `low` and less than `high`.
pub fn has_between(letters: &[u8], low: u8, high: u8) -> bool
    ensures { result ≡ list_any (λ letter. nat_lt low letter && nat_lt letter high) letters.now }
{
    letters.iter().any(|letter| low < *letter && *letter < high)
}

/// The letters of a permutation, each in a byte.
pub(crate) fn narrow(alloc: Global, letters: &[u16]) -> Result<Letters, AllocError>
    requires { IsShortPermutation letters.now }
    ensures ok { IfOk result (λ list. list.items ≡ letters.now) }
    ensures inline { length letters.now ≤ 16 → IsOk result }
{
    let mut list = SmallVec::new(alloc);
    list.reserve(letters.len())?;
    for letter in letters {
        list.push_reserved(*letter as u8);
    }
    Ok(list)
}

/// The list `letters`, followed by fixed letters up to the place `last`, counted from 1: the number
/// of each of these places is its letter.
pub(crate) fn add_fixed(alloc: Global, letters: &[u8], last: usize) -> Result<Letters, AllocError>
    requires { last ≤ 255 }
    ensures { IfOk result (λ list. list.items ≡ with_fixed last letters.now) }
{
    let mut list = SmallVec::from_slice(alloc, letters)?;
    for at in letters.len()..last {
        list.push(at as u8 + 1)?;
    }
    Ok(list)
}

/// The letters of the permutation with this code: for each entry a in turn, the letter, among those
/// not yet used, that is greater than exactly a of them.
pub(crate) fn choose(alloc: Global, code: &[u16]) -> Result<Letters, AllocError>
    requires few { length code.now ≤ 255 }
    requires code { IsCode code.now }
    ensures { IfOk result (λ list. list.items
        ≡ letters_by_code code.now (places (length code.now))) }
{
    let mut left = add_fixed(alloc, &[], code.len())?;
    let mut list = SmallVec::new(alloc);
    for entry in code {
        list.push(left.remove(usize::from(*entry)))?;
    }
    Ok(list)
}

/// Exchanges the letters at two places, counted from 0.
pub(crate) fn exchange(letters: &mut Letters, first: usize, second: usize)
    requires first { first < length letters.old.items }
    requires second { second < length letters.old.items }
    ensures { letters.new.items ≡ swap letters.old.items first second }
{
    letters.as_mut_slice().swap(first, second);
}
