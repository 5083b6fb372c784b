//! The type of a permutation. A letter of a permutation is fixed if it is equal to its place.
ghost use Rattle.std.specs.Prelude.{◌≡◌, ℕ, ◌+◌, ◌<◌, ◌≤◌, ◌↔◌, [], ◌∷◌, length, nat_eq, swap};
ghost use Rattle.std.specs.Prelude.{IsOk, IfOk, OnOk, IsErrOf};
ghost use Rattle.std.specs.Cmp.{partial_equiv_from_equiv};
ghost use Rattle.std.specs.Cmp.Lexicographic.{pointwise, nat_list_eq_equiv};
ghost use Rattle.std.specs.Cmp.Rules.{hashing};
ghost use Rattle.std.specs.Hash as fed;
ghost use Rattle.std.proofs.Common.{rules};
ghost use Rattle.sym_model.specs.PlaceOrders.{inversions};
ghost use Rattle.sym_model.specs.Permutation.{IsCode, IsOneLine, code, covers_down, covers_up};
ghost use Rattle.sym_model.specs.Permutation.{from_code, kept, last_descent, letter, times_swap};
ghost use Rattle.sym_model.specs.PrintedOrder.{permutation_order};
ghost use Rattle.perm_codes.specs.Limits.{ExceedsFirstAt, HasInversions, IsShortPermutation};
ghost use Rattle.perm_codes.specs.Limits.{IsWithinLimits, OffendsFirstAt};

use crate::covers::{Covers, covers_below};
use crate::letters::{
    Letters, add_fixed, choose, count_inversions, count_kept, count_smaller, exchange,
    find_last_descent, first_excess, first_offence, inversions_exchanged, narrow,
};
use crate::{PermFault, Word};
use calc_base::NoMemory;
use smallvec::SmallVec;
use std::alloc::Global;
use std::cmp::Ordering;
use std::hash::{Hash, Hasher};
use std::marker::Model;

/// The greatest number of letters of a permutation.
const MAX_LETTERS: usize = 255;

/// A permutation in one-line form, of 1 to 255 letters, without fixed letters at its end, except
/// that the identity is the one letter 1. Up to 16 letters allocate no memory.
#[derive(Debug, Drop)]
pub struct Perm {
    letters: Letters,
    inversions: u16,
}

impl Model for Perm {
    ghost use Rattle.std.specs.Prelude.{ℕ, List};
    ghost use Rattle.perm_codes.specs.Limits.{HasInversions};

    ghost Value = { List ℕ };

    ghost view = { λ p. p.letters.items };

    ghost invariant = { λ p. HasInversions p.letters.items p.inversions };
}

impl Perm {
    /// The permutation with these letters, without the fixed letters at the end.
    ///
    /// Returns `Empty` if there is no letter, `TooMany` if there are more than 255, otherwise
    /// `Letter` at the first place, counted from 0, whose letter is 0, is greater than the number
    /// of letters or occurs at an earlier place. Up to 16 letters allocate no memory.
    pub fn from_letters(alloc: Global, letters: &[u16]) -> Result<Perm, PermFault>
        ensures ok { IfOk result (λ w. w ≡ kept letters.now) }
        ensures limits { OnOk result (IsShortPermutation letters.now) }
        ensures empty { IsErrOf result PermFault.Empty ↔ (length letters.now ≡ 0) }
        ensures too_many { IsErrOf result PermFault.TooMany ↔ (255 < length letters.now) }
        ensures letter { (at : ℕ) → IsErrOf result (PermFault.Letter at)
            ↔ ((length letters.now ≤ 255) × OffendsFirstAt letters.now at) }
        ensures inline { length letters.now ≤ 16 → ¬ IsErrOf result PermFault.NoMemory }
    {
        if letters.is_empty() {
            return Err(PermFault::Empty);
        }
        if letters.len() > MAX_LETTERS {
            return Err(PermFault::TooMany);
        }
        if let Some(at) = first_offence(letters) {
            return Err(PermFault::Letter { at });
        }
        Ok(Perm::from_valid_letters(alloc, letters)?)
    }

    /// The permutation with these letters, without the fixed letters at the end. The caller
    /// guarantees that they are a permutation of at most 255 letters. Up to 16 letters allocate no
    /// memory.
    pub fn from_valid_letters(alloc: Global, letters: &[u16]) -> Result<Perm, NoMemory>
        requires { IsShortPermutation letters.now }
        ensures ok { IfOk result (λ w. w ≡ kept letters.now) }
        ensures inline { length letters.now ≤ 16 → IsOk result }
    {
        Ok(Perm::trimmed(narrow(alloc, letters)?))
    }

    /// The permutation whose code is this list, up to zeros at the end of the list.
    ///
    /// Returns `Empty` if there is no number, `TooMany` if there are more than 255, otherwise
    /// `Letter` at the first place, counted from 0, whose entry is greater than the number of
    /// entries after it.
    pub fn from_code(alloc: Global, code: &[u16]) -> Result<Perm, PermFault>
        ensures ok { IfOk result (λ w. w ≡ from_code code.now) }
        ensures is_code { OnOk result (IsCode code.now) }
        ensures empty { IsErrOf result PermFault.Empty ↔ (length code.now ≡ 0) }
        ensures too_many { IsErrOf result PermFault.TooMany ↔ (255 < length code.now) }
        ensures letter { (at : ℕ) → IsErrOf result (PermFault.Letter at)
            ↔ ((length code.now ≤ 255) × ExceedsFirstAt code.now at) }
    {
        if code.is_empty() {
            return Err(PermFault::Empty);
        }
        if code.len() > MAX_LETTERS {
            return Err(PermFault::TooMany);
        }
        if let Some(at) = first_excess(code) {
            return Err(PermFault::Letter { at });
        }
        Ok(Perm::trimmed(choose(alloc, code)?))
    }

    /// The letters.
    pub fn letters(&self) -> &[u8]
        ensures value { result.now ≡ self.now }
        ensures limits { IsWithinLimits self.now }
    {
        self.letters.as_slice()
    }

    /// The number of letters.
    pub fn len(&self) -> u16
        ensures value { result ≡ length self.now }
        ensures limits { IsWithinLimits self.now }
    {
        self.letters().len() as u16
    }

    /// The letter at place `i`, counted from 1; `i` itself after the last letter.
    pub fn letter(&self, i: u16) -> u16
        requires { 1 ≤ i }
        ensures value { result ≡ letter self.now i }
        ensures limits { IsWithinLimits self.now }
    {
        match self.letters().get(usize::from(i) - 1) {
            Some(letter) => u16::from(*letter),
            None => i,
        }
    }

    /// The number of inversions.
    pub fn inversions(&self) -> u16
        ensures value { result ≡ inversions self.now }
        ensures limits { IsWithinLimits self.now }
    {
        self.inversions
    }

    /// The last place, counted from 1, whose letter is greater than the next one; None if and only
    /// if this is the identity.
    pub fn last_descent(&self) -> Option<u16>
        ensures value { result ≡ last_descent self.now }
        ensures identity { (result ≡ None) ↔ (self.now ≡ 1 ∷ []) }
        ensures limits { IsWithinLimits self.now }
    {
        find_last_descent(self.letters())
    }

    /// Compares this permutation with `other` in the printed order: by increasing number of
    /// inversions, then by increasing lexicographic order of the letters. The result is `Equal`
    /// only if the permutations are equal.
    pub fn cmp_printed(&self, other: &Perm) -> Ordering
        ensures value { result ≡ permutation_order self.now other.now }
        ensures equal { result ≡ Ordering.Equal → self.now ≡ other.now }
        ensures limits { IsWithinLimits self.now }
    {
        self.inversions()
            .cmp(&other.inversions())
            .then(self.letters().cmp(&other.letters()))
    }

    /// An equal permutation. Up to 16 letters allocate no memory.
    pub fn copy(&self) -> Result<Perm, NoMemory>
        ensures ok { IfOk result (λ copy. copy ≡ self.now) }
        ensures inline { length self.now ≤ 16 → IsOk result }
    {
        Ok(Perm {
            letters: SmallVec::from_slice(*self.letters.allocator(), self.letters.as_slice())?,
            inversions: self.inversions,
        })
    }

    /// The code: for each place the number of smaller letters to the right of it.
    pub fn code(&self) -> Result<Word, NoMemory>
        ensures { IfOk result (λ word. word ≡ code self.now) }
    {
        let letters = self.letters();
        let mut code = [0u16; MAX_LETTERS];
        for (i, letter) in letters.iter().enumerate() {
            code[i] = count_smaller(*letter, &letters[i + 1..]);
        }
        Word::from_slice(*self.letters.allocator(), &code[..letters.len()])
    }

    /// The permutation with the letters at the places `i` and `j`, counted from 1, exchanged. `i`
    /// must be smaller than `j`, and `j` at most 255.
    pub fn times_swap(&self, i: u16, j: u16) -> Result<Perm, NoMemory>
        requires first { 1 ≤ i }
        requires order { i < j }
        requires second { j ≤ 255 }
        ensures { IfOk result (λ w. w ≡ times_swap i j self.now) }
    {
        let letters = add_fixed(*self.letters.allocator(), self.letters(), usize::from(j))?;
        let first = usize::from(i) - 1;
        let second = usize::from(j) - 1;
        let count = inversions_exchanged(letters.as_slice(), first, second, self.inversions);
        Ok(Perm::exchanged(letters, first, second, count))
    }

    /// The permutations that have exactly one inversion more than this one and result from it by
    /// exchanging the letter at place `r`, counted from 1, with another letter. `r` and the number
    /// of letters must be at most 254.
    pub fn covers_at(&self, r: u16) -> Result<Covers, NoMemory>
        requires place { 1 ≤ r }
        requires last { r ≤ 254 }
        requires letters { length self.now ≤ 254 }
        ensures up { IfOk result (λ covers. covers.up ≡ covers_up r self.now) }
        ensures down { IfOk result (λ covers. covers.down ≡ covers_down r self.now) }
    {
        let last = self.len().max(r) + 1;
        let letters = add_fixed(*self.letters.allocator(), self.letters(), usize::from(last))?;
        Covers::of_letters(
            *self.letters.allocator(),
            letters.as_slice(),
            usize::from(r) - 1,
            self.inversions + 1,
        )
    }

    /// The permutations w·t_ir with i < r, for w this permutation, that have exactly one inversion
    /// more than w, by increasing i. The place `r`, counted from 1, must be at most 255.
    pub fn covers_down(&self, r: u16) -> Result<Vec<Perm>, NoMemory>
        requires place { 1 ≤ r }
        requires last { r ≤ 255 }
        ensures { IfOk result (λ covers. covers.items ≡ covers_down r self.now) }
    {
        let letters = add_fixed(*self.letters.allocator(), self.letters(), usize::from(r))?;
        covers_below(
            *self.letters.allocator(),
            letters.as_slice(),
            usize::from(r) - 1,
            self.inversions + 1,
        )
    }

    /// The permutation with these letters, without the fixed ones at the end.
    fn trimmed(letters: Letters) -> Perm
        requires { IsShortPermutation letters.items }
        ensures { result ≡ kept letters.items }
    {
        let count = count_inversions(letters.as_slice());
        Perm::of_count(letters, count)
    }

    /// The permutation with these letters, without the fixed letters at the end; `count` is the
    /// number of its inversions.
    fn of_count(letters: Letters, count: u16) -> Perm
        requires letters { IsShortPermutation letters.items }
        requires count { count ≡ inversions letters.items }
        ensures { result ≡ kept letters.items }
    {
        let mut letters = letters;
        let len = count_kept(letters.as_slice());
        letters.truncate(len);
        Perm {
            letters,
            inversions: count,
        }
    }

    /// The permutation obtained from the letters by exchanging those at the places `first` and
    /// `second`, counted from 0, and removing the fixed letters at the end; `count` is its number
    /// of inversions.
    pub(crate) fn exchanged(letters: Letters, first: usize, second: usize, count: u16) -> Perm
        requires permutation { IsShortPermutation letters.items }
        requires first { first < length letters.items }
        requires second { second < length letters.items }
        requires count { count ≡ inversions (swap letters.items first second) }
        ensures { result ≡ kept (swap letters.items first second) }
    {
        let mut letters = letters;
        exchange(&mut letters, first, second);
        Perm::of_count(letters, count)
    }
}

impl PartialEq for Perm {
    ghost eq = { pointwise nat_eq };

    ghost laws = { partial_equiv_from_equiv nat_list_eq_equiv };

    fn eq(&self, other: &Perm) -> bool {
        self.letters() == other.letters()
    }
}

impl Eq for Perm {
    ghost laws = { nat_list_eq_equiv };
}

impl Hash for Perm {
    ghost hash_input = { fed.slice fed.u8 };

    ghost respects_eq = { Prim.search (hashing, rules) };

    fn hash<H: Hasher>(&self, state: &mut H) {
        self.letters().hash(state);
    }
}
