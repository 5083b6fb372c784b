//! A bounded store of Schubert polynomials.
ghost use Rattle.std.specs.Prelude.{◌≡◌, ◌⊎◌, ◌<◌, ◌≤◌, ◌^◌, ℕ, [], length, nat_eq, option_copied};
ghost use Rattle.std.specs.Prelude.{List, IsSome, IfOk, OnOk, OnErr, IfSome, MatchOption, IsErrOf};
ghost use Rattle.std.specs.Cmp.Lexicographic.{pointwise};
ghost use Rattle.std.specs.Map.{lookup};
ghost use Rattle.sym_model.specs.Kind.{polynomial};
ghost use Rattle.sym_model.specs.WholeTerms.{WholeTerms, as_fractions};
ghost use Rattle.sym_model.specs.PastLimit.{HasPast, IsCoefficientOfSchubert};
ghost use Rattle.sym_model.specs.Products.{IsSchubertPolynomialOf};
ghost use Rattle.lru.specs.LruCache.{lru_cache, promoted, put_entries};
ghost use Rattle.schubert_transition.specs.Kept.{ComesFirst, GoesFirst, IsSchubertStore, kept_for};
ghost use Rattle.schubert_transition.specs.TermLists.{IsSchubertOf};

use crate::schubert;
use calc_base::{NoMemory, SumFault};
use coeff_rings::Int;
use linear_combinations::{Lin, Terms};
use lru::LruCache;
use perm_codes::Perm;
use sparse_polys::Monomial;
use std::alloc::Global;
use std::marker::Model;
use std::num::NonZeroUsize;

/// The greatest number of terms of a polynomial that is stored.
const MOST_TERMS: usize = 4096;

/// A polynomial with integer coefficients.
pub(crate) type Polynomial = Lin<Monomial, Int>;

/// A bounded store of Schubert polynomials. If a polynomial is inserted into a full store, the
/// least recently requested one is dropped. In contracts, its value is the list of the permutations
/// with their polynomials, the most recently requested first, and the capacity, which is never
/// exceeded.
#[derive(Drop)]
pub struct Memo {
    cache: LruCache<Perm, Polynomial>,
    alloc: Global,
}

impl Model for Memo {
    ghost use Rattle.std.specs.Prelude.{ℕ, List};
    ghost use Rattle.sym_model.specs.WholeTerms.{WholeTerms};
    ghost use Rattle.lru.specs.LruCache.{LruCache as Entries};
    ghost use Rattle.schubert_transition.specs.Kept.{IsSchubertStore};

    ghost Value = { Entries (List ℕ) WholeTerms };

    ghost view = { λ m. m.cache };

    ghost invariant = { λ m. IsSchubertStore m.cache };
}

impl Memo {
    /// An empty store of at most `capacity` polynomials; the capacity is from 1 to 4,096.
    pub fn new(alloc: Global, capacity: usize) -> Result<Memo, NoMemory>
        requires { (1 ≤ capacity) × (capacity ≤ 4096) }
        ensures { IfOk result (λ memo. memo ≡ lru_cache [] capacity) }
    {
        let Some(most) = NonZeroUsize::new(capacity) else {
            return Err(NoMemory);
        };
        let cache = LruCache::new(alloc, most)?;
        Ok(Memo { cache, alloc })
    }

    /// The Schubert polynomial of a permutation. If it is in the store, it moves to the front.
    /// Otherwise it is computed; if it has at most 4,096 terms, it is inserted at the front, and a
    /// full store drops its last one. If there is no memory to store it, or it has more terms, the
    /// store is unchanged.
    ///
    /// Unless memory runs out, returns `Large` if and only if a coefficient exceeds 2^127 - 1. On
    /// an error the store is unchanged.
    pub fn schubert(&mut self, w: &Perm) -> Result<Polynomial, SumFault>
        ensures is { IfOk result (IsSchubertOf w.now) }
        ensures large { IsErrOf result SumFault.Large
            → HasPast (IsCoefficientOfSchubert w.now) }
        ensures fits { OnOk result (HasPast (IsCoefficientOfSchubert w.now) → ⊥) }
        ensures kept { IsSchubertStore self.new }
        ensures capacity { self.new.cap ≡ self.old.cap }
        ensures found { IsSome (kept_for w.now self.old)
            → OnOk result (GoesFirst w.now self.old self.new) }
        ensures asked { (self.new ≡ self.old) ⊎ (GoesFirst w.now self.old self.new)
            ⊎ (ComesFirst w.now self.old self.new) }
        ensures long { IfOk result (λ terms. kept_for w.now self.old ≡ None
            → 4096 < length terms → self.new ≡ self.old) }
        ensures refused { OnErr result (self.new ≡ self.old) }
    {
        match self.copy_of(w)? {
            Some(terms) => {
                self.promote(w);
                Ok(terms)
            }
            None => self.made(w),
        }
    }

    /// The polynomial that the store has for a permutation; None if and only if it has none. The
    /// call allocates no memory.
    pub fn kept(&self, w: &Perm) -> Option<&Polynomial>
        ensures value { option_copied result ≡ lookup (pointwise nat_eq w.now) self.now.entries }
        ensures is { IfSome result (λ terms. IsSchubertOf w.now terms.now) }
        ensures all { IsSchubertStore self.now }
    {
        self.cache.peek(w)
    }

    /// The terms of the Schubert polynomial of a permutation, in the printed order. If the
    /// polynomial is in the store, it moves to the front; otherwise it is inserted at the front, or
    /// the store is unchanged, as the method `schubert` says.
    ///
    /// Unless memory runs out, returns `Large` if and only if a coefficient exceeds 2^127 - 1.
    pub fn schubert_terms(&mut self, w: &Perm) -> Result<Terms<Monomial, Int>, SumFault>
        ensures meets { IfOk result (λ terms.
            IsSchubertPolynomialOf w.now (as_fractions terms)) }
        ensures large { IsErrOf result SumFault.Large
            → HasPast (IsCoefficientOfSchubert w.now) }
        ensures fits { OnOk result (HasPast (IsCoefficientOfSchubert w.now) → ⊥) }
        ensures kept { IsSchubertStore self.new }
        ensures capacity { self.new.cap ≡ self.old.cap }
        ensures found { IsSome (kept_for w.now self.old)
            → OnOk result (GoesFirst w.now self.old self.new) }
        ensures asked { (self.new ≡ self.old) ⊎ (GoesFirst w.now self.old self.new)
            ⊎ (ComesFirst w.now self.old self.new) }
        ensures large_leaves { IsErrOf result SumFault.Large → self.new ≡ self.old }
    {
        let terms = self.schubert(w)?;
        Ok(terms.sorted_terms()?)
    }

    /// A copy of the polynomial that the store has for a permutation, or None if it has none.
    fn copy_of(&self, w: &Perm) -> Result<Option<Polynomial>, NoMemory>
        ensures is { IfOk result (λ kept. IfSome kept (IsSchubertOf w.now)) }
        ensures found { IfOk result (λ kept. MatchOption kept
            (kept_for w.now self.now ≡ None) (λ _. IsSome (kept_for w.now self.now))) }
        ensures kept { IsSchubertStore self.now }
    {
        match self.kept(w) {
            Some(kept) => Ok(Some(kept.copy()?)),
            None => Ok(None),
        }
    }

    /// Moves the entry of the permutation `w`, if the store has one, to the front of the store.
    fn promote(&mut self, w: &Perm)
        ensures kept { IsSchubertStore self.new }
        ensures capacity { self.new.cap ≡ self.old.cap }
        ensures first { self.new
            ≡ lru_cache (promoted (pointwise nat_eq w.now) self.old.entries) self.old.cap }
    {
        self.cache.promote(w);
    }

    /// Computes the Schubert polynomial of a permutation, and stores it if it has at most 4,096
    /// terms.
    fn made(&mut self, w: &Perm) -> Result<Polynomial, SumFault>
        ensures is { IfOk result (IsSchubertOf w.now) }
        ensures large { IsErrOf result SumFault.Large
            → HasPast (IsCoefficientOfSchubert w.now) }
        ensures fits { OnOk result (HasPast (IsCoefficientOfSchubert w.now) → ⊥) }
        ensures kept { IsSchubertStore self.new }
        ensures capacity { self.new.cap ≡ self.old.cap }
        ensures put { (self.new ≡ self.old) ⊎ ((polynomial : WholeTerms) × (self.new
            ≡ lru_cache (put_entries (pointwise nat_eq) self.old w.now polynomial) self.old.cap)) }
        ensures long { IfOk result (λ terms. 4096 < length terms → self.new ≡ self.old) }
        ensures refused { OnErr result (self.new ≡ self.old) }
    {
        let terms = self.fresh(w)?;
        if terms.len() <= MOST_TERMS {
            self.keep(w, &terms);
        }
        Ok(terms)
    }

    /// Computes the Schubert polynomial of a permutation, without a change of the store.
    fn fresh(&self, w: &Perm) -> Result<Polynomial, SumFault>
        ensures is { IfOk result (IsSchubertOf w.now) }
        ensures large { IsErrOf result SumFault.Large
            → HasPast (IsCoefficientOfSchubert w.now) }
        ensures fits { OnOk result (HasPast (IsCoefficientOfSchubert w.now) → ⊥) }
        ensures kept { IsSchubertStore self.now }
    {
        schubert(self.alloc, w)
    }

    /// Stores a copy of the Schubert polynomial `terms` of `w`, if there is memory for it.
    fn keep(&mut self, w: &Perm, terms: &Polynomial)
        requires is { IsSchubertOf w.now terms.now }
        requires few { length terms.now ≤ 4096 }
        ensures kept { IsSchubertStore self.new }
        ensures capacity { self.new.cap ≡ self.old.cap }
        ensures put { (self.new ≡ self.old) ⊎ ((polynomial : WholeTerms) × (self.new
            ≡ lru_cache (put_entries (pointwise nat_eq) self.old w.now polynomial) self.old.cap)) }
    {
        if let Ok(perm) = w.copy() {
            if let Ok(copy) = terms.copy() {
                put(&mut self.cache, perm, copy);
            }
        }
    }
}

/// Inserts the Schubert polynomial `terms` of `w` into the store, if there is memory for it.
fn put(cache: &mut LruCache<Perm, Polynomial>, w: Perm, terms: Polynomial)
    requires held { IsSchubertStore cache.old }
    requires is { IsSchubertOf w terms }
    requires few { length terms ≤ 4096 }
    ensures kept { IsSchubertStore cache.new }
    ensures capacity { cache.new.cap ≡ cache.old.cap }
    ensures put { (cache.new ≡ cache.old)
        ⊎ (cache.new ≡ lru_cache (put_entries (pointwise nat_eq) cache.old w terms) cache.old.cap) }
{
    let _ = cache.put(w, terms);
}
