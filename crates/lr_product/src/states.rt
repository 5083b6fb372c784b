//! A list of states of the same length with their counts, in two vectors.
ghost use Rattle.std.specs.Prelude.{◌≡◌, ℕ, ◌+◌, ◌*◌, ◌^◌, ◌<◌, ◌≤◌, List, ◌∷◌, [], ◌++◌, min};
ghost use Rattle.std.specs.Prelude.{length, pos, slice_get, OnErr, OnOk, IfOk, IsTrue, Some};
ghost use Rattle.std.specs.Map.{keys_of};
ghost use Rattle.std.specs.Option.{option_map};
ghost use Rattle.lr_product.specs.WeighedSum.{at_state, weighed};
ghost use Rattle.lr_product.specs.Capped.{Agree};

use calc_base::{Large, NoMemory};
use coeff_rings::Int;
use std::alloc::Global;
use std::marker::Model;

/// The cap of the counts: a greater count is replaced by this number.
pub(crate) const CAP: u128 = 1 << 127;

/// The coefficient that is equal to the count; an error if and only if the count is 2^127 or more.
/// Allocates no memory.
pub(crate) fn coefficient_of(count: u128) -> Result<Int, Large>
    ensures value { IfOk result (λ c. c ≡ pos count) }
    ensures fits { OnOk result (count < 2 ^ 127) }
    ensures large { OnErr result (2 ^ 127 ≤ count) }
{
    if count >= CAP {
        return Err(Large);
    }
    Ok(Int::new(count as i128))
}

/// States of the same length, each with its count. A state is the sum reached, with one number for
/// each letter; if one more column or row is to be added, these numbers are followed by the letters
/// of the column added last, or by numbers that describe the row added last.
#[derive(Drop)]
pub(crate) struct States {
    /// The length of each state.
    width: usize,
    /// The numbers of the states, one state after the other.
    numbers: Vec<u16>,
    counts: Vec<u128>,
}

impl Model for States {
    ghost use Rattle.std.specs.Prelude.{◌≡◌, ◌*◌, length};
    ghost use Rattle.lr_product.specs.StateCounts.{StateCounts, counted_states};

    ghost Value = { StateCounts };

    ghost view = { λ s. record {
      width = s.width;
      entries = counted_states s.width s.numbers.items s.counts.items;
    } };

    ghost invariant = { λ s. length s.numbers.items ≡ length s.counts.items * s.width };
}

impl States {
    /// An empty list of states of length `width`, with memory for `room` of them.
    pub(crate) fn with_room(alloc: Global, width: usize, room: usize) -> Result<States, NoMemory>
        ensures width { IfOk result (λ s. s.width ≡ width) }
        ensures none { IfOk result (λ s. s.entries ≡ []) }
    {
        Ok(States {
            width,
            numbers: Vec::with_capacity(alloc, width.saturating_mul(room))?,
            counts: Vec::with_capacity(alloc, room)?,
        })
    }

    /// The list with the single state `state`, whose count is 1.
    pub(crate) fn single(alloc: Global, state: Vec<u16>) -> Result<States, NoMemory>
        ensures { IfOk result (λ s. s.entries ≡ (state.items, 1) ∷ []) }
    {
        let mut counts: Vec<u128> = Vec::with_capacity(alloc, 1)?;
        counts.push(1)?;
        Ok(States {
            width: state.len(),
            numbers: state,
            counts,
        })
    }

    /// The number of states.
    pub(crate) fn len(&self) -> usize
        ensures count { result ≡ length self.now.entries }
        ensures small { result < 2 ^ 63 }
    {
        self.counts.len()
    }

    /// The state at the index `at` and its count.
    pub(crate) fn entry(&self, at: usize) -> (&[u16], u128)
        requires { at < length self.now.entries }
        ensures { slice_get self.now.entries at ≡ Some (result.0.now, result.1) }
    {
        let start = at * self.width;
        (&self.numbers[start..start + self.width], self.counts[at])
    }

    /// The state at the index `at` and its count; `None` if and only if there is no such state.
    pub(crate) fn get(&self, at: usize) -> Option<(&[u16], u128)>
        ensures { option_map (λ e. (e.0.now, e.1)) result ≡ slice_get self.now.entries at }
    {
        if at < self.len() {
            return Some(self.entry(at));
        }
        None
    }

    /// Whether there is a state at the index `at` and it is equal to `state`.
    pub(crate) fn is_at(&self, at: usize, state: &[u16]) -> bool
        ensures within { IsTrue result → at < length self.now.entries }
        ensures state { IsTrue result → slice_get (keys_of self.now.entries) at ≡ Some state.now }
    {
        at < self.len() && self.entry(at).0 == state
    }

    /// Appends `state` with the count `count`.
    pub(crate) fn push(&mut self, state: &[u16], count: u128) -> Result<(), NoMemory>
        requires { length state.now ≡ self.old.width }
        ensures width { OnOk result (self.new.width ≡ self.old.width) }
        ensures entries { OnOk result
            (self.new.entries ≡ self.old.entries ++ (state.now, count) ∷ []) }
    {
        self.counts.reserve(1)?;
        self.numbers.extend_from_slice(state)?;
        self.counts.push_reserved(count);
        Ok(())
    }

    /// Adds `count` to the count of the state at the index `at`; a total over 2^127 is replaced by
    /// 2^127.
    pub(crate) fn add_at(&mut self, at: usize, count: u128)
        requires { at < length self.old.entries }
        ensures width { self.new.width ≡ self.old.width }
        ensures adds { (state : List ℕ) → slice_get (keys_of self.old.entries) at ≡ Some state
            → (n : ℕ) (f : List ℕ → List ℕ → ℕ)
            → Agree (weighed n f self.new.entries)
            (weighed n f self.old.entries + count * at_state n f state) }
    {
        let had = self.counts[at];
        self.counts[at] = had.saturating_add(count).min(CAP);
    }
}
