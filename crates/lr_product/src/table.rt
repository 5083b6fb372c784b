//! A hash table from states, which are lists of numbers, to counts.
ghost use Rattle.std.specs.Prelude.{◌≡◌, ℕ, ◌+◌, ◌*◌, ◌^◌, ◌<◌, ◌≤◌, List, ◌∷◌, [], ◌++◌};
ghost use Rattle.std.specs.Prelude.{length, slice_get, OnOk, IfOk, Some};
ghost use Rattle.std.specs.Map.{keys_of};
ghost use Rattle.lr_product.specs.WeighedSum.{at_state, weighed};
ghost use Rattle.lr_product.specs.Capped.{Agree};

use crate::states::{CAP, States};
use calc_base::NoMemory;
use std::alloc::Global;
use std::marker::Model;

/// The odd number closest to 2^64 divided by the golden ratio; multiplying by it spreads hashes.
const SPREAD: u64 = 0x9E37_79B9_7F4A_7C15;

/// A list of states with their counts, and the slots of a hash table by which the index of a state
/// is found.
#[derive(Drop)]
pub(crate) struct Table {
    states: States,
    /// A slot that is taken by a state has the index of this state plus 1; a free slot has 0. The
    /// slot of a state is the first slot, from the one given by its hash on, that was free when the
    /// state was added. At most half of the slots are taken.
    slots: Vec<u32>,
    /// The number of calls of `add`.
    additions: usize,
}

impl Model for Table {
    ghost use Rattle.lr_product.specs.StateCounts.{StateCounts};

    ghost Value = { StateCounts };

    ghost view = { λ t. t.states };
}

impl Table {
    /// An empty table for states of length `width`, with memory for `room` of them, and for at
    /// least eight.
    pub(crate) fn with_room(alloc: Global, width: usize, room: usize) -> Result<Table, NoMemory>
        ensures width { IfOk result (λ t. t.width ≡ width) }
        ensures none { IfOk result (λ t. t.entries ≡ []) }
    {
        let room = room.max(8);
        Ok(Table {
            states: States::with_room(alloc, width, room)?,
            slots: vec![in alloc; 0; room.saturating_mul(2)]?,
            additions: 0,
        })
    }

    /// Adds `count` to the count of `state`, which is 0 if the table does not have the state.
    pub(crate) fn add(&mut self, state: &[u16], count: u128) -> Result<(), NoMemory>
        requires width { length state.now ≡ self.old.width }
        requires count { count ≤ 2 ^ 127 }
        ensures width { OnOk result (self.new.width ≡ self.old.width) }
        ensures adds { OnOk result ((n : ℕ) (f : List ℕ → List ℕ → ℕ)
            → Agree (weighed n f self.new.entries)
            (weighed n f self.old.entries + count * at_state n f state.now)) }
    {
        self.additions = self.additions.saturating_add(1);
        match find(&self.slots, &self.states, state) {
            Ok(at) => {
                self.states.add_at(at, count);
                Ok(())
            }
            Err(slot) => self.put(slot, state, count),
        }
    }

    /// Appends the new state `state` with the count `count`, writes its index into the free slot
    /// `slot`, and doubles the slots if half of them are then taken.
    fn put(&mut self, slot: usize, state: &[u16], count: u128) -> Result<(), NoMemory>
        requires { length state.now ≡ self.old.width }
        ensures width { OnOk result (self.new.width ≡ self.old.width) }
        ensures entries { OnOk result
            (self.new.entries ≡ self.old.entries ++ (state.now, count) ∷ []) }
    {
        note(&mut self.slots, slot, self.states.len());
        self.states.push(state, count)?;
        if self.slots.len() / 2 <= self.states.len() {
            let len = self.slots.len().saturating_mul(2);
            self.slots = slots_of(*self.slots.allocator(), &self.states, len)?;
        }
        Ok(())
    }

    /// How often a state was added to the table. It is at least the number of states, and tells
    /// better than that how long the table has taken.
    pub(crate) fn additions(&self) -> usize {
        self.additions
    }

    /// The list of the states with their counts.
    pub(crate) fn into_states(self) -> States
        ensures { result ≡ self }
    {
        let Table {
            states,
            slots: _slots,
            additions: _additions,
        } = self;
        states
    }
}

/// The index of `state` as `Ok`; if the table does not have it, the free slot for it as `Err`.
fn find(slots: &[u32], states: &States, state: &[u16]) -> Result<usize, usize>
    ensures within { IfOk result (λ at. at < length states.now.entries) }
    ensures state { IfOk result (λ at. slice_get (keys_of states.now.entries) at
        ≡ Some state.now) }
{
    let mut slot = first_slot(state, slots.len());
    for _ in 0..slots.len() {
        let Some(taken) = slots.get(slot) else {
            slot = 0;
            continue;
        };
        if *taken == 0 {
            break;
        }
        let at = *taken as usize - 1;
        if states.is_at(at, state) {
            return Ok(at);
        }
        slot += 1;
    }
    Err(slot)
}

/// The slot, out of `len`, in which the search for a state begins. The hash takes in four numbers
/// at a time.
fn first_slot(state: &[u16], len: usize) -> usize {
    let (whole, rest) = state.as_chunks::<4>();
    let mut hash: u64 = 0;
    for numbers in whole {
        let [a, b, c, d] = *numbers;
        hash = mixed(hash, joined(a, b, c, d));
    }
    if !rest.is_empty() {
        hash = mixed(hash, word_of(rest));
    }
    ((hash >> 32).wrapping_mul(len as u64) >> 32) as usize
}

/// The hash that results from `hash` and one more word.
fn mixed(hash: u64, word: u64) -> u64 {
    (hash.rotate_left(23) ^ word).wrapping_mul(SPREAD)
}

/// Up to three numbers packed into one word.
fn word_of(numbers: &[u16]) -> u64 {
    match numbers {
        [a, b, c] => joined(*a, *b, *c, 0),
        [a, b] => joined(*a, *b, 0, 0),
        [a] => u64::from(*a),
        _ => 0,
    }
}

/// Four numbers of 16 bits packed into one word, the first one in the lowest bits.
fn joined(a: u16, b: u16, c: u16, d: u16) -> u64 {
    u64::from(a) | u64::from(b) << 16 | u64::from(c) << 32 | u64::from(d) << 48
}

/// Writes the index `at` of a state, plus 1, into a slot; does nothing if this sum does not fit 32
/// bits.
fn note(slots: &mut [u32], slot: usize, at: usize) {
    let Ok(number) = u32::try_from(at.saturating_add(1)) else {
        return;
    };
    if let Some(place) = slots.get_mut(slot) {
        *place = number;
    }
}

/// A list of `len` slots with the indices of the given states.
fn slots_of(alloc: Global, states: &States, len: usize) -> Result<Vec<u32>, NoMemory> {
    let mut slots: Vec<u32> = vec![in alloc; 0; len]?;
    for at in 0..states.len() {
        let (state, _) = states.entry(at);
        if let Err(slot) = find(&slots, states, state) {
            note(&mut slots, slot, at);
        }
    }
    Ok(slots)
}

/// The count, or 2^127 if the count is greater.
pub(crate) fn capped(count: u128) -> u128
    ensures capped { Agree result count }
    ensures within { result ≤ 2 ^ 127 }
{
    count.min(CAP)
}
