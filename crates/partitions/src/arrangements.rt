//! A lister of the arrangements of the parts of a partition, with zeros, in a given number of
//! places.
ghost use Rattle.std.specs.Prelude.{◌≡◌, ℕ, ◌+◌, ◌-◌, ◌<◌, ◌≤◌, ◌↔◌, [], ◌∷◌, ◌++◌, length, take};
ghost use Rattle.std.specs.Prelude.{drop, reverse, slice_index, IfOk, None, IsTrue};
ghost use Rattle.std.specs.Bool.{OnTrue, OnFalse};
ghost use Rattle.sym_model.specs.Arrangement.{arrangements};
ghost use Rattle.sym_model.specs.Partition.{rows};
ghost use Rattle.partitions.specs.Arranging.{arrangements_after, arrangements_at, Rises};
ghost use Rattle.partitions.specs.Stage.{item_at};

use crate::Partition;
use crate::listing::Stage;
use calc_base::{Lister, NoMemory};
use std::alloc::Global;
use std::marker::Model;

/// The distinct arrangements of the parts of a partition, with zeros added, in a given number of
/// places: in decreasing lexicographic order, each once. A `Lister` that uses one buffer.
#[derive(Drop)]
pub struct Arrangements {
    numbers: Vec<u16>,
    stage: Stage,
}

impl Model for Arrangements {
    ghost use Rattle.std.specs.Prelude.{ℕ, List, Option};

    ghost Value = { List (List ℕ) × Option (List ℕ) };

    ghost use Rattle.partitions.specs.Arranging.{arrangements_at};
    ghost use Rattle.partitions.specs.Stage.{item_at};

    ghost view = { λ l. (arrangements_at l.stage l.numbers.items, item_at l.stage l.numbers.items) };
}

impl Arrangements {
    /// A lister of the arrangements of the parts of `shape` in `places` places. It has no current
    /// item yet. There are at least as many places as parts, and at most 512.
    pub fn new(alloc: Global, shape: &Partition, places: u16) -> Result<Arrangements, NoMemory>
        requires rows { rows shape.now ≤ places }
        requires few { places ≤ 512 }
        ensures rest { IfOk result (λ l. ⟦<Arrangements as Lister>⟧.rest l
            ≡ arrangements shape.now places) }
        ensures item { IfOk result (λ l. ⟦<Arrangements as Lister>⟧.item l ≡ None) }
    {
        let mut numbers = Vec::from_slice(alloc, shape.parts())?;
        numbers.resize(usize::from(places), 0)?;
        Ok(Arrangements {
            numbers,
            stage: Stage::New,
        })
    }
}

impl Lister for Arrangements {
    ghost rest = { λ l. l.0 };

    ghost item = { λ l. l.1 };

    fn advance(&mut self) -> bool {
        match self.stage {
            Stage::New => {
                self.stage = Stage::Listing;
                true
            }
            Stage::Listing => {
                if next_in_place(&mut self.numbers) {
                    true
                } else {
                    self.stage = Stage::Ended;
                    false
                }
            }
            Stage::Ended => false,
        }
    }

    fn current(&self) -> &[u16] {
        &self.numbers
    }
}

/// Replaces the arrangement `numbers` by the next one in decreasing lexicographic order; returns
/// false if it was the last one.
fn next_in_place(numbers: &mut [u16]) -> bool
    ensures next { OnTrue result (arrangements_after numbers.old
        ≡ numbers.new ∷ arrangements_after numbers.new) }
    ensures none { OnFalse result
        ((arrangements_after numbers.old ≡ []) × (numbers.new ≡ numbers.old)) }
{
    let behind = rising_end(numbers);
    if behind == 0 {
        return false;
    }
    let bound = numbers[behind - 1];
    reverse_from(numbers, behind);
    let low = first_below(numbers, behind, bound);
    numbers.swap(behind - 1, low);
    true
}

/// The place, counted from 0, at which the longest weakly increasing suffix begins.
fn rising_end(numbers: &[u16]) -> usize
    ensures rises { Rises (drop result numbers.now) }
    ensures within { 0 < result → result < length numbers.now }
    ensures falls { 0 < result → slice_index numbers.now result
        < slice_index numbers.now (result - 1) }
{
    let mut at = numbers.len().saturating_sub(1);
    while at > 0 && numbers[at - 1] <= numbers[at] {
        at -= 1;
    }
    at
}

/// Reverses the numbers from `start` on.
fn reverse_from(numbers: &mut [u16], start: usize)
    requires { start ≤ length numbers.old }
    ensures { numbers.new ≡ take start numbers.old ++ reverse (drop start numbers.old) }
{
    numbers[start..].reverse();
}

/// The first place, from `start` on, whose number is below `bound`. The last of all numbers must be
/// below `bound`.
fn first_below(numbers: &[u16], start: usize, bound: u16) -> usize
    requires within { start < length numbers.now }
    requires last { slice_index numbers.now (length numbers.now - 1) < bound }
    ensures place { (start ≤ result) × (result < length numbers.now) }
    ensures below { slice_index numbers.now result < bound }
    ensures before { (k : ℕ) → start ≤ k → k < result → bound ≤ slice_index numbers.now k }
{
    let mut at = start;
    while numbers[at] >= bound {
        at += 1;
    }
    at
}
