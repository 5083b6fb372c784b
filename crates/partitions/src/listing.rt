//! A lister of the partitions of a number.
ghost use Rattle.std.specs.Prelude.{◌≡◌, ◌+◌, ◌-◌, ◌<◌, ◌≤◌, ◌≢◌, [], ◌∷◌, ◌++◌, length, take};
ghost use Rattle.std.specs.Prelude.{drop, slice_index, IfOk, IfSome, MatchOption, None};
ghost use Rattle.sym_model.specs.PartitionList.{partitions_of};
ghost use Rattle.partitions.specs.Listing.{greatest_within, partitions_after, AreOnes, HoldsParts};

use calc_base::{Lister, NoMemory};
use std::alloc::Global;
use std::marker::Model;

/// The stage of a lister: the parts in its buffer are its first item, still to be given (`New`),
/// the current item (`Listing`), or the last item, already given (`Ended`).
#[derive(Clone, Copy)]
pub(crate) enum Stage {
    New,
    Listing,
    Ended,
}

/// A lister of the partitions of a number, each once, in decreasing lexicographic order. It uses
/// one buffer.
#[derive(Drop)]
pub struct PartitionsOf {
    /// A list of d numbers, for the lister of the partitions of d. It begins with the parts of the
    /// current partition; a partition of d has at most d parts.
    buffer: Vec<u16>,
    /// The number of parts of the current partition.
    rows: usize,
    stage: Stage,
}

impl Model for PartitionsOf {
    ghost use Rattle.std.specs.Prelude.{ℕ, List, Option, take};

    ghost Value = { List (List ℕ) × Option (List ℕ) };

    ghost use Rattle.partitions.specs.Listing.{HoldsParts};
    ghost use Rattle.partitions.specs.Stage.{rest_at, item_at};

    ghost view = { λ l. (
      rest_at l.stage (take l.rows l.buffer.items),
      item_at l.stage (take l.rows l.buffer.items),
    ) };

    ghost invariant = { λ l. HoldsParts l.buffer.items l.rows };
}

impl PartitionsOf {
    /// A lister of the partitions of `d`. It has no current item yet. `d` is at most 512.
    pub fn new(alloc: Global, d: u16) -> Result<PartitionsOf, NoMemory>
        requires { d ≤ 512 }
        ensures rest { IfOk result (λ l. ⟦<PartitionsOf as Lister>⟧.rest l ≡ partitions_of d) }
        ensures item { IfOk result (λ l. ⟦<PartitionsOf as Lister>⟧.item l ≡ None) }
    {
        let mut buffer = vec![in alloc; 0u16; usize::from(d)]?;
        let rows = fill(&mut buffer, 0, d, d);
        Ok(PartitionsOf {
            buffer,
            rows,
            stage: Stage::New,
        })
    }
}

impl Lister for PartitionsOf {
    ghost rest = { λ l. l.0 };

    ghost item = { λ l. l.1 };

    fn advance(&mut self) -> bool {
        match self.stage {
            Stage::New => {
                self.stage = Stage::Listing;
                true
            }
            Stage::Listing => match next_in_place(&mut self.buffer, self.rows) {
                Some(rows) => {
                    self.rows = rows;
                    true
                }
                None => {
                    self.stage = Stage::Ended;
                    false
                }
            },
            Stage::Ended => false,
        }
    }

    fn current(&self) -> &[u16] {
        &self.buffer[..self.rows]
    }
}

/// Replaces the partition in the first `rows` places of the buffer by the next one in decreasing
/// lexicographic order, and returns the number of rows of the new partition. If there is no next
/// one, returns None, and the buffer is unchanged.
fn next_in_place(buffer: &mut [u16], rows: usize) -> Option<usize>
    requires { HoldsParts buffer.old rows }
    ensures next { MatchOption result
        ((partitions_after (take rows buffer.old) ≡ []) × (buffer.new ≡ buffer.old))
        (λ next. partitions_after (take rows buffer.old)
        ≡ take next buffer.new ∷ partitions_after (take next buffer.new)) }
    ensures holds { IfSome result (HoldsParts buffer.new) }
{
    let above = rows_above_one(&buffer[..rows]);
    if above == 0 {
        return None;
    }
    let part = buffer[above - 1];
    let ones = (rows - above) as u16;
    Some(fill(buffer, above - 1, part - 1, part + ones))
}

/// The number of parts before the parts equal to 1 at the end of the list.
fn rows_above_one(parts: &[u16]) -> usize
    ensures within { result ≤ length parts.now }
    ensures ones { AreOnes (drop result parts.now) }
    ensures above { 0 < result → slice_index parts.now (result - 1) ≢ 1 }
{
    let mut rows = parts.len();
    while rows > 0 && parts[rows - 1] == 1 {
        rows -= 1;
    }
    rows
}

/// Writes into the buffer, from the place `start` on, the lexicographically greatest partition of
/// `left` whose parts are at most `most`. Returns the place after its last part.
fn fill(buffer: &mut [u16], start: usize, most: u16, left: u16) -> usize
    requires room { start + left ≤ length buffer.old }
    requires most { 0 < left → 0 < most }
    ensures within { result ≤ length buffer.new }
    ensures parts { take result buffer.new
        ≡ take start buffer.old ++ greatest_within left most (length buffer.old - start) }
{
    let mut at = start;
    let mut part = most;
    let mut left = left;
    while left > 0 {
        part = part.min(left);
        buffer[at] = part;
        left -= part;
        at += 1;
    }
    at
}
