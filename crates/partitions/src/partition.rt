//! The type of a partition.
ghost use Rattle.std.specs.Prelude.{◌≡◌, ℕ, ◌+◌, ◌<◌, ◌≤◌, ◌↔◌, length, nat_eq, IsTrue, IsOk, IfOk};
ghost use Rattle.std.specs.Prelude.{OnOk, IsErrOf, MatchOption};
ghost use Rattle.std.specs.Cmp.{partial_equiv_from_equiv};
ghost use Rattle.std.specs.Cmp.Lexicographic.{pointwise, nat_list_eq_equiv};
ghost use Rattle.std.specs.Hash as fed;
ghost use Rattle.std.proofs.Common.{ap};
ghost use Rattle.std.proofs.lemmas.Slice.Eq.{bytes_eq-Decides};
ghost use Rattle.calc_base.specs.Mixing.{mixed as mixed_of};
ghost use Rattle.beta_list_laws.specs.StrictFall.{FallsStrictly};
ghost use Rattle.sym_model.specs.BetaList.{beta, from_beta};
ghost use Rattle.sym_model.specs.Conjugate.{conjugate};
ghost use Rattle.sym_model.specs.Partition.{Falls, Holds, columns, part, rows, size};
ghost use Rattle.sym_model.specs.Partition.{without_last_zeros};
ghost use Rattle.sym_model.specs.PrintedOrder.{printed_order};
ghost use Rattle.sym_model.specs.Slide.{lowered_at};
ghost use Rattle.partitions.specs.Limits.{HasCells, IsWithinLimits, RisesFirstAt};

use crate::beta::{lengthened, less_the_later};
use crate::conjugate::column_lengths;
use crate::corners::lower_last;
use crate::lists::{number_at, numbers_before_zeros, sum_of_numbers};
use crate::{Beta, PartFault};
use calc_base::{NoMemory, mixed};
use smallvec::SmallVec;
use std::alloc::Global;
use std::cmp::Ordering;
use std::hash::{Hash, Hasher};
use std::marker::Model;

/// The greatest number of rows of a partition; `MAX_CELLS` is the greatest number of cells.
const MAX_ROWS: usize = 512;

const MAX_CELLS: u32 = 4096;

/// A partition: a weakly decreasing list of positive numbers, its parts. It has at most 512 parts
/// and at most 4,096 cells. Up to 16 parts allocate no memory.
#[derive(Debug, Drop)]
pub struct Partition {
    parts: SmallVec<u16, 16>,
    /// The sum of the parts.
    cells: u16,
}

impl Model for Partition {
    ghost use Rattle.std.specs.Prelude.{ℕ, List};
    ghost use Rattle.partitions.specs.Limits.{HasCells};

    ghost Value = { List ℕ };

    ghost view = { λ p. p.parts.items };

    ghost invariant = { λ p. HasCells p.parts.items p.cells };
}

impl Partition {
    /// The partition obtained from the list `parts` by removing the zeros at its end.
    ///
    /// Returns `TooMany` if more than 512 numbers are left, otherwise `Rising` at the first place,
    /// counted from 0, with a number greater than the one before it, otherwise `TooBig` if their
    /// sum exceeds 4,096. Up to 16 parts allocate no memory.
    pub fn from_parts(alloc: Global, parts: &[u16]) -> Result<Partition, PartFault>
        ensures ok { IfOk result (λ p. p ≡ without_last_zeros parts.now) }
        ensures limits { OnOk result (IsWithinLimits (without_last_zeros parts.now)) }

        ensures too_many { IsErrOf result PartFault.TooMany
            ↔ (512 < rows (without_last_zeros parts.now)) }
        ensures rising { (at : ℕ) → IsErrOf result (PartFault.Rising at)
            ↔ ((rows (without_last_zeros parts.now) ≤ 512)
            × RisesFirstAt (without_last_zeros parts.now) at) }
        ensures too_big { IsErrOf result PartFault.TooBig
            ↔ ((rows (without_last_zeros parts.now) ≤ 512) × Falls (without_last_zeros parts.now)
            × (4096 < size (without_last_zeros parts.now))) }
        ensures inline { rows (without_last_zeros parts.now) ≤ 16
            → ¬ IsErrOf result PartFault.NoMemory }
    {
        let parts = numbers_before_zeros(parts);
        if parts.len() > MAX_ROWS {
            return Err(PartFault::TooMany);
        }
        if let Some(at) = first_rise(parts) {
            return Err(PartFault::Rising { at });
        }
        let cells = sum_of_numbers(parts);
        if cells > MAX_CELLS {
            return Err(PartFault::TooBig);
        }
        Ok(with_cells(alloc, parts, cells as u16)?)
    }

    /// The partition with these parts. The caller guarantees that they are a partition with at most
    /// 512 rows and 4,096 cells. Up to 16 parts allocate no memory.
    pub fn from_valid_parts(alloc: Global, parts: &[u16]) -> Result<Partition, NoMemory>
        requires { IsWithinLimits parts.now }
        ensures ok { IfOk result (λ p. p ≡ parts.now) }
        ensures inline { rows parts.now ≤ 16 → IsOk result }
    {
        with_cells(alloc, parts, sum_of_numbers(parts) as u16)
    }

    /// The partition obtained from the list `numbers` by removing the zeros at its end. The caller
    /// guarantees that this is a partition with at most 512 rows and 4,096 cells. Up to 16 parts
    /// allocate no memory.
    pub fn from_valid_numbers(alloc: Global, numbers: &[u16]) -> Result<Partition, NoMemory>
        requires { IsWithinLimits (without_last_zeros numbers.now) }
        ensures ok { IfOk result (λ p. p ≡ without_last_zeros numbers.now) }
        ensures inline { rows (without_last_zeros numbers.now) ≤ 16 → IsOk result }
    {
        Partition::from_valid_parts(alloc, numbers_before_zeros(numbers))
    }

    /// The parts.
    pub fn parts(&self) -> &[u16]
        ensures value { result.now ≡ self.now }
        ensures limits { IsWithinLimits self.now }
    {
        self.parts.as_slice()
    }

    /// The size: the sum of the parts, which is the number of cells.
    pub fn size(&self) -> u16
        ensures value { result ≡ size self.now }
        ensures limits { IsWithinLimits self.now }
    {
        self.cells
    }

    /// The number of rows, which is the number of parts.
    pub fn rows(&self) -> u16
        ensures value { result ≡ rows self.now }
        ensures limits { IsWithinLimits self.now }
    {
        self.parts().len() as u16
    }

    /// Part `i`, counted from 1; 0 after the last row.
    pub fn part(&self, i: u16) -> u16
        requires { 1 ≤ i }
        ensures value { result ≡ part self.now i }
        ensures limits { IsWithinLimits self.now }
    {
        match self.parts().get(usize::from(i) - 1) {
            Some(part) => *part,
            None => 0,
        }
    }

    /// Whether the shape of `inner` lies inside the shape of this partition: no part of `inner` is
    /// greater than the part of this partition in the same row.
    pub fn contains(&self, inner: &Partition) -> bool
        ensures { IsTrue result ↔ Holds self.now inner.now }
    {
        let outer = self.parts();
        for (row, part) in inner.parts().iter().enumerate() {
            if number_at(outer, row) < *part {
                return false;
            }
        }
        true
    }

    /// Compares this partition with `other` in the printed order: the greater size first, then
    /// decreasing lexicographic order. The result is `Equal` only if the partitions are equal.
    pub fn cmp_printed(&self, other: &Partition) -> Ordering
        ensures value { result ≡ printed_order self.now other.now }
        ensures equal { result ≡ Ordering.Equal → self.now ≡ other.now }
        ensures limits { IsWithinLimits self.now }
    {
        other
            .size()
            .cmp(&self.size())
            .then(other.parts().cmp(&self.parts()))
    }

    /// An equal partition. Up to 16 parts allocate no memory.
    pub fn copy(&self) -> Result<Partition, NoMemory>
        ensures ok { IfOk result (λ copy. copy ≡ self.now) }
        ensures inline { rows self.now ≤ 16 → IsOk result }
    {
        with_cells(*self.parts.allocator(), self.parts(), self.cells)
    }

    /// The conjugate: its part i is the number of parts that are at least i. The first part must be
    /// at most 512. Up to 16 columns allocate no memory.
    pub fn conjugate(&self) -> Result<Partition, NoMemory>
        requires { columns self.now ≤ 512 }
        ensures ok { IfOk result (λ p. p ≡ conjugate self.now) }
        ensures inline { columns self.now ≤ 16 → IsOk result }
    {
        Ok(Partition {
            parts: column_lengths(*self.parts.allocator(), self.parts())?,
            cells: self.cells,
        })
    }

    /// Removes the last cell of the row `row`, counted from 1. That row must be longer than the
    /// next one.
    pub fn remove_corner(&mut self, row: u16)
        requires counted { 1 ≤ row }
        requires corner { part self.old (row + 1) < part self.old row }
        ensures { self.new ≡ without_last_zeros (lowered_at row self.old) }
    {
        lower_last(&mut self.parts, usize::from(row) - 1);
        self.cells -= 1;
    }

    /// The beta list of length `k`: part i, plus k - i, for each i from 1 to k. `k` must be at
    /// least the number of rows and at most 512.
    pub fn beta(&self, k: u16) -> Result<Beta, NoMemory>
        requires rows { rows self.now ≤ k }
        requires few { k ≤ 512 }
        ensures value { IfOk result (λ b. b ≡ beta k self.now) }
        ensures limits { IsWithinLimits self.now }
    {
        Ok(Beta::new(lengthened(*self.parts.allocator(), self.parts(), k)?))
    }

    /// The partition whose beta list of length k is `b`, a strictly decreasing list of k numbers, k
    /// at most 512. The partition must have at most 512 rows and 4,096 cells.
    pub fn from_beta(alloc: Global, b: &[u16]) -> Result<Partition, NoMemory>
        requires few { length b.now ≤ 512 }
        requires limits { IsWithinLimits (from_beta b.now) }
        ensures value { IfOk result (λ p. p ≡ from_beta b.now) }
        ensures beta { FallsStrictly b.now → IfOk result (λ p. beta (length b.now) p ≡ b.now) }
    {
        let numbers = less_the_later(alloc, b)?;
        Partition::from_valid_numbers(alloc, numbers.as_slice())
    }
}

impl PartialEq for Partition {
    ghost eq = { pointwise nat_eq };

    ghost laws = { partial_equiv_from_equiv nat_list_eq_equiv };

    fn eq(&self, other: &Partition) -> bool {
        self.parts() == other.parts()
    }
}

impl Eq for Partition {
    ghost laws = { nat_list_eq_equiv };
}

impl Hash for Partition {
    ghost hash_input = { λ numbers. fed.u64 (mixed_of 0 numbers) };

    ghost respects_eq = { λ a b same. ap (λ numbers. fed.u64 (mixed_of 0 numbers))
        ((bytes_eq-Decides a b).0 same) };

    fn hash<H: Hasher>(&self, state: &mut H) {
        mixed(self.parts()).hash(state);
    }
}

/// The partition with these parts, whose sum is `cells`.
fn with_cells(alloc: Global, parts: &[u16], cells: u16) -> Result<Partition, NoMemory>
    requires { HasCells parts.now cells }
    ensures ok { IfOk result (λ p. p ≡ parts.now) }
    ensures inline { rows parts.now ≤ 16 → IsOk result }
{
    Ok(Partition {
        parts: SmallVec::from_slice(alloc, parts)?,
        cells,
    })
}

/// The first place, counted from 0, with a number greater than the one before it, if there is one.
fn first_rise(numbers: &[u16]) -> Option<usize>
    ensures { MatchOption result (Falls numbers.now) (RisesFirstAt numbers.now) }
{
    for at in 1..numbers.len() {
        if numbers[at] > numbers[at - 1] {
            return Some(at);
        }
    }
    None
}
