//! A table of the places where records of a list may be found again.

use calc_base::NoMemory;
use std::alloc::Global;

/// The odd number closest to 2^64 divided by the golden ratio; multiplying by it spreads numbers.
const SPREAD: u64 = 0x9E37_79B9_7F4A_7C15;

/// The greatest number of slots.
const MOST_SLOTS: usize = 1 << 14;

/// A table from numbers to indices of a list. It has one slot for many numbers, and an index can be
/// old: whoever asks has to look what is at the index.
#[derive(Drop)]
pub(crate) struct Places {
    slots: Vec<u32>,
}

impl Places {
    /// A table with a few slots.
    pub(crate) fn new(alloc: Global) -> Result<Places, NoMemory> {
        Ok(Places {
            slots: vec![in alloc; 0; 64]?,
        })
    }

    /// The slot of a number.
    fn slot(&self, number: u64) -> usize {
        let high = number.wrapping_mul(SPREAD) >> 32;
        (high.wrapping_mul(self.slots.len() as u64) >> 32) as usize
    }

    /// The index that was put last into the slot of the number; 0 if there is none.
    pub(crate) fn get(&self, number: u64) -> usize {
        match self.slots.get(self.slot(number)) {
            Some(at) => *at as usize,
            None => 0,
        }
    }

    /// Puts the index, if it fits, into the slot of the number, after making more slots for a long
    /// list.
    pub(crate) fn put(&mut self, number: u64, at: usize) -> Result<(), NoMemory> {
        let len = self.slots.len();
        if at >= len && len < MOST_SLOTS {
            self.slots.resize(len.saturating_mul(4), 0)?;
        }
        let slot = self.slot(number);
        if let (Some(place), Ok(at)) = (self.slots.get_mut(slot), u32::try_from(at)) {
            *place = at;
        }
        Ok(())
    }
}
