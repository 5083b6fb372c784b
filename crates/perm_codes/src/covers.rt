//! The covers of a permutation at a place.
ghost use Rattle.std.specs.Prelude.{◌≡◌, ◌+◌, ◌-◌, ◌<◌, length, map, IfOk};
ghost use Rattle.sym_model.specs.Partition.{after};
ghost use Rattle.sym_model.specs.Permutation.{covers_among, times_swap};
ghost use Rattle.sym_model.specs.PlaceOrders.{inversions};
ghost use Rattle.perm_codes.specs.CoverLists.{CoverLists};
ghost use Rattle.perm_codes.specs.Limits.{IsShortPermutation};

use crate::letters::makes_one_inversion;
use crate::perm::Perm;
use calc_base::NoMemory;
use smallvec::SmallVec;
use std::alloc::Global;
use std::marker::Model;

/// The covers of a permutation w at a place r: those among the permutations w·t_rj with j > r
/// (`up`) and w·t_ir with i < r (`down`) that have exactly one inversion more than w.
#[derive(Drop)]
pub struct Covers {
    up: Vec<Perm>,
    down: Vec<Perm>,
}

impl Model for Covers {
    ghost use Rattle.perm_codes.specs.CoverLists.{CoverLists};

    ghost Value = { CoverLists };

    ghost view = { λ c. record { up = c.up.items; down = c.down.items } };
}

impl Covers {
    /// The covers w·t_rj with j > r of the permutation w at the place r, by increasing j.
    pub fn up(&self) -> &[Perm]
        ensures { result.now ≡ self.now.up }
    {
        self.up.as_slice()
    }

    /// The covers w·t_ir with i < r of the permutation w at the place r, by increasing i.
    pub fn down(&self) -> &[Perm]
        ensures { result.now ≡ self.now.down }
    {
        self.down.as_slice()
    }

    /// The covers at the place `place`, counted from 0, of the permutation with the letters
    /// `letters`. Only covers that exchange two letters of this list are included. `count` is the
    /// number of inversions of each cover.
    pub(crate) fn of_letters(
        alloc: Global,
        letters: &[u8],
        place: usize,
        count: u16,
    ) -> Result<Covers, NoMemory>
        requires permutation { IsShortPermutation letters.now }
        requires inside { place < length letters.now }
        requires count { count ≡ inversions letters.now + 1 }
        ensures up { IfOk result (λ c. c.up ≡ covers_among letters.now (map
            (λ j. times_swap (place + 1) j letters.now)
            (after (place + 1) (length letters.now - (place + 1))))) }
        ensures down { IfOk result (λ c. c.down ≡ covers_among letters.now (map
            (λ i. times_swap i (place + 1) letters.now) (after 0 place))) }
    {
        Ok(Covers {
            up: covers_above(alloc, letters, place, count)?,
            down: covers_below(alloc, letters, place, count)?,
        })
    }
}

/// The covers that exchange the letter at `place`, counted from 0, with one at a greater place of
/// the list; `count` is the number of inversions of each cover.
fn covers_above(
    alloc: Global,
    letters: &[u8],
    place: usize,
    count: u16,
) -> Result<Vec<Perm>, NoMemory>
    requires permutation { IsShortPermutation letters.now }
    requires inside { place < length letters.now }
    requires count { count ≡ inversions letters.now + 1 }
    ensures { IfOk result (λ list. list.items ≡ covers_among letters.now (map
        (λ j. times_swap (place + 1) j letters.now)
        (after (place + 1) (length letters.now - (place + 1))))) }
{
    let mut covers = Vec::new(alloc);
    for other in place + 1..letters.len() {
        if makes_one_inversion(letters, place, other) {
            let copy = SmallVec::from_slice(alloc, letters)?;
            covers.push(Perm::exchanged(copy, place, other, count))?;
        }
    }
    Ok(covers)
}

/// The covers that exchange the letter at `place`, counted from 0, with one at a smaller place;
/// `count` is the number of inversions of each cover.
pub(crate) fn covers_below(
    alloc: Global,
    letters: &[u8],
    place: usize,
    count: u16,
) -> Result<Vec<Perm>, NoMemory>
    requires permutation { IsShortPermutation letters.now }
    requires inside { place < length letters.now }
    requires count { count ≡ inversions letters.now + 1 }
    ensures { IfOk result (λ list. list.items ≡ covers_among letters.now (map
        (λ i. times_swap i (place + 1) letters.now) (after 0 place))) }
{
    let mut covers = Vec::new(alloc);
    for other in 0..place {
        if makes_one_inversion(letters, other, place) {
            let copy = SmallVec::from_slice(alloc, letters)?;
            covers.push(Perm::exchanged(copy, other, place, count))?;
        }
    }
    Ok(covers)
}
