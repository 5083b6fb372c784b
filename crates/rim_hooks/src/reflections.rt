//! The reduction of partitions into the alcove, by reflections.
ghost use Rattle.std.specs.Prelude.{◌≡◌, ◌+◌, ◌*◌, ◌<◌, ◌≤◌, false, true, length, map, IfOk};
ghost use Rattle.std.specs.Prelude.{MatchOption};
ghost use Rattle.sym_model.specs.Partition.{rows, size};
ghost use Rattle.sym_model.specs.BetaList.{beta, has_equal_entries};
ghost use Rattle.sym_model.specs.AlcoveReduction.{alcove_reduction};
ghost use Rattle.beta_list_laws.specs.AlcoveEnd.{remainders, up};
ghost use Rattle.rim_hooks.specs.AlcoveOf.{IsAlcoveOf};
ghost use Rattle.rim_hooks.specs.Reduced.{signed_partition};
ghost use Rattle.rim_hooks.specs.Sorting.{Sorts};
ghost use Rattle.rim_hooks.specs.Turns.{IsTurned};

use crate::sorted::{Sorted, sign};
use crate::table::{MAX_CELLS, no_counts};
use calc_base::NoMemory;
use partitions::Partition;
use std::alloc::Global;

/// The result of reflecting a partition into the alcove, if it is not 0.
#[derive(Debug, Drop)]
pub struct Alcove {
    /// The partition in the alcove.
    pub shape: Partition,
    /// The sign of the reflections, 1 or -1.
    pub sign: i8,
}

/// The partition to which `shape` reduces in the alcove of level `n - k` for `k` rows, with its
/// sign; `None` if and only if the reduction is 0. `shape` must have at most `k` rows, and 1 ≤ k <
/// n ≤ 512.
pub fn alcove_of(
    alloc: Global,
    shape: &Partition,
    k: u16,
    n: u16,
) -> Result<Option<Alcove>, NoMemory>
    requires rows { (rows shape.now ≤ k) × (1 ≤ k) }
    requires cells { (k < n) × (n ≤ 512) }
    ensures value { IfOk result (λ alcove. signed_partition alcove
        ≡ alcove_reduction k n shape.now) }

    // The reduction into the alcove is 0 if and only if two entries of the beta list have the same
    // remainder modulo n. Otherwise the remainders and the sum of the entries determine the result
    // (`IsAlcoveOf`).
    ensures remainders { IfOk result (λ alcove. MatchOption alcove
        (has_equal_entries (remainders n (beta k shape.now)) ≡ true)
        (λ a. IsAlcoveOf k n shape.now a.shape a.sign)) }
{
    let entries = shape.beta(k)?;
    let Some(start) = window_start(entries.as_slice(), n) else {
        return Ok(None);
    };
    let sorted = raised_entries(alloc, entries.as_slice(), n, start)?;
    let end = Partition::from_beta(alloc, sorted.numbers.as_slice())?;
    Ok(Some(Alcove {
        shape: end,
        sign: sign(sorted.is_odd),
    }))
}

/// For a list of entries with different remainders modulo n: the number of entries for each
/// remainder, which is 0 or 1, and the sum of the quotients of the entries by n, each rounded down.
struct Turns {
    counts: [u16; MAX_CELLS],
    turns: u32,
}

/// The numbers of entries for each remainder modulo `n`, and the sum of the quotients; `None` if
/// and only if two entries have the same remainder.
fn turns_of(entries: &[u16], n: u16) -> Option<Turns>
    requires few { length entries.now ≤ 512 }
    requires cells { (2 ≤ n) × (n ≤ 512) }
    ensures { MatchOption result (has_equal_entries (remainders n entries.now) ≡ true)
        (λ turns. IsTurned n entries.now turns) }
{
    let mut counts = no_counts();
    let mut turns = 0;
    for at in (0..entries.len()).rev() {
        let entry = entries[at];
        let place = usize::from(entry % n);
        if counts[place] > 0 {
            return None;
        }
        counts[place] += 1;
        turns += u32::from(entry / n);
    }
    Some(Turns { counts, turns })
}

/// A number `start` such that moving each entry by a multiple of `n` to one of the numbers start,
/// .., start + n - 1 does not change the sum of the entries; `None` if and only if two entries have
/// the same remainder modulo `n`.
fn window_start(entries: &[u16], n: u16) -> Option<u32>
    requires few { (1 ≤ length entries.now) × (length entries.now ≤ 512) }
    requires cells { (2 ≤ n) × (n ≤ 512) }
    ensures { MatchOption result (has_equal_entries (remainders n entries.now) ≡ true)
        (λ start. (has_equal_entries (remainders n entries.now) ≡ false)
        × (size (map (up n start) entries.now) ≡ size entries.now)) }
{
    let Turns { counts, turns } = turns_of(entries, n)?;
    let modulus = u32::from(n);
    let places = entries.len() as u32;
    let mut start = modulus * (turns / places);
    let mut left = turns % places;
    while left > 0 {
        left -= u32::from(counts[(start % modulus) as usize]);
        start += 1;
    }
    Some(start)
}

/// The entries, each moved by a multiple of `n` to one of the numbers start, .., start + n - 1,
/// sorted into decreasing order.
fn raised_entries(alloc: Global, entries: &[u16], n: u16, start: u32) -> Result<Sorted, NoMemory>
    requires { (1 ≤ n) × (start + n ≤ 65536) }
    ensures { IfOk result (λ sorted. Sorts sorted (map (up n start) entries.now)) }
{
    let mut sorted = Sorted::new(alloc);
    for at in (0..entries.len()).rev() {
        sorted.put(raised(entries[at], n, start))?;
    }
    Ok(sorted)
}

/// The least number that is at least `start` and has the same remainder modulo `n` as `entry`.
fn raised(entry: u16, n: u16, start: u32) -> u16
    requires { (1 ≤ n) × (start + n ≤ 65536) }
    ensures { result ≡ up n start entry }
{
    let modulus = u32::from(n);
    let lowest = start - start % modulus + u32::from(entry) % modulus;
    if lowest < start {
        (lowest + modulus) as u16
    } else {
        lowest as u16
    }
}
