//! The factors of a product, given by partitions with fewer cells that are rotated to them.
ghost use Rattle.std.specs.Prelude.{◌≡◌, ◌+◌, ◌<◌, ◌≤◌, ◌++◌, ◌∷◌, [], length, slice_get, Some};
ghost use Rattle.std.specs.Prelude.{IfOk, IfSome, OnOk};
ghost use Rattle.partitions.specs.FactorList.{AreFactors};
ghost use Rattle.rotation_laws.specs.Rotation.{AreTurned};
ghost use Rattle.rim_hooks.specs.Bases.{IsBase};
ghost use Rattle.rim_hooks.specs.FactorRows.{AreFew};

use crate::rotation::{is_inside, rotate};
use crate::steps::factor_at;
use calc_base::NoMemory;
use partitions::{Factors, FactorsFault, Partition};
use std::alloc::Global;

/// Factors are rotated only if the rotated ones have fewer cells by at least this number.
const LEAST_SAVED: u32 = 32;

/// Factors are rotated only if they are multiplied in at least this number of variables.
const LEAST_VARIABLES: u16 = 3;

/// A partition that is rotated to a factor.
#[derive(Drop)]
struct Base {
    shape: Partition,
    /// The number by which it is rotated.
    turns: u16,
    /// The power of q that belongs to the rotation.
    power: u16,
}

/// Partitions that are rotated to the factors of a product.
#[derive(Drop)]
pub(crate) struct Bases {
    pub(crate) factors: Factors,
    /// The sum of the numbers by which they are rotated.
    pub(crate) turns: u16,
    /// The power of q that belongs to all rotations.
    pub(crate) power: u16,
}

impl Bases {
    /// Appends one.
    fn push(&mut self, next: Base) -> Result<(), FactorsFault>
        requires turns { self.old.turns + next.turns ≤ 65535 }
        requires power { self.old.power + next.power ≤ 65535 }
        ensures factors { OnOk result (self.new.factors ≡ self.old.factors ++ next.shape ∷ []) }
        ensures turns { OnOk result (self.new.turns ≡ self.old.turns + next.turns) }
        ensures power { OnOk result (self.new.power ≡ self.old.power + next.power) }
    {
        self.factors.push(next.shape)?;
        self.turns += next.turns;
        self.power += next.power;
        Ok(())
    }
}

/// Partitions with fewer cells that are rotated to the factors; `None` if a factor has more than
/// `k` rows or `n` - `k` columns, if there are too few cells to be saved, or if the product of the
/// weights of the factors but the first is not known to be less than 2^127. That product bounds the weight of
/// each step, so a product whose computation from the factors themselves could overflow is not
/// rotated.
pub(crate) fn bases_of(
    alloc: Global,
    factors: &Factors,
    k: u16,
    n: u16,
) -> Result<Option<Bases>, FactorsFault>
    requires limits { (k ≤ 64) × (k < n) × (n ≤ k + 64) }
    requires few { AreFew k factors.now }
    ensures turned { IfOk result (λ bases. IfSome bases
        (λ b. AreTurned k n factors.now b.factors b.turns b.power)) }
    ensures limits { AreFactors factors.now }
{
    let len = factors.len();
    if !saves_cells(factors, k, n)? || !are_light(factors, k)? {
        return Ok(None);
    }
    let Some(first) = base_of(alloc, factor_at(factors, 0), k, n)? else {
        return Ok(None);
    };
    let Some(second) = base_of(alloc, factor_at(factors, 1), k, n)? else {
        return Ok(None);
    };
    let mut bases = Bases {
        factors: Factors::pair(alloc, first.shape, second.shape)?,
        turns: first.turns + second.turns,
        power: first.power + second.power,
    };
    for at in 2..len {
        let Some(next) = base_of(alloc, factor_at(factors, at), k, n)? else {
            return Ok(None);
        };
        bases.push(next)?;
    }
    Ok(Some(bases))
}

/// The factor as a rotation of the partition with the fewest cells among its rotations; `None` if
/// the factor has more than `k` rows or `n` - `k` columns.
fn base_of(alloc: Global, factor: &Partition, k: u16, n: u16) -> Result<Option<Base>, NoMemory>
    requires limits { (k ≤ 64) × (k < n) × (n ≤ k + 64) }
    ensures { IfOk result (λ base. IfSome base
        (λ b. IsBase k n factor.now b.shape b.turns b.power)) }
{
    if !is_inside(factor, k, n) {
        return Ok(None);
    }
    let beta = factor.beta(k)?;
    let (turns, _) = best_turns(beta.as_slice(), k, n);
    let base = rotate(alloc, factor, k, n, n - turns)?;
    Ok(Some(Base {
        shape: base.shape,
        turns,
        power: k - base.wraps,
    }))
}

/// The number by which the rotation with the fewest cells is to be rotated to give back the
/// partition with this beta list of length `k`, and the number of cells that it saves.
fn best_turns(entries: &[u16], k: u16, n: u16) -> (u16, u32)
    requires { 1 ≤ n }
    ensures { result.0 < n }
{
    let rows = u32::from(k);
    let cells = u32::from(n);
    let least = rows.saturating_mul(cells);
    let mut turns = 0;
    let mut most = least;
    let mut wrapped = 0_u32;
    for entry in entries {
        // Rotated by n - entry, the list has this entry as 0, and n is subtracted from it and from
        // those before it.
        wrapped = wrapped.saturating_add(cells);
        let left_out = rows
            .saturating_mul(u32::from(*entry))
            .saturating_add(wrapped);
        if left_out > most && *entry < n {
            most = left_out;
            turns = *entry;
        }
    }
    (turns, most.saturating_sub(least))
}

/// Whether all factors have at most `n` - `k` columns, rotations of them have fewer cells by
/// `LEAST_SAVED` or more, and there are at least `LEAST_VARIABLES` variables.
fn saves_cells(factors: &Factors, k: u16, n: u16) -> Result<bool, NoMemory>
    requires limits { (k ≤ 64) × (1 ≤ n) }
    requires few { AreFew k factors.now }
{
    if k < LEAST_VARIABLES || cells_of(factors) < LEAST_SAVED {
        return Ok(false);
    }
    let mut saved = 0_u32;
    for at in 0..factors.len() {
        let factor = factor_at(factors, at);
        if u32::from(k) + u32::from(factor.part(1)) > u32::from(n) {
            return Ok(false);
        }
        let beta = factor.beta(k)?;
        let (_, cells) = best_turns(beta.as_slice(), k, n);
        saved = saved.saturating_add(cells);
    }
    Ok(saved >= LEAST_SAVED)
}

/// The number of cells of the factors.
fn cells_of(factors: &Factors) -> u32 {
    let mut cells = 0_u32;
    for at in 0..factors.len() {
        cells = cells.saturating_add(u32::from(factor_at(factors, at).size()));
    }
    cells
}

/// Whether the product of the numbers of tableaux of the factors but the first is less than 10^38,
/// and so less than 2^127. Such a number is that of the semistandard tableaux with entries up to
/// `k`, the sum of the coefficients of the Schur polynomial in `k` variables.
fn are_light(factors: &Factors, k: u16) -> Result<bool, NoMemory>
    requires limits { k ≤ 64 }
    requires few { AreFew k factors.now }
{
    let mut product = 1.0_f64;
    for at in 1..factors.len() {
        let beta = factor_at(factors, at).beta(k)?;
        product *= number_of_tableaux(beta.as_slice());
    }
    Ok(product < 1e38)
}

/// The number of semistandard tableaux with entries up to k of the partition with this beta list of
/// length k, by Weyl's formula: the product of (a - b)/d over the entries a and b, b by d places
/// after a.
fn number_of_tableaux(entries: &[u16]) -> f64 {
    let mut product = 1.0_f64;
    for at in 0..entries.len() {
        product *= share_of(entries[at], &entries[at + 1..]);
    }
    product
}

/// The product of (`entry` - b)/d over the entries b after `entry`, by d places.
fn share_of(entry: u16, later: &[u16]) -> f64 {
    let mut product = 1.0_f64;
    let mut places = 0_u16;
    for other in later {
        places = places.saturating_add(1);
        product *= f64::from(entry.abs_diff(*other)) / f64::from(places);
    }
    product
}
