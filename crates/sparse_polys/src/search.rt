//! The partitions in the product of two monomial symmetric polynomials, found part by part, the
//! greatest part first.
ghost use Rattle.std.specs.Prelude.{◌≡◌, ℕ, ◌+◌, ◌^◌, ◌<◌, [], List, All, IfOk, OnOk, vec_len};
ghost use Rattle.sym_model.specs.Partition.{IsPartition, size};
ghost use Rattle.monomial_laws.specs.MonomialProduct.{arrangements};
ghost use Rattle.sparse_polys.specs.Ways.{capped, ways, AreStates};
ghost use Rattle.sparse_polys.specs.Search.{count_at, found, AreCounted, IsChosen, Counts};
ghost use Rattle.sparse_polys.specs.Search.{HaveCounts};

use crate::part_steps::step;
use crate::parts::size_of;
use crate::states::State;
use std::alloc::{AllocError, Global};

/// A partition ν in a product m_λ·m_μ, with the number of ways to write ν as the sum of an
/// arrangement of λ and an arrangement of μ, or with 2^128 - 1 if there are more ways.
#[derive(Drop)]
pub(crate) struct Counted {
    /// The parts of the partition ν, in decreasing order.
    pub parts: Vec<u16>,
    /// The number of ways to write ν as the sum of an arrangement of λ and an arrangement of μ, or
    /// 2^128 - 1 if there are more.
    pub count: u128,
}

/// The sum of the counts of `states`, or 2^128 - 1 if the sum exceeds that number. No state may
/// have remaining parts.
fn ways_to_end(states: &[State]) -> u128
    requires { AreStates 0 states.now }
    ensures { result ≡ capped (ways states.now []) }
{
    let mut total: u128 = 0;
    for state in states {
        total = total.saturating_add(state.count);
    }
    total
}

/// Appends to `out` the partitions that consist of the parts `chosen` and then of later parts, each
/// at most `largest`, whose sum is `left`. The count of such a partition is the number of ways to
/// continue from `states` to these later parts (`found`); the partition is left out only if this
/// number is 0.
fn extend(
    alloc: Global,
    states: &[State],
    chosen: &[u16],
    largest: u16,
    left: u16,
    out: &mut Vec<Counted>,
) -> Result<(), AllocError>
    requires states { AreStates left states.now }
    ensures found { OnOk result ((ν : List ℕ) → count_at out.new.items ν
        ≡ count_at out.old.items ν + found chosen.now largest states.now ν) }
    ensures counted { OnOk result
        ((total : ℕ) → size chosen.now + left ≡ total → IsChosen largest chosen.now
        → AreCounted total out.old.items → AreCounted total out.new.items) }
    ensures counts { OnOk result ((f : List ℕ → ℕ) → Counts f chosen.now largest states.now
        → HaveCounts f out.old.items → HaveCounts f out.new.items) }
{
    if states.is_empty() {
        return Ok(());
    }
    if left == 0 {
        let parts = Vec::from_slice(alloc, chosen)?;
        let count = ways_to_end(states);
        out.push(Counted { parts, count })?;
        return Ok(());
    }
    for i in 0..largest.min(left) {
        let next = step(alloc, states, i + 1)?;
        let mut more = Vec::from_slice(alloc, chosen)?;
        more.push(i + 1)?;
        extend(
            alloc,
            next.as_slice(),
            more.as_slice(),
            i + 1,
            left - (i + 1),
            out,
        )?;
    }
    Ok(())
}

/// The partitions ν in the product m_λ·m_μ, for λ = `left` and μ = `right`, each with the number of
/// ways to write ν as the sum of an arrangement of λ and an arrangement of μ, or with 2^128 - 1 if
/// there are more ways. A partition that is not listed cannot be written as such a sum.
pub(crate) fn label_product(
    alloc: Global,
    left: &[u16],
    right: &[u16],
) -> Result<Vec<Counted>, AllocError>
    requires left { IsPartition left.now }
    requires right { IsPartition right.now }
    requires sizes { size left.now + size right.now < 2 ^ 16 }
    ensures counts { IfOk result (λ terms. (ν : List ℕ) → IsPartition ν
        → count_at terms.items ν ≡ capped (arrangements left.now right.now ν)) }
    ensures labels { IfOk result (λ terms.
        AreCounted (size left.now + size right.now) terms.items) }
    ensures each { IfOk result (λ terms.
        HaveCounts (λ ν. capped (arrangements left.now right.now ν)) terms.items) }
{
    let total = size_of(left) + size_of(right);
    let start = State {
        left: Vec::from_slice(alloc, left)?,
        right: Vec::from_slice(alloc, right)?,
        count: 1,
    };
    let mut states = Vec::new(alloc);
    states.push(start)?;
    let chosen = Vec::new(alloc);
    let mut out = Vec::new(alloc);
    extend(
        alloc,
        states.as_slice(),
        chosen.as_slice(),
        total,
        total,
        &mut out,
    )?;
    Ok(out)
}
