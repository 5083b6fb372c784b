//! Inserts, removes and increases parts of partitions, and computes their multiplicities.
ghost use Rattle.std.specs.Prelude.{◌≡◌, ◌+◌, ◌<◌, ◌≤◌, ◌^◌, length, insert, IfOk, OnOk};
ghost use Rattle.sym_model.specs.Partition.{insert_part};
ghost use Rattle.sym_model.specs.RaisedPart.{raise, without_one};
ghost use Rattle.sym_model.specs.Schur.{times_in};
ghost use Rattle.basis_change_laws.specs.AugmentedMonomial.{multiplicity_factorials};

use std::alloc::{AllocError, Global};

/// The index of the first of `parts` that is not greater than `part`; the number of parts if all
/// are greater.
fn place_of(parts: &[u16], part: u16) -> usize
    requires { 0 < part }
    ensures within { result ≤ length parts.now }
    ensures place { insert parts.now result part ≡ insert_part part parts.now }
{
    let mut at = 0;
    while at < parts.len() && parts[at] > part {
        at += 1;
    }
    at
}

/// Inserts `part` into the weakly decreasing list `parts`, before the first part that is not
/// greater.
fn insert_part(parts: &mut Vec<u16>, part: u16) -> Result<(), AllocError>
    requires { 0 < part }
    ensures { OnOk result (parts.new.items ≡ insert_part part parts.old.items) }
{
    let at = place_of(parts.as_slice(), part);
    parts.insert(at, part)?;
    Ok(())
}

/// Replaces the contents of `raised` by the partition `parts`, in which one part `from` is removed
/// and the part `by` + `from` is inserted.
pub(crate) fn put_raised(
    raised: &mut Vec<u16>,
    parts: &[u16],
    from: u16,
    by: u16,
) -> Result<(), AllocError>
    requires { (0 < by) × (by + from < 2 ^ 16) }
    ensures { OnOk result (raised.new.items ≡ raise by from parts.now) }
{
    raised.clear();
    raised.extend_from_slice(parts)?;
    take_part(raised, from);
    insert_part(raised, by + from)
}

/// Removes the first part that equals `part`.
pub(crate) fn take_part(parts: &mut Vec<u16>, part: u16)
    ensures { parts.new.items ≡ without_one part parts.old.items }
{
    let mut at = 0;
    while at < parts.len() && parts[at] != part {
        at += 1;
    }
    if at < parts.len() {
        parts.remove(at);
    }
}

/// The parts without the first one that equals `part`.
pub(crate) fn without_part(alloc: Global, parts: &[u16], part: u16) -> Result<Vec<u16>, AllocError>
    ensures { IfOk result (λ rest. rest.items ≡ without_one part parts.now) }
{
    let mut rest = Vec::from_slice(alloc, parts)?;
    take_part(&mut rest, part);
    Ok(rest)
}

/// The multiplicity of `part` in the parts.
fn times_in(parts: &[u16], part: u16) -> u16
    requires { length parts.now < 2 ^ 16 }
    ensures { result ≡ times_in part parts.now }
{
    let mut times = 0;
    for p in parts {
        if *p == part {
            times += 1;
        }
    }
    times
}

/// The product of the factorials of the multiplicities of the parts.
pub(crate) fn multiplicity_factorials(parts: &[u16]) -> u128
    requires length { length parts.now < 2 ^ 16 }
    requires fits { multiplicity_factorials parts.now < 2 ^ 127 }
    ensures { result ≡ multiplicity_factorials parts.now }
{
    let mut product = 1;
    for at in 0..parts.len() {
        product *= u128::from(times_in(&parts[at..], parts[at]));
    }
    product
}
