//! One step of the search for the partitions ν in a product m_λ·m_μ. One part of ν is written as
//! the sum a + b in all ways such that a is 0 or a part of λ, and b is 0 or a part of μ. Then a is
//! removed from λ and b from μ.
ghost use Rattle.std.specs.Prelude.{◌≡◌, ℕ, ◌+◌, ◌*◌, ◌^◌, ◌<◌, ◌≤◌, ◌∷◌, [], true, false, List};
ghost use Rattle.std.specs.Prelude.{length, IfOk, OnOk};
ghost use Rattle.sym_model.specs.Bases.{has};
ghost use Rattle.monomial_laws.specs.MonomialProduct.{arrangements};
ghost use Rattle.sparse_polys.specs.Ways.{capped, ways, taken, is_choice_at, IsRest, AreStates};
ghost use Rattle.sparse_polys.specs.Ways.{LeaveOnce, HasPartAbove};
ghost use Rattle.sym_model.specs.Bounded.{AreBelow};

use crate::parts::without_part;
use crate::states::{State, add_state};
use partitions::has_part;
use std::alloc::{AllocError, Global};

/// Whether no number of `parts`, a weakly decreasing list, is greater than `part`.
fn is_within(parts: &[u16], part: u16) -> bool
    ensures { result ≡ false → HasPartAbove part parts.now }
{
    match parts.first() {
        Some(first) => *first <= part,
        None => true,
    }
}

/// Whether `part` is 0 or one of `parts`.
fn can_give(parts: &[u16], part: u16) -> bool
    ensures { result ≡ has part (0 ∷ parts.now) }
{
    part == 0 || has_part(parts, part)
}

/// Adds to `next` the state that remains if the part a is removed from `state.left` and the part b
/// from `state.right`; 0 removes nothing. Nothing is added if b is neither 0 nor in `state.right`,
/// or if some remaining part is greater than a + b: the search finds the parts of a partition in
/// decreasing order, so all later parts are at most a + b.
fn take_both(
    alloc: Global,
    state: &State,
    a: u16,
    b: u16,
    next: &mut Vec<State>,
) -> Result<(), AllocError>
    requires sum { a + b < 2 ^ 16 }
    ensures ways { OnOk result ((ν : List ℕ) (size : ℕ) → AreBelow (a + b + 1) ν
        → IsRest size state.now.left.items state.now.right.items
        → capped (ways next.new.items ν)
        ≡ capped (ways next.old.items ν + state.now.count
        * taken state.now.left.items state.now.right.items a b ν)) }
    ensures states { OnOk result ((size : ℕ)
        → IsRest (a + b + size) state.now.left.items state.now.right.items
        → has a (0 ∷ state.now.left.items) ≡ true
        → AreStates size next.old.items → AreStates size next.new.items) }
    ensures once { OnOk result (LeaveOnce next.old.items → LeaveOnce next.new.items) }
{
    if !can_give(state.right.as_slice(), b) {
        return Ok(());
    }
    let left = without_part(alloc, state.left.as_slice(), a)?;
    if !is_within(left.as_slice(), a + b) {
        return Ok(());
    }
    let right = without_part(alloc, state.right.as_slice(), b)?;
    if !is_within(right.as_slice(), a + b) {
        return Ok(());
    }
    add_state(next, left, right, state.count)
}

/// Whether the part at the index `i` is at most `part` and differs from all parts after that index.
fn is_choice(parts: &[u16], i: usize, part: u16) -> bool
    requires { i < length parts.now }
    ensures { result ≡ is_choice_at parts.now i part }
{
    let a = parts[i];
    a <= part && !has_part(&parts[i + 1..], a)
}

/// Adds to `next` the states that remain if a is removed from `state.left` and b from
/// `state.right`, for all a and b with a + b = `part` such that a is 0 or a part of `state.left`,
/// and b is 0 or a part of `state.right`; 0 removes nothing.
fn take_part(
    alloc: Global,
    state: &State,
    part: u16,
    next: &mut Vec<State>,
) -> Result<(), AllocError>
    ensures ways { OnOk result ((ν : List ℕ) (size : ℕ) → AreBelow (part + 1) ν
        → IsRest size state.now.left.items state.now.right.items
        → capped (ways next.new.items ν) ≡ capped (ways next.old.items ν
        + state.now.count * arrangements state.now.left.items state.now.right.items (part ∷ ν))) }
    ensures states { OnOk result ((size : ℕ)
        → IsRest (part + size) state.now.left.items state.now.right.items
        → AreStates size next.old.items → AreStates size next.new.items) }
    ensures once { OnOk result (LeaveOnce next.old.items → LeaveOnce next.new.items) }
{
    take_both(alloc, state, 0, part, next)?;
    let parts = state.left.as_slice();
    for i in 0..parts.len() {
        if is_choice(parts, i, part) {
            take_both(alloc, state, parts[i], part - parts[i], next)?;
        }
    }
    Ok(())
}

/// The states that remain if one of `states` is taken, and a is removed from its list `left` and b
/// from its list `right`, for all a and b with a + b = `part` such that a is 0 or a part of `left`,
/// and b is 0 or a part of `right`; 0 removes nothing. No two of the resulting states have the same
/// remaining parts.
pub(crate) fn step(alloc: Global, states: &[State], part: u16) -> Result<Vec<State>, AllocError>
    ensures ways { IfOk result (λ next. (ν : List ℕ) (size : ℕ) → AreBelow (part + 1) ν
        → AreStates size states.now
        → capped (ways next.items ν) ≡ capped (ways states.now (part ∷ ν))) }
    ensures states { IfOk result (λ next. (size : ℕ) → AreStates (part + size) states.now
        → AreStates size next.items) }
    ensures once { IfOk result (λ next. LeaveOnce next.items) }
{
    let mut next = Vec::new(alloc);
    for state in states {
        take_part(alloc, state, part, &mut next)?;
    }
    Ok(next)
}
