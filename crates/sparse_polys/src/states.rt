//! The states of a search for the partitions in a product m_λ·m_μ: the remaining parts of λ and of
//! μ, with the number of ways to reach them.
ghost use Rattle.std.specs.Prelude.{◌≡◌, ℕ, ◌+◌, ◌*◌, ◌<◌, ◌↔◌, List, length, map, IfOk, OnOk};
ghost use Rattle.std.specs.Prelude.{IfSome, IsTrue, MatchOption, slice_get};
ghost use Rattle.sym_model.specs.Sum.{Among};
ghost use Rattle.monomial_laws.specs.MonomialProduct.{arrangements};
ghost use Rattle.sparse_polys.specs.Ways.{capped, labels_left, ways, IsRest, AreStates, LeaveOnce};

use std::alloc::AllocError;

/// The parts of λ (`left`) and of μ (`right`) that remain in a search for the partitions in
/// m_λ·m_μ, and the number of ways to reach them, or 2^128 - 1 if there are more.
#[derive(Drop)]
pub(crate) struct State {
    pub(crate) left: Vec<u16>,
    pub(crate) right: Vec<u16>,
    pub(crate) count: u128,
}

/// Whether the remaining parts of `state` are the lists `left` and `right`.
fn is_left(state: &State, left: &[u16], right: &[u16]) -> bool
    ensures { IsTrue result ↔ (labels_left state.now ≡ (left.now, right.now)) }
{
    state.left.as_slice() == left && state.right.as_slice() == right
}

/// The index of a state with the remaining parts `left` and `right`; None if and only if there is
/// no such state.
fn place_of(states: &[State], left: &[u16], right: &[u16]) -> Option<usize>
    ensures { MatchOption result (Among (left.now, right.now) (map labels_left states.now) → ⊥)
        (λ i. (i < length states.now)
        × IfSome (slice_get states.now i) (λ s. labels_left s ≡ (left.now, right.now))) }
{
    for (i, state) in states.iter().enumerate() {
        if is_left(state, left, right) {
            return Some(i);
        }
    }
    None
}

/// Adds `count` ways to the state with the remaining parts `left` and `right`, or appends such a
/// state if there is none. If no two states had the same remaining parts before, no two have the
/// same ones after it.
pub(crate) fn add_state(
    states: &mut Vec<State>,
    left: Vec<u16>,
    right: Vec<u16>,
    count: u128,
) -> Result<(), AllocError>
    ensures ways { OnOk result ((ν : List ℕ) → capped (ways states.new.items ν)
        ≡ capped (ways states.old.items ν + count * arrangements left.items right.items ν)) }
    ensures states { OnOk result ((size : ℕ) → AreStates size states.old.items
        → IsRest size left.items right.items → AreStates size states.new.items) }
    ensures once { OnOk result (LeaveOnce states.old.items → LeaveOnce states.new.items) }
{
    if let Some(i) = place_of(states.as_slice(), left.as_slice(), right.as_slice()) {
        let state = &mut states[i];
        state.count = state.count.saturating_add(count);
        Ok(())
    } else {
        states.push(State { left, right, count })?;
        Ok(())
    }
}
