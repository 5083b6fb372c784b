//! The list of waiting permutations, that is, of those that the transition rule has not yet
//! replaced.
ghost use Rattle.std.specs.Prelude.{◌≡◌, ◌<◌, ◌≤◌, length, MatchResult, IfOk, IfErr, OnOk};
ghost use Rattle.std.specs.Prelude.{IsOkAnd, Some, slice_get};
ghost use Rattle.sym_model.specs.Sum.{Among};
ghost use Rattle.transition_walk.specs.Todo.{waiting_order, permutations, AreInOrder};
ghost use Rattle.transition_walk.specs.Todo.{HasPermutation, IsGapFor, MayGain};

use calc_base::NoMemory;
use perm_codes::Perm;
use std::cmp::Ordering;

/// A permutation whose Schubert polynomial is still to be expanded, and the factor by which it is
/// multiplied.
#[derive(Drop)]
pub struct Waiting<F> {
    /// The permutation.
    pub perm: Perm,
    /// The factor by which the Schubert polynomial of `perm` is multiplied.
    pub factor: F,
}

/// Compares two permutations: first their numbers of inversions, and if these are equal, their
/// letters in decreasing lexicographic order. The transition rule replaces a permutation by lower
/// ones.
fn compare(first: &Perm, second: &Perm) -> Ordering
    ensures { result ≡ waiting_order first.now second.now }
{
    first
        .inversions()
        .cmp(&second.inversions())
        .then(second.letters().cmp(first.letters()))
}

/// The index of the entry of `todo` that has the permutation `perm`, as `Ok`, or the index at which
/// an entry with `perm` would be inserted, as `Err`. If `todo` is in order, the result is `Err` if
/// and only if no entry has the permutation `perm`.
fn place_of<F>(todo: &[Waiting<F>], perm: &Perm) -> Result<usize, usize>
    ensures place { MatchResult result
        (λ at. (at < length todo.now) × HasPermutation perm.now todo.now at)
        (λ at. at ≤ length todo.now) }
    ensures absent { IfErr result (λ _.
        AreInOrder todo.now → ¬ Among perm.now (permutations todo.now)) }
    ensures gap { IfErr result (λ at. AreInOrder todo.now → IsGapFor perm.now todo.now at) }
{
    todo.binary_search_by(|waiting| compare(&waiting.perm, perm))
}

/// The index of the entry of `todo` that has the permutation `perm`; if there is no such entry, one
/// with `perm` and `factor` is inserted. If the permutations of `todo` are in order (and so all
/// different), they remain in order. If, moreover, one of them is `perm`, no memory is allocated
/// and the result is `Ok`.
pub(crate) fn entry_at<F: Drop>(
    todo: &mut Vec<Waiting<F>>,
    perm: Perm,
    factor: F,
) -> Result<usize, NoMemory>
    ensures found { IfOk result (λ at. (at < length todo.new.items)
        × HasPermutation perm todo.new.items at) }
    ensures list { OnOk result (MayGain todo.old.items
        (record { perm = perm; factor = factor }) todo.new.items) }
    ensures order { OnOk result (AreInOrder todo.old.items → AreInOrder todo.new.items) }
    ensures there { AreInOrder todo.old.items → (w : Waiting F) → Among w todo.old.items
        → w.perm ≡ perm → IsOkAnd result (λ at. slice_get todo.new.items at ≡ Some w) }
{
    match place_of(todo.as_slice(), &perm) {
        Ok(at) => Ok(at),
        Err(at) => {
            todo.insert(at, Waiting { perm, factor })?;
            Ok(at)
        }
    }
}
