//! The transition rule on waiting permutations, that is, those that it has not yet replaced, each
//! with the list of terms by which its Schubert polynomial is multiplied.
ghost use Rattle.std.specs.Prelude.{ℕ, ◌<◌, ◌≤◌, ◌∷◌, ◌++◌, [], pos, FitsSigned, List, length};
ghost use Rattle.std.specs.Prelude.{OnOk, IsErrOf};
ghost use Rattle.std.specs.Int.{w128};
ghost use Rattle.sym_model.specs.Permutation.{IsTransition};
ghost use Rattle.sym_model.specs.PlaceOrders.{inversions};
ghost use Rattle.fraction_laws.specs.Fractions.{whole};
ghost use Rattle.linear_combinations.specs.Entries.{AreHeld, IsCombination, IsTable};
ghost use Rattle.linear_combinations.specs.Gains.{Gains, HaveLabels, Overflows, replaced};
ghost use Rattle.linear_combinations.specs.Gains.{RefusesFirst};
ghost use Rattle.transition_walk.specs.Transitions.{IsShort};
ghost use Rattle.transition_walk.specs.Waiting.{Joins, WaitingOverflows, each_waits, stepped};
ghost use Rattle.transition_walk.specs.Waiting.{WaitingRefuses};
ghost use Rattle.transition_walk.specs.Growth.{WorksOff, OverflowsAt};

use crate::factor::Factor;
use crate::places::transition_places;
use crate::todo::{Waiting, entry_at};
use calc_base::SumFault;
use coeff_rings::Int;
use linear_combinations::{Label, Lin, Rule};
use perm_codes::Perm;
use std::alloc::Global;
use std::mem;

/// Adds the terms of `list`, which is consumed, to `sum`. For this the shorter of the two lists is
/// added to the longer one.
///
/// Returns `Large` if `list` is not longer than `sum` and the sum of the two coefficients at the
/// first label of `list` overflows.
fn add_given<L: Label>(sum: &mut Lin<L, Int>, list: Lin<L, Int>) -> Result<(), SumFault>
    ensures gains { OnOk result (Gains sum.old list sum.new) }
    ensures table { OnOk result (IsCombination L.eq L.is_label whole sum.new) }
    ensures held { OnOk result (AreHeld L.eq (pos 0) (FitsSigned w128) sum.new) }
    ensures large { IsErrOf result SumFault.Large → Overflows L.eq sum.old list }
    ensures past { length list ≤ length sum.old → RefusesFirst L.eq sum.old list
        → IsErrOf result SumFault.Large }
{
    if list.len() <= sum.len() {
        return sum.add_terms(&list);
    }
    let shorter = mem::replace(sum, list);
    sum.add_terms(&shorter)
}

/// Adds `list` to the list of terms that `todo` has for the permutation `perm`. If `todo` has no
/// entry for `perm`, one with `list` is inserted.
///
/// Returns `Large` if `todo` is in order and has an entry for `perm`, and the sum of the two
/// coefficients at the first label of `list` overflows.
fn add_waiting<L: Label>(
    alloc: Global,
    todo: &mut Vec<Waiting<Lin<L, Int>>>,
    perm: Perm,
    list: &Lin<L, Int>,
) -> Result<(), SumFault>
    ensures joins { OnOk result (Joins todo.old.items
        (record { perm = perm; factor = list.now } ∷ []) todo.new.items) }
    ensures large { IsErrOf result SumFault.Large
        → WaitingOverflows todo.old.items (record { perm = perm; factor = list.now } ∷ []) }
    ensures past { WaitingRefuses L.eq todo.old.items (record { perm = perm; factor = list.now })
        → IsErrOf result SumFault.Large }
{
    let none = Lin::new(alloc);
    let at = entry_at(todo, perm, none)?;
    let waiting = &mut todo[at];
    waiting.factor.add_terms(list)
}

/// Adds `list`, which is consumed, to the list of terms that `todo` has for the permutation `perm`.
/// If `todo` has no entry for `perm`, one with `list` is inserted.
///
/// Returns `Large` if `todo` is in order and has for `perm` a list of terms that is not shorter
/// than `list`, and the sum of the two coefficients at the first label of `list` overflows.
fn give_waiting<L: Label>(
    alloc: Global,
    todo: &mut Vec<Waiting<Lin<L, Int>>>,
    perm: Perm,
    list: Lin<L, Int>,
) -> Result<(), SumFault>
    ensures joins { OnOk result (Joins todo.old.items
        (record { perm = perm; factor = list } ∷ []) todo.new.items) }
    ensures large { IsErrOf result SumFault.Large
        → WaitingOverflows todo.old.items (record { perm = perm; factor = list } ∷ []) }
    ensures past { (r : WaitingRefuses L.eq todo.old.items (record { perm = perm; factor = list }))
        → length list ≤ length r.entry.factor → IsErrOf result SumFault.Large }
{
    let none = Lin::new(alloc);
    let at = entry_at(todo, perm, none)?;
    let waiting = &mut todo[at];
    add_given(&mut waiting.factor, list)
}

/// Applies the rule `factor`, which must be defined for each label of `list`, to `list`, and adds
/// the resulting terms to those that `todo` has for the permutation `perm`. If `todo` has no entry
/// for `perm`, one with the resulting terms is inserted.
///
/// Returns `Large` only if, at some label, the absolute values of the old coefficient in the list
/// of `perm` and of the coefficients added to it have a sum of 2^127 or more. On an error, some of
/// the resulting terms may have been added.
pub fn add_waiting_by<L: Label, F: Rule<L, L>>(
    alloc: Global,
    todo: &mut Vec<Waiting<Lin<L, Int>>>,
    perm: Perm,
    list: &Lin<L, Int>,
    factor: &F,
) -> Result<(), SumFault>
    requires { HaveLabels (F.takes factor.now) list.now }
    ensures joins { OnOk result (Joins todo.old.items
        (record { perm = perm; factor = replaced (F.image factor.now) list.now } ∷ [])
        todo.new.items) }
    ensures table { OnOk result (IsCombination L.eq L.is_label whole list.now) }
    ensures large { IsErrOf result SumFault.Large → WaitingOverflows todo.old.items
        (record { perm = perm; factor = replaced (F.image factor.now) list.now } ∷ []) }
{
    let none = Lin::new(alloc);
    let at = entry_at(todo, perm, none)?;
    let waiting = &mut todo[at];
    waiting.factor.add_by(factor, list)
}

/// For each permutation of `covers`, adds `list` to the list of terms that `todo` has for it; if
/// `todo` has no entry for the permutation, one with `list` is inserted.
fn add_to_each<L: Label>(
    alloc: Global,
    todo: &mut Vec<Waiting<Lin<L, Int>>>,
    covers: Vec<Perm>,
    list: &Lin<L, Int>,
) -> Result<(), SumFault>
    ensures joins { OnOk result (Joins todo.old.items
        (each_waits list.now covers.items) todo.new.items) }
    ensures large { IsErrOf result SumFault.Large
        → WaitingOverflows todo.old.items (each_waits list.now covers.items) }
{
    for cover in covers {
        add_waiting(alloc, todo, cover, list)?;
    }
    Ok(())
}

/// For each permutation of `covers` and for `last`, adds `list`, which is consumed, to the list of
/// terms that `todo` has for the permutation; if `todo` has no entry for it, one with `list` is
/// inserted.
fn give_to_last<L: Label>(
    alloc: Global,
    todo: &mut Vec<Waiting<Lin<L, Int>>>,
    covers: Vec<Perm>,
    last: Perm,
    list: Lin<L, Int>,
) -> Result<(), SumFault>
    ensures joins { OnOk result (Joins todo.old.items
        (each_waits list covers.items ++ (record { perm = last; factor = list }) ∷ [])
        todo.new.items) }
    ensures large { IsErrOf result SumFault.Large → WaitingOverflows todo.old.items
        (each_waits list covers.items ++ (record { perm = last; factor = list }) ∷ []) }
{
    add_to_each(alloc, todo, covers, &list)?;
    give_waiting(alloc, todo, last, list)
}

/// For each permutation of `covers`, adds `list`, which is consumed, to the list of terms that
/// `todo` has for it; if `todo` has no entry for the permutation, one with `list` is inserted.
fn add_covers<L: Label>(
    alloc: Global,
    todo: &mut Vec<Waiting<Lin<L, Int>>>,
    covers: Vec<Perm>,
    list: Lin<L, Int>,
) -> Result<(), SumFault>
    ensures joins { OnOk result (Joins todo.old.items
        (each_waits list covers.items) todo.new.items) }
    ensures large { IsErrOf result SumFault.Large
        → WaitingOverflows todo.old.items (each_waits list covers.items) }
{
    let mut covers = covers;
    match covers.pop() {
        Some(last) => give_to_last(alloc, todo, covers, last, list),
        None => Ok(()),
    }
}

/// Adds to `todo` the permutations by which the transition rule at the places r and s replaces w =
/// `waiting.perm`: v = w·t_rs with the list of w times the factor, and each cover v·t_ir with i < r
/// with the list of w (`stepped`).
fn expand<L: Label, F: Factor<L>>(
    alloc: Global,
    todo: &mut Vec<Waiting<Lin<L, Int>>>,
    waiting: Waiting<Lin<L, Int>>,
    r: u16,
    s: u16,
) -> Result<(), SumFault>
    requires permutation { IsShort 255 waiting.perm }
    requires few { length waiting.perm ≤ F.most }
    requires places { IsTransition waiting.perm r s }
    requires labels { HaveLabels (λ label. F.extent label ≤ F.most) waiting.factor }
    ensures joins { OnOk result (Joins todo.old.items
        (stepped (λ v. F.image (F.made r v)) r s waiting) todo.new.items) }
    ensures table { OnOk result (IsCombination L.eq L.is_label whole waiting.factor) }
    ensures large { IsErrOf result SumFault.Large
        → WaitingOverflows todo.old.items (stepped (λ v. F.image (F.made r v)) r s waiting) }
{
    let Waiting { perm, factor: list } = waiting;
    let lower = perm.times_swap(r, s)?;
    let covers = lower.covers_down(r)?;
    let factor = F::at(r, &lower);
    add_waiting_by(alloc, todo, lower, &list, &factor)?;
    add_covers(alloc, todo, covers, list)
}

/// One step of the transition rule for the permutation w of `waiting`: if w is the identity, its
/// list is added to `sum`; otherwise the permutations by which the rule replaces w are added to
/// `todo`.
pub(crate) fn work_off<L: Label, F: Factor<L>>(
    alloc: Global,
    todo: &mut Vec<Waiting<Lin<L, Int>>>,
    waiting: Waiting<Lin<L, Int>>,
    sum: &mut Lin<L, Int>,
) -> Result<(), SumFault>
    requires few { 0 < inversions waiting.perm → length waiting.perm ≤ F.most }
    requires labels { 0 < inversions waiting.perm
        → HaveLabels (λ label. F.extent label ≤ F.most) waiting.factor }
    ensures step { OnOk result (WorksOff F.product (λ r v. F.image (F.made r v)) F.extent F.most
        sum.old todo.old.items waiting sum.new todo.new.items) }
    ensures table { OnOk result (IsTable L.eq L.is_label (pos 0) whole (FitsSigned w128) sum.old
        → IsTable L.eq L.is_label (pos 0) whole (FitsSigned w128) sum.new) }
    ensures large { IsErrOf result SumFault.Large
        → OverflowsAt (λ r v. F.image (F.made r v)) F.extent F.most sum.old todo.old.items
        waiting }
{
    match transition_places(&waiting.perm) {
        Some((r, s)) => expand::<L, F>(alloc, todo, waiting, r, s),
        None => add_given(sum, waiting.factor),
    }
}
