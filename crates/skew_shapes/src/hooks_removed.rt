//! A lister of the partitions made from a partition by removing a rim hook of k cells: an iterator
//! that is moved on by `advance`.
ghost use Rattle.std.specs.Prelude.{◌≡◌, ◌+◌, ◌-◌, ◌<◌, ◌≤◌, ◌↔◌, ◌∷◌, ◌++◌, [], true, map, length};
ghost use Rattle.std.specs.Prelude.{None, IfOk, IfSome, IsSome, IsTrue};
ghost use Rattle.std.specs.Bool.{OnTrue, OnFalse};
ghost use Rattle.std.specs.Option.{option_to_list};
ghost use Rattle.sym_model.specs.Partition.{Falls, after, part, rows};
ghost use Rattle.sym_model.specs.Strip.{height};
ghost use Rattle.partitions.specs.Limits.{IsWithinLimits};
ghost use Rattle.skew_shapes.specs.HookLists.{AreHooksRemoved};
ghost use Rattle.skew_shapes.specs.RemovedHooks.{can_remove, hooks_beginning_within, left_row};
ghost use Rattle.skew_shapes.specs.RemovedHooks.{without_hook, EndsUpTo};

use crate::lengths::{HookRows, length_of};
use calc_base::{Lister, NoMemory};
use partitions::{Partition, numbers_before_zeros};
use std::alloc::Global;
use std::marker::Model;

/// A lister (trait `Lister`) of the partitions ν such that outer/ν is a rim hook of k cells, for
/// given outer and k, in decreasing lexicographic order, each once. Each ν is written over the one
/// before it in one buffer.
#[derive(Drop)]
pub struct HooksRemoved {
    base: Partition,
    /// The number of cells of each rim hook.
    k: u16,
    /// The lengths in the current partition of all rows of `base`; 0 for a row that was removed
    /// completely.
    buffer: Vec<u16>,
    /// The first and the last row of the current rim hook; the rim hooks still to be listed have a
    /// smaller first row.
    hook: HookRows,
    /// Whether there is a current partition: false before the first one and after the end of the
    /// list.
    listed: bool,
}

impl Model for HooksRemoved {
    ghost use Rattle.skew_shapes.specs.HookLists.{HooksListed};
    ghost use Rattle.skew_shapes.specs.RemovedHooks.{IsRemoving, removing_at};

    ghost Value = { HooksListed };

    ghost view = { λ l. removing_at l.base l.k l.hook.first l.hook.last l.listed };

    ghost invariant = { λ l. IsRemoving l.base l.k l.buffer.items l.hook.first l.hook.last l.listed };
}

impl HooksRemoved {
    /// A lister of the partitions made by removing a rim hook of `k` cells from `outer`. At first
    /// none of them is the current one. For k = 0 the list is empty.
    pub fn new(alloc: Global, outer: &Partition, k: u16) -> Result<HooksRemoved, NoMemory>
        ensures hooks { IfOk result (λ l.
            AreHooksRemoved outer.now k (⟦<HooksRemoved as Lister>⟧.rest l)) }
        ensures item { IfOk result (λ l. ⟦<HooksRemoved as Lister>⟧.item l ≡ None) }
        ensures base { IfOk result (λ l. l.base ≡ outer.now) }
    {
        let rows = outer.rows();
        Ok(HooksRemoved {
            base: outer.copy()?,
            k,
            buffer: vec![in alloc; 0u16; usize::from(rows)]?,
            hook: HookRows {
                first: rows + 1,
                last: rows,
            },
            listed: false,
        })
    }

    /// The height (number of rows) of the rim hook outer/ν, for the current partition ν.
    pub fn height(&self) -> u16
        requires { IsSome self.now.item }
        ensures { IfSome self.now.item (λ ν. result ≡ height self.now.base ν) }
    {
        self.hook.last + 1 - self.hook.first
    }
}

impl Lister for HooksRemoved {
    ghost rest = { λ l. l.rest };

    ghost item = { λ l. l.item };

    // Moves on to the next partition, as the trait `Lister` specifies; `base`, the partition from
    // which the rim hooks are removed, is unchanged.
    fn advance(&mut self) -> bool
        ensures next { self.old.rest ≡ option_to_list self.new.item ++ self.new.rest }
        ensures found { IsTrue result ↔ IsSome self.new.item }
        ensures ended { OnFalse result (self.old.rest ≡ []) }
        ensures base { self.new.base ≡ self.old.base }
    {
        if !find_next(self.base.parts(), self.k, &mut self.hook) {
            self.listed = false;
            return false;
        }
        write_rows(self.base.parts(), self.k, self.hook, &mut self.buffer);
        self.listed = true;
        true
    }

    fn current(&self) -> &[u16] {
        numbers_before_zeros(&self.buffer)
    }
}

/// Takes, among the rim hooks of `k` cells that can be removed from `outer` and have a first row
/// smaller than `hook.first`, the one with the greatest first row, and replaces `hook` by its rows.
/// Returns false if there is no such rim hook.
fn find_next(outer: &[u16], k: u16, hook: &mut HookRows) -> bool
    requires falls { Falls outer.now }
    requires few { rows outer.now ≤ 512 }
    requires ends { EndsUpTo k outer.now hook.old.first hook.old.last }
    ensures ends { EndsUpTo k outer.now hook.new.first hook.new.last }
    ensures found { OnTrue result (hooks_beginning_within k outer.now (hook.old.first - 1)
        ≡ without_hook k outer.now hook.new.first hook.new.last
        ∷ hooks_beginning_within k outer.now (hook.new.first - 1)) }
    ensures fits { OnTrue result (can_remove k outer.now hook.new.first hook.new.last ≡ true) }
    ensures ordered { OnTrue result (hook.new.first ≤ hook.new.last) }
    ensures none { OnFalse result (hooks_beginning_within k outer.now (hook.old.first - 1) ≡ []) }
    ensures ended { OnFalse result (hook.new.first ≡ 1) }
{
    while hook.first > 1 {
        hook.first -= 1;
        hook.last = last_passed(outer, k, *hook);
        if can_be_removed(outer, k, *hook) {
            return true;
        }
    }
    false
}

/// The last of the rows `hook.first` to `hook.last` that is long enough to be the last row of a rim
/// hook of `k` cells with the first row `hook.first`; `hook.first` if all rows after it are too
/// short.
fn last_passed(outer: &[u16], k: u16, hook: HookRows) -> u16
    requires ordered { hook.first ≤ hook.last }
    requires few { rows outer.now ≤ 512 }
    requires ends { EndsUpTo k outer.now hook.first hook.last }
    ensures ends { EndsUpTo k outer.now hook.first result }
    ensures within { hook.first ≤ result }
    ensures longer { hook.first < result
        → part outer.now hook.first + result < part outer.now result + hook.first + k }
{
    let lowered = u32::from(hook.first) + u32::from(k);
    let start = u32::from(length_of(outer, hook.first));
    let mut last = hook.last;
    while hook.first < last
        && u32::from(length_of(outer, last)) + lowered <= start + u32::from(last)
    {
        last -= 1;
    }
    last
}

/// Whether a rim hook of `k` cells in the rows `hook.first` to `hook.last` can be removed from
/// `outer`.
fn can_be_removed(outer: &[u16], k: u16, hook: HookRows) -> bool
    requires counts { 1 ≤ hook.first }
    requires ordered { hook.first ≤ hook.last }
    requires few { hook.last ≤ 512 }
    ensures { result ≡ can_remove k outer.now hook.first hook.last }
{
    let start = u32::from(length_of(outer, hook.first)) + u32::from(hook.last - hook.first);
    u32::from(length_of(outer, hook.last + 1)) + u32::from(k) <= start
        && start < u32::from(length_of(outer, hook.last)) + u32::from(k)
}

/// Writes to `buffer` the lengths of the rows of `outer` after the rim hook of `k` cells in the
/// rows of `hook` is removed. This rim hook must be one that can be removed.
fn write_rows(outer: &[u16], k: u16, hook: HookRows, buffer: &mut [u16])
    requires counts { 1 ≤ hook.first }
    requires ordered { hook.first ≤ hook.last }
    requires within { hook.last ≤ rows outer.now }
    requires limits { IsWithinLimits outer.now }
    requires fits { can_remove k outer.now hook.first hook.last ≡ true }
    requires room { length buffer.old ≡ rows outer.now }
    ensures rows { buffer.new ≡ map (left_row k outer.now hook.first hook.last)
        (after 0 (rows outer.now)) }
{
    for above in 0..outer.len() as u16 {
        buffer[usize::from(above)] = row_without_hook(outer, k, hook, above + 1);
    }
}

/// The length of row `row` of `outer` after the rim hook of `k` cells in the rows of `hook` is
/// removed.
fn row_without_hook(outer: &[u16], k: u16, hook: HookRows, row: u16) -> u16
    requires counts { 1 ≤ hook.first }
    requires ordered { hook.first ≤ hook.last }
    requires within { hook.last ≤ rows outer.now }
    requires row { 1 ≤ row }
    requires limits { IsWithinLimits outer.now }
    requires fits { can_remove k outer.now hook.first hook.last ≡ true }
    ensures { result ≡ left_row k outer.now hook.first hook.last row }
{
    if row < hook.first || hook.last < row {
        return length_of(outer, row);
    }
    if row == hook.last {
        return length_of(outer, hook.first) + (hook.last - hook.first) - k;
    }
    length_of(outer, row + 1) - 1
}
