//! A lister of the partitions made from a partition by adding a rim hook of k cells: an iterator
//! that is moved on by `advance`.
ghost use Rattle.std.specs.Prelude.{◌≡◌, ◌+◌, ◌-◌, ◌<◌, ◌≤◌, ◌↔◌, ◌∷◌, ◌++◌, [], true, max, map};
ghost use Rattle.std.specs.Prelude.{take, length, None, IfOk, IfSome, IsSome, IsTrue};
ghost use Rattle.std.specs.Bool.{OnTrue, OnFalse};
ghost use Rattle.std.specs.Option.{option_to_list};
ghost use Rattle.sym_model.specs.Partition.{Falls, after, part, rows, size};
ghost use Rattle.sym_model.specs.Strip.{height};
ghost use Rattle.skew_shapes.specs.AddedHooks.{added_row, can_add, hooks_ending_after, with_hook};
ghost use Rattle.skew_shapes.specs.AddedHooks.{BeginsFrom};
ghost use Rattle.skew_shapes.specs.HookLists.{AreHooksAdded};

use crate::lengths::{HookRows, length_of};
use calc_base::{Lister, NoMemory};
use partitions::{Partition, numbers_before_zeros};
use std::alloc::Global;
use std::marker::Model;

/// A lister (trait `Lister`) of the partitions ν such that ν/inner is a rim hook of k cells, for
/// given inner and k, in decreasing lexicographic order, each once. Each ν is written over the one
/// before it in one buffer.
#[derive(Drop)]
pub struct HooksAdded {
    base: Partition,
    /// The number of cells of each rim hook.
    k: u16,
    /// The lengths of the rows of the current partition. The buffer has a place for k more rows
    /// than `base` has; no listed partition has more rows.
    buffer: Vec<u16>,
    /// The first and the last row of the current rim hook; the rim hooks still to be listed have a
    /// greater last row.
    hook: HookRows,
    /// Whether there is a current partition: false before the first one and after the end of the
    /// list.
    listed: bool,
}

impl Model for HooksAdded {
    ghost use Rattle.skew_shapes.specs.HookLists.{HooksListed};
    ghost use Rattle.skew_shapes.specs.AddedHooks.{IsAdding, adding_at};

    ghost Value = { HooksListed };

    ghost view = { λ l. adding_at l.base l.k l.hook.first l.hook.last l.listed };

    ghost invariant = { λ l. IsAdding l.base l.k l.buffer.items l.hook.first l.hook.last l.listed };
}

impl HooksAdded {
    /// A lister of the partitions made by adding a rim hook of `k` cells to `inner`. At first none
    /// of them is the current one. `inner` must have at most 4,096 - k cells and at most 512 - k
    /// rows. For k = 0 the list is empty.
    pub fn new(alloc: Global, inner: &Partition, k: u16) -> Result<HooksAdded, NoMemory>
        requires cells { size inner.now + k ≤ 4096 }
        requires rows { rows inner.now + k ≤ 512 }
        ensures hooks { IfOk result (λ l.
            AreHooksAdded inner.now k (⟦<HooksAdded as Lister>⟧.rest l)) }
        ensures item { IfOk result (λ l. ⟦<HooksAdded as Lister>⟧.item l ≡ None) }
        ensures base { IfOk result (λ l. l.base ≡ inner.now) }
    {
        Ok(HooksAdded {
            base: inner.copy()?,
            k,
            buffer: vec![in alloc; 0u16; usize::from(inner.rows() + k)]?,
            hook: HookRows { first: 1, last: 0 },
            listed: false,
        })
    }

    /// The height (number of rows) of the rim hook ν/inner, for the current partition ν.
    pub fn height(&self) -> u16
        requires { IsSome self.now.item }
        ensures { IfSome self.now.item (λ ν. result ≡ height ν self.now.base) }
    {
        self.hook.last + 1 - self.hook.first
    }
}

impl Lister for HooksAdded {
    ghost rest = { λ l. l.rest };

    ghost item = { λ l. l.item };

    // Moves on to the next partition, as the trait `Lister` specifies; `base`, the partition to
    // which the rim hooks are added, is unchanged.
    fn advance(&mut self) -> bool
        ensures next { self.old.rest ≡ option_to_list self.new.item ++ self.new.rest }
        ensures found { IsTrue result ↔ IsSome self.new.item }
        ensures ended { OnFalse result (self.old.rest ≡ []) }
        ensures base { self.new.base ≡ self.old.base }
    {
        let most = self.base.rows() + self.k;
        if !find_next(self.base.parts(), self.k, most, &mut self.hook) {
            self.listed = false;
            return false;
        }
        write_rows(self.base.parts(), self.k, self.hook, &mut self.buffer);
        self.listed = true;
        true
    }

    fn current(&self) -> &[u16] {
        let rows = self.base.rows().max(self.hook.last);
        numbers_before_zeros(&self.buffer[..usize::from(rows)])
    }
}

/// Takes, among the rim hooks of `k` cells that can be added to `inner` and have a last row greater
/// than `hook.last`, the one with the least last row, and replaces `hook` by its rows. Returns
/// false if there is no such rim hook. `most` is `k` plus the number of rows of `inner`.
fn find_next(inner: &[u16], k: u16, most: u16, hook: &mut HookRows) -> bool
    requires falls { Falls inner.now }
    requires few { most ≤ 512 }
    requires most { most ≡ rows inner.now + k }
    requires begins { BeginsFrom k inner.now hook.old.first hook.old.last }
    requires within { hook.old.last ≤ most }
    ensures begins { BeginsFrom k inner.now hook.new.first hook.new.last }
    ensures within { hook.new.last ≤ most }
    ensures found { OnTrue result (hooks_ending_after k inner.now hook.old.last
        ≡ with_hook k inner.now hook.new.first hook.new.last
        ∷ hooks_ending_after k inner.now hook.new.last) }
    ensures fits { OnTrue result (can_add k inner.now hook.new.first hook.new.last ≡ true) }
    ensures ordered { OnTrue result (hook.new.first ≤ hook.new.last) }
    ensures none { OnFalse result (hooks_ending_after k inner.now hook.old.last ≡ []) }
    ensures ended { OnFalse result (hook.new.last ≡ most) }
{
    while hook.last < most {
        hook.last += 1;
        hook.first = first_passed(inner, k, *hook);
        if can_be_added(inner, k, *hook) {
            return true;
        }
    }
    false
}

/// The first of the rows `hook.first` to `hook.last` that is short enough to be the first row of a
/// rim hook of `k` cells with the last row `hook.last`; `hook.last` if all rows before it are too
/// long.
fn first_passed(inner: &[u16], k: u16, hook: HookRows) -> u16
    requires ordered { hook.first ≤ hook.last }
    requires begins { BeginsFrom k inner.now hook.first hook.last }
    ensures begins { BeginsFrom k inner.now result hook.last }
    ensures within { result ≤ hook.last }
    ensures longer { result < hook.last
        → part inner.now result + hook.last < part inner.now hook.last + k + result }
{
    let raised = u32::from(length_of(inner, hook.last)) + u32::from(k);
    let mut first = hook.first;
    while first < hook.last
        && raised + u32::from(first) <= u32::from(length_of(inner, first)) + u32::from(hook.last)
    {
        first += 1;
    }
    first
}

/// Whether a rim hook of `k` cells in the rows `hook.first` to `hook.last` can be added to `inner`.
fn can_be_added(inner: &[u16], k: u16, hook: HookRows) -> bool
    requires counts { 1 ≤ hook.first }
    requires ordered { hook.first ≤ hook.last }
    ensures { result ≡ can_add k inner.now hook.first hook.last }
{
    let below = u32::from(hook.last - hook.first);
    let raised = u32::from(length_of(inner, hook.last)) + u32::from(k);
    u32::from(length_of(inner, hook.first)) + below < raised
        && (hook.first == 1 || raised <= u32::from(length_of(inner, hook.first - 1)) + below)
}

/// Writes to `buffer` the lengths of the rows of `inner` after the rim hook of `k` cells in the
/// rows of `hook` is added. This rim hook must be one that can be added.
fn write_rows(inner: &[u16], k: u16, hook: HookRows, buffer: &mut [u16])
    requires counts { 1 ≤ hook.first }
    requires ordered { hook.first ≤ hook.last }
    requires cells { size inner.now + k ≤ 4096 }
    requires fits { can_add k inner.now hook.first hook.last ≡ true }
    requires room { max (rows inner.now) hook.last ≤ length buffer.old }
    requires few { length buffer.old ≤ 512 }
    ensures rows { let rows = max (rows inner.now) hook.last
        in take rows buffer.new ≡ map (added_row k inner.now hook.first hook.last) (after 0 rows) }
    ensures room { length buffer.new ≡ length buffer.old }
{
    let rows = inner.len().max(usize::from(hook.last)) as u16;
    for above in 0..rows {
        buffer[usize::from(above)] = row_with_hook(inner, k, hook, above + 1);
    }
}

/// The length of row `row` of `inner` after the rim hook of `k` cells in the rows of `hook` is
/// added.
fn row_with_hook(inner: &[u16], k: u16, hook: HookRows, row: u16) -> u16
    requires counts { 1 ≤ hook.first }
    requires ordered { hook.first ≤ hook.last }
    requires row { 1 ≤ row }
    requires cells { size inner.now + k ≤ 4096 }
    requires fits { can_add k inner.now hook.first hook.last ≡ true }
    ensures { result ≡ added_row k inner.now hook.first hook.last row }
{
    if row < hook.first || hook.last < row {
        return length_of(inner, row);
    }
    if row == hook.first {
        return length_of(inner, hook.last) + k - (hook.last - hook.first);
    }
    length_of(inner, row - 1) + 1
}
