//! The steps of a walk.
ghost use Rattle.std.specs.Prelude.{◌≡◌, ℕ, ◌+◌, ◌*◌, ◌++◌, ◌^◌, ◌<◌, ◌≤◌, List, [], ◌∷◌};
ghost use Rattle.std.specs.Prelude.{OnOk, IfOk, IfSome, IsNone, MatchOption, length};
ghost use Rattle.std.specs.Option.{option_to_list, option_map};
ghost use Rattle.std.specs.List.{All};
ghost use Rattle.prefix_walk.specs.Levels.{at_most_cap, weighed_at, terms_of, rest_at, entries_of};
ghost use Rattle.prefix_walk.specs.Levels.{Rise, IsStep, IsLast, IsTaken, AreRecords, AreSound};
ghost use Rattle.prefix_walk.specs.Levels.{top_of, work_left};

use crate::places::Places;
use crate::prefixes::Prefixes;
use crate::records::{self, Record};
use calc_base::NoMemory;
use std::alloc::Global;

/// What is used again from step to step: it holds nothing that the terms depend on.
#[derive(Drop)]
pub(crate) struct Scratch<S> {
    alloc: Global,
    /// The steps of one state.
    steps: Vec<(u16, S)>,
    places: Places,
    /// Lists for further levels.
    spare: Vec<Vec<Record<S>>>,
}

impl<S: Copy> Scratch<S> {
    /// What a walk over labels of `len` entries uses.
    pub(crate) fn new(alloc: Global, len: usize) -> Result<Scratch<S>, NoMemory> {
        Ok(Scratch {
            alloc,
            steps: Vec::new(alloc),
            places: Places::new(alloc)?,
            spare: Vec::with_capacity(alloc, len)?,
        })
    }

    /// An empty list, a spare one if there is one.
    fn list(&mut self) -> Vec<Record<S>>
        ensures { result.items ≡ [] }
    {
        let Some(mut list) = self.spare.pop() else {
            return Vec::new(self.alloc);
        };
        list.clear();
        list
    }
}

/// Adds the steps of a state, after which `after` entries are to come, each with the same count.
fn add_steps<S: Copy, P: Prefixes<S>>(
    rule: &P,
    after: usize,
    state: &S,
    count: u128,
    next: &mut Vec<Record<S>>,
    scratch: &mut Scratch<S>,
) -> Result<(), NoMemory>
    requires state { P.is_state rule.now (after + 1) state.now }
    ensures steps { OnOk result
        (All (λ r. IsStep (P.is_state rule.now after) (P.end rule.now) r.0) next.old.items
        → All (λ r. IsStep (P.is_state rule.now after) (P.end rule.now) r.0) next.new.items) }
    ensures adds { OnOk result ((a : ℕ) (label : List ℕ) → length label ≡ after
        → at_most_cap (weighed_at a (λ s. P.ways rule.now after s label) next.new.items)
        ≡ at_most_cap (weighed_at a (λ s. P.ways rule.now after s label) next.old.items
        + count * P.ways rule.now (after + 1) state.now (a ∷ label))) }
{
    scratch.steps.clear();
    rule.steps(after, state, &mut scratch.steps)?;
    records::add_all(rule, &scratch.steps, count, next, &mut scratch.places)
}

/// The records of the steps of one state, after which `after` entries are to come.
pub(crate) fn first_records<S: Copy, P: Prefixes<S>>(
    rule: &P,
    after: usize,
    state: &S,
    scratch: &mut Scratch<S>,
) -> Result<Vec<Record<S>>, NoMemory>
    requires state { P.is_state rule.now (after + 1) state.now }
    ensures sound { IfOk result (λ next.
        AreRecords (P.is_state rule.now after) (P.end rule.now) next.items) }
    ensures adds { IfOk result (λ next. (a : ℕ) (label : List ℕ) → length label ≡ after
        → at_most_cap (weighed_at a (λ s. P.ways rule.now after s label) next.items)
        ≡ at_most_cap (P.ways rule.now (after + 1) state.now (a ∷ label))) }
{
    let mut next = scratch.list();
    add_steps(rule, after, state, 1, &mut next, scratch)?;
    records::sort(&mut next);
    Ok(next)
}

/// Takes the records with the greatest entry, and adds the steps of their states, after which
/// `after` entries are to come, to an empty list.
fn take_steps<S: Copy, P: Prefixes<S>>(
    rule: &P,
    after: usize,
    entry: u16,
    records: &mut Vec<Record<S>>,
    next: &mut Vec<Record<S>>,
    scratch: &mut Scratch<S>,
) -> Result<(), NoMemory>
    requires sound { AreRecords (P.is_state rule.now (after + 1)) (P.end rule.now) records.old.items }
    requires greatest { All (λ r. r.0.0 < entry + 1) records.old.items }
    requires fresh { next.old.items ≡ [] }
    ensures taken { OnOk result (IsTaken entry records.old.items records.new.items) }
    ensures below { OnOk result (All (λ r. r.0.0 < entry) records.new.items) }
    ensures steps { OnOk result
        (All (λ r. IsStep (P.is_state rule.now after) (P.end rule.now) r.0) next.new.items) }
    ensures adds { OnOk result ((a : ℕ) (label : List ℕ) → length label ≡ after
        → at_most_cap (weighed_at a (λ s. P.ways rule.now after s label) next.new.items)
        ≡ at_most_cap (weighed_at entry (λ s. P.ways rule.now (after + 1) s (a ∷ label))
        records.old.items)) }
{
    while let Some(record) = records::pop_at(records, entry) {
        add_steps(rule, after, &record.0.1, record.1, next, scratch)?;
    }
    Ok(())
}

/// Takes the records with the greatest entry; the sum of their counts, capped at 2^127.
fn take_total<S: Copy>(records: &mut Vec<Record<S>>, entry: u16) -> u128
    requires rise { Rise records.old.items }
    requires greatest { All (λ r. r.0.0 < entry + 1) records.old.items }
    ensures taken { IsTaken entry records.old.items records.new.items }
    ensures below { All (λ r. r.0.0 < entry) records.new.items }
    ensures total { result ≡ at_most_cap (weighed_at entry (λ s. 1) records.old.items) }
{
    let mut total: u128 = 0;
    while let Some((_, count)) = records::pop_at(records, entry) {
        total = records::joined(total, count);
    }
    total
}

/// The count, or `None` if it is 0.
fn if_positive(count: u128) -> Option<u128>
    ensures { MatchOption result (count ≡ 0) (λ c. (c ≡ count) × (0 < count)) }
{
    if count == 0 {
        return None;
    }
    Some(count)
}

/// One step of a walk: takes the records with the entry `entry`, the greatest one, with `after`
/// entries to come after it. If the label is then complete, returns its count; otherwise the steps
/// of these records make a further level.
fn lower<S: Copy, P: Prefixes<S>>(
    rule: &P,
    after: usize,
    levels: &mut Vec<(Vec<Record<S>>, u16)>,
    records: Vec<Record<S>>,
    entry: u16,
    scratch: &mut Scratch<S>,
) -> Result<Option<u128>, NoMemory>
    requires last { IsLast entry records.items }
    requires sound { AreSound (λ n x. AreRecords (P.is_state rule.now n) (P.end rule.now) x.items)
        (length levels.old.items + (after + 1)) (levels.old.items ++ (records, entry) ∷ []) }
    ensures sound { OnOk result
        (AreSound (λ n x. AreRecords (P.is_state rule.now n) (P.end rule.now) x.items)
        (length levels.old.items + (after + 1)) levels.new.items) }
    ensures next { IfOk result (λ count.
        rest_at (λ n x. terms_of (P.ways rule.now) (P.end rule.now) n x.items)
        (length levels.old.items + (after + 1)) (levels.old.items ++ (records, entry) ∷ [])
        ≡ option_to_list (option_map (λ c. (entries_of levels.new.items, c)) count)
        ++ rest_at (λ n x. terms_of (P.ways rule.now) (P.end rule.now) n x.items)
        (length levels.old.items + (after + 1)) levels.new.items) }
    ensures capped { IfOk result (λ count. IfSome count (λ c. c ≤ 2 ^ 127)) }
    ensures less { OnOk result (work_left (λ x. top_of x.items) (P.end rule.now)
        (length levels.old.items + (after + 1)) levels.new.items
        < work_left (λ x. top_of x.items) (P.end rule.now)
        (length levels.old.items + (after + 1)) (levels.old.items ++ (records, entry) ∷ [])) }
{
    let mut records = records;
    if after == 0 {
        let total = take_total(&mut records, entry);
        levels.push((records, entry))?;
        return Ok(if_positive(total));
    }
    let mut next = scratch.list();
    take_steps(rule, after - 1, entry, &mut records, &mut next, scratch)?;
    records::sort(&mut next);
    levels.push((records, entry))?;
    levels.push((next, entry))?;
    Ok(None)
}

/// The steps of a walk up to the next label, whose entries the levels then have; its count. `None`
/// if there is no further label.
pub(crate) fn advance<S: Copy, P: Prefixes<S>>(
    rule: &P,
    len: usize,
    levels: &mut Vec<(Vec<Record<S>>, u16)>,
    scratch: &mut Scratch<S>,
) -> Result<Option<u128>, NoMemory>
    requires sound { AreSound (λ n x. AreRecords (P.is_state rule.now n) (P.end rule.now) x.items)
        len levels.old.items }
    ensures sound { OnOk result
        (AreSound (λ n x. AreRecords (P.is_state rule.now n) (P.end rule.now) x.items)
        len levels.new.items) }
    ensures next { IfOk result (λ count.
        rest_at (λ n x. terms_of (P.ways rule.now) (P.end rule.now) n x.items) len levels.old.items
        ≡ option_to_list (option_map (λ c. (entries_of levels.new.items, c)) count)
        ++ rest_at (λ n x. terms_of (P.ways rule.now) (P.end rule.now) n x.items) len levels.new.items) }
    ensures ended { IfOk result (λ count. IsNone count → levels.new.items ≡ []) }
    ensures capped { IfOk result (λ count. IfSome count (λ c. c ≤ 2 ^ 127)) }
{
    while let Some((records, _)) = levels.pop() {
        let after = len - 1 - levels.len();
        let Some(entry) = records::last_entry(&records) else {
            scratch.spare.push(records)?;
            continue;
        };
        if let Some(count) = lower(rule, after, levels, records, entry, scratch)? {
            return Ok(Some(count));
        }
    }
    Ok(None)
}
