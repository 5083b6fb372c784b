//! The lister of the terms of an expansion, by the prefixes of the labels.
ghost use Rattle.std.specs.Prelude.{◌≡◌, ◌++◌, ◌↔◌, ◌^◌, ◌<◌, ◌≤◌, ℕ, List, [], Some, None, IsTrue};
ghost use Rattle.std.specs.Prelude.{IsSome, Option, OnOk, OnErr, IfOk, IfSome, IsNone};
ghost use Rattle.std.specs.Option.{option_to_list, option_map};
ghost use Rattle.std.specs.Bool.{OnFalse};
ghost use Rattle.prefix_walk.specs.Terms.{terms_below};
ghost use Rattle.prefix_walk.specs.Levels.{at_most_cap, entries_of, terms_of, rest_at, AreSound};
ghost use Rattle.prefix_walk.specs.Levels.{AreRecords};

use crate::prefixes::Prefixes;
use crate::records::Record;
use crate::steps::{self, Scratch};
use calc_base::NoMemory;
use std::alloc::Global;
use std::marker::Model;

/// The terms of an expansion, labels with counts, listed depth first over the prefixes of the
/// labels. If memory runs out, there is no further term.
#[derive(Drop)]
pub struct Walk<S: Copy, P: Prefixes<S> + Drop> {
    rule: P,
    /// The number of entries of a label.
    len: usize,
    /// For each entry of the current label the entry, and the records that are still to come there.
    levels: Vec<(Vec<Record<S>>, u16)>,
    scratch: Scratch<S>,
    label: Vec<u16>,
    count: Option<u128>,
}

impl<S: Copy, P: Prefixes<S> + Drop> Model for Walk<S, P> {
    ghost use Rattle.std.specs.Prelude.{◌≤◌, ◌^◌, IfSome};
    ghost use Rattle.std.specs.Option.{option_map};
    ghost use Rattle.prefix_walk.specs.Walking.{Walking};
    ghost use Rattle.prefix_walk.specs.Levels.{terms_of, rest_at, AreSound, AreRecords};

    ghost Value = { Walking };

    ghost view = { λ w. record {
      rest = rest_at (λ n x. terms_of (P.ways w.rule) (P.end w.rule) n x.items) w.len w.levels.items;
      item = option_map (λ c. (w.label.items, c)) w.count;
    } };

    ghost invariant = { λ w.
        AreSound (λ n x. AreRecords (P.is_state w.rule n) (P.end w.rule) x.items) w.len w.levels.items
        × IfSome w.count (λ c. c ≤ 2 ^ 127) };
}

impl<S: Copy, P: Prefixes<S> + Drop> Walk<S, P> {
    /// The lister of all labels of `len` entries that complete the state `start`, in decreasing
    /// lexicographic order, each once, with its count, capped at 2^127.
    pub fn new(alloc: Global, rule: P, start: S, len: usize) -> Result<Walk<S, P>, NoMemory>
        requires some { 0 < len }
        requires start { P.is_state rule len start }
        ensures rest { IfOk result (λ w. w.rest
            ≡ terms_below (P.end rule) len (λ label. at_most_cap (P.ways rule len start label))) }
        ensures item { IfOk result (λ w. w.item ≡ None) }
    {
        let mut scratch: Scratch<S> = Scratch::new(alloc, len)?;
        let first = steps::first_records(&rule, len - 1, &start, &mut scratch)?;
        let mut levels: Vec<(Vec<Record<S>>, u16)> = Vec::with_capacity(alloc, len)?;
        levels.push((first, 0))?;
        Ok(Walk {
            rule,
            len,
            levels,
            scratch,
            label: Vec::with_capacity(alloc, len)?,
            count: None,
        })
    }

    /// Makes the next term the current one. Returns false if and only if there was no further term.
    pub fn advance(&mut self) -> Result<bool, NoMemory>
        ensures next { OnOk result (self.old.rest ≡ option_to_list self.new.item ++ self.new.rest) }
        ensures found { IfOk result (λ found. IsTrue found ↔ IsSome self.new.item) }
        ensures ended { IfOk result (λ found. OnFalse found (self.old.rest ≡ [])) }
        ensures failed { OnErr result ((self.new.item ≡ None) × (self.new.rest ≡ [])) }
    {
        self.count = None;
        match next_count(
            &self.rule,
            self.len,
            &mut self.levels,
            &mut self.scratch,
            &mut self.label,
        ) {
            Ok(count) => {
                self.count = count;
                Ok(count.is_some())
            }
            Err(error) => {
                self.levels.clear();
                Err(error)
            }
        }
    }

    /// The label and the count of the current term.
    pub fn current(&self) -> (&[u16], u128)
        requires { IsSome self.now.item }
        ensures term { self.now.item ≡ Some (result.0.now, result.1) }
        ensures within { result.1 ≤ 2 ^ 127 }
    {
        (&self.label, self.count.unwrap_or(0))
    }
}

/// Moves to the next label, writes it, and returns its count; `None` if there is no further label.
fn next_count<S: Copy, P: Prefixes<S>>(
    rule: &P,
    len: usize,
    levels: &mut Vec<(Vec<Record<S>>, u16)>,
    scratch: &mut Scratch<S>,
    label: &mut Vec<u16>,
) -> Result<Option<u128>, NoMemory>
    requires sound { AreSound (λ n x. AreRecords (P.is_state rule.now n) (P.end rule.now) x.items)
        len levels.old.items }
    ensures sound { OnOk result
        (AreSound (λ n x. AreRecords (P.is_state rule.now n) (P.end rule.now) x.items)
        len levels.new.items) }
    ensures next { IfOk result (λ count.
        rest_at (λ n x. terms_of (P.ways rule.now) (P.end rule.now) n x.items) len levels.old.items
        ≡ option_to_list (option_map (λ c. (label.new.items, c)) count)
        ++ rest_at (λ n x. terms_of (P.ways rule.now) (P.end rule.now) n x.items) len levels.new.items) }
    ensures ended { IfOk result (λ count. IsNone count → levels.new.items ≡ []) }
    ensures capped { IfOk result (λ count. IfSome count (λ c. c ≤ 2 ^ 127)) }
{
    let count = steps::advance(rule, len, levels, scratch)?;
    write_label(levels, label)?;
    Ok(count)
}

/// Writes the current entries of the levels.
fn write_label<N>(levels: &[(N, u16)], label: &mut Vec<u16>) -> Result<(), NoMemory>
    ensures { OnOk result (label.new.items ≡ entries_of levels.now) }
{
    label.clear();
    for (_, entry) in levels {
        label.push(*entry)?;
    }
    Ok(())
}
