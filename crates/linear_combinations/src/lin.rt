//! Finite linear combinations of labels.
ghost use Rattle.std.specs.Prelude.{◌≡◌, ◌≢◌, ◌<◌, ◌↔◌, ◌⊎◌, [], Some, None, length, slice_get};
ghost use Rattle.std.specs.Prelude.{IsTrue, IfOk, OnOk, OnErr, IsErrOf, pos};
ghost use Rattle.fraction_laws.specs.Fractions.{whole};
ghost use Rattle.std.specs.Prelude.{IsSorted};
ghost use Rattle.indexmap.specs.IndexMap.{index_map_len, get, IsUnique, Updates};
ghost use Rattle.indexmap.specs.Layout.{set_value_at};
ghost use Rattle.std.specs.List.Sorted.{IsPermutation};
ghost use Rattle.std.specs.Map.Iter.{ShowsInOrder, deref_pair};
ghost use Rattle.linear_combinations.specs.Entries.{coefficient, AreHeld, HasMoreAt};
ghost use Rattle.linear_combinations.specs.Entries.{HasSameCoefficients, IsCanonicalList};
ghost use Rattle.linear_combinations.specs.Entries.{IsCombination, IsMultipleOf, IsSumOf};
ghost use Rattle.linear_combinations.specs.Entries.{AreTables, IsRefused, IsTable, RefusesSomeProduct, RefusesSomeSum};

use crate::label::{Label, lies_in_limits};
use crate::terms::Terms;
use calc_base::{NoMemory, SumFault};
use coeff_rings::{Ring, Scalar};
use indexmap::IndexMap;
use indexmap::map::Iter;
use std::alloc::{AllocError, Global};
use std::marker::Model;

/// A finite map from labels to coefficients that are not 0. In contracts, it is a list of terms in
/// no particular order: each label once, with its coefficient.
#[derive(Drop)]
pub struct Lin<L: Label, R: Scalar> {
    table: IndexMap<L, R>,
}

impl<L: Label, R: Scalar> Model for Lin<L, R> {
    ghost use Rattle.std.specs.Prelude.{List};
    ghost use Rattle.linear_combinations.specs.Entries.{IsTable};

    ghost Value = { List (L × R) };

    ghost view = { λ m. m.table.entries };

    ghost invariant = { λ m. IsTable L.eq L.is_label R.zero R.value R.is_held m.table.entries };
}

impl<L: Label, R: Scalar> Lin<L, R> {
    /// The empty map. It allocates no memory.
    pub fn new(alloc: Global) -> Lin<L, R>
        ensures { result ≡ [] }
    {
        Lin {
            table: IndexMap::new(alloc),
        }
    }

    /// The coefficient of a label; 0 if the label does not occur.
    pub fn coefficient(&self, label: &L) -> R
        ensures value { result ≡ coefficient L.eq R.zero self.now label.now }
        ensures combination { IsCombination L.eq L.is_label R.value self.now }
    {
        match self.table.get(label) {
            Some(c) => *c,
            None => R::zero(),
        }
    }

    /// The number of terms.
    pub fn len(&self) -> usize
        ensures len { result ≡ length self.now }
        ensures combination { IsCombination L.eq L.is_label R.value self.now }
        ensures held { AreHeld L.eq R.zero R.is_held self.now }
    {
        self.table.len()
    }

    /// Whether there are no terms.
    pub fn is_empty(&self) -> bool
        ensures { IsTrue result ↔ (length self.now ≡ 0) }
    {
        self.len() == 0
    }

    /// Adds `c` to the coefficient of `label`, and removes the label if the sum is 0.
    ///
    /// Returns `Large` if and only if the ring's checked addition has no result for `c` and the
    /// coefficient of `label`. On every error the map is unchanged.
    pub fn add_term(&mut self, label: L, c: R) -> Result<(), SumFault>
        ensures ok { OnOk result (HasMoreAt L.eq R.zero R.sum self.old label c self.new) }
        ensures large { IsErrOf result SumFault.Large
            ↔ IsRefused R.is_held R.checked_sum (coefficient L.eq R.zero self.old label) c }
        ensures err { OnErr result (self.new ≡ self.old) }
        ensures tables { AreTables L.eq L.is_label R.zero R.value R.is_held self.old self.new }
    {
        add_to(&mut self.table, label, c)
    }

    /// Adds `c` to the coefficient of `label`, and removes the label if the sum is 0. Returns
    /// `Large` if and only if the ring's checked addition has no result for this coefficient and
    /// `c`; on every error the map is unchanged. The label is copied only if it is new in the map,
    /// so no memory is allocated before `Large` is returned.
    pub(crate) fn add_copied(&mut self, label: &L, c: R) -> Result<(), SumFault>
        ensures ok { OnOk result (HasMoreAt L.eq R.zero R.sum self.old label.now c self.new) }
        ensures large { IsErrOf result SumFault.Large
            ↔ IsRefused R.is_held R.checked_sum (coefficient L.eq R.zero self.old label.now) c }
        ensures err { OnErr result (self.new ≡ self.old) }
        ensures tables { AreTables L.eq L.is_label R.zero R.value R.is_held self.old self.new }
    {
        let Some((at, _, had)) = self.table.get_full(label) else {
            insert_new(&mut self.table, label.copy()?, c)?;
            return Ok(());
        };
        let sum = had.add(c).ok_or(SumFault::Large)?;
        set_at(&mut self.table, at, sum);
        Ok(())
    }

    /// A copy: a map with the same coefficients.
    pub fn copy(&self) -> Result<Lin<L, R>, NoMemory>
        ensures same { IfOk result (HasSameCoefficients L.eq R.zero self.now) }
        ensures combination { IfOk result (IsCombination L.eq L.is_label R.value) }
    {
        let mut table = IndexMap::new(*self.table.allocator());
        for (label, c) in &self.table {
            table.insert(label.copy()?, *c)?;
        }
        Ok(Lin { table })
    }

    /// The sum of this map and the map `other`.
    ///
    /// Returns `Large` only if the ring's checked addition has no result for the two coefficients
    /// of some label. If there is such a label, the result is never `Ok`.
    pub fn add_all(mut self, other: &Lin<L, R>) -> Result<Lin<L, R>, SumFault>
        ensures sum { IfOk result (IsSumOf L.eq R.zero R.sum self other.now) }
        ensures combination { IfOk result (IsCombination L.eq L.is_label R.value) }
        ensures large { IsErrOf result SumFault.Large
            → RefusesSomeSum L.eq R.zero R.is_held R.checked_sum self other.now }
        ensures fits { OnOk result (¬ RefusesSomeSum L.eq R.zero R.is_held R.checked_sum self
            other.now) }
    {
        self.is_combination();
        for (label, c) in &other.table {
            self.add_term(label.copy()?, *c)?;
        }
        Ok(self)
    }

    /// The map with each coefficient multiplied by `c`. It allocates no memory.
    ///
    /// Returns `Large` if and only if the ring's checked multiplication has no result for some
    /// coefficient and `c`.
    pub fn scale(self, c: R) -> Result<Lin<L, R>, SumFault>
    where
        R: Ring,
        ensures product { IfOk result (IsMultipleOf L.eq R.zero R.product self c) }
        ensures combination { IfOk result (IsCombination L.eq L.is_label R.value) }
        ensures large { IsErrOf result SumFault.Large
            ↔ RefusesSomeProduct R.is_held R.checked_product self c }
        ensures inline { ¬ IsErrOf result SumFault.NoMemory }
    {
        let vanishes = c.is_zero();
        let Lin { mut table } = self;
        for at in 0..table.len() {
            let (_, a) = pair_at(&table, at);
            put_at(&mut table, at, a.mul(c).ok_or(SumFault::Large)?);
        }
        if vanishes {
            return Ok(Lin::new(*table.allocator()));
        }
        Ok(Lin { table })
    }

    /// The list of the terms in the printed order of the labels.
    pub fn sorted_terms(self) -> Result<Terms<L, R>, NoMemory>
        ensures same { IfOk result (HasSameCoefficients L.eq R.zero self) }
        ensures canonical { IfOk result (IsCanonicalList L.order L.is_label R.value) }
        ensures combination { IfOk result (IsCombination L.eq L.is_label R.value) }
        ensures was { IsCombination L.eq L.is_label R.value self }
        ensures held { IfOk result (AreHeld L.eq R.zero R.is_held) }
    {
        let Lin { table } = self;
        let alloc = *table.allocator();
        let mut pairs = pairs_of(alloc, table)?;
        sort_labels(&mut pairs);
        Ok(Terms::from_sorted(pairs))
    }

    /// An iterator over the labels with their coefficients, in the order of the list that
    /// represents the map in contracts.
    pub fn iter(&self) -> Iter<'_, L, R>
        ensures rest { result ≡ self.now }
        ensures runs { ShowsInOrder (deref_pair {K = L} {X = R}) }
        ensures combination { IsCombination L.eq L.is_label R.value self.now }
    {
        self.table.iter()
    }

    /// Does nothing at run time: its `ensures` clauses prove that each label occurs once in the
    /// map, with a coefficient that is not 0 and that the ring can hold.
    pub(crate) fn is_combination(&self)
        ensures combination { IsCombination L.eq L.is_label R.value self.now }
        ensures held { AreHeld L.eq R.zero R.is_held self.now }
    {
        let _ = self.table.len();
    }
}

/// Adds `c` to the coefficient of `label` in the table, and removes the label if the sum is 0. The
/// label is looked up once.
fn add_to<L: Label, R: Scalar>(table: &mut IndexMap<L, R>, label: L, c: R) -> Result<(), SumFault>
    requires { IsTable L.eq L.is_label R.zero R.value R.is_held table.old.entries }
    ensures ok { OnOk result (HasMoreAt L.eq R.zero R.sum table.old.entries label c
        table.new.entries) }
    ensures large { IsErrOf result SumFault.Large
        ↔ IsRefused R.is_held R.checked_sum (coefficient L.eq R.zero table.old.entries label) c }
    ensures err { OnErr result (table.new.entries ≡ table.old.entries) }
    ensures table { IsTable L.eq L.is_label R.zero R.value R.is_held table.new.entries }
{
    let (at, before) = table.insert_full(label, c)?;
    let Some(had) = before else {
        let (label, _) = pair_at(table, at);
        lies_in_limits(label);
        set_at(table, at, c);
        return Ok(());
    };
    let Some(sum) = had.add(c) else {
        put_at(table, at, had);
        return Err(SumFault::Large);
    };
    set_at(table, at, sum);
    Ok(())
}

/// Inserts the label `label`, which is not in the table, with the coefficient `c`, unless `c` is 0.
fn insert_new<L: Label, R: Scalar>(
    table: &mut IndexMap<L, R>,
    label: L,
    c: R,
) -> Result<(), NoMemory>
    requires table { IsTable L.eq L.is_label R.zero R.value R.is_held table.old.entries }
    requires new { get L.eq table.old label ≡ None }
    ensures ok { OnOk result (HasMoreAt L.eq R.zero R.sum table.old.entries label c
        table.new.entries) }
    ensures err { OnErr result (table.new.entries ≡ table.old.entries) }
    ensures table { IsTable L.eq L.is_label R.zero R.value R.is_held table.new.entries }
    ensures held { R.is_held c }
{
    if c.is_zero() {
        return Ok(());
    }
    lies_in_limits(&label);
    table.insert(label, c)?;
    Ok(())
}

/// Replaces the coefficient at the index `at` of a table by `c`, or removes the pair at this index
/// if `c` is 0.
fn set_at<L: Label, R: Scalar>(table: &mut IndexMap<L, R>, at: usize, c: R)
    requires { at < index_map_len table.old }
    ensures updates { (p : L × R) → slice_get table.old.entries at ≡ Some p
        → ((R.value c ≡ whole (pos 0)) × Updates L.eq table.old table.new p.0 None)
        ⊎ ((R.value c ≢ whole (pos 0)) × Updates L.eq table.old table.new p.0 (Some c)) }
    ensures unique { IsUnique L.eq table.new }
    ensures held { R.is_held c }
{
    if c.is_zero() {
        take_at(table, at);
    } else {
        put_at(table, at, c);
    }
}

/// The label and the coefficient at the index `at` of a table.
fn pair_at<L: Label, R: Scalar>(table: &IndexMap<L, R>, at: usize) -> (&L, R)
    requires { at < index_map_len table.now }
    ensures pair { slice_get table.now.entries at ≡ Some (result.0.now, result.1) }
    ensures found { get L.eq table.now result.0.now ≡ Some result.1 }
    ensures unique { IsUnique L.eq table.now }
{
    let _ = table.len();
    let (label, c) = table.get_index(at).unwrap();
    (label, *c)
}

/// Replaces the coefficient at the index `at` of a table by `c`.
fn put_at<L: Label, R: Scalar>(table: &mut IndexMap<L, R>, at: usize, c: R)
    requires { at < index_map_len table.old }
    ensures entries { table.new.entries ≡ set_value_at table.old.entries at c }
    ensures updates { (p : L × R) → slice_get table.old.entries at ≡ Some p
        → Updates L.eq table.old table.new p.0 (Some c) }
    ensures unique { IsUnique L.eq table.new }
{
    let _ = table.len();
    table[at] = c;
    let _ = table.len();
}

/// Removes the pair at the index `at` from a table.
fn take_at<L: Label, R: Scalar>(table: &mut IndexMap<L, R>, at: usize)
    ensures updates { (p : L × R) → slice_get table.old.entries at ≡ Some p
        → Updates L.eq table.old table.new p.0 None }
    ensures unique { IsUnique L.eq table.new }
{
    table.swap_remove_index(at);
}

/// Sorts the pairs by the printed order of their labels.
fn sort_labels<L: Label, R: Scalar>(pairs: &mut Vec<(L, R)>)
    ensures permutation { IsPermutation pairs.old.items pairs.new.items }
    ensures sorted { IsSorted (λ a b. L.order a.0 b.0) pairs.new.items }
{
    pairs.sort_unstable_by(|a, b| a.0.cmp_printed(&b.0));
}

/// The pairs of the table, in the order of its entries. No two of them have the same label.
fn pairs_of<L: Label, R: Scalar>(
    alloc: Global,
    table: IndexMap<L, R>,
) -> Result<Vec<(L, R)>, AllocError>
    ensures { IfOk result (λ pairs. pairs.items ≡ table.entries) }
{
    table.into_iter().collect(alloc)
}
