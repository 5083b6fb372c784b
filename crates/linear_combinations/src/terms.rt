//! Lists of terms in the printed order.
ghost use Rattle.std.specs.Prelude.{◌≡◌, ◌↔◌, [], length, slice_get, IsTrue};
ghost use Rattle.std.specs.Option.{option_map, option_copied, SomeIff};
ghost use Rattle.std.specs.Slice.Iter.{iter_rest};
ghost use Rattle.std.specs.Vec.Iter.{into_iter_items};
ghost use Rattle.linear_combinations.specs.Entries.{is_canonical_list, IsCanonicalList, is_later};
ghost use Rattle.linear_combinations.specs.Entries.{is_next};

use crate::label::{Label, lies_in_limits};
use coeff_rings::Scalar;
use std::cmp::Ordering;
use std::marker::Model;
use std::{slice, vec};

/// The terms of a finite map, in the order in which labels are printed, each label once. In
/// contracts, it is the list of the labels with their coefficients.
#[derive(Drop)]
pub struct Terms<L: Label, R: Scalar> {
    pairs: Vec<(L, R)>,
}

impl<L: Label, R: Scalar> Model for Terms<L, R> {
    ghost use Rattle.std.specs.Prelude.{List};
    ghost use Rattle.linear_combinations.specs.Entries.{IsCanonicalList};

    ghost Value = { List (L × R) };

    ghost view = { λ t. t.pairs.items };

    ghost invariant = { λ t. IsCanonicalList L.order L.is_label R.value t.pairs.items };
}

impl<L: Label, R: Scalar> Terms<L, R> {
    /// The list of these pairs; `None` if and only if the labels are not in strictly increasing
    /// printed order, or some coefficient is 0.
    pub fn from_pairs(pairs: Vec<(L, R)>) -> Option<Terms<L, R>>
        ensures { SomeIff result (IsCanonicalList L.order L.is_label R.value pairs.items)
            pairs.items }
    {
        if are_canonical(&pairs) {
            Some(Terms::from_sorted(pairs))
        } else {
            None
        }
    }

    /// The list of these pairs. The caller guarantees that it is canonical: the labels are in
    /// strictly increasing printed order, and no coefficient is 0.
    pub(crate) fn from_sorted(pairs: Vec<(L, R)>) -> Terms<L, R>
        requires { IsCanonicalList L.order L.is_label R.value pairs.items }
        ensures { result ≡ pairs.items }
    {
        Terms { pairs }
    }

    /// The number of terms.
    pub fn len(&self) -> usize
        ensures len { result ≡ length self.now }
        ensures canonical { IsCanonicalList L.order L.is_label R.value self.now }
    {
        self.pairs.len()
    }

    /// Whether there are no terms.
    pub fn is_empty(&self) -> bool
        ensures { IsTrue result ↔ (length self.now ≡ 0) }
    {
        self.len() == 0
    }

    /// The label and the coefficient of the term at an index, counted from 0; `None` if and only if
    /// there is no such term.
    pub fn get(&self, i: usize) -> Option<(&L, R)>
        ensures term { option_map (λ t. (t.0.now, t.1)) result ≡ slice_get self.now i }
        ensures canonical { IsCanonicalList L.order L.is_label R.value self.now }
    {
        let (label, c) = self.pairs.get(i)?;
        Some((label, *c))
    }

    /// An iterator over the labels with their coefficients, in the printed order.
    pub fn iter(&self) -> slice::Iter<'_, (L, R)>
        ensures rest { iter_rest result ≡ self.now }
        ensures canonical { IsCanonicalList L.order L.is_label R.value self.now }
    {
        self.pairs.iter()
    }
}

impl<L: Label, R: Scalar> IntoIterator for Terms<L, R> {
    type Item = (L, R);

    type IntoIter = vec::IntoIter<(L, R)>;

    ghost into_iter_gives = { λ t it. into_iter_items it ≡ t };

    fn into_iter(self) -> Self::IntoIter {
        self.pairs.into_iter()
    }
}

/// Whether the labels of the pairs are in strictly increasing printed order and no coefficient is
/// 0.
fn are_canonical<L: Label, R: Scalar>(pairs: &[(L, R)]) -> bool
    ensures { result ≡ is_canonical_list L.order L.is_label R.value pairs.now }
{
    let mut previous: Option<&L> = None;
    for (label, c) in pairs {
        if !may_follow(previous, label, *c) {
            return false;
        }
        previous = Some(label);
    }
    true
}

/// Whether the term of `label` and `c` may follow a term with the label `previous` in a list with
/// increasing labels and no coefficient 0: `c` is not 0, and `label` comes strictly after
/// `previous`, if there is a previous label.
fn may_follow<L: Label, R: Scalar>(previous: Option<&L>, label: &L, c: R) -> bool
    ensures { result ≡ is_next L.order L.is_label R.value (option_copied previous.entry)
        (label.now, c) }
{
    lies_in_limits(label);
    stands_later(previous, label) && !c.is_zero()
}

/// Whether `label` comes strictly after the label `previous` in the printed order, or there is no
/// previous label.
fn stands_later<L: Label>(previous: Option<&L>, label: &L) -> bool
    ensures { result ≡ is_later L.order (option_copied previous.entry) label.now }
{
    match previous {
        Some(previous) => previous.cmp_printed(label) == Ordering::Less,
        None => true,
    }
}
