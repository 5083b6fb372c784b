//! Labels of the terms of a printed block, which has one line for each term, read back from their
//! texts. A label is, for example, a partition, a permutation or a monomial.
ghost use Rattle.std.specs.Prelude.{◌≡◌, ◌^◌, ◌<◌, ℕ, List, false, IfOk, MatchOption, SomeIff};
ghost use Rattle.sym_model.specs.Kind.{LabelRules, label_rules, expansion, pairs, powers};
ghost use Rattle.sym_model.specs.Kind.{permutations, polynomial, shifts};
ghost use Rattle.sym_model.specs.LabelLimits.{is_label, is_monomial_label, is_permutation_label};
ghost use Rattle.sym_model.specs.Partition.{without_last_zeros};
ghost use Rattle.sym_model.specs.Permutation.{kept};
ghost use Rattle.sym_model.specs.NumberText.{decimal_value, label_of};

use crate::cutting::{after_first, after_first_two, cut};
use crate::lists::list_of;
use crate::numbers::number_of;
use calc_base::NoMemory;
use linear_combinations::Label;
use partitions::{PartFault, Partition};
use perm_codes::{Perm, PermFault};
use sparse_polys::{MonoFault, Monomial, Pair, Power, Shifted};
use std::alloc::Global;

/// Labels that can be read back from a block.
pub(crate) trait Spelled: Label {
    // The rules by which these labels are printed in a block and read back.
    ghost line_rules: { LabelRules Self };

    /// The label that the text after a coefficient spells, or `None` if the text spells no label
    /// within the limits.
    fn spelled(alloc: Global, text: &[u8]) -> Result<Option<Self>, NoMemory>
        ensures { IfOk result (λ found. MatchOption found
            (Self.is_label (line_rules.spelled text.now) ≡ false)
            (λ label. label ≡ line_rules.spelled text.now)) };
}

impl Spelled for Partition {
    ghost line_rules = { label_rules expansion };

    fn spelled(alloc: Global, text: &[u8]) -> Result<Option<Partition>, NoMemory> {
        shape_of(alloc, after_first_two(text))
    }
}

impl Spelled for Pair {
    ghost line_rules = { label_rules pairs };

    fn spelled(alloc: Global, text: &[u8]) -> Result<Option<Pair>, NoMemory> {
        let (first, rest) = cut(after_first_two(text), b' ');
        let Some(first) = shape_of(alloc, first)? else {
            return Ok(None);
        };
        let Some(second) = shape_of(alloc, after_first(rest))? else {
            return Ok(None);
        };
        Ok(Some(Pair { first, second }))
    }
}

impl Spelled for Power {
    ghost line_rules = { label_rules powers };

    fn spelled(alloc: Global, text: &[u8]) -> Result<Option<Power>, NoMemory> {
        let (power, rest) = cut(after_first_two(after_first_two(text)), b' ');
        let Some(power) = power_of(power) else {
            return Ok(None);
        };
        let Some(shape) = shape_of(alloc, after_first_two(rest))? else {
            return Ok(None);
        };
        Ok(Some(Power { power, shape }))
    }
}

impl Spelled for Perm {
    ghost line_rules = { label_rules permutations };

    fn spelled(alloc: Global, text: &[u8]) -> Result<Option<Perm>, NoMemory> {
        labelled_permutation(alloc, after_first_two(text))
    }
}

impl Spelled for Monomial {
    ghost line_rules = { label_rules polynomial };

    fn spelled(alloc: Global, text: &[u8]) -> Result<Option<Monomial>, NoMemory> {
        labelled_monomial(alloc, after_first_two(text))
    }
}

impl Spelled for Shifted {
    ghost line_rules = { label_rules shifts };

    fn spelled(alloc: Global, text: &[u8]) -> Result<Option<Shifted>, NoMemory> {
        let (perm, rest) = cut(after_first_two(text), b' ');
        let Some(perm) = labelled_permutation(alloc, perm)? else {
            return Ok(None);
        };
        let Some(y) = labelled_monomial(alloc, after_first(rest))? else {
            return Ok(None);
        };
        Ok(Some(Shifted { perm, y }))
    }
}

/// The partition that the text of a label spells, or `None` if its numbers are no partition within
/// the limits.
fn shape_of(alloc: Global, label: &[u8]) -> Result<Option<Partition>, NoMemory>
    ensures { IfOk result (λ found.
        MatchOption found (is_label (label_of label.now) ≡ false)
        (λ shape. shape ≡ label_of label.now)) }
{
    match list_of(alloc, label)? {
        Some(parts) => partition_of(alloc, &parts),
        None => Ok(None),
    }
}

/// The partition with these parts, or `None` if they are no partition within the limits.
fn partition_of(alloc: Global, parts: &[u16]) -> Result<Option<Partition>, NoMemory>
    ensures { IfOk result (λ found.
        MatchOption found (is_label parts.now ≡ false) (λ shape. shape ≡ parts.now)) }
{
    match Partition::from_parts(alloc, parts) {
        Ok(shape) => Ok(whole_shape(shape, parts)),
        Err(PartFault::TooMany) => Ok(None),
        Err(PartFault::Rising { .. }) => Ok(None),
        Err(PartFault::TooBig) => Ok(None),
        Err(PartFault::NoMemory) => Err(NoMemory),
    }
}

/// `shape`, which is `parts` without the zeros at the end, or `None` if `parts` has such zeros.
fn whole_shape(shape: Partition, parts: &[u16]) -> Option<Partition>
    requires { shape ≡ without_last_zeros parts.now }
    ensures { MatchOption result (is_label parts.now ≡ false) (λ shape. shape ≡ parts.now) }
{
    if shape.parts() == parts {
        return Some(shape);
    }
    None
}

/// The permutation that the text of a label spells; `None` unless its numbers are a permutation
/// that is within the limits and has no fixed letters at its end.
fn labelled_permutation(alloc: Global, label: &[u8]) -> Result<Option<Perm>, NoMemory>
    ensures { IfOk result (λ found.
        MatchOption found (is_permutation_label (label_of label.now) ≡ false)
        (λ w. w ≡ label_of label.now)) }
{
    match list_of(alloc, label)? {
        Some(letters) => permutation_of(alloc, &letters),
        None => Ok(None),
    }
}

/// The permutation with these letters; `None` unless they are a permutation that is within the
/// limits and has no fixed letters at its end.
fn permutation_of(alloc: Global, letters: &[u16]) -> Result<Option<Perm>, NoMemory>
    ensures { IfOk result (λ found.
        MatchOption found (is_permutation_label letters.now ≡ false) (λ w. w ≡ letters.now)) }
{
    match Perm::from_letters(alloc, letters) {
        Ok(w) => Ok(whole_permutation(w, letters)),
        Err(PermFault::Empty) => Ok(None),
        Err(PermFault::TooMany) => Ok(None),
        Err(PermFault::Letter { .. }) => Ok(None),
        Err(PermFault::NoMemory) => Err(NoMemory),
    }
}

/// `w`, which is `letters` without the fixed letters at the end (`kept`), or `None` if `w` is
/// shorter than `letters`.
fn whole_permutation(w: Perm, letters: &[u16]) -> Option<Perm>
    requires { w ≡ kept letters.now }
    ensures { MatchOption result (is_permutation_label letters.now ≡ false) (λ w. w ≡ letters.now) }
{
    if w.letters().len() == letters.len() {
        return Some(w);
    }
    None
}

/// The monomial that the text of a label spells, or `None` if its exponents exceed the limits or
/// end in a zero.
fn labelled_monomial(alloc: Global, label: &[u8]) -> Result<Option<Monomial>, NoMemory>
    ensures { IfOk result (λ found.
        MatchOption found (is_monomial_label (label_of label.now) ≡ false)
        (λ m. m ≡ label_of label.now)) }
{
    match list_of(alloc, label)? {
        Some(exponents) => monomial_of(alloc, &exponents),
        None => Ok(None),
    }
}

/// The monomial with these exponents, or `None` if they exceed the limits or end in a zero.
fn monomial_of(alloc: Global, exponents: &[u16]) -> Result<Option<Monomial>, NoMemory>
    ensures { IfOk result (λ found.
        MatchOption found (is_monomial_label exponents.now ≡ false) (λ m. m ≡ exponents.now)) }
{
    match Monomial::from_exponents(alloc, exponents) {
        Ok(m) => Ok(whole_monomial(m, exponents)),
        Err(MonoFault::TooMany) => Ok(None),
        Err(MonoFault::TooBig) => Ok(None),
        Err(MonoFault::NoMemory) => Err(NoMemory),
    }
}

/// `m`, which is `exponents` without the zeros at the end, or `None` if `exponents` has such zeros.
fn whole_monomial(m: Monomial, exponents: &[u16]) -> Option<Monomial>
    requires { m ≡ without_last_zeros exponents.now }
    ensures { MatchOption result (is_monomial_label exponents.now ≡ false)
        (λ m. m ≡ exponents.now) }
{
    if m.exponents() == exponents {
        return Some(m);
    }
    None
}

/// The value of a text of decimal digits, if it is below 2^32.
fn power_of(digits: &[u8]) -> Option<u32>
    ensures { SomeIff result (decimal_value digits.now < 2 ^ 32) (decimal_value digits.now) }
{
    u32::try_from(number_of(digits)?).ok()
}
