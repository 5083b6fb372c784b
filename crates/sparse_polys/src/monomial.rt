//! The type `Monomial`: the exponents of a monomial, without zeros at the end.
ghost use Rattle.std.specs.Prelude.{◌≡◌, ℕ, ◌+◌, ◌^◌, ◌<◌, ◌≤◌, ◌↔◌, [], length, slice_index};
ghost use Rattle.std.specs.Prelude.{slice_index_or, slice_set, nat_eq, IsOk, IfOk, OnOk, IsErrOf};
ghost use Rattle.std.specs.Cmp.{partial_equiv_from_equiv};
ghost use Rattle.std.specs.Cmp.Lexicographic.{pointwise, nat_list_eq_equiv};
ghost use Rattle.std.specs.Hash as fed;
ghost use Rattle.std.specs.Cmp.Rules.{hashing};
ghost use Rattle.std.proofs.Common.{rules};
ghost use Rattle.sym_model.specs.Partition.{size, without_last_zeros};
ghost use Rattle.sym_model.specs.Polynomial.{join};
ghost use Rattle.sym_model.specs.PrintedOrder.{printed_order};
ghost use Rattle.sparse_polys.specs.Limits.{HasDegree, IsWithinLimits};
ghost use Rattle.sparse_polys.specs.Raised.{raised};

use crate::MonoFault;
use calc_base::NoMemory;
use partitions::{number_at, numbers_before_zeros, sum_of_numbers};
use smallvec::SmallVec;
use std::alloc::{AllocError, Global};
use std::cmp::Ordering;
use std::hash::{Hash, Hasher};
use std::marker::Model;

/// The greatest number of exponents of a monomial; its greatest degree is `MAX_DEGREE`.
const MAX_EXPONENTS: usize = 255;

const MAX_DEGREE: u32 = 32385;

/// The exponents of a monomial. Up to 16 exponents allocate no memory.
type Exponents = SmallVec<u16, 16>;

/// A monomial: its exponents without the zeros at their end. It has at most 255 exponents and a
/// degree of at most 32,385. Up to 16 exponents allocate no memory.
#[derive(Debug, Drop)]
pub struct Monomial {
    exponents: Exponents,
    // The sum of the exponents.
    degree: u16,
}

impl Model for Monomial {
    ghost use Rattle.std.specs.Prelude.{ℕ, List};
    ghost use Rattle.sparse_polys.specs.Limits.{HasDegree};

    ghost Value = { List ℕ };

    ghost view = { λ m. m.exponents.items };

    ghost invariant = { λ m. HasDegree m.exponents.items m.degree };
}

impl Monomial {
    /// The monomial with these exponents, without the zeros at the end.
    ///
    /// Returns `TooMany` if more than 255 exponents are left, otherwise `TooBig` if their sum
    /// exceeds 32,385. Up to 16 exponents allocate no memory.
    pub fn from_exponents(alloc: Global, exponents: &[u16]) -> Result<Monomial, MonoFault>
        ensures ok { IfOk result (λ m. m ≡ without_last_zeros exponents.now) }
        ensures limits { OnOk result (IsWithinLimits (without_last_zeros exponents.now)) }
        ensures too_many { IsErrOf result MonoFault.TooMany
            ↔ (255 < length (without_last_zeros exponents.now)) }
        ensures too_big { IsErrOf result MonoFault.TooBig
            ↔ ((length (without_last_zeros exponents.now) ≤ 255)
            × (32385 < size (without_last_zeros exponents.now))) }
        ensures inline { length (without_last_zeros exponents.now) ≤ 16
            → ¬ IsErrOf result MonoFault.NoMemory }
    {
        let exponents = numbers_before_zeros(exponents);
        if exponents.len() > MAX_EXPONENTS {
            return Err(MonoFault::TooMany);
        }
        let degree = sum_of_numbers(exponents);
        if degree > MAX_DEGREE {
            return Err(MonoFault::TooBig);
        }
        Ok(with_degree(alloc, exponents, degree as u16)?)
    }

    /// The monomial 1. It allocates no memory.
    pub fn one(alloc: Global) -> Monomial
        ensures { result ≡ [] }
    {
        Monomial {
            exponents: SmallVec::new(alloc),
            degree: 0,
        }
    }

    /// The product of this monomial and the variable x_r, for r from 1 to 255. The degree of this
    /// monomial must be below 32,385. Up to 16 exponents allocate no memory.
    pub fn times_var(&self, r: u16) -> Result<Monomial, NoMemory>
        requires first { 1 ≤ r }
        requires last { r ≤ 255 }
        requires room { size self.now < 32385 }
        ensures { IfOk result (λ m. m ≡ raised r self.now) }
    {
        let mut exponents = SmallVec::from_slice(*self.exponents.allocator(), self.exponents())?;
        raise(&mut exponents, usize::from(r) - 1)?;
        Ok(Monomial {
            exponents,
            degree: self.degree + 1,
        })
    }

    /// The product of this monomial and `other`. The product must have a degree of at most 32,385.
    /// Up to 16 exponents allocate no memory.
    pub fn times(&self, other: &Monomial) -> Result<Monomial, NoMemory>
        requires { IsWithinLimits (join self.now other.now) }
        ensures { IfOk result (λ m. m ≡ join self.now other.now) }
    {
        let alloc = *self.exponents.allocator();
        Ok(Monomial {
            exponents: joined(alloc, self.exponents(), other.exponents())?,
            degree: self.degree + other.degree,
        })
    }

    /// The exponents, without zeros at the end.
    pub fn exponents(&self) -> &[u16]
        ensures value { result.now ≡ self.now }
        ensures limits { IsWithinLimits self.now }
    {
        self.exponents.as_slice()
    }

    /// The degree: the sum of the exponents.
    pub fn degree(&self) -> u16
        ensures value { result ≡ size self.now }
        ensures limits { IsWithinLimits self.now }
    {
        self.degree
    }

    /// Compares this monomial with `other` in the printed order: the greater degree first, and for
    /// equal degrees decreasing lexicographic order of the exponents. The result is `Equal` only if
    /// the two monomials are equal.
    pub fn cmp_printed(&self, other: &Monomial) -> Ordering
        ensures value { result ≡ printed_order self.now other.now }
        ensures equal { result ≡ Ordering.Equal → self.now ≡ other.now }
        ensures limits { IsWithinLimits self.now }
    {
        other
            .degree()
            .cmp(&self.degree())
            .then(other.exponents().cmp(&self.exponents()))
    }

    /// A copy of this monomial. Up to 16 exponents allocate no memory.
    pub fn copy(&self) -> Result<Monomial, NoMemory>
        ensures ok { IfOk result (λ copy. copy ≡ self.now) }
        ensures inline { length self.now ≤ 16 → IsOk result }
    {
        with_degree(*self.exponents.allocator(), self.exponents(), self.degree)
    }
}

impl PartialEq for Monomial {
    ghost eq = { pointwise nat_eq };

    ghost laws = { partial_equiv_from_equiv nat_list_eq_equiv };

    fn eq(&self, other: &Monomial) -> bool {
        self.exponents() == other.exponents()
    }
}

impl Eq for Monomial {
    ghost laws = { nat_list_eq_equiv };
}

impl Hash for Monomial {
    ghost hash_input = { fed.slice fed.u16 };

    ghost respects_eq = { Prim.search (hashing, rules) };

    fn hash<H: Hasher>(&self, state: &mut H) {
        self.exponents().hash(state);
    }
}

/// The monomial with these exponents, whose sum is `degree`.
fn with_degree(alloc: Global, exponents: &[u16], degree: u16) -> Result<Monomial, NoMemory>
    requires { HasDegree exponents.now degree }
    ensures ok { IfOk result (λ m. m ≡ exponents.now) }
    ensures inline { length exponents.now ≤ 16 → IsOk result }
{
    Ok(Monomial {
        exponents: SmallVec::from_slice(alloc, exponents)?,
        degree,
    })
}

/// The list that has at each index the sum of the numbers of `first` and `second` at this index.
/// After its end, a list is continued by zeros.
fn joined(alloc: Global, first: &[u16], second: &[u16]) -> Result<Exponents, AllocError>
    requires { size (join first.now second.now) < 2 ^ 16 }
    ensures { IfOk result (λ sums. sums.items ≡ join first.now second.now) }
{
    let mut sums = SmallVec::new(alloc);
    for at in 0..first.len().max(second.len()) {
        sums.push(number_at(first, at) + number_at(second, at))?;
    }
    Ok(sums)
}

/// Adds 1 to the exponent at the index `at`, counted from 0; if the list ends before this index,
/// zeros are appended first.
fn raise(exponents: &mut Exponents, at: usize) -> Result<(), AllocError>
    requires place { at < 255 }
    requires small { size exponents.old.items < 32385 }
    ensures { OnOk result (exponents.new.items ≡ raised (at + 1) exponents.old.items) }
{
    while exponents.len() <= at {
        exponents.push(0)?;
    }
    add_one(exponents.as_mut_slice(), at);
    Ok(())
}

/// Adds 1 to the number at the index `at`.
fn add_one(numbers: &mut [u16], at: usize)
    requires inside { at < length numbers.old }
    requires small { slice_index numbers.old at < 65535 }
    ensures { numbers.new ≡ slice_set numbers.old at (slice_index numbers.old at + 1) }
{
    numbers[at] += 1;
}
