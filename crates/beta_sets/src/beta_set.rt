//! Partitions as sets of beta numbers.
ghost use Rattle.std.specs.Prelude.{◌≡◌, ◌+◌, ◌-◌, ◌*◌, ◌^◌, ◌<◌, ◌≤◌, ℕ, true, false, List, []};
ghost use Rattle.std.specs.Prelude.{length};
ghost use Rattle.std.specs.Prelude.{IfOk, IsErrOf, MatchOption};
ghost use Rattle.sym_model.specs.Bases.{has};
ghost use Rattle.sym_model.specs.BetaList.{greater};
ghost use Rattle.sym_model.specs.Polynomial.{coefficient};
ghost use Rattle.fraction_laws.specs.Fractions.{lowest_terms};
ghost use Rattle.linear_combinations.specs.Gains.{Gains, Overflows, HaveLabels};
ghost use Rattle.partitions.specs.Limits.{IsWithinLimits};
ghost use Rattle.sparse_polys.specs.Tables.{equal, found, IsFractionTable, IsWholeTable};
ghost use Rattle.beta_sets.specs.BetaSets.{numbers, free, from_place, below_place, shape, shapes, in_rows};
ghost use Rattle.beta_sets.specs.BetaSets.{IsInRows, IsSplit};

use calc_base::{NoMemory, SumFault};
use coeff_rings::{Frac, Int, quotient_of};
use linear_combinations::{Label, Lin, Rule};
use partitions::Partition;
use smallvec::SmallVec;
use sparse_polys::Whole;
use std::alloc::Global;
use std::cmp::Ordering;
use std::marker::Model;

/// A partition λ as the set of its beta numbers λ_i + k - i, for i from 1 to k, for a number k of
/// rows that is at least the number of parts of λ. All beta numbers are below 64. If k is the
/// number of parts, they are the hook lengths of the first column. `digits` has the binary digit 1
/// at each beta number.
#[derive(Clone, Copy, PartialEq, Eq, Hash, Drop)]
pub struct BetaSet {
    digits: u64,
}

impl BetaSet {
    /// The empty set, which is that of the empty partition for 0 rows.
    pub fn empty() -> BetaSet
        ensures { result ≡ 0 }
    {
        BetaSet { digits: 0 }
    }

    /// The beta numbers of the empty partition for `rows` rows, at most 63: the set of 0, ..,
    /// `rows` - 1.
    pub fn staircase(rows: u16) -> BetaSet
        requires { rows < 64 }
        ensures { result + 1 ≡ 2 ^ rows }
    {
        BetaSet {
            digits: (1 << rows) - 1,
        }
    }

    /// The greatest number of the set, or `None` if it is empty.
    pub fn greatest(self) -> Option<u16>
        ensures { MatchOption result (self ≡ 0) (λ b. IsSplit self b (self - 2 ^ b)) }
    {
        if self.digits == 0 {
            return None;
        }
        Some(self.digits.ilog2() as u16)
    }

    /// The set without `number`, which must be one of its numbers.
    pub fn without(self, number: u16) -> BetaSet
        requires place { number < 64 }
        requires there { has number (numbers self) ≡ true }
        ensures { result ≡ self - 2 ^ number }
    {
        BetaSet {
            digits: self.digits - (1 << number),
        }
    }

    /// The number of beta numbers in the set.
    pub fn len(self) -> u32
        ensures { result ≡ length (numbers self) }
    {
        self.digits.count_ones()
    }

    /// The set of the numbers of this set, each increased by 1. The numbers of this set must be
    /// below 63.
    pub fn raised(self) -> BetaSet
        requires { self < 2 ^ 63 }
        ensures { result ≡ 2 * self }
    {
        BetaSet {
            digits: self.digits << 1,
        }
    }

    /// The beta numbers of the same partition for one more row: each number of the set increased by
    /// 1, and 0. The numbers of the set must be below 63.
    pub fn lengthened(self) -> BetaSet
        requires { self < 2 ^ 63 }
        ensures { result ≡ 2 * self + 1 }
    {
        BetaSet {
            digits: self.digits << 1 | 1,
        }
    }

    /// The beta numbers of the same partition for `rows` rows, at most 63 and at least the number
    /// of beta numbers in this set. The new beta numbers must be below 64.
    pub fn in_rows(self, rows: u16) -> BetaSet
        requires rows { (length (numbers self) ≤ rows) × (rows < 64) }
        requires room { (self + 1) * 2 ^ (rows - length (numbers self)) < 2 ^ 64 }
        ensures { result ≡ in_rows rows self }
    {
        let more = rows - self.len() as u16;
        BetaSet {
            digits: ((self.digits + 1) << more) - 1,
        }
    }

    /// The set with `number` added, which is at most 63 and must not be in the set before.
    pub fn with(self, number: u16) -> BetaSet
        requires place { number < 64 }
        requires new { has number (numbers self) ≡ false }
        ensures { result ≡ self + 2 ^ number }
    {
        BetaSet {
            digits: self.digits | 1 << number,
        }
    }

    /// Whether `number`, at most 63, is in the set.
    pub fn has(self, number: u16) -> bool
        requires { number < 64 }
        ensures { result ≡ has number (numbers self) }
    {
        self.digits >> number & 1 == 1
    }

    /// The number of beta numbers greater than `than`, which is at most 63.
    pub fn greater(self, than: u16) -> u32
        requires { than < 64 }
        ensures { result ≡ greater than (numbers self) }
    {
        (self.digits >> than >> 1).count_ones()
    }

    /// The set of those numbers b of this set such that b + `by` is not in it. `by` is at most 63.
    pub fn free(self, by: u16) -> BetaSet
        requires { by < 64 }
        ensures { numbers result ≡ free by (numbers self) }
    {
        BetaSet {
            digits: self.digits & !(self.digits >> by),
        }
    }

    /// The set of those numbers of this set that are at least `place`, which is at most 63.
    pub fn from(self, place: u16) -> BetaSet
        requires { place < 64 }
        ensures { numbers result ≡ from_place place (numbers self) }
    {
        BetaSet {
            digits: self.digits & !((1 << place) - 1),
        }
    }

    /// The set of those numbers of this set that are below `place`, which is at most 63.
    pub fn below(self, place: u16) -> BetaSet
        requires { place < 64 }
        ensures { numbers result ≡ below_place place (numbers self) }
    {
        BetaSet {
            digits: self.digits & ((1 << place) - 1),
        }
    }

    /// The set with `number`, one of its numbers and below 63, increased by 1; `number` + 1 must
    /// not be in the set.
    pub fn raised_at(self, number: u16) -> BetaSet
        requires place { number < 64 }
        requires room { self + 2 ^ number < 2 ^ 64 }
        ensures { result ≡ self + 2 ^ number }
    {
        BetaSet {
            digits: self.digits + (1 << number),
        }
    }

    /// The set with the number `from`, one of its numbers, replaced by `to`, which must not be in
    /// the set. Both are at most 63.
    pub fn moved(self, from: u16, to: u16) -> BetaSet
        requires from { (from < 64) × (2 ^ from ≤ self) }
        requires to { (to < 64) × (self - 2 ^ from + 2 ^ to < 2 ^ 64) }
        ensures { result ≡ self - 2 ^ from + 2 ^ to }
    {
        BetaSet {
            digits: self.digits - (1 << from) + (1 << to),
        }
    }

    /// The greatest number of this set of `rows` numbers; `None` if the partition of the set is
    /// empty.
    fn first_bead(self, rows: u16) -> Option<u16>
        requires { rows ≡ length (numbers self) }
        ensures { MatchOption result (shape self ≡ []) (λ b. IsSplit self b (self - 2 ^ b)
            × (rows ≤ b)) }
    {
        let Some(number) = self.greatest() else {
            return None;
        };
        if number < rows {
            return None;
        }
        Some(number)
    }

    /// The partition with these beta numbers, which must have at most 512 rows and 4,096 cells.
    /// Fails only if memory runs out.
    pub fn partition(self, alloc: Global) -> Result<Partition, NoMemory>
        requires { IsWithinLimits (shape self) }
        ensures { IfOk result (λ p. p ≡ shape self) }
    {
        let mut parts: SmallVec<u16, 16> = SmallVec::new(alloc);
        let mut rest = self;
        let mut rows = self.len() as u16;
        while let Some(number) = rest.first_bead(rows) {
            parts.push(number + 1 - rows)?;
            rest = rest.without(number);
            rows -= 1;
        }
        Partition::from_valid_parts(alloc, parts.as_slice())
    }
}

impl Model for BetaSet {
    ghost use Rattle.std.specs.Prelude.{ℕ};

    ghost Value = { ℕ };

    ghost view = { λ s. s.digits };

    ghost inverse = { λ n. record { digits = n } };
}

impl Label for BetaSet {
    ghost use Rattle.std.specs.Prelude.{true};
    ghost use Rattle.beta_sets.specs.BetaSets.{falling};
    ghost use Rattle.linear_combinations.proofs.Labels.{same_number, falling_numbers_total};
    ghost use Rattle.linear_combinations.proofs.Labels.{falling_numbers_equal};

    ghost is_label = { λ s. true };

    ghost is_short = { λ s. true };

    ghost order = { falling };

    fn cmp_printed(&self, other: &BetaSet) -> Ordering {
        other.digits.cmp(&self.digits)
    }

    fn copy(&self) -> Result<BetaSet, NoMemory> {
        Ok(*self)
    }

    ghost same_label = { same_number };

    ghost order_total = { falling_numbers_total };

    ghost order_equal = { falling_numbers_equal };
}

/// A table of partitions, stored as beta sets, with integer coefficients.
pub type Shapes = Lin<BetaSet, Int>;

/// The linear map that takes each beta set to its partition.
#[derive(Drop)]
struct AsPartition {
    alloc: Global,
}

impl Rule<BetaSet, Partition> for AsPartition {
    ghost use Rattle.std.specs.Prelude.{[], ◌∷◌, pos};
    ghost use Rattle.partitions.specs.Limits.{IsWithinLimits};
    ghost use Rattle.beta_sets.specs.BetaSets.{shape};

    ghost takes = { λ rule set. IsWithinLimits (shape set) };

    ghost image = { λ rule set. (shape set, pos 1) ∷ [] };

    fn add_image(&self, label: &BetaSet, c: Int, sum: &mut Whole) -> Result<(), SumFault> {
        sum.add_owned(label.partition(self.alloc)?, c)
    }
}

/// The list with each beta set replaced by its partition, which must have at most 512 rows and
/// 4,096 cells. Returns `Large` only if the absolute values of the coefficients of some partition
/// add up to 2^127 or more.
pub fn partitions_of(alloc: Global, list: &Shapes) -> Result<Whole, SumFault>
    requires { HaveLabels (λ s. IsWithinLimits (shape s)) list.now }
    ensures gains { IfOk result (Gains [] (shapes list.now)) }
    ensures table { IfOk result IsWholeTable }
    ensures large { IsErrOf result SumFault.Large → Overflows equal [] (shapes list.now) }
{
    let mut terms = Lin::new(alloc);
    terms.add_by(&AsPartition { alloc }, list)?;
    Ok(terms)
}

/// The list with each beta set replaced by its partition, and each coefficient divided by `den`,
/// which must be positive and below 2^127. Each set must have 20 numbers, and its partition at most
/// 20 cells. It never returns `Large`.
pub fn in_partitions(
    alloc: Global,
    list: Shapes,
    den: u128,
) -> Result<Lin<Partition, Frac>, SumFault>
    requires den { (0 < den) × (den < 2 ^ 127) }
    requires within { HaveLabels (IsInRows 20 20) list }
    ensures value { IfOk result (λ answer. (label : List ℕ)
        → found answer label ≡ lowest_terms (coefficient (shapes list) label) den) }
    ensures table { IfOk result IsFractionTable }
    ensures small { ¬ IsErrOf result SumFault.Large }
{
    let mut answer = Lin::new(alloc);
    for (set, c) in list.sorted_terms()? {
        answer.add_term(set.partition(alloc)?, quotient_of(c, den))?;
    }
    Ok(answer)
}
