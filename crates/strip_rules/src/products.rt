//! Products of expansions in s with h_k, e_k and p_k.
ghost use Rattle.std.specs.Prelude.{◌≡◌, ◌+◌, ◌*◌, ◌^◌, ◌≤◌, ℕ, nat_eq, IfOk, OnOk, IsErrOf};
ghost use Rattle.std.specs.Cmp.Lexicographic.{pointwise};
ghost use Rattle.sym_model.specs.Canonical.{is_label};
ghost use Rattle.sym_model.specs.Bases.{complete_of, elementary_of, power_sum_of};
ghost use Rattle.sym_model.specs.ListWeight.{list_weight};
ghost use Rattle.sym_model.specs.Partition.{IsPartition, size, rows};
ghost use Rattle.sym_model.specs.WholeTerms.{WholeTerms};
ghost use Rattle.fraction_laws.specs.Fractions.{InLowestTerms};
ghost use Rattle.sparse_polys.specs.Combination.{terms_of};
ghost use Rattle.sparse_polys.specs.MonomialProducts.{greatest_size};
ghost use Rattle.sparse_polys.specs.Families.{polynomial_of};
ghost use Rattle.linear_combinations.specs.Cleared.{GainsMultiple, OverflowsMultiple};
ghost use Rattle.strip_rules.specs.Adding.{IsProduct, IsTimes};
ghost use Rattle.strip_rules.specs.Room.{AreWithin, HaveRoomForStrips};

use crate::shapes::{add_shapes, add_signed_shapes};
use calc_base::SumFault;
use coeff_rings::Ring;
use linear_combinations::Lin;
use partitions::Partition;
use skew_shapes::{HooksAdded, with_horizontal_strip, with_vertical_strip};
use sparse_polys::Family;
use std::alloc::Global;

/// Adds to `sum` the product of the term c·s_`label` and a polynomial e_k, h_k or p_k; `family`
/// says which of the three it is.
fn add_strips<R: Ring>(
    alloc: Global,
    sum: &mut Lin<Partition, R>,
    family: Family,
    k: u16,
    label: &Partition,
    c: R,
) -> Result<(), SumFault>
    requires positive { family ≡ Family.PowerSum → 1 ≤ k }
    requires partition { IsPartition label.now }
    requires lowest { InLowestTerms (R.value c) }
    requires cells { size label.now + k ≤ 4096 }
    requires rows { rows label.now + k ≤ 512 }
    ensures ok { OnOk result ((terms : WholeTerms)
        × IsProduct (polynomial_of family k) k label.now terms
        × GainsMultiple (pointwise nat_eq) is_label (R.value c) terms (terms_of R.value sum.old)
        (terms_of R.value sum.new)) }
    ensures large { IsErrOf result SumFault.Large → (terms : WholeTerms)
        × IsProduct (polynomial_of family k) k label.now terms
        × OverflowsMultiple (pointwise nat_eq) (R.value c) terms (terms_of R.value sum.old) }
{
    match family {
        Family::Elementary => add_shapes(sum, with_vertical_strip(alloc, label, k)?, c),
        Family::Complete => add_shapes(sum, with_horizontal_strip(alloc, label, k)?, c),
        Family::PowerSum => {
            let mut hooks = HooksAdded::new(alloc, label, k)?;
            add_signed_shapes(alloc, sum, &mut hooks, c)
        }
    }
}

/// The product of an expansion in s and a polynomial e_k, h_k or p_k, in every number of variables;
/// `family` says which of the three it is. Each label has at most 4,096 - k cells and at most 512 -
/// k rows; for p_k, k is at least 1.
///
/// The labels of the product have at most k cells and k rows more than those of the list. If m is
/// the greatest size of a label of the list, 0 for the empty list, the weight of the product is at
/// most (m + k)^k times that of the list. The weight of a list is max(1, D·A)·D, with D its least
/// common denominator and A the sum of the absolute values of its coefficients. Returns `Large`
/// only if the weight of the list is 2^127 or more.
pub fn times_family<R: Ring>(
    alloc: Global,
    list: &Lin<Partition, R>,
    family: Family,
    k: u16,
) -> Result<Lin<Partition, R>, SumFault>
    requires positive { family ≡ Family.PowerSum → 1 ≤ k }
    requires room { HaveRoomForStrips k list.now }
    ensures value { IfOk result (λ product. IsTimes (polynomial_of family k)
        (terms_of R.value list.now) (terms_of R.value product)) }
    ensures labels { IfOk result (λ product. (cells lengths : ℕ) → AreWithin cells lengths list.now
        → AreWithin (cells + k) (lengths + k) product) }
    ensures weight { IfOk result (λ product. list_weight (terms_of R.value product)
        ≤ list_weight (terms_of R.value list.now)
        * (greatest_size (terms_of R.value list.now) + k) ^ k) }
    ensures large { IsErrOf result SumFault.Large
        → 2 ^ 127 ≤ list_weight (terms_of R.value list.now) }
{
    let mut sum = Lin::new(alloc);
    for (label, c) in list.iter() {
        add_strips(alloc, &mut sum, family, k, label, *c)?;
    }
    Ok(sum)
}

/// The product of an expansion in s and h_k, in every number of variables, by Pieri's rule: s_λ
/// becomes the sum of the s_ν for which ν/λ is a horizontal strip of k cells (Macdonald, I.5). Each
/// label has at most 4,096 - k cells and at most 512 - k rows.
///
/// The labels of the product have at most k cells and k rows more than those of the list. If m is
/// the greatest size of a label of the list, 0 for the empty list, the weight of the product is at
/// most (m + k)^k times that of the list. The weight of a list is max(1, D·A)·D, with D its least
/// common denominator and A the sum of the absolute values of its coefficients. Returns `Large`
/// only if the weight of the list is 2^127 or more.
pub fn add_row<R: Ring>(
    alloc: Global,
    list: Lin<Partition, R>,
    k: u16,
) -> Result<Lin<Partition, R>, SumFault>
    requires room { HaveRoomForStrips k list }
    ensures value { IfOk result (λ product. IsTimes (complete_of k)
        (terms_of R.value list) (terms_of R.value product)) }
    ensures labels { IfOk result (λ product. (cells lengths : ℕ) → AreWithin cells lengths list
        → AreWithin (cells + k) (lengths + k) product) }
    ensures weight { IfOk result (λ product. list_weight (terms_of R.value product)
        ≤ list_weight (terms_of R.value list) * (greatest_size (terms_of R.value list) + k) ^ k) }
    ensures large { IsErrOf result SumFault.Large → 2 ^ 127 ≤ list_weight (terms_of R.value list) }
{
    times_family(alloc, &list, Family::Complete, k)
}

/// The product of an expansion in s and e_k, in every number of variables, by Pieri's rule: s_λ
/// becomes the sum of the s_ν for which ν/λ is a vertical strip of k cells (Macdonald, I.5). Each
/// label has at most 4,096 - k cells and at most 512 - k rows.
///
/// The labels of the product have at most k cells and k rows more than those of the list. If m is
/// the greatest size of a label of the list, 0 for the empty list, the weight of the product is at
/// most (m + k)^k times that of the list. The weight of a list is max(1, D·A)·D, with D its least
/// common denominator and A the sum of the absolute values of its coefficients. Returns `Large`
/// only if the weight of the list is 2^127 or more.
pub fn add_column<R: Ring>(
    alloc: Global,
    list: Lin<Partition, R>,
    k: u16,
) -> Result<Lin<Partition, R>, SumFault>
    requires room { HaveRoomForStrips k list }
    ensures value { IfOk result (λ product. IsTimes (elementary_of k)
        (terms_of R.value list) (terms_of R.value product)) }
    ensures labels { IfOk result (λ product. (cells lengths : ℕ) → AreWithin cells lengths list
        → AreWithin (cells + k) (lengths + k) product) }
    ensures weight { IfOk result (λ product. list_weight (terms_of R.value product)
        ≤ list_weight (terms_of R.value list) * (greatest_size (terms_of R.value list) + k) ^ k) }
    ensures large { IsErrOf result SumFault.Large → 2 ^ 127 ≤ list_weight (terms_of R.value list) }
{
    times_family(alloc, &list, Family::Elementary, k)
}

/// The product of an expansion in s and p_k, for k at least 1, in every number of variables, by the
/// rule of Murnaghan and Nakayama: s_λ becomes the sum of (-1)^(height - 1)·s_ν over the ν for
/// which ν/λ is a rim hook of k cells (Macdonald, I.3; the height is the number of rows of the rim
/// hook). Each label has at most 4,096 - k cells and at most 512 - k rows.
///
/// The labels of the product have at most k cells and k rows more than those of the list. If m is
/// the greatest size of a label of the list, 0 for the empty list, the weight of the product is at
/// most (m + k)^k times that of the list. The weight of a list is max(1, D·A)·D, with D its least
/// common denominator and A the sum of the absolute values of its coefficients. Returns `Large`
/// only if the weight of the list is 2^127 or more.
pub fn add_hook<R: Ring>(
    alloc: Global,
    list: Lin<Partition, R>,
    k: u16,
) -> Result<Lin<Partition, R>, SumFault>
    requires positive { 1 ≤ k }
    requires room { HaveRoomForStrips k list }
    ensures value { IfOk result (λ product. IsTimes (power_sum_of k)
        (terms_of R.value list) (terms_of R.value product)) }
    ensures labels { IfOk result (λ product. (cells lengths : ℕ) → AreWithin cells lengths list
        → AreWithin (cells + k) (lengths + k) product) }
    ensures weight { IfOk result (λ product. list_weight (terms_of R.value product)
        ≤ list_weight (terms_of R.value list) * (greatest_size (terms_of R.value list) + k) ^ k) }
    ensures large { IsErrOf result SumFault.Large → 2 ^ 127 ≤ list_weight (terms_of R.value list) }
{
    times_family(alloc, &list, Family::PowerSum, k)
}
