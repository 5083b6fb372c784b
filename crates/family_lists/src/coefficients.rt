//! Closed formulas for the coefficients in the expansion of e_k, h_k or p_k in another one of the
//! bases e, h and p. The labels of such an expansion are the partitions of k (Macdonald, I.2).
ghost use Rattle.std.specs.Prelude.{◌≡◌, ◌*◌, ◌<◌, ◌≤◌, ◌^◌, ◌*ℤ◌, pos, negsuc, cond};
ghost use Rattle.sym_model.specs.Partition.{size};
ghost use Rattle.sym_model.specs.PlaceOrders.{minus_one_to};
ghost use Rattle.sym_model.specs.Weight.{factorial};
ghost use Rattle.family_list_laws.specs.OnePartLists.{orders_of_parts, sized_orders};
ghost use Rattle.family_list_laws.specs.OnePartLists.{cycle_type_count};
ghost use Rattle.family_lists.specs.ClosedCoefficients.{sign_exponent, absolute};
ghost use Rattle.family_lists.specs.ClosedCoefficients.{closed_coefficient};

use crate::multiplicities::{centralizer, multiplicity_factorials};
use coeff_rings::{Int, factorial};
use partitions::Partition;
use sparse_polys::Family;

/// `number`, or its negative if `is_negative`; `number` is below 2^127.
fn with_sign(is_negative: bool, number: u128) -> Int
    requires { number < 2 ^ 127 }
    ensures { result ≡ cond is_negative (negsuc 0) (pos 1) *ℤ pos number }
{
    let number = number as i128;
    if is_negative {
        Int::new(-number)
    } else {
        Int::new(number)
    }
}

/// (-1)^`exponent`·`number`, for a number below 2^127.
pub fn signed(exponent: u16, number: u128) -> Int
    requires { number < 2 ^ 127 }
    ensures { result ≡ minus_one_to exponent *ℤ pos number }
{
    with_sign(exponent % 2 == 1, number)
}

/// The exponent of -1 in the coefficient of `label`, a partition of k, if e_k, h_k or p_k (`family`
/// says which) is expanded in the basis e, h or p of `target`.
fn exponent(target: Family, family: Family, label: &Partition) -> u16
    requires { 0 < size label.now }
    ensures { result ≡ sign_exponent target family label.now }
{
    let excess = label.size() - label.rows();
    match target {
        Family::Elementary => excess,
        Family::Complete => match family {
            Family::Elementary => excess,
            Family::Complete => excess,
            Family::PowerSum => label.rows() - 1,
        },
        Family::PowerSum => match family {
            Family::Elementary => excess,
            Family::Complete => 0,
            Family::PowerSum => excess,
        },
    }
}

/// k! times the number of distinct orders of the parts of a partition of k.
fn scaled_orders(label: &Partition) -> u128
    requires { size label.now ≤ 20 }
    ensures number { result ≡ factorial (size label.now) * orders_of_parts label.now }
    ensures small { result < 2 ^ 127 }
{
    let orders = factorial(label.rows()) / multiplicity_factorials(label.parts());
    factorial(label.size()) * orders
}

/// k·(l - 1)!/Π m_i!, for a partition of k with l parts of the multiplicities m_i.
fn sized_orders(label: &Partition) -> u128
    requires some { 0 < size label.now }
    requires low { size label.now ≤ 20 }
    ensures number { result ≡ sized_orders label.now }
    ensures small { result < 2 ^ 127 }
{
    let orders = factorial(label.rows() - 1);
    u128::from(label.size()) * orders / multiplicity_factorials(label.parts())
}

/// The number of permutations of 1, .., k whose cycle lengths are the parts of a partition of k.
fn cycle_type_count(label: &Partition) -> u128
    requires { size label.now ≤ 20 }
    ensures number { result ≡ cycle_type_count label.now }
    ensures small { result < 2 ^ 127 }
{
    factorial(label.size()) / centralizer(label.parts())
}

/// The absolute value of the coefficient of `label`, a partition of k, if p_k, k!·e_k or k!·h_k
/// (`family` says which) is expanded in e or in h; it is the same number for e and for h.
fn outside_p(family: Family, label: &Partition) -> u128
    requires some { 0 < size label.now }
    requires low { size label.now ≤ 20 }
    ensures elementary { result ≡ absolute Family.Elementary family label.now }
    ensures complete { result ≡ absolute Family.Complete family label.now }
    ensures small { result < 2 ^ 127 }
{
    match family {
        Family::Elementary => scaled_orders(label),
        Family::Complete => scaled_orders(label),
        Family::PowerSum => sized_orders(label),
    }
}

/// The absolute value of the coefficient of `label`, a partition of k, if p_k, k!·e_k or k!·h_k
/// (`family` says which) is expanded in the basis e, h or p of `target`.
fn absolute(target: Family, family: Family, label: &Partition) -> u128
    requires some { 0 < size label.now }
    requires low { size label.now ≤ 20 }
    ensures number { result ≡ absolute target family label.now }
    ensures small { result < 2 ^ 127 }
{
    match target {
        Family::Elementary => outside_p(family, label),
        Family::Complete => outside_p(family, label),
        Family::PowerSum => cycle_type_count(label),
    }
}

/// The coefficient of `label`, a partition of k, if p_k, k!·e_k or k!·h_k (`family` says which) is
/// expanded in another one of the bases e, h and p, that of `target`.
pub(crate) fn coefficient(target: Family, family: Family, label: &Partition) -> Int
    requires some { 0 < size label.now }
    requires low { size label.now ≤ 20 }
    ensures { result ≡ closed_coefficient target family label.now }
{
    signed(
        exponent(target, family, label),
        absolute(target, family, label),
    )
}
