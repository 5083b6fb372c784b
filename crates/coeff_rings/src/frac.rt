//! Fractions in lowest terms, whose numerators and denominators are integers of 128 bits.
ghost use Rattle.std.specs.Prelude.{refl, ◌≡◌, ℕ, ℤ, pos, neg_ℤ, ◌+◌, ◌*◌, ◌<◌, ◌^◌, ◌*ℤ◌, Bool};
ghost use Rattle.std.specs.Prelude.{unsigned_abs, FitsSigned, SomeIff, IfSome};
ghost use Rattle.std.specs.Int.{w128, IsGcd, ◌∣◌};
ghost use Rattle.sym_model.specs.Expansion.{Fraction};
ghost use Rattle.fraction_laws.specs.Fractions.{whole, lowest_terms, greatest_common_divisor};
ghost use Rattle.fraction_laws.specs.Fractions.{fraction_sum, fraction_product};
ghost use Rattle.coeff_rings.specs.Signs.{signed, signs_differ};
ghost use Rattle.fraction_laws.specs.Checked.{IsFraction, CommonFits, checked_i128, checked_fraction};
ghost use Rattle.fraction_laws.specs.Checked.{checked_fraction_of, numerator_over_common};
ghost use Rattle.fraction_laws.specs.Checked.{common_denominator, checked_fraction_sum};
ghost use Rattle.fraction_laws.specs.Checked.{checked_fraction_difference, checked_fraction_product};
ghost use Rattle.fraction_laws.specs.Checked.{checked_fraction_quotient, checked_fraction_negation};
ghost use Rattle.fraction_laws.proofs.FractionAnswers.{fitted_sum, fitted_product};
ghost use Rattle.fraction_laws.proofs.FractionAnswers.{zero_is_fraction, one_is_fraction};
ghost use Rattle.fraction_laws.proofs.FractionAnswers.{sum_answers_fraction, sum_held_fraction};
ghost use Rattle.fraction_laws.proofs.FractionAnswers.{sum_laws_fraction};
ghost use Rattle.fraction_laws.proofs.FractionAnswers.{negation_answers_fraction};
ghost use Rattle.fraction_laws.proofs.FractionAnswers.{negation_held_fraction};
ghost use Rattle.fraction_laws.proofs.FractionAnswers.{difference_answers_fraction};
ghost use Rattle.fraction_laws.proofs.FractionAnswers.{difference_held_fraction};
ghost use Rattle.fraction_laws.proofs.FractionAnswers.{product_answers_fraction};
ghost use Rattle.fraction_laws.proofs.FractionAnswers.{product_held_fraction};
ghost use Rattle.fraction_laws.proofs.FractionAnswers.{ring_laws_fraction};
ghost use Rattle.fraction_laws.proofs.FractionAnswers.{quotient_answers_fraction};
ghost use Rattle.fraction_laws.proofs.FractionAnswers.{quotient_held_fraction};
ghost use Rattle.fraction_laws.proofs.FractionAnswers.{field_laws_fraction};

use crate::digits::Digits;
use crate::scalar::{Field, Ring, Scalar};
use num_traits::{CheckedAdd, CheckedMul, CheckedNeg, CheckedSub};
use std::marker::Model;

/// A fraction in lowest terms, with a numerator from -2^127 to 2^127 - 1 and a denominator from 1
/// to 2^127 - 1. In contracts, it is the pair of these two numbers.
#[derive(Clone, Copy, PartialEq, Eq, Debug)]
pub struct Frac {
    num: i128,
    den: u128,
}

impl Model for Frac {
    ghost use Rattle.sym_model.specs.Expansion.{Fraction};
    ghost use Rattle.fraction_laws.specs.Checked.{IsFraction};

    ghost Value = { Fraction };

    ghost view = { λ f. (f.num, f.den) };

    ghost invariant = { λ f. IsFraction (f.num, f.den) };

    ghost inverse = { λ r. record { num = r.0; den = r.1 } };
}

impl Frac {
    /// The fraction `num/den` in lowest terms; `None` if and only if `den` is 0 or, in lowest terms
    /// and with a positive denominator, its numerator or denominator is not an `i128`.
    pub fn new(num: i128, den: i128) -> Option<Frac>
        ensures value { result ≡ checked_fraction_of num den }
        ensures held { IfSome result IsFraction }
    {
        if den == 0 {
            return None;
        }
        reduced(
            differ_in_sign(num, den),
            num.unsigned_abs(),
            den.unsigned_abs(),
        )
    }

    /// The numerator of the fraction.
    pub fn num(&self) -> i128
        ensures value { result ≡ self.now.0 }
        ensures held { IsFraction self.now }
    {
        self.num
    }

    /// The denominator of the fraction, which is positive.
    pub fn den(&self) -> i128
        ensures value { result ≡ pos self.now.1 }
        ensures held { IsFraction self.now }
    {
        self.den as i128
    }

    /// The absolute value of the numerator, and the denominator.
    fn sizes(&self) -> Sizes
        ensures value { result ≡ record { num = unsigned_abs self.now.0; den = self.now.1 } }
        ensures lowest { (0 < result.den) × IsGcd result.num result.den 1 }
        ensures held { IsFraction self.now }
    {
        Sizes {
            num: self.num.unsigned_abs(),
            den: self.den,
        }
    }
}

impl Scalar for Frac {
    ghost value = { λ r. r };

    ghost zero = { whole (pos 0) };

    ghost one = { whole (pos 1) };

    ghost is_held = { IsFraction };

    ghost sum = { fraction_sum };

    ghost checked_sum = { checked_fraction_sum };

    fn zero() -> Frac {
        Frac { num: 0, den: 1 }
    }

    fn one() -> Frac {
        Frac { num: 1, den: 1 }
    }

    fn is_zero(&self) -> bool {
        self.num == 0
    }

    fn add(self, other: Frac) -> Option<Frac> {
        let common = over_common(self, other)?;
        let total = CheckedAdd::checked_add(&common.left, &common.right)?;
        quotient(total, common.den, common.divisor)
    }

    fn digits(&self, out: &mut Digits) {
        out.clear();
        out.put_signed(self.num);
        if self.den != 1 {
            out.put(b"/");
            out.put_unsigned(self.den);
        }
    }

    ghost zero_value = { (refl, zero_is_fraction) };

    ghost one_value = { (refl, one_is_fraction) };

    ghost same_value = { λ a b e. e };

    ghost lowest = { λ a h. h.lowest };

    ghost sum_is = { fitted_sum };

    ghost sum_value = { λ a b. refl };

    ghost sum_answers = { sum_answers_fraction };

    ghost sum_held = { sum_held_fraction };

    ghost sum_laws = { sum_laws_fraction };
}

impl Ring for Frac {
    ghost checked_negation = { checked_fraction_negation };

    ghost checked_difference = { checked_fraction_difference };

    ghost product = { fraction_product };

    ghost checked_product = { checked_fraction_product };

    fn from_whole(v: i128) -> Frac {
        Frac { num: v, den: 1 }
    }

    fn neg(self) -> Option<Frac> {
        let num = CheckedNeg::checked_neg(&self.num)?;
        Some(Frac { num, den: self.den })
    }

    fn sub(self, other: Frac) -> Option<Frac> {
        let common = over_common(self, other)?;
        let total = CheckedSub::checked_sub(&common.left, &common.right)?;
        quotient(total, common.den, common.divisor)
    }

    fn mul(self, other: Frac) -> Option<Frac> {
        product(
            differ_in_sign(self.num, other.num),
            self.sizes(),
            other.sizes(),
        )
    }

    ghost negation_answers = { negation_answers_fraction };

    ghost negation_held = { negation_held_fraction };

    ghost difference_answers = { difference_answers_fraction };

    ghost difference_held = { difference_held_fraction };

    ghost product_is = { fitted_product };

    ghost product_value = { λ a b. refl };

    ghost product_answers = { λ a b _ _. product_answers_fraction a b };

    ghost product_held = { product_held_fraction };

    ghost ring_laws = { ring_laws_fraction };
}

impl Field for Frac {
    ghost checked_quotient = { checked_fraction_quotient };

    fn div(self, other: Frac) -> Option<Frac> {
        let divisor = other.sizes();
        let reciprocal = Sizes {
            num: divisor.den,
            den: divisor.num,
        };
        product(
            differ_in_sign(self.num, other.num),
            self.sizes(),
            reciprocal,
        )
    }

    ghost quotient_answers = { λ a b _ _ _. quotient_answers_fraction a b };

    ghost quotient_held = { quotient_held_fraction };

    ghost field_laws = { field_laws_fraction };
}

/// The absolute value of the numerator, and the denominator, of a fraction.
#[derive(Clone, Copy)]
struct Sizes {
    num: u128,
    den: u128,
}

/// The numerators of two fractions over their least common denominator, that denominator, and the
/// greatest common divisor of the two denominators.
#[derive(Clone, Copy)]
struct Common {
    left: i128,
    right: i128,
    den: u128,
    divisor: u128,
}

/// The greatest common divisor of `a` and `b`, for `b` not 0, by Euclid's algorithm.
#[inline(never)]
fn common_divisor(a: u128, b: u128) -> u128
    requires { 0 < b }
    ensures greatest { result ≡ greatest_common_divisor a b }
    ensures divisor { IsGcd a b result }
    ensures positive { 0 < result }
{
    let (mut x, mut y) = (a, b);
    while y != 0 {
        (x, y) = (y, x % y);
    }
    x
}

/// Whether one of the two numbers is negative and the other is not.
fn differ_in_sign(a: i128, b: i128) -> bool
    ensures { result ≡ signs_differ a b }
{
    (a < 0) != (b < 0)
}

/// The product of an integer and a factor below 2^127; `None` if and only if it is not an `i128`.
fn scaled(number: i128, factor: u128) -> Option<i128>
    requires { factor < 2 ^ 127 }
    ensures { SomeIff result (FitsSigned w128 (number *ℤ pos factor)) (number *ℤ pos factor) }
{
    CheckedMul::checked_mul(&number, &(factor as i128))
}

/// The numerators of two fractions over their least common denominator, that denominator, and the
/// greatest common divisor of the two denominators; `None` if and only if one of these numerators
/// is not an `i128` or the least common denominator is 2^127 or more.
#[inline(always)]
fn over_common(a: Frac, b: Frac) -> Option<Common>
    ensures held { IsFraction a × IsFraction b }
    ensures common { SomeIff result (CommonFits a b)
        (record {
          left = numerator_over_common a b;
          right = numerator_over_common b a;
          den = common_denominator a b;
          divisor = greatest_common_divisor a.1 b.1;
        }) }
{
    if a.den == b.den {
        return Some(Common {
            left: a.num,
            right: b.num,
            den: a.den,
            divisor: a.den,
        });
    }
    let divisor = common_divisor(a.den, b.den);
    let factor = b.den / divisor;
    let left = scaled(a.num, factor)?;
    let right = scaled(b.num, a.den / divisor)?;
    let den = CheckedMul::checked_mul(&a.den, &factor)?;
    if den > i128::MAX as u128 {
        return None;
    }
    Some(Common {
        left,
        right,
        den,
        divisor,
    })
}

/// The integer with the absolute value `size`, negative if `negative` is true; `None` if and only
/// if it is not an `i128`.
fn with_sign(negative: bool, size: u128) -> Option<i128>
    ensures { result ≡ checked_i128 (signed negative size) }
{
    if size <= i128::MAX as u128 {
        let number = size as i128;
        return Some(if negative { -number } else { number });
    }
    if negative && size == 1 << 127 {
        return Some(i128::MIN);
    }
    None
}

/// The fraction `num/den` for coprime numbers, negative if `negative` is true; `None` if and only
/// if its numerator is not an `i128` or its denominator is 2^127 or more.
fn from_sizes(negative: bool, num: u128, den: u128) -> Option<Frac>
    requires positive { 0 < den }
    requires coprime { IsGcd num den 1 }
    ensures { result ≡ checked_fraction (signed negative num, den) }
{
    let num = with_sign(negative, num)?;
    if den > i128::MAX as u128 {
        return None;
    }
    Some(Frac { num, den })
}

/// The fraction `num/den` in lowest terms, negative if `negative` is true; `None` if and only if
/// its numerator is then not an `i128` or its denominator is 2^127 or more.
fn reduced(negative: bool, num: u128, den: u128) -> Option<Frac>
    requires { 0 < den }
    ensures { result ≡ checked_fraction (lowest_terms (signed negative num) den) }
{
    let divisor = common_divisor(num, den);
    from_sizes(negative, num / divisor, den / divisor)
}

/// The fraction `num/den` in lowest terms, for `den` from 1 to 2^127 - 1; it is never `None`.
/// `divisor` must divide `den`, and each common divisor of `num` and `den` must divide `divisor`:
/// if `divisor` is 1, nothing cancels, and if it is small, the search for the greatest common
/// divisor is short.
#[inline(always)]
fn quotient(num: i128, den: u128, divisor: u128) -> Option<Frac>
    requires positive { 0 < den }
    requires small { den < 2 ^ 127 }
    requires factor { divisor ∣ den }
    requires common { (d : ℕ) → d ∣ unsigned_abs num → d ∣ den → d ∣ divisor }
    ensures { result ≡ checked_fraction (lowest_terms num den) }
{
    if divisor == 1 {
        return Some(Frac { num, den });
    }
    let size = num.unsigned_abs();
    let shared = common_divisor(size, divisor);
    from_sizes(num < 0, size / shared, den / shared)
}

/// The product of two fractions in lowest terms, which are given by their absolute values; the
/// product is negative if `negative` is true. `None` if and only if the product in lowest terms has
/// a numerator that is not an `i128` or a denominator of 2^127 or more. Common factors are
/// cancelled before the numbers are multiplied, so a number of the computation is too large only if
/// a number of the result is.
fn product(negative: bool, left: Sizes, right: Sizes) -> Option<Frac>
    requires left { (0 < left.den) × IsGcd left.num left.den 1 }
    requires right { (0 < right.den) × IsGcd right.num right.den 1 }
    ensures { result ≡ checked_fraction
        (lowest_terms (signed negative (left.num * right.num)) (left.den * right.den)) }
{
    let down = common_divisor(left.num, right.den);
    let up = common_divisor(right.num, left.den);
    let num = CheckedMul::checked_mul(&(left.num / down), &(right.num / up))?;
    let den = CheckedMul::checked_mul(&(left.den / up), &(right.den / down))?;
    from_sizes(negative, num, den)
}
