//! Integers of 128 bits with a sign as coefficients, with checked operations.
ghost use Rattle.std.specs.Prelude.{refl, ◌≡◌, ℤ, pos, ◌+ℤ◌, ◌-ℤ◌, ◌*ℤ◌, neg_ℤ, FitsSigned};
ghost use Rattle.std.specs.Int.{w128};
ghost use Rattle.std.proofs.Common.{sym};
ghost use Rattle.fraction_laws.specs.Fractions.{whole};
ghost use Rattle.fraction_laws.specs.Checked.{checked_i128};
ghost use Rattle.fraction_laws.proofs.Fractions.{InLowestTerms-whole};
ghost use Rattle.fraction_laws.proofs.Whole.{sum-whole, product-whole, whole_fitted};
ghost use Rattle.fraction_laws.proofs.Whole.{zero_fits_128_bits, one_fits_128_bits, same_whole};
ghost use Rattle.fraction_laws.proofs.Whole.{checked_i128-held, sum_answers_i128};
ghost use Rattle.fraction_laws.proofs.Whole.{sum_laws_i128, negation_answers_i128};
ghost use Rattle.fraction_laws.proofs.Whole.{difference_answers_i128, product_answers_i128};
ghost use Rattle.fraction_laws.proofs.Whole.{ring_laws_i128};

use crate::digits::Digits;
use crate::scalar::{Ring, Scalar};
use num_traits::{CheckedAdd, CheckedMul, CheckedNeg, CheckedSub};
use std::marker::Model;

/// An integer from -2^127 to 2^127 - 1. In contracts, a value of this type is the integer.
#[derive(Clone, Copy, PartialEq, Eq, Debug)]
pub struct Int {
    number: i128,
}

impl Model for Int {
    ghost Value = { ℤ };

    ghost view = { λ i. i.number };

    ghost inverse = { λ z. record { number = z } };
}

impl Int {
    /// The integer `v` as a scalar.
    pub fn new(v: i128) -> Int
        ensures { result ≡ v }
    {
        Int { number: v }
    }

    /// The value of the scalar, as an `i128`.
    pub fn get(&self) -> i128
        ensures { result ≡ self.now }
    {
        self.number
    }
}

impl Scalar for Int {
    ghost value = { whole };

    ghost zero = { pos 0 };

    ghost one = { pos 1 };

    ghost is_held = { FitsSigned w128 };

    ghost sum = { ◌+ℤ◌ };

    ghost checked_sum = { λ a b. checked_i128 (a +ℤ b) };

    fn zero() -> Int {
        Int::new(0)
    }

    fn one() -> Int {
        Int::new(1)
    }

    fn is_zero(&self) -> bool {
        self.number == 0
    }

    fn add(self, other: Int) -> Option<Int> {
        CheckedAdd::checked_add(&self.number, &other.number).map(Int::new)
    }

    fn digits(&self, out: &mut Digits) {
        out.clear();
        out.put_signed(self.number);
    }

    ghost zero_value = { (refl, zero_fits_128_bits) };

    ghost one_value = { (refl, one_fits_128_bits) };

    ghost same_value = { same_whole };

    ghost lowest = { λ a _. InLowestTerms-whole a };

    ghost sum_is = { λ a b s. whole_fitted (a +ℤ b) s };

    ghost sum_value = { λ a b. sym (sum-whole a b) };

    ghost sum_answers = { sum_answers_i128 };

    ghost sum_held = { λ a b _ _. checked_i128-held (a +ℤ b) };

    ghost sum_laws = { sum_laws_i128 };
}

impl Ring for Int {
    ghost checked_negation = { λ a. checked_i128 (neg_ℤ a) };

    ghost checked_difference = { λ a b. checked_i128 (a -ℤ b) };

    ghost product = { ◌*ℤ◌ };

    ghost checked_product = { λ a b. checked_i128 (a *ℤ b) };

    fn from_whole(v: i128) -> Int {
        Int::new(v)
    }

    fn neg(self) -> Option<Int> {
        CheckedNeg::checked_neg(&self.number).map(Int::new)
    }

    fn sub(self, other: Int) -> Option<Int> {
        CheckedSub::checked_sub(&self.number, &other.number).map(Int::new)
    }

    fn mul(self, other: Int) -> Option<Int> {
        CheckedMul::checked_mul(&self.number, &other.number).map(Int::new)
    }

    ghost negation_answers = { negation_answers_i128 };

    ghost negation_held = { λ a _. checked_i128-held (neg_ℤ a) };

    ghost difference_answers = { difference_answers_i128 };

    ghost difference_held = { λ a b _ _. checked_i128-held (a -ℤ b) };

    ghost product_is = { λ a b p. whole_fitted (a *ℤ b) p };

    ghost product_value = { λ a b. sym (product-whole a b) };

    ghost product_answers = { product_answers_i128 };

    ghost product_held = { λ a b _ _. checked_i128-held (a *ℤ b) };

    ghost ring_laws = { ring_laws_i128 };
}
