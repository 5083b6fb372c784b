//! Natural numbers below 2^128 as coefficients, with checked operations.
ghost use Rattle.std.specs.Prelude.{refl, ◌≡◌, ℕ, ◌+◌, ◌*◌, ◌^◌, ◌<◌, pos};
ghost use Rattle.std.proofs.Common.{sym};
ghost use Rattle.fraction_laws.specs.Fractions.{whole_count};
ghost use Rattle.fraction_laws.specs.Checked.{checked_u128};
ghost use Rattle.fraction_laws.proofs.Fractions.{InLowestTerms-whole};
ghost use Rattle.fraction_laws.proofs.Whole.{sum-whole, count_fitted, zero_fits_u128};
ghost use Rattle.fraction_laws.proofs.Whole.{one_fits_u128, same_count, checked_u128-held};
ghost use Rattle.fraction_laws.proofs.Whole.{sum_answers_u128, sum_laws_u128};

use crate::digits::Digits;
use crate::scalar::Scalar;
use num_traits::{CheckedAdd, CheckedMul};
use std::marker::Model;

/// A natural number below 2^128. In contracts, a value of this type is the number.
#[derive(Clone, Copy, PartialEq, Eq, Debug)]
pub struct Count {
    number: u128,
}

impl Model for Count {
    ghost Value = { ℕ };

    ghost view = { λ c. c.number };

    ghost inverse = { λ n. record { number = n } };
}

impl Count {
    /// The number `v` as a scalar.
    pub fn new(v: u128) -> Count
        ensures { result ≡ v }
    {
        Count { number: v }
    }

    /// The value of the scalar, as a `u128`.
    pub fn get(&self) -> u128
        ensures { result ≡ self.now }
    {
        self.number
    }

    /// The product of the two numbers; `None` if and only if the product is 2^128 or more.
    pub fn mul(self, other: Count) -> Option<Count>
        ensures { result ≡ checked_u128 (self * other) }
    {
        CheckedMul::checked_mul(&self.number, &other.number).map(Count::new)
    }
}

impl Scalar for Count {
    ghost value = { whole_count };

    ghost zero = { 0 };

    ghost one = { 1 };

    ghost is_held = { λ n. n < 2 ^ 128 };

    ghost sum = { ◌+◌ };

    ghost checked_sum = { λ a b. checked_u128 (a + b) };

    fn zero() -> Count {
        Count::new(0)
    }

    fn one() -> Count {
        Count::new(1)
    }

    fn is_zero(&self) -> bool {
        self.number == 0
    }

    fn add(self, other: Count) -> Option<Count> {
        CheckedAdd::checked_add(&self.number, &other.number).map(Count::new)
    }

    fn digits(&self, out: &mut Digits) {
        out.clear();
        out.put_unsigned(self.number);
    }

    ghost zero_value = { (refl, zero_fits_u128) };

    ghost one_value = { (refl, one_fits_u128) };

    ghost same_value = { same_count };

    ghost lowest = { λ a _. InLowestTerms-whole (pos a) };

    ghost sum_is = { λ a b s. count_fitted (a + b) s };

    ghost sum_value = { λ a b. sym (sum-whole (pos a) (pos b)) };

    ghost sum_answers = { sum_answers_u128 };

    ghost sum_held = { λ a b _ _. checked_u128-held (a + b) };

    ghost sum_laws = { sum_laws_u128 };
}
