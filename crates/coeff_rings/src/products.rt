//! Factorials, and products of two integers.
ghost use Rattle.std.specs.Prelude.{◌≡◌, ◌^◌, ◌≤◌, ◌*ℤ◌, nat_abs, MatchResult};
ghost use Rattle.sym_model.specs.Weight.{factorial};

use crate::int::Int;
use crate::scalar::Ring;
use calc_base::Large;

/// d!, the product of the numbers from 1 to d, for d ≤ 20.
pub fn factorial(d: u16) -> u128
    requires { d ≤ 20 }
    ensures { result ≡ factorial d }
{
    let mut product: u128 = 1;
    for k in 0..d {
        product *= u128::from(k) + 1;
    }
    product
}

/// The product of the integers x and y. Returns an error only if the absolute value of the product
/// is 2^127 or more.
pub fn product_of(x: Int, y: Int) -> Result<Int, Large>
    ensures { MatchResult result (λ z. z ≡ x *ℤ y) (λ _. 2 ^ 127 ≤ nat_abs (x *ℤ y)) }
{
    x.mul(y).ok_or(Large)
}
