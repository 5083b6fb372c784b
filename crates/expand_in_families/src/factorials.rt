//! Quotients of factorials: binomial coefficients, and d!/a!.
ghost use Rattle.std.specs.Prelude.{◌≡◌, ◌+◌, ◌*◌, ◌<◌, ◌≤◌, ◌^◌};
ghost use Rattle.sym_model.specs.Weight.{factorial};

use coeff_rings::factorial;

/// The number of ways to choose a of a + b things.
pub(crate) fn binomial(a: u16, b: u16) -> u128
    requires { a + b ≤ 20 }
    ensures value { result * (factorial a * factorial b) ≡ factorial (a + b) }
    ensures small { result < 2 ^ 127 }
{
    factorial(a + b) / (factorial(a) * factorial(b))
}

/// d!/a!: the product of the numbers from a + 1 to d.
pub(crate) fn rise(a: u16, d: u16) -> u128
    requires { (a ≤ d) × (d ≤ 20) }
    ensures value { result * factorial a ≡ factorial d }
    ensures small { result < 2 ^ 127 }
{
    factorial(d) / factorial(a)
}
