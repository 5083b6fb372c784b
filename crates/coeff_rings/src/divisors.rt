//! The greatest common divisor of two numbers.
ghost use Rattle.std.specs.Prelude.{◌≡◌};
ghost use Rattle.sym_model.specs.Canonical.{gcd};

/// The greatest common divisor of `a` and `b`, by Euclid's rule.
pub fn gcd(mut a: u128, mut b: u128) -> u128
    ensures { result ≡ gcd a b }
{
    while b != 0 {
        let rest = a % b;
        a = b;
        b = rest;
    }
    a
}
