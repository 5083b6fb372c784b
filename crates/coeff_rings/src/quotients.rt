//! Quotients of two integers as fractions.
ghost use Rattle.std.specs.Prelude.{◌≡◌, ◌<◌, ◌^◌};
ghost use Rattle.fraction_laws.specs.Fractions.{lowest_terms};

use crate::frac::Frac;
use crate::int::Int;

/// The integer `num` divided by the positive number `den` below 2^127, as a fraction in lowest
/// terms.
pub fn quotient_of(num: Int, den: u128) -> Frac
    requires { (0 < den) × (den < 2 ^ 127) }
    ensures { result ≡ lowest_terms num den }
{
    Frac::new(num.get(), den as i128).unwrap()
}
