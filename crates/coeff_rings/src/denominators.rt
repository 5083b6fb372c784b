//! The least common multiple and the product of two denominators.
ghost use Rattle.std.specs.Prelude.{◌≡◌, ◌/◌, ◌*◌, ◌<◌, ◌≤◌, ◌^◌, pos, IfOk, IfErr, OkIff};
ghost use Rattle.sym_model.specs.Expression.{lcm};

use crate::divisors::gcd;
use calc_base::{LIMIT, Large};

/// The least common multiple of two denominators, and its quotients by these denominators.
#[derive(Clone, Copy)]
pub struct Common {
    /// The least common multiple of the two denominators.
    pub den: u128,
    /// The least common multiple divided by the left denominator.
    pub from_left: i128,
    /// The least common multiple divided by the right denominator.
    pub from_right: i128,
}

/// The least common multiple of two positive denominators below 2^127, and its quotients by them.
///
/// Returns an error if and only if the least common multiple is 2^127 or more.
pub fn common_denominator(a: u128, b: u128) -> Result<Common, Large>
    requires left { (0 < a) × (a < 2 ^ 127) }
    requires right { (0 < b) × (b < 2 ^ 127) }
    ensures ok { IfOk result (λ c. (c.den ≡ lcm a b) × (c.den < 2 ^ 127) × (0 < c.den)
        × (c.from_left ≡ pos (lcm a b / a)) × (c.from_right ≡ pos (lcm a b / b))) }
    ensures large { IfErr result (λ _. 2 ^ 127 ≤ lcm a b) }
{
    let divisor = gcd(a, b);
    let from_left = b / divisor;
    let from_right = a / divisor;
    let den = denominator_product(from_right, b)?;
    Ok(Common {
        den,
        from_left: from_left as i128,
        from_right: from_right as i128,
    })
}

/// The product of two denominators. Returns an error if and only if the product is 2^127 or more.
pub fn denominator_product(a: u128, b: u128) -> Result<u128, Large>
    ensures { OkIff result (a * b < 2 ^ 127) (a * b) }
{
    a.checked_mul(b).filter(|den| *den < LIMIT).ok_or(Large)
}
