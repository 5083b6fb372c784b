//! Combines a list of numbers into one number, which can be hashed faster.
ghost use Rattle.std.specs.Prelude.{◌≡◌};
ghost use Rattle.calc_base.specs.Mixing.{mixed as mixed_of};

/// The base of the digits that are combined into one number: a prime.
const BASE: u64 = 1_000_003;

/// The number whose digits to the base `BASE` are `numbers`, the highest first, modulo 2^64.
/// Hashing this one number is faster than hashing the list, which a hasher reads number by number.
pub fn mixed(numbers: &[u16]) -> u64
    ensures { result ≡ mixed_of 0 numbers.now }
{
    let mut sum: u64 = 0;
    for number in numbers {
        sum = sum.wrapping_mul(BASE).wrapping_add(u64::from(*number));
    }
    sum
}
