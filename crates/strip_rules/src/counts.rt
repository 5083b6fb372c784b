//! Numbers that are computed as products of fractions, and their products with coefficients.
ghost use Rattle.std.specs.Prelude.{◌≡◌, ◌≢◌, ℕ, ◌*◌, ◌^◌, ◌<◌, ◌≤◌, ◌*ℤ◌, pos, nat_abs};
ghost use Rattle.std.specs.Prelude.{MatchOption, MatchResult, SomeIff};

use calc_base::Large;
use coeff_rings::{Int, product_of};

/// count·over/under, which must be an integer; `None` if it is 2^128 or more.
pub(crate) fn times_quotient(count: u128, over: usize, under: usize) -> Option<u128>
    requires { 0 < under }
    ensures { (q : ℕ) → q * under ≡ count * over → SomeIff result (q < 2 ^ 128) q }
{
    if over == under {
        return Some(count);
    }
    let (over, under) = (over as u128, under as u128);
    // The quotient and the remainder of `count` by `under` are multiplied by `over` separately, so
    // only the result can be too large.
    let most = (count / under).checked_mul(over)?;
    most.checked_add(count % under * over / under)
}

/// The number `count` as a coefficient, or `None` if it is 2^127 or more.
fn coefficient_of(count: u128) -> Option<Int>
    ensures { SomeIff result (count < 2 ^ 127) (pos count) }
{
    Some(Int::new(i128::try_from(count).ok()?))
}

/// The product of a coefficient c other than 0 and a natural number; `count` is this number, or
/// `None` if the number is 2^128 or more. Returns an error only if the absolute value of the
/// product is 2^127 or more.
pub(crate) fn times_count(c: Int, count: Option<u128>) -> Result<Int, Large>
    requires { c ≢ pos 0 }
    ensures { (n : ℕ) → MatchOption count (2 ^ 128 ≤ n) (λ m. m ≡ n)
        → MatchResult result (λ product. product ≡ c *ℤ pos n)
        (λ _. 2 ^ 127 ≤ nat_abs (c *ℤ pos n)) }
{
    let Some(number) = count else {
        return Err(Large);
    };
    let Some(factor) = coefficient_of(number) else {
        return Err(Large);
    };
    product_of(c, factor)
}
