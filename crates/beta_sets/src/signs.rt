//! Numbers with the sign of a rim hook.
ghost use Rattle.std.specs.Prelude.{◌≤◌, ◌^◌, ◌≡◌, ◌*ℤ◌, nat_abs, MatchOption};
ghost use Rattle.sym_model.specs.PlaceOrders.{minus_one_to};

use coeff_rings::{Int, Ring};

/// (-1)^`times`·c; `None` only if the absolute value of c is 2^127 or more.
pub fn turned(c: Int, times: u32) -> Option<Int>
    ensures { MatchOption result (2 ^ 127 ≤ nat_abs c) (λ z. z ≡ minus_one_to times *ℤ c) }
{
    if times % 2 == 0 { Some(c) } else { c.neg() }
}
