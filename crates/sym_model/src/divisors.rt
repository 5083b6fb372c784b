//! Laws of the function `gcd`, by which coefficients are tested for lowest terms.

ghost use Rattle.std.specs.Prelude.{ℕ, ◌+◌, ◌<◌, ◌≤◌};
ghost use Rattle.std.specs.Int.{◌∣◌};
ghost use Rattle.sym_model.specs.Canonical.{gcd};

/// The number gcd(a, b) divides a and b. If a and b are not both 0, each number that divides a and
/// b is at most gcd(a, b).
pub fn greatest_common_divisor_law()
    ensures divides_first { (a b : ℕ) → gcd a b ∣ a }
    ensures divides_second { (a b : ℕ) → gcd a b ∣ b }
    ensures greatest { (a b d : ℕ) → 0 < a + b → d ∣ a → d ∣ b → d ≤ gcd a b }
{}
