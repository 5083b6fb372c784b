//! Coefficients of the terms of a printed block, which has one line for each term, read back from
//! their numerators and denominators.
ghost use Rattle.std.specs.Prelude.{◌≡◌, Bool, true, false, MatchOption};
ghost use Rattle.block_reader.specs.Fitting.{fits};

use coeff_rings::{Frac, Int, Scalar};

/// Coefficients that can be read back from a block.
pub(crate) trait Coefficient: Scalar {
    // Whether the coefficients may be fractions.
    ghost has_fractions: { Bool };

    /// The coefficient with this numerator and this denominator, or `None` if a block cannot have
    /// such a coefficient.
    fn of_parts(num: i128, den: u128) -> Option<Self>
        ensures { MatchOption result (fits has_fractions (num, den) ≡ false)
            (λ c. Self.value c ≡ (num, den)) };
}

impl Coefficient for Int {
    ghost has_fractions = { false };

    fn of_parts(num: i128, den: u128) -> Option<Int> {
        if den == 1 { Some(Int::new(num)) } else { None }
    }
}

impl Coefficient for Frac {
    ghost has_fractions = { true };

    fn of_parts(num: i128, den: u128) -> Option<Frac> {
        let Ok(positive) = i128::try_from(den) else {
            return None;
        };
        let Some(c) = Frac::new(num, positive) else {
            return None;
        };
        if c.num() != num {
            return None;
        }
        if c.den() != positive {
            return None;
        }
        Some(c)
    }
}
