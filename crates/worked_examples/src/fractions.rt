//! Worked examples of fractions in lowest terms.
ghost use Rattle.std.specs.Prelude.{◌≡◌, pos, negsuc};
ghost use Rattle.fraction_laws.specs.Fractions.{fraction_sum, fraction_difference, fraction_product};
ghost use Rattle.fraction_laws.specs.Fractions.{fraction_quotient};

/// 1/6 + 1/3 = 1/2, 1/6 - 1/3 = -1/6, (-4/9)·(3/8) = -1/6, and (-1/3)/(-2/9) = 3/2.
pub fn fraction_examples_law()
    ensures sum { fraction_sum (pos 1, 6) (pos 1, 3) ≡ (pos 1, 2) }
    ensures difference { fraction_difference (pos 1, 6) (pos 1, 3) ≡ (negsuc 0, 6) }
    ensures product { fraction_product (negsuc 3, 9) (pos 3, 8) ≡ (negsuc 0, 6) }
    ensures quotient { fraction_quotient (negsuc 0, 3) (negsuc 1, 9) ≡ (pos 3, 2) }
{}
