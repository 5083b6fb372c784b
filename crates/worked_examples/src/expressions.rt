//! Worked examples of expressions, their weights and their errors.

ghost use Rattle.std.specs.Prelude.{◌≡◌, [], ◌∷◌, codes};
ghost use Rattle.sym_model.specs.Expansion.{monomials, power_sums};
ghost use Rattle.sym_model.specs.Expression.{number, fraction, negation, sum, difference};
ghost use Rattle.sym_model.specs.Expression.{denominator};
ghost use Rattle.sym_model.specs.Weight.{numerator, growth};
ghost use Rattle.sym_model.specs.Phrase.{numeral, ratio, label, times, operation, SpellsTree};
ghost use Rattle.sym_model.specs.ExpressionOffence.{shape, range, first_of, offences};

/// Worked examples of expressions, of their weights, and of the first error of a word.
pub fn expression_examples_law()
    ensures grouping { SpellsTree (codes "-1-2+3")
        (sum (difference (negation (number 1)) (number 2)) (number 3)) }
    ensures common_denominator { denominator (sum (fraction 1 2) (fraction 1 3)) ≡ 6 }
    ensures sum_of_numerators { numerator (sum (fraction 1 2) (fraction 1 3)) ≡ 5 }
    ensures growth_of_power_sums { growth power_sums 15 ≡ 18763697892715776000000000000000000 }
    ensures growth_of_monomials { growth monomials 20 ≡ 104857600000000000000000000 }
    ensures rising_list { first_of
        (offences monomials (label power_sums (codes "1" ∷ codes "2" ∷ []))) ≡ Some (4, shape) }
    ensures denominator_zero { first_of (offences monomials (ratio (codes "1") (codes "0")))
        ≡ Some (2, shape) }
    ensures high_degree { first_of
        (offences monomials (operation times (label monomials (codes "20" ∷ []))
        (label monomials (codes "1" ∷ []))))
        ≡ Some (10, range) }
    ensures no_offence { first_of (offences monomials (numeral (codes "007"))) ≡ None }
{}
