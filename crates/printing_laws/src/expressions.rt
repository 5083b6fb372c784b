//! Lists of terms printed in one line, as expressions.

ghost use Rattle.std.specs.Prelude.{List, ℕ, IsTrue};
ghost use Rattle.sym_model.specs.Expansion.{Basis, Terms};
ghost use Rattle.sym_model.specs.Kind.{label_rules, expansion, product};
ghost use Rattle.sym_model.specs.Canonical.{IsCanonicalBy, is_printable};
ghost use Rattle.printing_laws.specs.LineExpression.{IsExpression};

/// Let a list of terms have partitions as labels and be canonical (labels within the limits, each
/// once and in the printed order; coefficients in lowest terms, not 0), and let its numerators and
/// denominators have at most 128 bits. Then, in each basis, its one-line form without the line feed
/// at its end is an expression of the grammar, and this expression denotes the list, in every
/// number of variables. If no numerator is -2^127, each number in the expression is below 2^127.
pub fn line_expression_law()
    ensures expansions { (basis : Basis) (terms : Terms (List ℕ))
        → IsCanonicalBy (label_rules expansion) terms
        → IsTrue (is_printable terms) → IsExpression basis terms }
    ensures products { (basis : Basis) (terms : Terms (List ℕ))
        → IsCanonicalBy (label_rules product) terms
        → IsTrue (is_printable terms) → IsExpression basis terms }
{}
