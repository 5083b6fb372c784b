//! Expressions with bounded nesting, bounded degree and numbers that are not negative.
ghost use Rattle.std.specs.Prelude.{◌≡◌, ◌^◌, ◌<◌, ◌≤◌, ◌↔◌, IsTrue, MatchResult};
ghost use Rattle.sym_model.specs.Expression.{degree, denominator};
ghost use Rattle.sym_model.specs.ExpressionOffence.{degree_limit};
ghost use Rattle.sym_model.specs.Weight.{numerator, weight};
ghost use Rattle.expression_reading.specs.Trees.{basis_of, tree_of, IsFormula};
ghost use Rattle.expression_reading.specs.Weights.{IsWeighed};

use crate::Expr;
use crate::weigh::checked_weight;
use calc_base::{Basis, Weight};

/// The nesting of a `Formula` is at most 4,096, and its degree at most 20.
const MAX_NESTING: u16 = 4096;

pub(crate) const MAX_DEGREE: u16 = 20;

/// The greatest degree of an expression that is expanded into the target basis: 20 for m and s, 15
/// for p, h and e.
pub fn degree_limit(target: Basis) -> u16
    ensures { result ≡ degree_limit (basis_of target) }
{
    match target {
        Basis::M | Basis::S => MAX_DEGREE,
        Basis::P | Basis::H | Basis::E => 15,
    }
}

/// An expression whose nesting is at most 4,096, whose degree is at most 20, whose numbers and
/// numerators are at least 0 and whose denominators are positive.
#[derive(Debug, Drop)]
pub struct Formula {
    tree: Expr,
    ghost within: { IsFormula tree },
}

impl Formula {
    /// The tree as a `Formula`; the tree as an error if and only if it is not within the bounds of
    /// a `Formula`. No memory is allocated.
    pub fn from_tree(tree: Expr) -> Result<Formula, Expr>
        ensures { MatchResult result (λ f. (f.tree ≡ tree) × IsFormula tree)
            (λ e. (e ≡ tree) × ¬ IsFormula tree) }
    {
        if tree.is_plain_within(MAX_NESTING) && tree.capped_degree() <= MAX_DEGREE {
            Ok(Formula { tree })
        } else {
            Err(tree)
        }
    }

    /// The tree of the expression.
    pub fn tree(&self) -> &Expr
        ensures tree { result.now ≡ self.now.tree }
        ensures within { IsFormula self.now.tree }
    {
        &self.tree
    }

    /// The degree of the expression: 0 for a number or a fraction, the size of the partition for a
    /// basis element such as s[2,1], the greater of the two degrees for a sum or a difference, and
    /// their sum for a product.
    pub fn degree(&self) -> u16
        ensures { result ≡ degree (tree_of self.now.tree) }
    {
        self.tree.capped_degree()
    }

    /// The two numbers N and D of the weight. D is a common denominator of the coefficients of the
    /// expression. N/D is the value of the expression with each basis element, number 0 and
    /// numerator 0 replaced by 1, and each minus by a plus. None if and only if N or D is 2^127 or
    /// more. No memory is allocated.
    pub fn weight(&self) -> Option<Weight>
        ensures { IsWeighed result (numerator (tree_of self.now.tree))
            (denominator (tree_of self.now.tree)) }
    {
        self.tree.weigh()
    }

    /// Whether the weight for the target basis is below the limit, which must be at most 2^127. The
    /// weight is N·D·B, with N and D the numbers of `weight`; for the degree d, B is d^d for m and
    /// s, and d!·(2d)^d for p, h and e (1 if d = 0). No memory is allocated.
    pub fn weight_below(&self, target: Basis, limit: u128) -> bool
        requires { limit ≤ 2 ^ 127 }
        ensures { IsTrue result ↔ (weight (basis_of target) (tree_of self.now.tree) < limit) }
    {
        match checked_weight(&self.tree, self.degree(), target) {
            None => false,
            Some(weight) => weight < limit,
        }
    }
}
