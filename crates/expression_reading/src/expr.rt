//! The tree of an expression.
ghost use Rattle.std.specs.Prelude.{◌<◌, IfSome, ◌≡◌, ◌≤◌, ◌↔◌, IsTrue, min};
ghost use Rattle.sym_model.specs.Expression.{degree, nesting};
ghost use Rattle.expression_reading.specs.declared.expr.Expr.{size-Expr};
ghost use Rattle.expression_reading.specs.Trees.{tree_of, has_no_signs};

use calc_base::Basis;
use partitions::Partition;

/// An expression: a number, a fraction that need not be in lowest terms, an atom (a symmetric
/// function of a basis), or a negation, sum, difference or product of expressions.
#[derive(Debug)]
pub enum Expr {
    /// An integer.
    Number { num: i128 },
    /// A numerator over a denominator.
    Fraction { num: i128, den: i128 },
    /// The symmetric function of the partition `label` in this basis.
    Atom { basis: Basis, label: Partition },
    /// The negative of an expression.
    Negation { inner: Box<Expr> },
    /// The sum of two expressions.
    Sum { left: Box<Expr>, right: Box<Expr> },
    /// The left expression minus the right one.
    Difference { left: Box<Expr>, right: Box<Expr> },
    /// The product of two expressions.
    Product { left: Box<Expr>, right: Box<Expr> },
}

// `Drop` is written out: the tree of a sum of many terms is deep on the left, so the left sides are
// dropped in a loop.
impl Drop for Expr {
    #[cycle(letting_go)]
    fn drop(self) {
        let mut rest = self;
        while let Some(left) = rest.into_left() {
            rest = left;
        }
    }
}

/// The degree 21, which is greater than that of any expression allowed; `capped_degree` returns it
/// for every degree over 20.
const HIGH: u16 = 21;

impl Expr {
    /// Returns the left operand of a sum, difference or product, or the operand of a negation, and
    /// drops everything else; `None` if there is no operand.
    #[cycle(letting_go)]
    fn into_left(self) -> Option<Expr>
        ensures { IfSome result (λ left. size-Expr left < size-Expr self) }
    {
        match self {
            Expr::Number { num: _ } => None,
            Expr::Fraction { num: _, den: _ } => None,
            Expr::Atom { basis: _, label } => {
                drop(label);
                None
            }
            Expr::Negation { inner } => Some(Box::into_inner(inner)),
            Expr::Sum { left, right }
            | Expr::Difference { left, right }
            | Expr::Product { left, right } => {
                drop(right);
                Some(Box::into_inner(left))
            }
        }
    }

    /// Whether the nesting of the expression is at most `limit`, its numbers and numerators are at
    /// least 0, and its denominators are positive.
    pub(crate) fn is_plain_within(&self, limit: u16) -> bool
        ensures { IsTrue result ↔ ((nesting (tree_of self.now) ≤ limit)
            × IsTrue (has_no_signs self.now)) }
    {
        if limit == 0 {
            return false;
        }
        match self {
            Expr::Number { num } => *num >= 0,
            Expr::Fraction { num, den } => *num >= 0 && *den > 0,
            Expr::Atom { .. } => true,
            Expr::Negation { inner } => inner.is_plain_within(limit - 1),
            Expr::Sum { left, right }
            | Expr::Difference { left, right }
            | Expr::Product { left, right } => {
                left.is_plain_within(limit - 1) && right.is_plain_within(limit - 1)
            }
        }
    }

    /// The degree of the expression, or 21 (`HIGH`) if the degree is greater.
    pub(crate) fn capped_degree(&self) -> u16
        ensures { result ≡ min 21 (degree (tree_of self.now)) }
    {
        match self {
            Expr::Number { .. } | Expr::Fraction { .. } => 0,
            Expr::Atom { label, .. } => label.size().min(HIGH),
            Expr::Negation { inner } => inner.capped_degree(),
            Expr::Sum { left, right } | Expr::Difference { left, right } => {
                left.capped_degree().max(right.capped_degree())
            }
            Expr::Product { left, right } => (left.capped_degree() + right.capped_degree()).min(
                HIGH,
            ),
        }
    }
}
