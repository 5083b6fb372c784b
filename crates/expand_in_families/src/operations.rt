//! The values of numbers, atoms (basis polynomials), negations, sums and products in an expression,
//! as lists of terms in the target basis, which is e, h or p in which it is expanded.
ghost use Rattle.std.specs.Prelude.{◌≡◌, ◌<◌, ◌≤◌, ◌^◌, ◌*ℤ◌, pos, nat_abs, MatchResult};
ghost use Rattle.std.specs.Prelude.{IsErrOf};
ghost use Rattle.std.specs.Prelude.{◌*◌};
ghost use Rattle.sym_model.specs.Expansion.{completes};
ghost use Rattle.sym_model.specs.Expression.{cleared_value, degree, difference, lcm, negation};
ghost use Rattle.sym_model.specs.Expression.{sum};
ghost use Rattle.sym_model.specs.Weight.{factorial, growth, numerator};
ghost use Rattle.monomial_laws.proofs.ExpressionLaws.{difference-value, heavy-more};
ghost use Rattle.basis_change_laws.proofs.GrowthBounds.{grown-mono};
ghost use Rattle.basis_change_laws.proofs.JoinedLists.{stands-same};
ghost use Rattle.sparse_polys.specs.Families.{polynomial_of};
ghost use Rattle.basis_expand.specs.Values.{AreOperands, IsMadeOf};
ghost use Rattle.expand_in_families.specs.Nodes.{ClearsTo, IsHeavyInFamilies};

use crate::atoms::atom;
use crate::factorials::{binomial, rise};
use crate::node::Node;
use basis_change::whole_of;
use basis_expand::Target;
use calc_base::{Basis, Large, SumFault};
use coeff_rings::{Int, common_denominator, denominator_product, product_of};
use family_lists::add_products;
use linear_combinations::Lin;
use partitions::Partition;
use sparse_polys::{Family, single, sum_of};
use std::alloc::Global;

/// The target basis e, h or p, the basis of `family`.
#[derive(Clone, Copy)]
pub(crate) struct InFamily {
    pub(crate) family: Family,
}

/// The product `from`·`by`. Returns an error only if its absolute value is 2^127 or more.
fn times(from: i128, by: u128) -> Result<Int, Large>
    requires { by < 2 ^ 127 }
    ensures { MatchResult result (λ p. p ≡ from *ℤ pos by)
        (λ _. 2 ^ 127 ≤ nat_abs (from *ℤ pos by)) }
{
    product_of(Int::new(from), whole_of(by))
}

impl Target for InFamily {
    type Value = Node;

    ghost limit = { 15 };

    ghost stands = { λ t. ClearsTo (polynomial_of t.family) };

    ghost heavy = { λ _. IsHeavyInFamilies };

    fn quotient(&self, alloc: Global, num: i128, den: u128) -> Result<Node, SumFault> {
        let terms = single(alloc, &[], num)?;
        Ok(Node {
            terms,
            den,
            degree: 0,
        })
    }

    fn atom(&self, alloc: Global, basis: Basis, label: &Partition) -> Result<Node, SumFault> {
        atom(alloc, self.family, basis, label)
    }

    fn negated(&self, _: Global, inner: Node) -> Result<Node, SumFault> {
        let Node { terms, den, degree } = inner;
        let terms = terms.scale(Int::new(-1))?;
        Ok(Node { terms, den, degree })
    }

    /// The value of the sum of two expressions with the values `left` and `right`: the list is the
    /// sum times m and d!, with m the least common multiple of their denominators and d the greater
    /// one of their degrees. If m is 2^127 or more, returns `Large`, and no memory is allocated.
    fn added(&self, _: Global, left: Node, right: Node) -> Result<Node, SumFault>
        requires { AreOperands sum 15 (ClearsTo (polynomial_of self.now.family)) left right }
        ensures made { IsMadeOf sum 15 (ClearsTo (polynomial_of self.now.family)) IsHeavyInFamilies
            left right result }
        ensures past { 2 ^ 127 ≤ lcm left.den right.den → IsErrOf result SumFault.Large }
    {
        let common = common_denominator(left.den, right.den)?;
        let degree = left.degree.max(right.degree);
        let by_left = rise(left.degree, degree);
        let by_right = rise(right.degree, degree);
        let p = times(common.from_left, by_left)?;
        let q = times(common.from_right, by_right)?;
        let terms = sum_of(left.terms, p.get(), right.terms, q.get())?;
        Ok(Node {
            terms,
            den: common.den,
            degree,
        })
    }

    fn multiplied(&self, alloc: Global, left: Node, right: Node) -> Result<Node, SumFault> {
        let den = denominator_product(left.den, right.den)?;
        let ways = whole_of(binomial(left.degree, right.degree));
        let mut terms = Lin::new(alloc);
        add_products(alloc, &mut terms, &left.terms, ways, &right.terms)?;
        Ok(Node {
            terms,
            den,
            degree: left.degree + right.degree,
        })
    }

    ghost differs = { λ t e f c h. record {
      den_is = h.den_is;
      degree_is = h.degree_is;
      stands = stands-same (polynomial_of t.family) (factorial (degree (sum e f)))
          (numerator (sum e f) * growth completes (degree (sum e f))) (degree (sum e f))
          (cleared_value (sum e (negation f))) (cleared_value (difference e f)) c.terms
          (difference-value e f) h.stands;
    } };

    ghost grows = { λ _ e f h k.
        heavy-more completes grown-mono e f h.num h.den h.deg k };
}
