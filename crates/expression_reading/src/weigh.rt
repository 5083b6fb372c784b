//! Bounds for the numbers in the conversion of an expression e into a basis. The weight of e is a
//! numerator N and a denominator D, both below 2^127: if D·e is multiplied out into a sum of
//! products of basis elements, the absolute values of its coefficients add up to at most N.
ghost use Rattle.std.specs.Prelude.{◌≡◌, ◌+◌, ◌*◌, ◌/◌, ◌^◌, ◌<◌, ◌≤◌, IsTrue, SomeIff};
ghost use Rattle.std.specs.Prelude.{MatchOption, option_map};
ghost use Rattle.sym_model.specs.Canonical.{gcd};
ghost use Rattle.sym_model.specs.Expression.{denominator, degree as degree_of};
ghost use Rattle.sym_model.specs.Weight.{numerator, growth, weight};
ghost use Rattle.expression_reading.specs.Trees.{basis_of, tree_of, has_no_signs};
ghost use Rattle.expression_reading.specs.Weights.{IsWeighed};

use crate::Expr;
use calc_base::{Basis, LIMIT, Weight};
use coeff_rings::{factorial, gcd};

/// The weight with this numerator and denominator, if both are below 2^127.
fn weight_of(num: u128, den: u128) -> Option<Weight>
    ensures { IsWeighed result num den }
{
    if num < LIMIT && den < LIMIT {
        Some(Weight { num, den })
    } else {
        None
    }
}

/// The weight of a sum or a difference of expressions with the weights `a` and `b`. Its denominator
/// is the least common multiple of `a.den` and `b.den`. None if the numerator or the denominator is
/// 2^127 or more.
fn sum_weight(a: Weight, b: Weight) -> Option<Weight>
    requires { 0 < a.den }
    ensures { let g = gcd a.den b.den in
        IsWeighed result (a.num * (b.den / g) + b.num * (a.den / g)) (a.den / g * b.den) }
{
    let common = gcd(a.den, b.den);
    let from_a = b.den / common;
    let from_b = a.den / common;
    let den = from_b.checked_mul(b.den)?;
    let a_num = a.num.checked_mul(from_a)?;
    let b_num = b.num.checked_mul(from_b)?;
    weight_of(a_num.checked_add(b_num)?, den)
}

/// The weight of a product of expressions with the weights `a` and `b`; None if the numerator or
/// the denominator is 2^127 or more.
fn product_weight(a: Weight, b: Weight) -> Option<Weight>
    ensures { IsWeighed result (a.num * b.num) (a.den * b.den) }
{
    weight_of(a.num.checked_mul(b.num)?, a.den.checked_mul(b.den)?)
}

/// Replaces the numerator and the denominator of a weight by `num` and `den`, if both are below
/// 2^127; otherwise None.
fn put(weight: &mut Weight, num: u128, den: u128) -> Option<()>
    ensures { IsWeighed (option_map (λ _. weight.new) result) num den }
{
    *weight = weight_of(num, den)?;
    Some(())
}

/// Replaces `weight` by the weight of a sum of expressions with the weights `first` and `weight`;
/// the new denominator is the least common multiple of their denominators. None if the new
/// numerator or denominator is 2^127 or more.
#[inline(never)]
fn add_to(weight: &mut Weight, first: &Weight) -> Option<()>
    requires { 0 < first.now.den }
    ensures { let g = gcd first.now.den weight.old.den in
        IsWeighed (option_map (λ _. weight.new) result)
        (first.now.num * (weight.old.den / g) + weight.old.num * (first.now.den / g))
        (first.now.den / g * weight.old.den) }
{
    *weight = sum_weight(*first, *weight)?;
    Some(())
}

/// Replaces `weight` by the weight of a product of expressions with the weights `first` and
/// `weight`; None if the new numerator or denominator is 2^127 or more.
#[inline(never)]
fn multiply_by(weight: &mut Weight, first: &Weight) -> Option<()>
    ensures { IsWeighed (option_map (λ _. weight.new) result) (first.now.num * weight.old.num)
        (first.now.den * weight.old.den) }
{
    *weight = product_weight(*first, *weight)?;
    Some(())
}

impl Expr {
    /// The numerator and the denominator of the weight of the expression; None if and only if one
    /// of them is 2^127 or more.
    pub(crate) fn weigh(&self) -> Option<Weight>
        requires { IsTrue (has_no_signs self.now) }
        ensures { IsWeighed result (numerator (tree_of self.now)) (denominator (tree_of self.now)) }
    {
        let mut weight = Weight { num: 1, den: 1 };
        self.weigh_into(&mut weight)?;
        Some(weight)
    }

    /// Writes the numerator and the denominator of the weight of the expression to `weight`; None
    /// if one of them is 2^127 or more. A tree may be deep, so little is stored for each level.
    fn weigh_into(&self, weight: &mut Weight) -> Option<()>
        requires { IsTrue (has_no_signs self.now) }
        ensures { IsWeighed (option_map (λ _. weight.new) result) (numerator (tree_of self.now))
            (denominator (tree_of self.now)) }
    {
        match self {
            Expr::Number { num } => put(weight, (*num as u128).max(1), 1),
            Expr::Fraction { num, den } => put(weight, (*num as u128).max(1), *den as u128),
            Expr::Atom { .. } => put(weight, 1, 1),
            Expr::Negation { inner } => inner.weigh_into(weight),
            Expr::Sum { left, right } | Expr::Difference { left, right } => {
                left.weigh_into(weight)?;
                let first = *weight;
                right.weigh_into(weight)?;
                add_to(weight, &first)
            }
            Expr::Product { left, right } => {
                left.weigh_into(weight)?;
                let first = *weight;
                right.weigh_into(weight)?;
                multiply_by(weight, &first)
            }
        }
    }
}

/// The factor by which a conversion into the target basis can raise the coefficients at degree d;
/// None if the factor is 2^128 or more.
fn growth(target: Basis, d: u16) -> Option<u128>
    requires { d ≤ 20 }
    ensures { SomeIff result (growth (basis_of target) d < 2 ^ 128) (growth (basis_of target) d) }
{
    let exponent = u32::from(d);
    match target {
        Basis::M | Basis::S => u128::from(d).checked_pow(exponent),
        Basis::P | Basis::H | Basis::E => {
            let power = (2 * u128::from(d)).checked_pow(exponent)?;
            factorial(d).checked_mul(power)
        }
    }
}

/// A bound for all numbers in the conversion of an expression into the target basis: N·D times
/// `growth` at the degree of the expression, with the numerator N and the denominator D of its
/// weight. None only if this product is 2^127 or more.
pub(crate) fn checked_weight(tree: &Expr, degree: u16, target: Basis) -> Option<u128>
    requires plain { IsTrue (has_no_signs tree.now) }
    requires low { degree ≤ 20 }
    requires degree { degree ≡ degree_of (tree_of tree.now) }
    ensures { MatchOption result
        (2 ^ 127 ≤ weight (basis_of target) (tree_of tree.now))
        (λ w. w ≡ weight (basis_of target) (tree_of tree.now)) }
{
    let numbers = tree.weigh()?;
    let growth = growth(target, degree)?;
    numbers.num.checked_mul(numbers.den)?.checked_mul(growth)
}
