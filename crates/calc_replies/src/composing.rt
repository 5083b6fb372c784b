//! The answer to the command `plethysm`.
ghost use Rattle.std.specs.Prelude.{◌≡◌, ℕ, ◌^◌, ◌≤◌, IfOk, IsErrOf};
ghost use Rattle.sym_model.specs.Command as commands;
ghost use Rattle.sym_model.specs.Expansion.{monomials, IsExpansionOf};
ghost use Rattle.sym_model.specs.Expression.{cleared_value, degree, denominator};
ghost use Rattle.sym_model.specs.ListWeight.{IsBounded};
ghost use Rattle.sym_model.specs.Plethysm.{plethysm as plethysm_of, plethysm_weight};
ghost use Rattle.sym_model.specs.Weight.{numerator};
ghost use Rattle.sparse_polys.specs.LabelSizes.{AreWithin};
ghost use Rattle.expression_reading.specs.Trees.{basis_of, tree_of};
ghost use Rattle.calc_words.specs.Commands.{KeepsLimits};
ghost use Rattle.calc_replies.specs.Computed.{IsReplyTo};

use crate::outcome::{Outcome, as_block};
use basis_expand::to_monomial;
use calc_base::{NoMemory, SumFault, Weight};
use calc_language::{Basis, Formula};
use coeff_rings::Frac;
use expansion_printer::Answer;
use linear_combinations::{Lin, Terms};
use partitions::Partition;
use std::alloc::Global;

/// The bound (`IsBounded`) for the coefficients of the empty list.
const NOTHING: Weight = Weight { num: 1, den: 1 };

/// The outcome of `plethysm`: the plethysm F[G] of F = `outer` and G = `inner` in the basis
/// `target`, or `Large` if it is too large.
pub(crate) fn composed(
    alloc: Global,
    target: Basis,
    outer: &Formula,
    inner: &Formula,
) -> Result<Outcome, NoMemory>
    requires { KeepsLimits (commands.plethysm (basis_of target) (tree_of outer.now.tree)
        (tree_of inner.now.tree)) }
    ensures { IsReplyTo (commands.plethysm (basis_of target) (tree_of outer.now.tree)
        (tree_of inner.now.tree)) result }
{
    match composition(alloc, target, outer, inner) {
        Ok(terms) => Ok(as_block(Answer::Expansion { terms })),
        Err(SumFault::Large) => Ok(Outcome::Large),
        Err(SumFault::NoMemory) => Err(NoMemory),
    }
}

/// The plethysm F[G] of F = `outer` and G = `inner` in the basis `target`, as a list of terms in
/// the printed order.
fn composition(
    alloc: Global,
    target: Basis,
    outer: &Formula,
    inner: &Formula,
) -> Result<Terms<Partition, Frac>, SumFault>
    requires { KeepsLimits (commands.plethysm (basis_of target) (tree_of outer.now.tree)
        (tree_of inner.now.tree)) }
    ensures expands { let f = tree_of outer.now.tree in let g = tree_of inner.now.tree in
        IfOk result (λ terms. (n : ℕ) → IsExpansionOf (basis_of target) terms n
        (plethysm_of (cleared_value f) (degree g) n (cleared_value g n)) (denominator f)) }
    ensures large { let f = tree_of outer.now.tree in let g = tree_of inner.now.tree in
        IsErrOf result SumFault.Large
        → 2 ^ 127 ≤ plethysm_weight (numerator f) (denominator f) (degree f) (numerator g)
        (degree g) }
{
    let list = in_target(alloc, target, outer, inner)?;
    let terms = list.sorted_terms()?;
    Ok(terms)
}

/// The plethysm F[G] of F = `outer` and G = `inner` in the basis `target`, as an unordered list of
/// terms.
fn in_target(
    alloc: Global,
    target: Basis,
    outer: &Formula,
    inner: &Formula,
) -> Result<Lin<Partition, Frac>, SumFault>
    requires { KeepsLimits (commands.plethysm (basis_of target) (tree_of outer.now.tree)
        (tree_of inner.now.tree)) }
    ensures expands { let f = tree_of outer.now.tree in let g = tree_of inner.now.tree in
        IfOk result (λ list. (n : ℕ) → IsExpansionOf (basis_of target) list n
        (plethysm_of (cleared_value f) (degree g) n (cleared_value g n)) (denominator f)) }
    ensures large { let f = tree_of outer.now.tree in let g = tree_of inner.now.tree in
        IsErrOf result SumFault.Large
        → 2 ^ 127 ≤ plethysm_weight (numerator f) (denominator f) (degree f) (numerator g)
        (degree g) }
{
    let Some(bound) = outer.weight() else {
        return Err(SumFault::Large);
    };
    let list = to_monomial(alloc, outer)?;
    if outer.degree() == 0 {
        // If F = `outer` is constant, F[G] does not depend on G = `inner`, which is not expanded.
        return plethysm::plethysm(alloc, &list, bound, &Lin::new(alloc), NOTHING, target);
    }
    substituted(alloc, target, outer, &list, bound, inner)
}

/// The plethysm F[G] of F = `outer` and G = `inner` in the basis `target`, for F of positive
/// degree. `list` is the expansion of F in m, and `bound` a bound for its coefficients.
fn substituted(
    alloc: Global,
    target: Basis,
    outer: &Formula,
    list: &Lin<Partition, Frac>,
    bound: Weight,
    inner: &Formula,
) -> Result<Lin<Partition, Frac>, SumFault>
    requires limits { KeepsLimits
        (commands.plethysm (basis_of target) (tree_of outer.now.tree) (tree_of inner.now.tree)) }
    requires some { 1 ≤ degree (tree_of outer.now.tree) }
    requires value { let f = tree_of outer.now.tree in
        (n : ℕ) → IsExpansionOf monomials list.now n (cleared_value f n) (denominator f) }
    requires bounded { IsBounded bound.num bound.den list.now }
    requires labels { AreWithin (degree (tree_of outer.now.tree)) list.now }
    requires number { bound.num ≡ numerator (tree_of outer.now.tree) }
    requires divisor { bound.den ≡ denominator (tree_of outer.now.tree) }
    ensures expands { let f = tree_of outer.now.tree in let g = tree_of inner.now.tree in
        IfOk result (λ list. (n : ℕ) → IsExpansionOf (basis_of target) list n
        (plethysm_of (cleared_value f) (degree g) n (cleared_value g n)) (denominator f)) }
    ensures large { let f = tree_of outer.now.tree in let g = tree_of inner.now.tree in
        IsErrOf result SumFault.Large
        → 2 ^ 127 ≤ plethysm_weight (numerator f) (denominator f) (degree f) (numerator g)
        (degree g) }
{
    let Some(inner_bound) = inner.weight() else {
        return Err(SumFault::Large);
    };
    let monomials = to_monomial(alloc, inner)?;
    plethysm::plethysm(alloc, list, bound, &monomials, inner_bound, target)
}
