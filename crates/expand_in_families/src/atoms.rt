//! The polynomials m_λ, e_λ, h_λ, p_λ and s_λ as lists of terms in the target basis, which is e, h
//! or p in which an expression is expanded.
ghost use Rattle.std.specs.Prelude.{◌≡◌, ◌+◌, ◌*◌, ◌<◌, ◌≤◌, ◌^◌, IfOk, IsErrOf};
ghost use Rattle.sym_model.specs.Bases.{product_over};
ghost use Rattle.sym_model.specs.Expansion.{completes, monomials, schurs};
ghost use Rattle.sym_model.specs.Expression.{atom};
ghost use Rattle.sym_model.specs.Partition.{IsPartition, size};
ghost use Rattle.sym_model.specs.Schur.{schur};
ghost use Rattle.sym_model.specs.Weight.{factorial, growth};
ghost use Rattle.basis_change_laws.specs.JoinedLists.{Stands};
ghost use Rattle.sparse_polys.specs.Families.{basis_in, polynomial_of};
ghost use Rattle.sparse_polys.specs.Tables.{IsWholeTable};
ghost use Rattle.expression_reading.specs.Trees.{basis_of};
ghost use Rattle.family_lists.specs.FactorLists.{over_number};
ghost use Rattle.expand_in_families.specs.Nodes.{IsConverted};

use crate::factorials::{binomial, rise};
use crate::node::Node;
use crate::schur_lists::schur_list;
use basis_change::{in_family, whole_of};
use calc_base::{Basis, SumFault};
use coeff_rings::factorial;
use family_lists::{add_products, factor_list};
use linear_combinations::Lin;
use partitions::Partition;
use sparse_polys::{Family, Whole, single};
use std::alloc::Global;

/// (k + size)!/(q·size!), with q the factor by which `factor_list` multiplies e_k, h_k or p_k: k!
/// for e_k and h_k, and 1 for p_k.
fn ways(family: Family, k: u16, size: u16) -> u128
    requires { k + size ≤ 20 }
    ensures value { result * (over_number family k * factorial size) ≡ factorial (k + size) }
    ensures small { result < 2 ^ 127 }
{
    match family {
        Family::PowerSum => rise(size, k + size),
        Family::Elementary => binomial(k, size),
        Family::Complete => binomial(k, size),
    }
}

/// A list in the target basis, returned with the sum d of the parts: the list is d! times the
/// product of e_k, h_k or p_k (`family` says which) over the parts k.
fn over_parts(
    alloc: Global,
    target: Family,
    family: Family,
    parts: &[u16],
) -> Result<(Whole, u16), SumFault>
    requires partition { IsPartition parts.now }
    requires low { size parts.now ≤ 20 }
    ensures value { IfOk result (λ r.
        Stands (polynomial_of target) (factorial (size parts.now))
        (growth completes (size parts.now))
        (size parts.now) (product_over (polynomial_of family) parts.now) r.0) }
    ensures size { IfOk result (λ r. r.1 ≡ size parts.now) }
    ensures table { IfOk result (λ r. IsWholeTable r.0) }
    ensures large { IsErrOf result SumFault.Large → 2 ^ 127 ≤ growth completes (size parts.now) }
{
    let [k, rest @ ..] = parts else {
        let one = single(alloc, &[], 1)?;
        return Ok((one, 0));
    };
    let (others, size) = over_parts(alloc, target, family, rest)?;
    let list = factor_list(alloc, target, family, *k)?;
    let ways = whole_of(ways(family, *k, size));
    let mut product = Lin::new(alloc);
    add_products(alloc, &mut product, &list, ways, &others)?;
    Ok((product, *k + size))
}

/// The product of e_k, h_k or p_k (`family` says which) over the parts k of `label`, as a list in
/// the basis of `target`, computed from the lists of e_k, h_k or p_k.
fn by_parts(
    alloc: Global,
    target: Family,
    family: Family,
    label: &Partition,
) -> Result<Node, SumFault>
    requires { size label.now ≤ 20 }
    ensures { IsConverted (polynomial_of target) (atom (basis_in family) label.now) result }
{
    let (terms, degree) = over_parts(alloc, target, family, label.parts())?;
    Ok(Node {
        terms,
        den: 1,
        degree,
    })
}

/// The basis polynomial of `label` in the target basis, as a list in that basis: one term.
fn itself(alloc: Global, label: &Partition) -> Result<Node, SumFault>
    requires { size label.now ≤ 20 }
    ensures { (target : Family) → IsConverted (polynomial_of target)
        (atom (basis_in target) label.now) result }
{
    let degree = label.size();
    let terms = single(alloc, label.parts(), whole_of(factorial(degree)).get())?;
    Ok(Node {
        terms,
        den: 1,
        degree,
    })
}

/// The basis polynomial of `label` in the basis e, h or p of `family`, as a list in the target
/// basis.
fn from_family(
    alloc: Global,
    target: Family,
    family: Family,
    label: &Partition,
) -> Result<Node, SumFault>
    requires { size label.now ≤ 20 }
    ensures { IsConverted (polynomial_of target) (atom (basis_in family) label.now) result }
{
    if family == target {
        return itself(alloc, label);
    }
    by_parts(alloc, target, family, label)
}

/// Whether the Schur polynomial of `label` is computed from e_k and the special rim hooks of the
/// conjugate shape, and not from h_k and the special rim hooks of the shape itself: for the target
/// basis e, and for the target basis p if the shape has fewer columns than rows.
fn is_by_columns(target: Family, label: &Partition) -> bool {
    match target {
        Family::Elementary => true,
        Family::Complete => false,
        Family::PowerSum => label.part(1) < label.rows(),
    }
}

/// The Schur polynomial of `label`, as a list in the target basis: by the special rim hooks of its
/// shape, with the factors h_k, or by those of the conjugate shape, with the factors e_k.
fn by_hooks(alloc: Global, target: Family, label: &Partition) -> Result<Node, SumFault>
    requires { size label.now ≤ 15 }
    ensures { IsConverted (polynomial_of target) (atom schurs label.now) result }
{
    let degree = label.size();
    let terms = schur_terms(alloc, target, label)?;
    Ok(Node {
        terms,
        den: 1,
        degree,
    })
}

/// d! times the Schur polynomial of `label`, as a list of terms in the target basis, with d the
/// degree of this polynomial.
fn schur_terms(alloc: Global, target: Family, label: &Partition) -> Result<Whole, SumFault>
    requires partition { IsPartition label.now }
    requires low { size label.now ≤ 15 }
    ensures value { IfOk result (λ terms.
        Stands (polynomial_of target) (factorial (size label.now))
        (growth completes (size label.now))
        (size label.now) (λ n. schur label.now n) terms) }
    ensures table { IfOk result IsWholeTable }
    ensures large { IsErrOf result SumFault.Large → 2 ^ 127 ≤ growth completes (size label.now) }
{
    if is_by_columns(target, label) {
        let shape = label.conjugate()?;
        return schur_list(alloc, target, Family::Elementary, &shape);
    }
    schur_list(alloc, target, Family::Complete, label)
}

/// The monomial symmetric polynomial of `label`, as a list in the target basis.
fn from_monomial(alloc: Global, target: Family, label: &Partition) -> Result<Node, SumFault>
    requires { size label.now ≤ 15 }
    ensures { IsConverted (polynomial_of target) (atom monomials label.now) result }
{
    let degree = label.size();
    let list = single(alloc, label.parts(), 1)?;
    let terms = in_family(alloc, &list, degree, target)?;
    Ok(Node {
        terms,
        den: 1,
        degree,
    })
}

/// The polynomial of λ = `label` in `basis` (m_λ, e_λ, h_λ, p_λ or s_λ), as a list in the target
/// basis.
pub(crate) fn atom(
    alloc: Global,
    target: Family,
    basis: Basis,
    label: &Partition,
) -> Result<Node, SumFault>
    requires { size label.now ≤ 15 }
    ensures { IsConverted (polynomial_of target) (atom (basis_of basis) label.now) result }
{
    match basis {
        Basis::M => from_monomial(alloc, target, label),
        Basis::E => from_family(alloc, target, Family::Elementary, label),
        Basis::H => from_family(alloc, target, Family::Complete, label),
        Basis::P => from_family(alloc, target, Family::PowerSum, label),
        Basis::S => by_hooks(alloc, target, label),
    }
}
