//! Products of a list of terms in Schur polynomials with e_k, h_k and p_k, by the vertical strips,
//! horizontal strips and rim hooks of k cells.
ghost use Rattle.std.specs.Prelude.{◌≡◌, ◌↔◌, ◌+◌, ◌<◌, ◌≤◌, ℕ, List, IsTrue, IfOk, IfSome};
ghost use Rattle.sym_model.specs.Bases.{product_over};
ghost use Rattle.sym_model.specs.Expansion.{schurs, IsExpansionOf};
ghost use Rattle.sym_model.specs.Expression.{Tree, atom};
ghost use Rattle.sym_model.specs.Partition.{ArePositive, rows, size};
ghost use Rattle.sym_model.specs.Polynomial.{In, Poly, times};
ghost use Rattle.expression_reading.specs.Trees.{basis_of};
ghost use Rattle.strip_rules.specs.Room.{HaveRoomForStrips};
ghost use Rattle.sparse_polys.specs.Families.{polynomial_of, basis_in};
ghost use Rattle.basis_expand.specs.Operands.{IsOperand};

use crate::operand::Operand;
use calc_base::{Basis, SumFault};
use coeff_rings::Frac;
use linear_combinations::Lin;
use partitions::Partition;
use sparse_polys::Family;
use std::alloc::Global;
use strip_rules::times_family;

/// A label has at most `MAX_CELLS` cells and at most `MAX_ROWS` rows.
const MAX_CELLS: u16 = 4096;

const MAX_ROWS: u16 = 512;

/// Whether `label`, with k more cells and k more rows, would be within the limits of labels: at
/// most 4096 cells and at most 512 rows.
fn can_grow(label: &Partition, k: u16) -> bool
    requires { k ≤ 512 }
    ensures { IsTrue result ↔ ((size label.now + k ≤ 4096) × (rows label.now + k ≤ 512)) }
{
    label.size() + k <= MAX_CELLS && label.rows() + k <= MAX_ROWS
}

/// Whether each label of `list`, with k more cells and k more rows, would be within the limits of
/// labels: at most 4096 cells and at most 512 rows. This always holds for the labels in the
/// expansion of an expression.
fn has_room(list: &Lin<Partition, Frac>, k: u16) -> bool
    requires { k ≤ 512 }
    ensures { IsTrue result ↔ HaveRoomForStrips k list.now }
{
    for (label, _) in list.iter() {
        if !can_grow(label, k) {
            return false;
        }
    }
    true
}

/// The list in Schur polynomials, times e_k, h_k or p_k (`family` says which).
fn times_part(
    alloc: Global,
    family: Family,
    list: Lin<Partition, Frac>,
    k: u16,
) -> Result<Lin<Partition, Frac>, SumFault>
    requires positive { 0 < k }
    requires low { k ≤ 512 }
    ensures { IfOk result (λ product. (n : ℕ) (f : Poly) (q : ℕ)
        → IsExpansionOf schurs list n f q
        → IsExpansionOf schurs product n (times (polynomial_of family k n) f) q) }
{
    if !has_room(&list, k) {
        return Err(SumFault::Large);
    }
    times_family(alloc, &list, family, k)
}

/// The list in Schur polynomials, times the product of e_k, h_k or p_k (`family` says which) over
/// the parts k.
pub(crate) fn times_parts(
    alloc: Global,
    family: Family,
    list: Lin<Partition, Frac>,
    parts: &[u16],
) -> Result<Lin<Partition, Frac>, SumFault>
    requires positive { ArePositive parts.now }
    requires low { size parts.now ≤ 512 }
    ensures { IfOk result (λ product. (n : ℕ) (f : Poly) (q : ℕ) → In n f
        → IsExpansionOf schurs list n f q
        → IsExpansionOf schurs product n
        (times (product_over (polynomial_of family) parts.now n) f) q) }
{
    let [k, rest @ ..] = parts else {
        return Ok(list);
    };
    let others = times_parts(alloc, family, list, rest)?;
    times_part(alloc, family, others, *k)
}

/// The family of polynomials, e_k, h_k or p_k, whose products are the basis e, h or p; None for the
/// bases m and s.
fn family_of(basis: Basis) -> Option<Family>
    ensures { IfSome result (λ family. basis_of basis ≡ basis_in family) }
{
    match basis {
        Basis::E => Some(Family::Elementary),
        Basis::H => Some(Family::Complete),
        Basis::P => Some(Family::PowerSum),
        Basis::M | Basis::S => None,
    }
}

/// For an operand e_λ, h_λ or p_λ: its family (e_k, h_k or p_k) and the partition λ. None for other
/// operands.
pub(crate) fn factors_of(operand: &Operand) -> Option<(Family, &Partition)>
    ensures { IfSome result (λ factors. (e : Tree) → IsOperand e operand.now
        → e ≡ atom (basis_in factors.0) factors.1.now) }
{
    match operand {
        Operand::Atom { basis, label } => Some((family_of(*basis)?, label)),
        Operand::Expanded { .. } => None,
    }
}
