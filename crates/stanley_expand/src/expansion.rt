//! The Stanley polynomial of a permutation in Schur polynomials.
ghost use Rattle.std.specs.Prelude.{◌≤◌, length, IfOk, OnOk, IsErrOf};
ghost use Rattle.sym_model.specs.WholeTerms.{as_fractions};
ghost use Rattle.sym_model.specs.Products.{ExpandsInSchurs};
ghost use Rattle.sym_model.specs.PastLimit.{HasPast, IsCoefficientOfStanley};
ghost use Rattle.sym_model.specs.Stanley.{stanley_in};

use crate::blocks::in_schurs;
use calc_base::SumFault;
use coeff_rings::Int;
use linear_combinations::Terms;
use partitions::Partition;
use perm_codes::Perm;
use std::alloc::Global;

/// The Stanley polynomial of a permutation of at most 16 letters, in `rows` variables, as a sum of
/// Schur polynomials of partitions with at most `rows` rows. `rows` is from 1 to 64.
///
/// Unless memory runs out, returns `Large` if and only if a coefficient exceeds 2^127 - 1.
///
/// A permutation of one block is expanded by the transition rule. If there are several blocks, their
/// Stanley polynomials are multiplied.
pub fn stanley(alloc: Global, w: &Perm, rows: u16) -> Result<Terms<Partition, Int>, SumFault>
    requires variables { (1 ≤ rows) × (rows ≤ 64) }
    requires letters { length w.now ≤ 16 }
    ensures meets { IfOk result (λ terms.
        ExpandsInSchurs (Some rows) (stanley_in w.now) (as_fractions terms)) }
    ensures large { IsErrOf result SumFault.Large
        → HasPast (IsCoefficientOfStanley rows w.now) }
    ensures fits { OnOk result (HasPast (IsCoefficientOfStanley rows w.now) → ⊥) }
{
    let sum = in_schurs(alloc, w, rows)?;
    Ok(sum.sorted_terms()?)
}
