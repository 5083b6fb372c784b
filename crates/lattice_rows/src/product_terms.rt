//! The product of two Schur polynomials, expanded in Schur polynomials: a walk over the rows of the
//! labels, in printed order.
ghost use Rattle.std.specs.Prelude.{◌≡◌, ℕ, ◌+◌, ◌^◌, ◌<◌, ◌≤◌, List, IfOk, IfSome, IsErrOf};
ghost use Rattle.sym_model.specs.Partition.{IsPartition, size, rows as number_of_rows};
ghost use Rattle.sym_model.specs.GoodTableau.{product_count};
ghost use Rattle.lr_product.specs.Counts.{HasCounts, IsPastSomewhere};
ghost use Rattle.lattice_rows.specs.ProductRule.{labelled, AreLimited, AreSmall, HasLarge};

use crate::lattice_row::LatticeState;
use crate::lattice_rows::LatticeRows;
use calc_base::{LIMIT, SumFault};
use coeff_rings::Int;
use linear_combinations::Terms;
use partitions::Partition;
use prefix_walk::Walk;
use std::alloc::Global;

/// The product of the Schur polynomials of `left` and `right`, expanded in Schur polynomials, in
/// every number of variables. `None` if the rule by rows does not apply: unless `right` has 2 to 8
/// parts and the first parts of both add up to at most 255. The contract does not say when `None`
/// is returned.
///
/// Returns `Large` only if a coefficient exceeds 2^127 - 1.
pub fn product(
    alloc: Global,
    left: &Partition,
    right: &Partition,
) -> Result<Option<Terms<Partition, Int>>, SumFault>
    requires sizes { size left.now + size right.now ≤ 4096 }
    requires lengths { number_of_rows left.now + number_of_rows right.now ≤ 512 }
    ensures counts { IfOk result (λ o. IfSome o (HasCounts
        (number_of_rows left.now + number_of_rows right.now)
        (product_count (number_of_rows left.now + number_of_rows right.now)
        left.now right.now))) }
    ensures fits { IfOk result (λ o. IfSome o (λ terms. (parts : List ℕ) → IsPartition parts
        → number_of_rows parts ≤ number_of_rows left.now + number_of_rows right.now
        → product_count (number_of_rows left.now + number_of_rows right.now)
        left.now right.now parts < 2 ^ 127)) }
    ensures large { IsErrOf result SumFault.Large
        → IsPastSomewhere (number_of_rows left.now + number_of_rows right.now)
        (product_count (number_of_rows left.now + number_of_rows right.now)
        left.now right.now) }
    ensures factors { IsPartition left.now × IsPartition right.now }
{
    let len = usize::from(left.rows()) + usize::from(right.rows());
    let Some(rule) = LatticeRows::new(alloc, left, right)? else {
        return Ok(None);
    };
    let start = rule.start();
    let mut walk: Walk<LatticeState, LatticeRows> = Walk::new(alloc, rule, start, len)?;
    let pairs = pairs_of(alloc, &mut walk)?;
    Ok(Terms::from_pairs(pairs))
}

/// The terms that the walk lists: the labels without the zeros at their ends, with their counts.
/// Returns `Large` only if a count is 2^127.
fn pairs_of(
    alloc: Global,
    walk: &mut Walk<LatticeState, LatticeRows>,
) -> Result<Vec<(Partition, Int)>, SumFault>
    requires limits { AreLimited walk.old.rest }
    ensures pairs { IfOk result (λ pairs. pairs.items ≡ labelled walk.old.rest) }
    ensures small { IfOk result (λ pairs. AreSmall walk.old.rest) }
    ensures large { IsErrOf result SumFault.Large → HasLarge walk.old.rest }
{
    let mut pairs: Vec<(Partition, Int)> = Vec::new(alloc);
    while walk.advance()? {
        let (label, count) = walk.current();
        if count >= LIMIT {
            return Err(SumFault::Large);
        }
        let parts = Partition::from_valid_numbers(alloc, label)?;
        pairs.push((parts, Int::new(count as i128)))?;
    }
    Ok(pairs)
}
