//! The lister of the terms of the product of two Schur polynomials.
ghost use Rattle.std.specs.Prelude.{◌≡◌, ◌++◌, ◌+◌, ◌≤◌, [], false, IfOk, IfSome, IsErrOf, IsNone};
ghost use Rattle.std.specs.Option.{option_to_list};
ghost use Rattle.sym_model.specs.Canonical.{is_printable};
ghost use Rattle.sym_model.specs.Partition.{IsPartition, size, rows as number_of_rows};
ghost use Rattle.sym_model.specs.WholeTerms.{as_fractions};
ghost use Rattle.lattice_rows.specs.ListedProduct.{ListsProduct};

use crate::lattice_row::LatticeState;
use crate::lattice_rows::LatticeRows;
use calc_base::{LIMIT, NoMemory, SumFault};
use coeff_rings::Int;
use partitions::Partition;
use prefix_walk::Walk;
use std::alloc::Global;
use std::marker::Model;

/// The terms of the product of two Schur polynomials, found one after another in printed order.
#[derive(Drop)]
pub struct ProductLister {
    alloc: Global,
    walk: Walk<LatticeState, LatticeRows>,
}

impl Model for ProductLister {
    ghost use Rattle.sym_model.specs.WholeTerms.{WholeTerms};
    ghost use Rattle.lattice_rows.specs.ProductRule.{labelled, AreLimited};

    ghost Value = { WholeTerms };

    ghost view = { λ l. labelled l.walk.rest };

    ghost invariant = { λ l. AreLimited l.walk.rest };
}

impl ProductLister {
    /// The lister of the terms of the product of the Schur polynomials of `left` and `right`, in
    /// every number of variables. `None` if the rule by rows does not apply: unless `right` has 2 to
    /// 8 parts and the first parts of both add up to at most 255. The contract does not say when
    /// `None` is returned.
    ///
    /// In contracts, a lister is the list of the terms that it is still to give. A coefficient of
    /// 2^127 or more, at which `next` returns `Large`, is 2^127 there.
    pub fn new(
        alloc: Global,
        left: &Partition,
        right: &Partition,
    ) -> Result<Option<ProductLister>, NoMemory>
        requires sizes { size left.now + size right.now ≤ 4096 }
        requires lengths { number_of_rows left.now + number_of_rows right.now ≤ 512 }
        ensures lists { IfOk result (λ o. IfSome o (ListsProduct
            (number_of_rows left.now + number_of_rows right.now) left.now right.now)) }
        ensures factors { IsPartition left.now × IsPartition right.now }
    {
        let len = usize::from(left.rows()) + usize::from(right.rows());
        let Some(rule) = LatticeRows::new(alloc, left, right)? else {
            return Ok(None);
        };
        let start = rule.start();
        let walk: Walk<LatticeState, LatticeRows> = Walk::new(alloc, rule, start, len)?;
        Ok(Some(ProductLister { alloc, walk }))
    }

    /// The next term; `None` if and only if there is no further term. Returns `Large` only if its
    /// coefficient exceeds 2^127 - 1. After an error there is no further term that is promised.
    pub fn next(&mut self) -> Result<Option<(Partition, Int)>, SumFault>
        ensures next { IfOk result (λ o. self.old ≡ option_to_list o ++ self.new) }
        ensures ended { IfOk result (λ o. IsNone o → self.old ≡ []) }
        ensures large { IsErrOf result SumFault.Large → is_printable (as_fractions self.old) ≡ false }
    {
        if !self.walk.advance()? {
            return Ok(None);
        }
        let (label, count) = self.walk.current();
        if count >= LIMIT {
            return Err(SumFault::Large);
        }
        let parts = Partition::from_valid_numbers(self.alloc, label)?;
        Ok(Some((parts, Int::new(count as i128))))
    }
}
