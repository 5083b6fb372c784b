//! A tableau of rows that have been read.
ghost use Rattle.std.specs.Prelude.{◌≡◌, IfOk, map};
ghost use Rattle.sym_model.specs.Tableau.{IsTableau};

use calc_base::NoMemory;
use partitions::Partition;
use skew_shapes::{Skew, Tableau, TableauFault};
use std::alloc::Global;
use tableau_iter::reading_of_rows;

/// The tableau of shape outer/inner with these rows.
pub(crate) fn tableau_of(
    alloc: Global,
    outer: Partition,
    inner: Partition,
    rows: &[Vec<u16>],
) -> Result<Tableau, NoMemory>
    requires { IsTableau outer inner (map (λ r. r.items) rows.now) }
    ensures { IfOk result (λ t. t
        ≡ record { outer = outer; inner = inner; rows = map (λ r. r.items) rows.now }) }
{
    let Some(shape) = Skew::new(outer, inner) else {
        unreachable!()
    };
    let letters = reading_of_rows(alloc, shape.outer().parts(), shape.inner().parts(), rows)?;
    match Tableau::from_reading(alloc, shape, &letters) {
        Ok(tableau) => Ok(tableau),
        Err(TableauFault::NoMemory) => Err(NoMemory),
        Err(TableauFault::Length) => unreachable!(),
        Err(TableauFault::Order) => unreachable!(),
    }
}
