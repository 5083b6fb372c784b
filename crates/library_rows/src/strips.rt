//! Products of expansions in s with h_k, e_k and p_k.
ghost use Rattle.std.specs.Prelude.{IfOk};
ghost use Rattle.strip_rules.specs.Room.{HaveRoomForStrips};

use crate::printing::sum;
use anyhow::Result;
use coeff_rings::Int;
use linear_combinations::Lin;
use partitions::Partition;
use std::alloc::Global;
use strip_rules::{add_column, add_hook, add_row};

/// An expansion in s.
type Expansion = Lin<Partition, Int>;

/// Prints the results of calls of the crate `strip_rules`, one line each.
pub fn print(rt: &(impl Print + Alloc<A = Global>)) -> Result<()> {
    sum(rt, "h_2 s_(1)", with_row(rt.alloc())?)?;
    sum(rt, "e_2 s_(1)", with_column(rt.alloc())?)?;
    sum(rt, "p_2 s_(1)", with_hook(rt.alloc())?)
}

fn with_row(alloc: Global) -> Result<Expansion> {
    Ok(add_row(alloc, one_cell(alloc)?, 2)?)
}

fn with_column(alloc: Global) -> Result<Expansion> {
    Ok(add_column(alloc, one_cell(alloc)?, 2)?)
}

fn with_hook(alloc: Global) -> Result<Expansion> {
    Ok(add_hook(alloc, one_cell(alloc)?, 2)?)
}

/// The expansion s_(1). Its label is small enough for two more cells (`HaveRoomForStrips`).
fn one_cell(alloc: Global) -> Result<Expansion>
    ensures { IfOk result (HaveRoomForStrips 2) }
{
    let mut list = Lin::new(alloc);
    list.add_at_label(&Partition::from_parts(alloc, &[1])?, Int::new(1))?;
    Ok(list)
}
