//! The partitions that are left when a rim hook of three cells is removed from (2,1).
use anyhow::Result;
use calc_base::Lister;
use partitions::Partition;
use row_texts::{end, start, term};
use skew_shapes::HooksRemoved;
use std::alloc::Global;

/// Prints the partitions that are left when a rim hook of 3 cells is removed from (2,1), each with
/// the height of the rim hook. At most a hundred are printed.
pub fn print(rt: &(impl Print + Alloc<A = Global>)) -> Result<()> {
    let outer = Partition::from_parts(rt.alloc(), &[2, 1])?;
    removed(rt, &mut HooksRemoved::new(rt.alloc(), &outer, 3)?)
}

fn removed(rt: &impl Print, list: &mut HooksRemoved) -> Result<()> {
    for _ in 0..100u16 {
        if list.advance() {
            let height = list.height();
            row(rt, list.current(), height)?;
        }
    }
    Ok(())
}

fn row(rt: &impl Print, parts: &[u16], height: u16) -> Result<()> {
    start(rt, "(2,1) without a rim hook of 3")?;
    term(rt, &"shape", parts)?;
    term(rt, &"height", &[height])?;
    end(rt)
}
