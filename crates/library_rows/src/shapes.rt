//! Makes the skew shapes that `listed.rt` applies calls to.
use anyhow::Result;
use partitions::Partition;
use skew_shapes::Skew;
use std::alloc::Global;

/// The skew shape outer/inner; None if inner is not contained in outer.
pub fn skew(alloc: Global, outer: &[u16], inner: &[u16]) -> Result<Option<Skew>> {
    let outer = Partition::from_parts(alloc, outer)?;
    let inner = Partition::from_parts(alloc, inner)?;
    Ok(Skew::new(outer, inner))
}
