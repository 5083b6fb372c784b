//! Calls of sources, with the result of each call.
use crate::narrow::NarrowReader;
use anyhow::Result;
use calc_base::{MemSource, Source, StdIn};
use row_texts::{said, text};
use std::alloc::Global;

/// Prints the results of calls of sources in memory and over a reader.
pub fn print(rt: &(impl Print + Alloc<A = Global>)) -> Result<()> {
    in_memory(rt, MemSource::new(rt.alloc(), b"abc", 2, &[1])?)?;
    in_memory(rt, MemSource::new(rt.alloc(), b"ab", 1, &[])?)?;
    take_four(rt, "read", &mut StdIn::new(NarrowReader::new()))
}

fn in_memory(rt: &impl Print, source: MemSource) -> Result<()> {
    let mut source = source;
    take_four(rt, "taken", &mut source)?;
    said(rt, "faults", &source.faults())
}

fn take_four<S: Source>(rt: &impl Print, what: &str, source: &mut S) -> Result<()> {
    for _ in 0..4u8 {
        take(rt, what, source)?;
    }
    Ok(())
}

/// Takes bytes from the source into a buffer of four bytes, and prints the result of the call.
fn take<S: Source>(rt: &impl Print, what: &str, source: &mut S) -> Result<()> {
    let mut buf = [0; 4];
    match source.take(&mut buf) {
        Ok(count) => text(rt, what, &buf[..count]),
        Err(_) => said(rt, what, &"a fault"),
    }
}
