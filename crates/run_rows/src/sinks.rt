//! Calls of sinks: the outcome of each call, and the bytes that were written.
use crate::narrow::NarrowWriter;
use anyhow::Result;
use calc_base::{CountSink, FixedSink, MemSink, Sink, StdOut};
use row_texts::{end, said, start, term, text};
use std::alloc::Global;
use std::io::BufWriter;

/// Prints the outcomes of calls of four kinds of sinks: in memory, in a buffer of fixed size, one
/// that only counts, and one over a writer.
pub fn print(rt: &(impl Print + Alloc<A = Global>)) -> Result<()> {
    in_memory(
        rt,
        MemSink::new(rt.alloc(), 8, &[1])?,
        &["ab", "cd", "efghijk"],
    )?;
    in_memory(rt, MemSink::new(rt.alloc(), 8, &[1])?, &["ab"])?;
    in_memory(rt, MemSink::new(rt.alloc(), 3, &[])?, &["ab", "cd"])?;
    in_a_buffer(rt, &mut [0; 3])?;
    counted(rt)?;
    written(rt)
}

fn in_memory(rt: &impl Print, sink: MemSink, pieces: &[&str]) -> Result<()> {
    let mut sink = sink;
    put_each(rt, &mut sink, pieces)?;
    stands(rt, sink.bytes(), sink.faults())
}

fn in_a_buffer(rt: &impl Print, buffer: &mut [u8]) -> Result<()> {
    let mut sink = FixedSink::new(buffer);
    put_each(rt, &mut sink, &["ab", "cd"])?;
    stands(rt, sink.bytes(), sink.faults())
}

fn counted(rt: &impl Print) -> Result<()> {
    let mut sink = CountSink::new();
    put_each(rt, &mut sink, &["ab", "", "cd"])?;
    said(rt, "counted", &sink.count())
}

fn written(rt: &(impl Print + Alloc<A = Global>)) -> Result<()> {
    let mut writer = NarrowWriter::new();
    // A `BufWriter` of capacity 0 passes each piece to its writer at once.
    let straight = BufWriter::with_capacity(rt.alloc(), 0, &mut writer)?;
    put_and_finish_twice(rt, StdOut::new(straight))?;
    text(rt, "written", writer.taken())
}

fn put_and_finish_twice<K: Sink + Drop>(rt: &impl Print, sink: K) -> Result<()> {
    let mut sink = sink;
    put_each(rt, &mut sink, &["abc", "", "de", "fg"])?;
    finish(rt, &mut sink)
}

/// Writes the pieces to the sink and calls `finish`, and prints the outcome of each call.
fn put_each<K: Sink>(rt: &impl Print, sink: &mut K, pieces: &[&str]) -> Result<()> {
    for piece in pieces {
        put(rt, sink, piece)?;
    }
    finish(rt, sink)
}

fn put<K: Sink>(rt: &impl Print, sink: &mut K, piece: &str) -> Result<()> {
    let answer = ended(sink.put(piece.as_bytes()).is_ok());
    start(rt, "put")?;
    term(rt, &answer, &[piece])?;
    end(rt)
}

fn finish<K: Sink>(rt: &impl Print, sink: &mut K) -> Result<()> {
    said(rt, "finished", &ended(sink.finish().is_ok()))
}

fn ended(well: bool) -> &'static str {
    if well { "done" } else { "a fault" }
}

/// Prints the bytes that were written and the number of failed calls.
fn stands(rt: &impl Print, bytes: &[u8], faults: u64) -> Result<()> {
    text(rt, "written", bytes)?;
    said(rt, "faults", &faults)
}
