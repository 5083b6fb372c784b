//! Runs of the calculator, with their outcomes. The input is given two bytes at a time, and in most
//! runs a call of the sink or of the source fails.
use anyhow::Result;
use calc_app::run;
use calc_base::{MemSink, MemSource};
use std::alloc::{AllocError, Global};

/// A run of the calculator: the words of the command, its input, the calls of the source and of the
/// sink that fail, and the number of bytes that the sink can take.
struct Run {
    what: &'static str,
    words: &'static [&'static str],
    input: &'static str,
    source_fails: &'static [u64],
    sink_fails: &'static [u64],
    room: usize,
}

const EXPANSION: &[&str] = &["expand", "m", "p[2,1]"];

const PRODUCT: &[&str] = &["mult", "2", "1", "-", "2", "1"];

const REFUSED: &[&str] = &["mult", "1", "2", "-", "1"];

const BATCH: &[&str] = &["batch"];

/// Two lines of a batch.
const LINES: &str = "schubert 1\nschubert 1\n";

/// Five lines of a batch, the last of them without its line feed.
const FIVE_LINES: &str = "mult 1 - 1\n# note\n\nmult 1 2 - 1\nexpand m p[2,1]";

/// Two lines of a batch: the output for the first one is written in one piece, and the second one
/// has more tableaux than could be listed.
const LONG_LINES: &str =
    "mult 1 - 1\ntab 30 29 28 27 26 25 24 23 22 21 20 19 18 17 16 15 14 13 12 11 10 9 8 7 6 5 4 3 2 1 / 29 28 27 26 25 24 23 22 21 20 19 18 17 16 15 14 13 12 11 10 9 8 7 6 5 4 3 2 1\n";

const RUNS: [Run; 12] = [
    Run {
        what: "a sink that fails at call 0",
        words: EXPANSION,
        input: "",
        source_fails: &[],
        sink_fails: &[0],
        room: 256,
    },
    Run {
        what: "a sink that fails at call 1",
        words: EXPANSION,
        input: "",
        source_fails: &[],
        sink_fails: &[1],
        room: 256,
    },
    Run {
        what: "a sink that fails at call 2",
        words: EXPANSION,
        input: "",
        source_fails: &[],
        sink_fails: &[2],
        room: 256,
    },
    Run {
        what: "a product, and a sink that fails at call 0",
        words: PRODUCT,
        input: "",
        source_fails: &[],
        sink_fails: &[0],
        room: 256,
    },
    Run {
        what: "a product, and a sink with room for 10 bytes",
        words: PRODUCT,
        input: "",
        source_fails: &[],
        sink_fails: &[],
        room: 10,
    },
    Run {
        what: "a refused product, and a sink that fails at call 0",
        words: REFUSED,
        input: "",
        source_fails: &[],
        sink_fails: &[0],
        room: 256,
    },
    Run {
        what: "a source that fails at call 0",
        words: BATCH,
        input: LINES,
        source_fails: &[0],
        sink_fails: &[],
        room: 256,
    },
    Run {
        what: "a source that fails at call 1",
        words: BATCH,
        input: LINES,
        source_fails: &[1],
        sink_fails: &[],
        room: 256,
    },
    Run {
        what: "a source that fails at call 6",
        words: BATCH,
        input: LINES,
        source_fails: &[6],
        sink_fails: &[],
        room: 256,
    },
    Run {
        what: "a sink that fails after the first block",
        words: BATCH,
        input: LONG_LINES,
        source_fails: &[],
        sink_fails: &[1],
        room: 256,
    },
    Run {
        what: "a sink that fails at the line --",
        words: BATCH,
        input: LONG_LINES,
        source_fails: &[],
        sink_fails: &[2],
        room: 256,
    },
    Run {
        what: "a line that is refused, and no fault",
        words: BATCH,
        input: FIVE_LINES,
        source_fails: &[],
        sink_fails: &[],
        room: 256,
    },
];

/// Prints a row for each run.
pub fn print(rt: &(impl Print + Alloc<A = Global>)) -> Result<()> {
    for it in &RUNS {
        row(rt, it)?;
    }
    Ok(())
}

fn row(rt: &(impl Print + Alloc<A = Global>), it: &Run) -> Result<()> {
    let words = words(rt.alloc(), it.words)?;
    let mut source = MemSource::new(rt.alloc(), it.input.as_bytes(), 2, it.source_fails)?;
    let mut sink = MemSink::new(rt.alloc(), it.room, it.sink_fails)?;
    print!(rt; "{}: ", it.what)?;
    ended(rt, &words, &mut source, &mut sink)
}

/// The words of a command.
fn words(alloc: Global, texts: &[&str]) -> Result<Vec<String>, AllocError> {
    let mut words = Vec::new(alloc);
    for text in texts {
        words.push(String::from_str(alloc, text)?)?;
    }
    Ok(words)
}

/// Runs a command over a source and a sink in memory, and prints its status, the numbers of failed
/// calls of the source and of the sink, and the bytes that were written.
fn ended(
    rt: &(impl Print + Alloc<A = Global>),
    words: &[String],
    source: &mut MemSource,
    sink: &mut MemSink,
) -> Result<()> {
    let status = run(rt.alloc(), words, source, sink);
    let text = str::from_utf8(sink.bytes())?;
    let faults = (source.faults(), sink.faults());
    Ok(println!(rt;
        "{status:?}, faults of source and sink: {} and {}, text {text:?}",
        faults.0, faults.1
    )?)
}
