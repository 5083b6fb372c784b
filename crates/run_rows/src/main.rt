//! Prints rows about runs of the calculator, and about calls of its sources, which give the bytes
//! of an input, and of its sinks, which take the bytes of an output. In many rows a call of a
//! source or of a sink fails. The output is compared with the file `stdout`. The rows show that one
//! failed call is counted, that the status reports it, and that the bytes written are a prefix of
//! the text of the run without a failed call. The printer writes a text in pieces, which it chooses
//! itself.
//!
//! What is proved:
//!
//! The program is proved safe.
//!
//! In the rows for `calc_app::run`, a sink fails at one of its first three calls, or can take too
//! few bytes. Other rows run a batch, whose output has a text for each of its commands and the line
//! `--` between two such texts. In these rows, a sink fails after the first text or at the line
//! `--`; or a source fails at its first call, in the first line or in the second line of the batch;
//! in one row no call fails.
//!
//! The remaining rows call sources and sinks themselves. The sources are in memory and over a
//! reader; the sinks are in memory, in a buffer and over a writer, and one sink only counts. In
//! these rows, a read fails, but loses no byte; a write takes one byte, fails, or takes nothing;
//! and a buffer is full. The expected lines were first printed by the program and then checked by
//! reading, since the printer chooses the pieces of a text.
#![tactic(auto)]

mod narrow;
mod runs;
mod sinks;
mod sources;

fn main(rt: HostRuntime) -> anyhow::Result<()> {
    runs::print(&rt)?;
    sources::print(&rt)?;
    sinks::print(&rt)
}
