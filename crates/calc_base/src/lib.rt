//! The base of the calculator: sources and sinks of bytes, listers, which give a list item by item,
//! and the small types that the crates of the calculator share.
//!
//! What is proved:
//!
//! The contracts of the traits `Source`, `Sink` and `Lister`. For the sources and sinks in memory,
//! functions in specs/ define which calls fail and the state after each call. `StdIn` and `StdOut`
//! satisfy the contracts of their traits, and if a call of `finish` succeeds, the buffer of
//! `StdOut` is empty. No call changes whether the bytes of a source or sink are recorded. A call that succeeds leaves the count of faults unchanged, and one that fails
//! adds 1, but not beyond 2^64 - 1. `put_if` writes a text whole, or a prefix of it. `mixed` is the
//! number with the given digits to a fixed base, modulo 2^64.
#![tactic(auto)]

mod calls;
mod count_sink;
mod faults;
mod fixed_sink;
mod growing_sink;
mod hashing;
mod lister;
mod mem_sink;
mod mem_source;
mod sink;
mod source;
mod status;
mod std_in;
mod std_out;
mod steady;
mod word;
mod words;
mod writing;

pub use count_sink::CountSink;
pub use faults::{LIMIT, Large, NoMemory, SinkFault, SourceFault, SumFault};
pub use fixed_sink::FixedSink;
pub use growing_sink::GrowingSink;
pub use hashing::mixed;
pub use lister::Lister;
pub use mem_sink::MemSink;
pub use mem_source::MemSource;
pub use sink::Sink;
pub use source::Source;
pub use status::Status;
pub use std_in::StdIn;
pub use std_out::StdOut;
pub use steady::{SteadyRead, SteadyWrite};
pub use word::Word;
pub use words::{Basis, Place, Weight, WordsFault};
pub use writing::put_if;
