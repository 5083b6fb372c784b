//! The sums over the blocks of lines: the numbers of blocks, terms and bytes, and the text of these
//! three sums. The block of a line is the text of its answer or refusal.

ghost use Rattle.std.specs.Prelude.{◌≡◌, ◌≤◌, ◌<◌, ◌+◌, ◌==◌, [], cond, true, length, decimal};
ghost use Rattle.calc_base.specs.Puts.{Puts};
ghost use Rattle.sym_model.specs.Schur.{times_in};
ghost use Rattle.sym_model.specs.Workload.{terms_in};
ghost use Rattle.batch_lines.specs.Totals.{sums_over, sums_with, AreSmall, sums_text};

use calc_base::{Sink, put_if};
use itoa::Buffer;

/// The numbers of blocks, of terms and of bytes, added up over the blocks (the texts of the answers
/// or refusals) of some lines.
#[derive(Clone, Copy, Debug, Drop)]
pub struct Sums {
    lines: u128,
    terms: u128,
    bytes: u128,
}

impl Sums {
    /// The sums over no block.
    pub fn new() -> Sums
        ensures sums { result ≡ sums_over [] }
        ensures small { AreSmall result }
    {
        Sums {
            lines: 0,
            terms: 0,
            bytes: 0,
        }
    }

    /// Adds a block; at most 65,536 blocks may be added. A block has one term for each line, and
    /// none if it is the line `0`.
    pub fn add(&mut self, block: &[u8])
        requires small { AreSmall self.old }
        requires room { self.old.lines < 65536 }
        ensures sums { self.new ≡ sums_with self.old block.now }
        ensures still_small { AreSmall self.new }
    {
        self.lines += 1;
        self.terms += u128::from(terms(block));
        self.bytes += block.len() as u128;
    }
}

/// The number of terms of a block.
fn terms(block: &[u8]) -> u64
    ensures terms { result ≡ terms_in block.now }
    ensures few { result ≤ length block.now }
{
    let none: &[u8] = b"0\n";
    if block == none {
        return 0;
    }
    feeds(block)
}

/// The number of line feeds among the bytes.
fn feeds(bytes: &[u8]) -> u64
    ensures feeds { result ≡ times_in 10 bytes.now }
    ensures few { result ≤ length bytes.now }
{
    let mut count = 0;
    for at in 0..bytes.len() {
        count += feed(bytes[at]);
    }
    count
}

/// 1 for a line feed, and 0 for another byte.
fn feed(byte: u8) -> u64
    ensures { result ≡ cond (byte == 10) 1 0 }
{
    if byte == b'\n' { 1 } else { 0 }
}

/// Writes the sums to the sink, a line for each of the three numbers, and returns whether all calls
/// of the sink succeeded.
pub fn put_summary<K: Sink>(sums: &Sums, sink: &mut K) -> bool
    ensures { Puts true (K.seen sink.old) result (K.seen sink.new) (sums_text sums.now) }
{
    let lines = put_if(true, sink, b"lines ");
    let lines = put_number(lines, sums.lines, sink);
    let terms = put_if(lines, sink, b"\nterms ");
    let terms = put_number(terms, sums.terms, sink);
    let bytes = put_if(terms, sink, b"\nbytes ");
    let bytes = put_number(bytes, sums.bytes, sink);
    put_if(bytes, sink, b"\n")
}

/// Writes a number in decimal digits, if `well` says that all calls of the sink succeeded so far.
/// Returns whether all calls succeeded.
fn put_number<K: Sink>(well: bool, number: u128, sink: &mut K) -> bool
    ensures { Puts well (K.seen sink.old) result (K.seen sink.new) (decimal number) }
{
    let mut buffer = Buffer::new();
    put_if(well, sink, buffer.format(number).as_bytes())
}
