//! A buffer of bytes that were taken from a source and not yet read.
ghost use Rattle.std.specs.Prelude.{◌≡◌, ◌≤◌, ◌==◌, [], length, drop, OnErr, IfOk};
ghost use Rattle.std.specs.Io.KnownBytes.{IsAtEnd};
ghost use Rattle.calc_base.specs.Fault.{CountsFaults};
ghost use Rattle.calc_base.specs.Source.{Spends};
ghost use Rattle.batch_lines.specs.Reading.{Took, most_pending};

use calc_base::{Source, SourceFault};
use std::marker::Model;

/// The greatest number of bytes that are taken from the source by one call.
const PIECE: usize = 4096;

/// The bytes that were taken from the source and not yet read.
#[derive(Drop)]
pub(crate) struct Pieces {
    bytes: [u8; PIECE],
    start: usize,
    end: usize,
}

impl Model for Pieces {
    ghost use Rattle.std.specs.Prelude.{ℕ, List, slice_range};
    ghost use Rattle.batch_lines.specs.Piece.{IsPart};

    ghost Value = { List ℕ };

    ghost view = { λ p. slice_range p.bytes p.start p.end };

    ghost invariant = { λ p. IsPart p.bytes p.start p.end };
}

impl Pieces {
    /// An empty buffer.
    pub(crate) fn new() -> Pieces
        ensures { result ≡ [] }
    {
        Pieces {
            bytes: [0; PIECE],
            start: 0,
            end: 0,
        }
    }

    /// The bytes that were not read yet, at most 4,096.
    pub(crate) fn front(&self) -> &[u8]
        ensures bytes { result.now ≡ self.now }
        ensures short { length self.now ≤ most_pending }
    {
        &self.bytes[self.start..self.end]
    }

    /// Drops the first `count` bytes, which have been read.
    pub(crate) fn skip(&mut self, count: usize)
        requires { count ≤ length self.old }
        ensures { self.new ≡ drop count self.old }
    {
        self.start += count;
    }

    /// Replaces the bytes of the buffer with the next ones of the source, and returns their number.
    pub(crate) fn refill<S: Source>(&mut self, source: &mut S) -> Result<usize, SourceFault>
        ensures count { IfOk result (λ count. count ≡ length self.new) }
        ensures taken { IfOk result (λ _.
            Took (S.seen source.old).left (S.seen source.new).left self.new) }
        ensures ended { IfOk result (λ count. count ≡ 0 → IsAtEnd (S.seen source.new).left) }
        ensures spends { Spends (S.seen source.old).allowance (S.seen source.new).allowance result }
        ensures kept { OnErr result ((S.seen source.new).left ≡ (S.seen source.old).left) }
        ensures counts { CountsFaults (S.seen source.old).faults (S.seen source.new).faults result }
    {
        self.start = 0;
        self.end = 0;
        let count = source.take(&mut self.bytes)?;
        self.end = count;
        Ok(count)
    }
}
