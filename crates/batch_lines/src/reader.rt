//! A reader of the lines of a source.
ghost use Rattle.std.specs.Prelude.{◌≡◌, ◌≤◌, ℕ, List, [], true, false, length, IfOk, OnErr};
ghost use Rattle.std.specs.Prelude.{vec_len};
ghost use Rattle.sym_model.specs.BatchLine.{most_bytes};
ghost use Rattle.batch_lines.specs.Feeds.{HasNoFeed};
ghost use Rattle.batch_lines.specs.Reading.{Took, IsAtEnd, ReadsNext, CutsLine, CountsLine};
ghost use Rattle.batch_lines.specs.Reading.{most_pending, next_at_feed, next_at_end};

use crate::feed::first_feed;
use crate::heard::hear;
use crate::pieces::Pieces;
use crate::{LineFault, Next};
use calc_base::{NoMemory, Source};
use std::alloc::Global;
use std::marker::Model;

/// The greatest number of bytes of a line, without its line feed.
const MOST_BYTES: usize = 4096;

/// A reader of the lines of a source. It takes at most 4,096 bytes from the source at a time.
#[derive(Drop)]
pub struct LineReader {
    pieces: Pieces,
    line: Vec<u8>,
    has_ended: bool,
}

impl Model for LineReader {
    ghost use Rattle.std.specs.Prelude.{◌≡◌, [], true};
    ghost use Rattle.batch_lines.specs.Reading.{Reading};

    ghost Value = { Reading };

    ghost view = { λ r. record { pending = r.pieces; line = r.line.items; has_ended = r.has_ended } };

    ghost invariant = { λ r. r.has_ended ≡ true → r.pieces ≡ [] };
}

impl LineReader {
    /// A reader that has not taken any bytes from its source yet. The memory for a line is
    /// allocated here, so this fails only if memory runs out.
    pub fn new(alloc: Global) -> Result<LineReader, NoMemory>
        ensures { IfOk result (λ r. r ≡ record { pending = []; line = []; has_ended = false }) }
    {
        Ok(LineReader {
            pieces: Pieces::new(),
            line: Vec::with_capacity(alloc, MOST_BYTES)?,
            has_ended: false,
        })
    }

    /// The bytes, without the line feed, of the line that was read last, if these are at most
    /// 4,096.
    pub fn line(&self) -> &[u8]
        ensures { result.now ≡ self.now.line }
    {
        self.line.as_slice()
    }

    /// Whether a complete line was taken from the source and not yet read, so that `next` does not
    /// call the source.
    pub fn has_line(&self) -> bool
        ensures some { result ≡ true → HasNoFeed self.now.pending → ⊥ }
        ensures none { result ≡ false → HasNoFeed self.now.pending }
    {
        first_feed(self.pieces.front()).is_some()
    }

    /// Reads the next line. Bytes after the last line feed of the source, if there are any, are a
    /// line.
    ///
    /// A line of more than 4,096 bytes is skipped as `TooLong`, and its further bytes are not
    /// stored. The call returns `SourceFault` if and only if a call of the source failed; in this
    /// case the bytes that were taken and not yet read have no line feed. If memory runs out, they
    /// have at most one complete line. After an error bytes may be lost, and the reader must not be
    /// used. After the source has ended it is not called, and
    /// the result is `End`. The clause `reads` assumes that a source that had ended before has
    /// nothing left.
    pub fn next<S: Source>(&mut self, source: &mut S) -> Result<Next, LineFault>
        ensures reads { IsAtEnd self.old.has_ended (S.seen source.old).left
            → IfOk result (ReadsNext (S.seen source.old) (S.seen source.new)
            self.old.pending self.new.pending self.new.line self.new.has_ended) }
        ensures takes { (taken : List ℕ)
            × Took (S.seen source.old).left (S.seen source.new).left taken }
        ensures cuts { CutsLine (S.seen source.old).left
            (S.seen source.new).left self.old.pending self.old.has_ended result }
        ensures counts { CountsLine (S.seen source.old).faults (S.seen source.new).faults result }
        ensures later { (S.seen source.old).faults ≤ (S.seen source.new).faults }
        ensures rests { self.old.has_ended ≡ true
            → (source.new ≡ source.old) × (result ≡ Ok Next.End) }
        ensures short { IfOk result (λ _. length self.new.pending ≤ most_pending) }
        ensures little { IfOk result (λ _. length self.new.line ≤ most_bytes) }
    {
        if self.has_ended {
            self.line.clear();
            return Ok(Next::End);
        }
        read_next(
            &mut self.pieces,
            &mut self.line,
            &mut self.has_ended,
            source,
        )
    }
}

/// The result of reading a line that ends at a line feed, given whether it is too long.
fn at_feed(is_long: bool) -> Next
    ensures { result ≡ next_at_feed is_long }
{
    if is_long { Next::TooLong } else { Next::Line }
}

/// The result of reading a line after which the source has ended: `TooLong` or `Line`, or `End` if
/// no byte follows the last line feed.
fn at_end(line: &[u8], is_long: bool) -> Next
    ensures { result ≡ next_at_end line.now is_long }
{
    if is_long {
        Next::TooLong
    } else if line.is_empty() {
        Next::End
    } else {
        Next::Line
    }
}

/// Reads the next line from the pending bytes and the source.
fn read_next<S: Source>(
    pieces: &mut Pieces,
    line: &mut Vec<u8>,
    has_ended: &mut bool,
    source: &mut S,
) -> Result<Next, LineFault>
    requires { has_ended.old ≡ false }
    ensures reads { IfOk result (ReadsNext (S.seen source.old) (S.seen source.new)
        pieces.old pieces.new line.new.items has_ended.new) }
    ensures goes_on { OnErr result (has_ended.new ≡ false) }
    ensures takes { (taken : List ℕ)
        × Took (S.seen source.old).left (S.seen source.new).left taken }
    ensures cuts { CutsLine (S.seen source.old).left
        (S.seen source.new).left pieces.old has_ended.old result }
    ensures counts { CountsLine (S.seen source.old).faults (S.seen source.new).faults result }
    ensures later { (S.seen source.old).faults ≤ (S.seen source.new).faults }
    ensures short { IfOk result (λ _. length pieces.new ≤ most_pending) }
    ensures little { IfOk result (λ _. length line.new.items ≤ most_bytes) }
{
    line.clear();
    let mut is_long = false;
    loop {
        let heard = match hear(pieces, line, is_long) {
            Ok(heard) => heard,
            Err(_) => return Err(LineFault::NoMemory),
        };
        if heard.has_ended {
            return Ok(at_feed(heard.is_long));
        }
        is_long = heard.is_long;
        match pieces.refill(source) {
            Ok(count) => {
                if count == 0 {
                    *has_ended = true;
                    return Ok(at_end(line.as_slice(), is_long));
                }
            }
            Err(_) => return Err(LineFault::SourceFault),
        }
    }
}
