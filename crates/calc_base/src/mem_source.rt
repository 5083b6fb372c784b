//! A source over bytes in memory, at which chosen calls fail.
ghost use Rattle.std.specs.Prelude.{◌≡◌, ◌<◌, ◌≤◌, Some, length, take, drop, IfOk, OnErr, is_err};
ghost use Rattle.calc_base.specs.Fault.{CountsFaults};
ghost use Rattle.calc_base.specs.Source.{Takes, Spends};
ghost use Rattle.calc_base.specs.Supply.{Supply, supply_seen, is_listed, given_count, after_take};
ghost use Rattle.calc_base.specs.Supply.{filled_buffer};

use crate::calls::Calls;
use crate::{NoMemory, Source, SourceFault};
use std::alloc::Global;
use std::marker::Model;

/// A source over bytes in memory, which gives them in pieces, and at which chosen calls fail.
#[derive(Drop)]
pub struct MemSource {
    bytes: Vec<u8>,
    at: usize,
    piece: usize,
    calls: Calls,
}

impl Model for MemSource {
    ghost Value = { Supply };

    ghost view = { λ s. record {
      rest = drop s.at s.bytes.items;
      piece = s.piece;
      fails = s.calls.fails.items;
      calls = s.calls.made;
      failed = s.calls.faults;
    } };

    ghost invariant = { λ s. (s.at ≤ length s.bytes.items) × (1 ≤ s.piece) };
}

impl MemSource {
    /// A source of `bytes`. Each call gives at most `piece` of them, and fails if its number,
    /// counted from 0, is in `fails`. `piece` must be at least 1.
    pub fn new(
        alloc: Global,
        bytes: &[u8],
        piece: usize,
        fails: &[u64],
    ) -> Result<MemSource, NoMemory>
        requires { 1 ≤ piece }
        ensures { IfOk result (λ source. source ≡ record {
          rest = bytes.now;
          piece = piece;
          fails = fails.now;
          calls = 0;
          failed = 0;
        }) }
    {
        Ok(MemSource {
            bytes: Vec::from_slice(alloc, bytes)?,
            at: 0,
            piece,
            calls: Calls::new(alloc, fails)?,
        })
    }

    /// The number of calls that failed; it is capped at 2^64 - 1.
    pub fn faults(&self) -> u64
        ensures { result ≡ self.now.failed }
    {
        self.calls.faults
    }
}

impl Source for MemSource {
    ghost seen = { supply_seen };

    fn take(&mut self, buf: &mut [u8]) -> Result<usize, SourceFault>
        requires { 0 < length buf.old }

        // The contract of `take` of the trait `Source`.
        ensures ok { IfOk result (Takes (Some self.old.rest) (Some self.new.rest) buf.new) }
        ensures err { OnErr result (Some self.new.rest ≡ Some self.old.rest) }
        ensures spends { Spends (length self.old.rest) (length self.new.rest) result }
        ensures counts { CountsFaults self.old.failed self.new.failed result }

        // In addition, `MemSource` states which calls fail, the number of bytes given, and what the
        // state and the buffer after the call are.
        ensures fails { is_err result ≡ is_listed self.old.fails self.old.calls }
        ensures given { IfOk result (λ count. count ≡ given_count self.old (length buf.new)) }
        ensures after { self.new ≡ after_take self.old result }
        ensures buffer { buf.new ≡ filled_buffer self.old result buf.old }
    {
        if self.calls.begin() {
            self.calls.fault();
            return Err(SourceFault);
        }
        let rest = &self.bytes[self.at..];
        let count = buf.len().min(self.piece.min(rest.len()));
        buf[..count].copy_from_slice(&rest[..count]);
        self.at += count;
        Ok(count)
    }
}
