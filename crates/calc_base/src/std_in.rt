//! The source over the program's input.
ghost use Rattle.std.specs.Prelude.{◌≡◌, ◌+◌, ◌^◌, ◌<◌, length, IfOk, OnErr, IsErr};
ghost use Rattle.calc_base.specs.Fault.{CountsFaults};
ghost use Rattle.calc_base.specs.Source.{Takes, Spends};
ghost use Rattle.calc_base.specs.Edge.{Intake, intake_seen};

use crate::{Source, SourceFault, SteadyRead};
use std::marker::Model;

const ALLOWANCE: u64 = 1 << 62;

/// The source over the program's input, from any reader. It records the bytes that the reader has
/// left, if they are known, and gives at most 2^62 bytes in all.
#[derive(Drop)]
pub struct StdIn<R> {
    reader: R,
    allowance: u64,
    faults: u64,
}

impl<R> Model for StdIn<R> {
    ghost Value = { Intake R };

    ghost view = { λ s. record { reader = s.reader; allowance = s.allowance; failed = s.faults } };
}

impl<R> StdIn<R> {
    /// A source over `reader` that gives at most 2^62 bytes in all.
    pub fn new(reader: R) -> StdIn<R>
        ensures { result ≡ record { reader = reader; allowance = 2 ^ 62; failed = 0 } }
    {
        StdIn {
            reader,
            allowance: ALLOWANCE,
            faults: 0,
        }
    }
}

impl<R: SteadyRead> Source for StdIn<R> {
    ghost seen = { intake_seen R.remaining };

    /// Reads once from the reader. It fails if the read fails, or if the allowance, the number of
    /// bytes that may still be read, is 0.
    fn take(&mut self, buf: &mut [u8]) -> Result<usize, SourceFault>
        requires { 0 < length buf.old }

        // The contract of `take` of the trait `Source`.
        ensures ok { IfOk result (Takes (R.remaining self.old.reader)
            (R.remaining self.new.reader) buf.new) }
        ensures err { OnErr result (R.remaining self.new.reader ≡ R.remaining self.old.reader) }
        ensures spends { Spends self.old.allowance self.new.allowance result }
        ensures counts { CountsFaults self.old.failed self.new.failed result }

        // In addition, `StdIn` states how the allowance changes.
        ensures spent { IfOk result (λ count. self.new.allowance + count ≡ self.old.allowance) }
        ensures unspent { OnErr result (self.new.allowance ≡ self.old.allowance) }
        ensures exhausted { self.old.allowance ≡ 0 → IsErr result }
    {
        if self.allowance > 0 {
            let most = self.allowance.min(buf.len() as u64) as usize;
            if let Ok(count) = self.reader.read(&mut buf[..most]) {
                self.allowance -= count as u64;
                return Ok(count);
            }
        }
        self.faults = self.faults.saturating_add(1);
        Err(SourceFault)
    }
}
