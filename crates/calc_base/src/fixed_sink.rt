//! A sink into a borrowed buffer.
ghost use Rattle.std.specs.Prelude.{◌≡◌, ◌≤◌, ◌+◌, ◌-◌, ◌++◌, min, [], false, true, OnOk, OnErr};
ghost use Rattle.std.specs.Prelude.{IsOk, is_ok, is_err, take, length as list_length, refl};
ghost use Rattle.calc_base.specs.Fault.{CountsFaults};
ghost use Rattle.calc_base.specs.Sink.{Appends, AppendsPrefix};
ghost use Rattle.calc_base.specs.Fixed.{Fixed, fixed_seen, is_too_long, fixed_after_put};

use crate::{Sink, SinkFault};
use std::marker::Model;

/// A sink that writes into a borrowed buffer and allocates no memory. If a call of `put` has more
/// bytes than fit into the rest of the buffer, it appends those that fit, and fails.
#[derive(Drop)]
pub struct FixedSink<'a> {
    buffer: &'a mut [u8],
    filled: usize,
    faults: u64,
    finished: bool,
}

impl<'a> Model for FixedSink<'a> {
    ghost Value = { Fixed };

    ghost view = { λ s. record {
      bytes = take s.filled s.buffer.now;
      room = list_length s.buffer.now;
      failed = s.faults;
      finished = s.finished;
    } };

    ghost invariant = { λ s. s.filled ≤ list_length s.buffer.now };
}

impl<'a> FixedSink<'a> {
    /// A sink without bytes over `buffer`, whose length is the greatest number of bytes that the
    /// sink can hold.
    pub fn new(buffer: &'a mut [u8]) -> FixedSink<'a>
        ensures { result ≡ record {
          bytes = [];
          room = list_length buffer.old;
          failed = 0;
          finished = false;
        } }
    {
        FixedSink {
            buffer,
            filled: 0,
            faults: 0,
            finished: false,
        }
    }

    /// The bytes written.
    pub fn bytes(&self) -> &[u8]
        ensures { result.now ≡ self.now.bytes }
    {
        &self.buffer[..self.filled]
    }

    /// The number of calls that failed; it is capped at 2^64 - 1.
    pub fn faults(&self) -> u64
        ensures { result ≡ self.now.failed }
    {
        self.faults
    }
}

impl<'a> Sink for FixedSink<'a> {
    ghost seen = { fixed_seen };

    fn put(&mut self, bytes: &[u8]) -> Result<(), SinkFault>
        // The contract of `put` of the trait `Sink`.
        ensures ok { OnOk result (Appends (fixed_seen self.old) (fixed_seen self.new) bytes.now) }
        ensures err { OnErr result (AppendsPrefix (fixed_seen self.old)
            (fixed_seen self.new) bytes.now) }
        ensures counts { CountsFaults self.old.failed self.new.failed result }
        ensures settled { self.new.finished ≡ false }

        // In addition, `FixedSink` states which calls fail and what the state after the call is.
        ensures fails { is_err result ≡ is_too_long self.old bytes.now }
        ensures after { self.new ≡ fixed_after_put self.old bytes.now }
    {
        let fits = copy_what_fits(self.buffer, self.filled, bytes);
        self.filled += fits;
        self.finished = false;
        if fits < bytes.len() {
            self.faults = self.faults.saturating_add(1);
            return Err(SinkFault);
        }
        Ok(())
    }

    fn finish(&mut self) -> Result<(), SinkFault>
        // The contract of `finish` of the trait `Sink`.
        ensures same { Appends (fixed_seen self.old) (fixed_seen self.new) [] }
        ensures counts { CountsFaults self.old.failed self.new.failed result }
        ensures settled { self.new.finished ≡ is_ok result }

        // In addition, `FixedSink` states that no call of `finish` fails and what the state after
        // the call is.
        ensures never { IsOk result }
        ensures after { self.new ≡ record self.old { finished = true } }
    {
        self.finished = true;
        Ok(())
    }

    ghost counted = { λ s. refl };
}

/// Copies the bytes into the buffer after the filled part, up to its end, and returns the number of
/// bytes copied.
fn copy_what_fits(buffer: &mut [u8], filled: usize, bytes: &[u8]) -> usize
    requires { filled ≤ list_length buffer.old }
    ensures count { result ≡ min (list_length buffer.old - filled) (list_length bytes.now) }
    ensures copied { take (filled + result) buffer.new
        ≡ take filled buffer.old ++ take result bytes.now }
{
    let fits = (buffer.len() - filled).min(bytes.len());
    buffer[filled..filled + fits].copy_from_slice(&bytes[..fits]);
    fits
}
