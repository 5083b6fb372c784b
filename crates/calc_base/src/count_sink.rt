//! A sink that counts the bytes and keeps none.
ghost use Rattle.std.specs.Prelude.{◌≡◌, [], false, true, OnOk, OnErr, IsOk, is_ok};
ghost use Rattle.calc_base.specs.Fault.{CountsFaults};
ghost use Rattle.calc_base.specs.Sink.{Appends, AppendsPrefix};
ghost use Rattle.calc_base.specs.Tally.{Tally, tally_seen, tally_after_put};

use crate::{Sink, SinkFault};
use std::marker::Model;

/// A sink that counts the bytes and keeps none; the count is capped at 2^128 - 1. No call fails.
#[derive(Drop)]
pub struct CountSink {
    count: u128,
    finished: bool,
}

impl Model for CountSink {
    ghost Value = { Tally };

    ghost view = { λ s. record { count = s.count; finished = s.finished } };
}

impl CountSink {
    /// A sink to which no bytes have been written.
    pub fn new() -> CountSink
        ensures { result ≡ record { count = 0; finished = false } }
    {
        CountSink {
            count: 0,
            finished: false,
        }
    }

    /// The number of bytes written, or 2^128 - 1 if there were more.
    pub fn count(&self) -> u128
        ensures { result ≡ self.now.count }
    {
        self.count
    }
}

impl Sink for CountSink {
    ghost seen = { tally_seen };

    fn put(&mut self, bytes: &[u8]) -> Result<(), SinkFault>
        // The contract of `put` of the trait `Sink`.
        ensures ok { OnOk result (Appends (tally_seen self.old) (tally_seen self.new) bytes.now) }
        ensures err { OnErr result (AppendsPrefix (tally_seen self.old)
            (tally_seen self.new) bytes.now) }
        ensures counts { CountsFaults 0 0 result }
        ensures settled { self.new.finished ≡ false }

        // In addition, `CountSink` states that no call fails and what the state after the call is.
        ensures never { IsOk result }
        ensures after { self.new ≡ tally_after_put self.old bytes.now }
    {
        self.count = self.count.saturating_add(bytes.len() as u128);
        self.finished = false;
        Ok(())
    }

    fn finish(&mut self) -> Result<(), SinkFault>
        // The contract of `finish` of the trait `Sink`.
        ensures same { Appends (tally_seen self.old) (tally_seen self.new) [] }
        ensures counts { CountsFaults 0 0 result }
        ensures settled { self.new.finished ≡ is_ok result }

        // In addition, `CountSink` states that no call fails and what the state after the call is.
        ensures never { IsOk result }
        ensures after { self.new ≡ record { count = self.old.count; finished = true } }
    {
        self.finished = true;
        Ok(())
    }

    ghost counted = { λ _. tt };
}
