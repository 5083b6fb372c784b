//! A sink into memory that grows.
ghost use Rattle.std.specs.Prelude.{◌≡◌, [], false, OnOk, OnErr, is_ok, refl};
ghost use Rattle.calc_base.specs.Fault.{CountsFaults};
ghost use Rattle.calc_base.specs.Sink.{Appends, AppendsPrefix};
ghost use Rattle.calc_base.specs.Growing.{growing_seen};

use crate::{Sink, SinkFault};
use std::alloc::Global;
use std::marker::Model;

/// A sink into memory that grows. A call of `put` fails only if memory cannot be allocated, and
/// then appends nothing.
#[derive(Drop)]
pub struct GrowingSink {
    bytes: Vec<u8>,
    faults: u64,
    finished: bool,
}

impl Model for GrowingSink {
    ghost use Rattle.calc_base.specs.Growing.{Growing};

    ghost Value = { Growing };

    ghost view = { λ t. record { bytes = t.bytes.items; failed = t.faults; finished = t.finished } };
}

impl GrowingSink {
    /// A sink to which no bytes have been written. Memory is allocated only by later calls.
    pub fn new(alloc: Global) -> GrowingSink
        ensures bytes { result.bytes ≡ [] }
        ensures faults { result.failed ≡ 0 }
        ensures settled { result.finished ≡ false }
    {
        GrowingSink {
            bytes: Vec::new(alloc),
            faults: 0,
            finished: false,
        }
    }

    /// Removes the bytes and keeps their memory for the next text. The count of faults is
    /// unchanged.
    pub fn clear(&mut self)
        ensures bytes { self.new.bytes ≡ [] }
        ensures faults { self.new.failed ≡ self.old.failed }
        ensures settled { self.new.finished ≡ self.old.finished }
    {
        self.bytes.clear();
    }

    /// The bytes written.
    pub fn bytes(&self) -> &[u8]
        ensures { result.now ≡ self.now.bytes }
    {
        self.bytes.as_slice()
    }
}

impl Sink for GrowingSink {
    ghost seen = { growing_seen };

    fn put(&mut self, bytes: &[u8]) -> Result<(), SinkFault>
        ensures ok { OnOk result (Appends (growing_seen self.old)
            (growing_seen self.new) bytes.now) }
        ensures err { OnErr result (AppendsPrefix (growing_seen self.old)
            (growing_seen self.new) bytes.now) }
        ensures counts { CountsFaults self.old.failed self.new.failed result }
        ensures settled { self.new.finished ≡ false }
    {
        self.finished = false;
        if self.bytes.extend_from_slice(bytes).is_err() {
            self.faults = self.faults.saturating_add(1);
            return Err(SinkFault);
        }
        Ok(())
    }

    fn finish(&mut self) -> Result<(), SinkFault>
        ensures same { Appends (growing_seen self.old) (growing_seen self.new) [] }
        ensures counts { CountsFaults self.old.failed self.new.failed result }
        ensures settled { self.new.finished ≡ is_ok result }
    {
        self.finished = true;
        Ok(())
    }

    ghost counted = { λ t. refl };
}
