//! A sink into memory with room for a fixed number of bytes. Chosen calls fail, and so does a call
//! that writes more bytes than there is room left for.
ghost use Rattle.std.specs.Prelude.{◌≡◌, ◌≤◌, [], false, IfOk, OnOk, OnErr, is_ok, is_err, refl};
ghost use Rattle.std.specs.Prelude.{length as list_length, vec_capacity};
ghost use Rattle.calc_base.specs.Fault.{CountsFaults};
ghost use Rattle.calc_base.specs.Sink.{Appends, AppendsPrefix};
ghost use Rattle.calc_base.specs.Store.{Store, store_seen, fails_now, put_fails, after_put};
ghost use Rattle.calc_base.specs.Store.{after_finish};

use crate::calls::Calls;
use crate::{NoMemory, Sink, SinkFault};
use std::alloc::Global;
use std::marker::Model;

/// A sink into memory, with room for a fixed number of bytes, at which chosen calls fail.
#[derive(Drop)]
pub struct MemSink {
    bytes: Vec<u8>,
    room: usize,
    calls: Calls,
    finished: bool,
}

impl Model for MemSink {
    ghost Value = { Store };

    ghost view = { λ s. record {
      bytes = s.bytes.items;
      room = s.room;
      fails = s.calls.fails.items;
      calls = s.calls.made;
      failed = s.calls.faults;
      finished = s.finished;
    } };

    ghost invariant = { λ s. (list_length s.bytes.items ≤ s.room) × (s.room ≤ vec_capacity s.bytes) };
}

impl MemSink {
    /// An empty sink with room for `room` bytes, which it allocates now. A call of `put` or
    /// `finish` fails if its number, counted from 0 over both kinds of calls, is in `fails`, and a
    /// call of `put` fails also if the room that is left is too small for its bytes.
    pub fn new(alloc: Global, room: usize, fails: &[u64]) -> Result<MemSink, NoMemory>
        ensures { IfOk result (λ sink. sink ≡ record {
          bytes = [];
          room = room;
          fails = fails.now;
          calls = 0;
          failed = 0;
          finished = false;
        }) }
    {
        Ok(MemSink {
            bytes: Vec::with_capacity(alloc, room)?,
            room,
            calls: Calls::new(alloc, fails)?,
            finished: false,
        })
    }

    /// The bytes written.
    pub fn bytes(&self) -> &[u8]
        ensures { result.now ≡ self.now.bytes }
    {
        &self.bytes
    }

    /// The number of calls that failed; it is capped at 2^64 - 1.
    pub fn faults(&self) -> u64
        ensures { result ≡ self.now.failed }
    {
        self.calls.faults
    }
}

impl Sink for MemSink {
    ghost seen = { store_seen };

    fn put(&mut self, bytes: &[u8]) -> Result<(), SinkFault>
        // The contract of `put` of the trait `Sink`.
        ensures ok { OnOk result (Appends (store_seen self.old) (store_seen self.new) bytes.now) }
        ensures err { OnErr result (AppendsPrefix (store_seen self.old)
            (store_seen self.new) bytes.now) }
        ensures counts { CountsFaults self.old.failed self.new.failed result }
        ensures settled { self.new.finished ≡ false }

        // In addition, `MemSink` states which calls fail and what the state after the call is.
        ensures fails { is_err result ≡ put_fails self.old bytes.now }
        ensures after { self.new ≡ after_put self.old bytes.now }
    {
        let listed = self.calls.begin();
        self.finished = false;
        let room = if listed {
            0
        } else {
            self.room - self.bytes.len()
        };
        let fits = room.min(bytes.len());
        self.bytes.extend_from_slice(&bytes[..fits]).unwrap();
        if listed || fits < bytes.len() {
            self.calls.fault();
            return Err(SinkFault);
        }
        Ok(())
    }

    fn finish(&mut self) -> Result<(), SinkFault>
        // The contract of `finish` of the trait `Sink`.
        ensures same { Appends (store_seen self.old) (store_seen self.new) [] }
        ensures counts { CountsFaults self.old.failed self.new.failed result }
        ensures settled { self.new.finished ≡ is_ok result }

        // In addition, `MemSink` states which calls fail and what the state after the call is.
        ensures fails { is_err result ≡ fails_now self.old }
        ensures after { self.new ≡ after_finish self.old }
    {
        self.finished = !self.calls.begin();
        if !self.finished {
            self.calls.fault();
            return Err(SinkFault);
        }
        Ok(())
    }

    ghost counted = { λ s. refl };
}
