//! The sink over the program's output.
ghost use Rattle.std.specs.Prelude.{◌≡◌, [], List, ℕ, None, Some, false, OnOk, is_ok, OnErr};
ghost use Rattle.std.specs.Prelude.{refl};
ghost use Rattle.std.specs.Bool.{OnTrue};
ghost use Rattle.std.specs.Io.KnownBytes.{Appends as WriterAppends};
ghost use Rattle.std.specs.Io.Buffered.{writer_inner, writer_buffer};
ghost use Rattle.calc_base.specs.Fault.{CountsFaults};
ghost use Rattle.calc_base.specs.Sink.{Appends, AppendsPrefix, IsCounted, IsPrefix};
ghost use Rattle.calc_base.specs.Sink.{number_told};
ghost use Rattle.calc_base.specs.Edge.{Outlet, outlet_seen, told_bytes, is_handed_on};

use crate::{Sink, SinkFault, SteadyWrite};
use std::io::{BufWriter, Write};
use std::marker::Model;

/// The sink over the program's output: a `BufWriter` over any writer. It records the bytes of the
/// writer, if they are known, followed by those that wait in the buffer.
#[derive(Drop)]
pub struct StdOut<W: Write + Drop> {
    writer: BufWriter<W>,
    faults: u64,
    finished: bool,
}

impl<W: Write + Drop> Model for StdOut<W> {
    ghost Value = { Outlet W };

    ghost view = { λ s. record {
      writer = writer_inner s.writer;
      waiting = writer_buffer s.writer;
      failed = s.faults;
      finished = s.finished;
    } };
}

impl<W: Write + Drop> StdOut<W> {
    /// A sink over `writer`, whose buffer may already have bytes.
    pub fn new(writer: BufWriter<W>) -> StdOut<W>
        ensures { result ≡ record {
          writer = writer_inner writer;
          waiting = writer_buffer writer;
          failed = 0;
          finished = false;
        } }
    {
        StdOut {
            writer,
            faults: 0,
            finished: false,
        }
    }
}

impl<W: SteadyWrite + Drop> Sink for StdOut<W> {
    /// The visible state of the sink (`SinkSeen`). Its bytes are those that the writer has
    /// received, if they are known, followed by those in the buffer of the `BufWriter`. Its flag
    /// `settled` is true if the last call was a `finish` that succeeded and this buffer is empty.
    ghost seen = { outlet_seen W.contents };

    /// Writes until all bytes are written. It fails if a write fails or writes nothing.
    fn put(&mut self, bytes: &[u8]) -> Result<(), SinkFault>
        // The contract of `put` of the trait `Sink`.
        ensures ok { OnOk result (Appends (outlet_seen W.contents self.old)
            (outlet_seen W.contents self.new) bytes.now) }
        ensures err { OnErr result (AppendsPrefix (outlet_seen W.contents self.old)
            (outlet_seen W.contents self.new) bytes.now) }
        ensures counts { CountsFaults self.old.failed self.new.failed result }
        ensures settled { is_handed_on self.new ≡ false }
    {
        self.finished = false;
        if write_whole(&mut self.writer, bytes) {
            return Ok(());
        }
        self.faults = self.faults.saturating_add(1);
        Err(SinkFault)
    }

    /// Flushes, so that the buffer is empty. It fails if the flush fails.
    fn finish(&mut self) -> Result<(), SinkFault>
        // The contract of `finish` of the trait `Sink`.
        ensures same { Appends (outlet_seen W.contents self.old)
            (outlet_seen W.contents self.new) [] }
        ensures counts { CountsFaults self.old.failed self.new.failed result }
        ensures settled { is_handed_on self.new ≡ is_ok result }
    {
        self.finished = self.writer.flush().is_ok();
        if self.finished {
            return Ok(());
        }
        self.faults = self.faults.saturating_add(1);
        Err(SinkFault)
    }

    ghost counted = { λ s. elim (told_bytes W.contents s) as (λ told. IsCounted told
        (number_told told)) [ None ↦ tt | Some bytes ↦ refl ] };
}

/// Writes all of the bytes, and returns false if a write fails or writes nothing.
fn write_whole<W: Write>(writer: &mut W, bytes: &[u8]) -> bool
    ensures whole { OnTrue result
        (WriterAppends (W.contents writer.old) (W.contents writer.new) bytes.now) }
    ensures part { (front : List ℕ) × IsPrefix front bytes.now
        × WriterAppends (W.contents writer.old) (W.contents writer.new) front }
{
    let mut at = 0;
    while at < bytes.len() {
        match writer.write(&bytes[at..]) {
            Ok(count) if count > 0 => at += count,
            _ => return false,
        }
    }
    true
}
