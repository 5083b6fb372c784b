//! A buffer for text that is to be written to a sink.
ghost use Rattle.std.specs.Prelude.{◌≡◌, ◌+◌, ◌≤◌, ◌↔◌, [], ◌∷◌, ◌++◌, length, true, false, IsTrue};
ghost use Rattle.std.specs.Prelude.{is_ok, not};
ghost use Rattle.calc_base.specs.Puts.{Puts};
ghost use Rattle.expansion_printer.specs.Gathering.{Waiting, Gathers};

use arrayvec::ArrayVec;
use calc_base::{Sink, SinkFault, put_if};
use std::marker::Model;

/// The number of bytes that a buffer can hold.
const CAPACITY: usize = 1024;

/// Bytes that are to be written to a sink: when a further piece does not fit, and at the end. After
/// a failed write nothing is written. No memory is allocated.
#[derive(Drop)]
pub(crate) struct TextBuffer {
    bytes: ArrayVec<u8, CAPACITY>,
    well: bool,
}

impl Model for TextBuffer {
    ghost Value = { Waiting };

    ghost view = { λ t. record { bytes = t.bytes.items; well = t.well } };
}

impl TextBuffer {
    /// An empty buffer.
    pub(crate) fn new() -> TextBuffer
        ensures { result ≡ record { bytes = []; well = true } }
    {
        TextBuffer {
            bytes: ArrayVec::new(),
            well: true,
        }
    }

    /// Appends the byte to the text.
    #[inline]
    pub(crate) fn put_byte<K: Sink>(&mut self, byte: u8, sink: &mut K)
        ensures { Gathers self.old (K.seen sink.old) self.new (K.seen sink.new) (byte ∷ []) }
    {
        if self.bytes.is_full() {
            return self.put(&[byte], sink);
        }
        self.bytes.push(byte);
    }

    /// Appends the piece to the text.
    #[inline(never)]
    pub(crate) fn put<K: Sink>(&mut self, piece: &[u8], sink: &mut K)
        ensures { Gathers self.old (K.seen sink.old) self.new (K.seen sink.new) piece.now }
    {
        if self.keep(piece) {
            return;
        }
        self.flush(sink);
        self.put_first(piece, sink);
    }

    /// Whether no byte waits in the buffer.
    pub(crate) fn is_empty(&self) -> bool
        ensures { IsTrue result ↔ (self.now.bytes ≡ []) }
    {
        self.bytes.is_empty()
    }

    /// Whether a write has failed.
    pub(crate) fn has_failed(&self) -> bool
        ensures { result ≡ not self.now.well }
    {
        !self.well
    }

    /// Writes the bytes in the buffer, and returns `SinkFault` if and only if a write has failed.
    pub(crate) fn finish<K: Sink>(self, sink: &mut K) -> Result<(), SinkFault>
        ensures { Puts self.well (K.seen sink.old) (is_ok result) (K.seen sink.new) self.bytes }
    {
        if !self.well {
            return Err(SinkFault);
        }
        sink.put(self.bytes.as_slice())
    }

    /// Appends the piece to the buffer if it fits, and returns whether it did.
    fn keep(&mut self, piece: &[u8]) -> bool
        ensures kept { IsTrue result → self.new
            ≡ record { bytes = self.old.bytes ++ piece.now; well = self.old.well } }
        ensures full { result ≡ false → self.new ≡ self.old }
        ensures room { IsTrue result ↔ (length self.old.bytes + length piece.now ≤ 1024) }
    {
        self.bytes.try_extend_from_slice(piece).is_ok()
    }

    /// Writes the bytes in the buffer to the sink.
    fn flush<K: Sink>(&mut self, sink: &mut K)
        ensures goes { Gathers self.old (K.seen sink.old) self.new (K.seen sink.new) [] }
        ensures empty { self.new.bytes ≡ [] }
    {
        self.well = put_if(self.well, sink, self.bytes.as_slice());
        self.bytes.clear();
    }

    /// Appends a piece to the empty buffer, or writes it to the sink directly if it does not fit.
    fn put_first<K: Sink>(&mut self, piece: &[u8], sink: &mut K)
        requires { self.old.bytes ≡ [] }
        ensures { Gathers self.old (K.seen sink.old) self.new (K.seen sink.new) piece.now }
    {
        if self.keep(piece) {
            return;
        }
        self.well = put_if(self.well, sink, piece);
    }
}
