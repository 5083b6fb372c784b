//! Sinks, to which bytes are written.
ghost use Rattle.std.specs.Prelude.{◌≡◌, [], false, is_ok, OnOk, OnErr};
ghost use Rattle.calc_base.specs.Fault.{CountsFaults};
ghost use Rattle.calc_base.specs.Sink.{SinkSeen, Appends, AppendsPrefix, IsCounted};

use crate::SinkFault;

/// A sink of bytes. It may record the bytes written, or only their number; each call of `put`
/// extends this record. No call changes which of the two are recorded. If a sink records nothing,
/// the contracts say nothing of its bytes, as the standard library says nothing of a writer whose
/// bytes are not known.
pub trait Sink {
    /// The visible state of the sink: the bytes so far (`written`) and their number, capped at
    /// 2^128 - 1 (`length`), each if it is recorded; the number of failed calls, capped at 2^64 - 1
    /// (`faults`); and whether the last call was a `finish` that returned `Ok`, so that no byte
    /// waits in a buffer (`settled`).
    ghost seen: { Self → SinkSeen };

    /// Appends the bytes. After an `Err` a prefix of them was appended, and the count of faults is
    /// greater by 1, or remains at its greatest value. After an `Ok` the count is unchanged.
    fn put(&mut self, bytes: &[u8]) -> Result<(), SinkFault>
        ensures ok { OnOk result (Appends (seen self.old) (seen self.new) bytes.now) }
        ensures err { OnErr result (AppendsPrefix (seen self.old) (seen self.new) bytes.now) }
        ensures counts { CountsFaults (seen self.old).faults (seen self.new).faults result }
        ensures settled { (seen self.new).settled ≡ false };

    /// Flushes the bytes that wait in a buffer, and appends none. After an `Err` the count of
    /// faults is greater by 1, or remains at its greatest value. After an `Ok` the count is
    /// unchanged.
    fn finish(&mut self) -> Result<(), SinkFault>
        ensures same { Appends (seen self.old) (seen self.new) [] }
        ensures counts { CountsFaults (seen self.old).faults (seen self.new).faults result }
        ensures settled { (seen self.new).settled ≡ is_ok result };

    /// If the bytes are recorded, so is their number.
    ghost counted: { (s : Self) → IsCounted (seen s).written (seen s).length };
}
