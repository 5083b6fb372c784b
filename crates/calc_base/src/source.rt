//! Sources, from which bytes are read.
ghost use Rattle.std.specs.Prelude.{◌≡◌, ◌<◌, length, IfOk, OnErr};
ghost use Rattle.calc_base.specs.Fault.{CountsFaults};
ghost use Rattle.calc_base.specs.Source.{SourceSeen, Takes, Spends};

use crate::SourceFault;

/// A source of bytes. It may record the bytes that are left; each call of `take` shortens this
/// record. No call changes whether they are recorded.
pub trait Source {
    /// The visible state of the source: the bytes that are left, if it records them (`left`); a
    /// number that decreases by at least the number of bytes read, so that a loop in which each
    /// call reads some bytes ends (`allowance`); and the number of failed calls, capped at 2^64 - 1
    /// (`faults`).
    ghost seen: { Self → SourceSeen };

    /// Writes the next bytes to the front of `buf`, and returns their number, which is 0 if and
    /// only if the input is at its end. After an `Err` no byte was read, and the count of faults is
    /// greater by 1, or remains at its greatest value. After an `Ok` the count is unchanged.
    fn take(&mut self, buf: &mut [u8]) -> Result<usize, SourceFault>
        requires { 0 < length buf.old }
        ensures ok { IfOk result (Takes (seen self.old).left (seen self.new).left buf.new) }
        ensures err { OnErr result ((seen self.new).left ≡ (seen self.old).left) }
        ensures spends { Spends (seen self.old).allowance (seen self.new).allowance result }
        ensures counts { CountsFaults (seen self.old).faults (seen self.new).faults result };
}
