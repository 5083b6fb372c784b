//! Writing a text piece by piece: a printer continues only while no call has failed.
ghost use Rattle.std.specs.Prelude.{◌≡◌, false};
ghost use Rattle.calc_base.specs.Puts.{Puts};

use crate::Sink;

/// Writes `bytes` if no call has failed so far (`well`), and returns whether still no call has
/// failed.
pub fn put_if<K: Sink>(well: bool, sink: &mut K, bytes: &[u8]) -> bool
    ensures goes { Puts well (K.seen sink.old) result (K.seen sink.new) bytes.now }
    ensures untouched { well ≡ false → sink.new ≡ sink.old }
{
    well && sink.put(bytes).is_ok()
}
