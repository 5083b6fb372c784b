//! The text between two blocks of a batch, and the call of `finish` at the end of a command. The
//! block of a line of a batch is the text of its answer or refusal.
ghost use Rattle.std.specs.Prelude.{◌≡◌};
ghost use Rattle.batch_lines.specs.Ends.{separator, status_where, Finishes};

use calc_base::{Sink, Status};

/// The text before a block of a batch: the line `--`, and nothing before the first block.
pub fn separator(is_first: bool) -> &'static [u8]
    ensures { result.now ≡ separator is_first }
{
    if is_first { b"" } else { b"--\n" }
}

/// Calls `finish` on the sink, and returns the given status, or `SinkFault` if `finish` failed.
pub fn finished<K: Sink>(status: Status, sink: &mut K) -> Status
    ensures { Finishes (K.seen sink.old) (K.seen sink.new) status result }
{
    status_if(sink.finish().is_ok(), status)
}

/// The given status if no call of the sink failed (`well`), otherwise `SinkFault`.
fn status_if(well: bool, status: Status) -> Status
    ensures { result ≡ status_where well status }
{
    if well { status } else { Status::SinkFault }
}
