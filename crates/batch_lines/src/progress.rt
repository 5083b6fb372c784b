//! The progress of a batch: whether a block has been written, and whether a line has been refused.
ghost use Rattle.std.specs.Prelude.{◌≡◌};
ghost use Rattle.batch_lines.specs.Ends.{is_done_status, progress_after, end_status};

use calc_base::Status;

/// The state of a batch: whether the block of a line (the text of its answer or refusal) has been
/// written, and whether a line has been refused.
#[derive(Clone, Copy, Debug)]
pub struct Progress {
    /// Whether the next block is the first one.
    pub is_first: bool,
    /// Whether no line was refused.
    pub is_done: bool,
}

impl Progress {
    /// Updates the progress after one more block has been written; `status` is the status of the
    /// outcome that the block shows.
    pub fn count(&mut self, status: Status)
        ensures { self.new ≡ progress_after self.old status }
    {
        self.is_first = false;
        self.is_done = self.is_done && is_done(status);
    }
}

/// Whether the status of a block is `Done`, so that its line was not refused.
fn is_done(status: Status) -> bool
    ensures { result ≡ is_done_status status }
{
    matches!(status, Status::Done)
}

/// The status at the end of a batch whose lines were all read and their blocks written: `Done` if
/// no line was refused, and `SomeRefused` otherwise.
pub fn at_end(progress: Progress) -> Status
    ensures { result ≡ end_status progress }
{
    if progress.is_done {
        Status::Done
    } else {
        Status::SomeRefused
    }
}
