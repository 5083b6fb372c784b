//! The status of a command at its end.
ghost use Rattle.std.specs.Prelude.{◌≡◌};

/// The status of a command at its end; `code` is the exit code of the program. A refusal is the
/// line for a command that has an error or an answer that is too large.
#[derive(Clone, Copy, Debug, PartialEq, Eq, Hash)]
pub enum Status {
    /// The whole text of the command was written and flushed, and no line of it is a refusal.
    Done,
    /// The whole text of a batch was written and flushed, and the answer to some line is a refusal.
    SomeRefused,
    /// The words of the command line do not spell a command.
    Syntax,
    /// A number in the words exceeds a limit, or a list in them is not of the required kind.
    Range,
    /// A number in the words exceeds 2^127 - 1, or numbers of the result or of its computation may
    /// exceed it.
    Past,
    /// A write to the sink, or its flush, failed.
    SinkFault,
    /// A read from the source failed.
    SourceFault,
    /// Out of memory.
    NoMemory,
}

impl Status {
    ghost use Rattle.calc_base.specs.Status.{code_of};

    /// The exit code of the program: 0 to 7, in the order of the statuses.
    pub fn code(self) -> u8
        ensures { result ≡ code_of self }
    {
        match self {
            Status::Done => 0,
            Status::SomeRefused => 1,
            Status::Syntax => 2,
            Status::Range => 3,
            Status::Past => 4,
            Status::SinkFault => 5,
            Status::SourceFault => 6,
            Status::NoMemory => 7,
        }
    }
}
