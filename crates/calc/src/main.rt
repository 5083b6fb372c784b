//! The calculator as a program. It runs the command that its words spell, over standard input and
//! standard output, and exits with the code of its status. Nothing is written to standard error.
//!
//! What is proved:
//!
//! The program is proved safe; its example run is `expand m p[2,1]`. `code_of_run`: the exit code
//! of the program is the code of a status that `AnswersWords` allows for the words after the
//! program's name. `code_for`: the exit code is 7 or 8 if the system refuses the words. `run_over`:
//! all clauses of the contract of `calc_app::run`, over any reader and any writer with a buffer in
//! front of it, if their bytes are known always or never; `headline` and `lines` hold also for the
//! bytes that the writer has received.
#![tactic(auto)]

ghost use Rattle.std.specs.Prelude.{◌≡◌, ◌≢◌, ℕ, List, Some, drop, map, string_bytes};
ghost use Rattle.std.specs.Process.{exit_status};
ghost use Rattle.calc_app.specs.Top.{AnswersWords, CutsLines, HidesNoFault, IsEmptied, IsOutcome};
ghost use Rattle.calc_app.specs.Top.{IsThrough, KeepsTold, Leaves, PrintsAnswerTo, PrintsLines};
ghost use Rattle.calc_app.specs.Top.{RunsLines};
ghost use Rattle.calc_base.specs.Edge.{intake_seen, outlet_seen, told_bytes};
ghost use Rattle.calc_base.specs.Sink.{Appends};
ghost use Rattle.calc_base.specs.Status.{IsCodeOf, code_of};

use calc_app::run;
use calc_base::{Status, StdIn, StdOut, SteadyRead, SteadyWrite};
use std::alloc::Global;
use std::io::{BufWriter, ErrorKind};
use std::process::ExitCode;
use std::rt::Env;
use std::{env, io};

/// The exit code if the system refuses the words for another reason than lack of memory, for
/// example if one of them is not UTF-8.
const WORDS_REFUSED: u8 = 8;

fn main(rt: HostRuntime) -> ExitCode {
    match arguments_of(&rt) {
        Ok(arguments) => code_of_run(&rt, &arguments),
        Err(error) => ExitCode::from(code_for(error.kind())),
    }
}

/// Runs the command that the words after the program's name spell, and returns the exit code of its
/// status.
fn code_of_run(rt: &HostRuntime, arguments: &[String]) -> ExitCode
    ensures { IsCodeOf (AnswersWords (map string_bytes (drop 1 arguments.now)) (λ line. Unit {0}))
        (exit_status result) }
{
    ExitCode::from(status_of(rt, after_name(arguments)).code())
}

/// The words that the system gives to the program; the first one is the program's name.
fn arguments_of(rt: &(impl Env + Alloc<A = Global>)) -> io::Result<Vec<String>> {
    Ok(env::args(rt)?.collect(rt.alloc())?)
}

/// The words after the program's name.
fn after_name(arguments: &[String]) -> &[String]
    ensures { result.now ≡ drop 1 arguments.now }
{
    match arguments {
        [_, words @ ..] => words,
        [] => arguments,
    }
}

/// The exit code if the system refuses the words: the code of `NoMemory` if memory was lacking, and
/// 8 for any other reason.
fn code_for(refusal: ErrorKind) -> u8
    ensures memory { refusal ≡ ErrorKind.OutOfMemory → result ≡ code_of Status.NoMemory }
    ensures other { refusal ≢ ErrorKind.OutOfMemory → result ≡ 8 }
{
    if refusal == ErrorKind::OutOfMemory {
        Status::NoMemory.code()
    } else {
        WORDS_REFUSED
    }
}

/// Runs the command that the words spell over standard input and standard output. The output is
/// written in large pieces. The command `batch` runs each line of the input as a command; after the
/// output for a line, `run` flushes it if no further complete line has been read, so that a caller
/// who sends a line and waits for its output receives it.
fn status_of(rt: &HostRuntime, words: &[String]) -> Status
    // The status is one that the words may have (`AnswersWords`). The contract says nothing of the
    // bytes that are read from standard input and written to standard output.
    ensures { AnswersWords (map string_bytes words.now) (λ line. Unit {0}) result }
{
    let Ok(writer) = BufWriter::new(rt.alloc(), rt.stdout()) else {
        return Status::NoMemory;
    };
    let mut source = StdIn::new(rt.stdin());
    run_over(rt.alloc(), words, &mut source, &mut StdOut::new(writer))
}

/// Runs the command that the words spell, over a reader, and over a writer with a buffer in front
/// of it.
fn run_over<R: SteadyRead, W: SteadyWrite + Drop>(
    alloc: Global,
    words: &[String],
    source: &mut StdIn<R>,
    sink: &mut StdOut<W>,
) -> Status
    // The clauses `headline` and `lines` of `run`, for the bytes that the writer has received: at
    // the end the buffer in front of it is empty.
    ensures headline { result ≡ Status.Done → (before : List ℕ)
        → told_bytes W.contents sink.old ≡ Some before
        → PrintsAnswerTo (map string_bytes words.now) before (R.remaining source.old.reader)
        (W.contents sink.new.writer) }
    ensures lines { RunsLines (map string_bytes words.now) → IsThrough result → (before : List ℕ)
        → told_bytes W.contents sink.old ≡ Some before
        → PrintsLines before (R.remaining source.old.reader) (W.contents sink.new.writer) }

    // The other clauses of `run`, for this source and this sink.
    ensures cut { RunsLines (map string_bytes words.now) → result ≡ Status.SinkFault
        → CutsLines (outlet_seen W.contents sink.old) (outlet_seen W.contents sink.new)
        (intake_seen R.remaining source.old)
        (intake_seen R.remaining source.new) }
    ensures leaves { Leaves (outlet_seen W.contents sink.old) (outlet_seen W.contents sink.new)
        (intake_seen R.remaining source.old)
        (intake_seen R.remaining source.new) (sink.new ≡ sink.old)
        (RunsLines (map string_bytes words.now))
        (IsOutcome (map string_bytes words.now)) result }
    ensures answers { AnswersWords (map string_bytes words.now)
        (Appends (outlet_seen W.contents sink.old) (outlet_seen W.contents sink.new)) result }
    ensures faults { HidesNoFault (outlet_seen W.contents sink.old)
        (outlet_seen W.contents sink.new)
        (intake_seen R.remaining source.old) (intake_seen R.remaining source.new) result }
    ensures told { KeepsTold (outlet_seen W.contents sink.old) (outlet_seen W.contents sink.new)
        (intake_seen R.remaining source.old) (intake_seen R.remaining source.new) }
    ensures all_read { RunsLines (map string_bytes words.now) → IsThrough result
        → IsEmptied (R.remaining source.new.reader) }
    ensures untouched { (RunsLines (map string_bytes words.now) → ⊥) → source.new ≡ source.old }
{
    run(alloc, words, source, sink)
}
