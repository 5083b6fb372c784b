//! The calculator for C: one call that runs the command on a line and leaves its text in the
//! caller's buffer.
//!
//! What is proved:
//!
//! `calc_run`, the call of the C library, runs the words of a line and writes to the caller's
//! buffer. `leaves`: with the codes 0 to 4 the text is the whole text of an outcome of the words
//! (`IsOutcome`); with the code 5 the text is a prefix, not empty, of the text of an outcome; with
//! the code 7 the text is empty or, in a batch, the text of an outcome over the first lines of the
//! input.
//! `needed` is the length of the text. If the buffer has room for the text, the buffer begins with
//! the text, and its other bytes are unchanged; if not, all its bytes are unchanged. `headline`,
//! `lines` and `answers`: the clauses of `run` with these names, for the bytes in the buffer.
//! `ends`: the code is the code of a status, and never the code of a source that failed.
#![tactic(auto)]

ghost use Rattle.std.specs.Prelude.{◌≡◌, ◌≢◌, ◌++◌, ◌<◌, ◌≤◌, [], Some, drop, length, take, map};
ghost use Rattle.std.specs.Prelude.{string_bytes};
ghost use Rattle.calc_app.specs.Top.{AnswersWords, IsThrough, PrintsAnswerTo, PrintsLines};
ghost use Rattle.calc_app.specs.Top.{RunsLines};
ghost use Rattle.calc_base.specs.Status.{IsCodeOf, code_of};
ghost use Rattle.calc_c.specs.Calls.{LeavesText, StandsIn, status_left};
ghost use Rattle.calc_words.specs.LineBytes.{seen};
ghost use Rattle.sym_model.specs.BatchLine.{words_of_line};

mod slice_source;

use calc_app::run;
use calc_base::{GrowingSink, Status};
use calc_words::line_words;
use slice_source::SliceSource;
use std::alloc::Global;

/// Runs the command that the words of the line spell (a command `batch` reads the input), and
/// returns the code of its status, which is the exit status of the program.
///
/// The words are separated by spaces and tabs. `needed` is set to the length of the text. If the
/// buffer has room for the text, the text is at its front, and the bytes after it are unchanged. If
/// not, the buffer is unchanged, and the call can be made again with more room. Code 5 says that
/// memory ran out for the text; then a prefix of the text is left, at least one byte. Code 7 says
/// that memory ran out before that; then no text is left or, in a batch, the text for the first
/// lines of the input. The other codes are those of the outcome of the words; 6 is never returned.
#[unsafe(no_mangle)]
pub extern "C" fn calc_run(
    alloc: Global,
    line: &[u8],
    input: &[u8],
    out: &mut [u8],
    needed: &mut usize,
) -> u8
    // The clauses `headline` and `lines` of `run`, for the bytes in the caller's buffer.
    ensures headline { result ≡ code_of Status.Done → needed.new ≤ length out.new
        → PrintsAnswerTo (map seen (words_of_line line.now)) [] (Some input.now)
        (Some (take needed.new out.new)) }
    ensures lines { RunsLines (map seen (words_of_line line.now))
        → result ≤ code_of Status.SomeRefused
        → needed.new ≤ length out.new
        → PrintsLines [] (Some input.now) (Some (take needed.new out.new)) }

    // By cases on the status, the text that is left is: the whole text of an outcome of the words
    // (`IsOutcome`); if memory ran out for the text, a prefix of the text of an outcome, which is
    // not empty; if memory ran out before that, no text or, in a batch, the text of an outcome over
    // the first lines of the input. `needed` is the length of the text. If the buffer has room for the text,
    // it begins with the text, and its other bytes are unchanged.
    ensures leaves { IsCodeOf (LeavesText
        (map seen (words_of_line line.now)) input.now needed.new out.old out.new) result }

    // If the words spell a command without an error, the command is refused as too large only if a
    // coefficient that its answer has by definition (`IsDefinedCoefficient`) exceeds 2^127 - 1, or
    // a weight of the command, which bounds all numbers of its computation, is 2^127 or more. If
    // the words spell a command with an error, the line that names the first error is written. If
    // they spell no command, the line `! Syntax` is written, with the place of the syntax error.
    ensures answers { IsCodeOf (AnswersWords (map seen (words_of_line line.now))
        (StandsIn needed.new out.new)) result }

    // The code is the code of a status other than `SourceFault`.
    ensures ends { IsCodeOf (λ status. status ≢ Status.SourceFault) result }

    ensures untouched { length out.new < needed.new → out.new ≡ out.old }
{
    *needed = 0;
    let mut words: Vec<String> = Vec::new(alloc);
    let Ok(()) = line_words(alloc, &mut words, line) else {
        return Status::NoMemory.code();
    };
    run_words(alloc, &words, input, out, needed).code()
}

/// Runs the command that the words spell over the input, copies its text to the front of `out` if
/// it fits, sets `needed` to its length, and returns the status.
fn run_words(
    alloc: Global,
    words: &[String],
    input: &[u8],
    out: &mut [u8],
    needed: &mut usize,
) -> Status
    requires { needed.old ≡ 0 }
    ensures headline { result ≡ Status.Done → needed.new ≤ length out.new
        → PrintsAnswerTo (map string_bytes words.now) [] (Some input.now)
        (Some (take needed.new out.new)) }
    ensures lines { RunsLines (map string_bytes words.now) → IsThrough result
        → needed.new ≤ length out.new
        → PrintsLines [] (Some input.now) (Some (take needed.new out.new)) }
    ensures leaves { LeavesText (map string_bytes words.now) input.now needed.new out.old out.new
        result }
    ensures answers { AnswersWords (map string_bytes words.now)
        (StandsIn needed.new out.new) result }
    ensures ends { result ≢ Status.SourceFault }
    ensures untouched { length out.new < needed.new → out.new ≡ out.old }
{
    let mut source = SliceSource { rest: input };
    let mut sink = GrowingSink::new(alloc);
    let status = run(alloc, words, &mut source, &mut sink);
    *needed = put_front(out, sink.bytes());
    told(status, *needed)
}

/// The status of a call that leaves a text of the given length. Out of memory for the text
/// (`SinkFault`) is out of memory if none of it was stored.
fn told(status: Status, length: usize) -> Status
    ensures { result ≡ status_left status length }
{
    match status {
        Status::SinkFault if length == 0 => Status::NoMemory,
        _ => status,
    }
}

/// Copies the text to the front of the buffer if it fits there, and returns the length of the text.
fn put_front(out: &mut [u8], text: &[u8]) -> usize
    ensures needed { result ≡ length text.now }
    ensures same { length out.new ≡ length out.old }
    ensures front { result ≤ length out.new → take result out.new ≡ text.now }
    ensures whole { result ≤ length out.new → out.new ≡ text.now ++ drop result out.old }
    ensures untouched { length out.new < result → out.new ≡ out.old }
{
    if text.len() <= out.len() {
        out[..text.len()].copy_from_slice(text);
    }
    text.len()
}
