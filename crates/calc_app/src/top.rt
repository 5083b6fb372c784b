//! The call `run`, which runs the command that given words spell.

ghost use Rattle.std.specs.Prelude.{◌≡◌, ℕ, List, Some, map, string_bytes};
ghost use Rattle.calc_base.specs.Sink.{Appends};
ghost use Rattle.calc_replies.specs.Computed.{HasText};
ghost use Rattle.calc_app.specs.Top.{AnswersWords, CutsLines, HidesNoFault, IsEmptied, IsOutcome};
ghost use Rattle.calc_app.specs.Top.{IsThrough, KeepsTold, Leaves, PrintsAnswerTo, PrintsLines};
ghost use Rattle.calc_app.specs.Top.{PutsOutcome, RunsLines};

use crate::batch::batch;
use crate::workload::work;
use batch_lines::finished;
use calc_base::{NoMemory, Sink, Source, Status};
use calc_replies::{Outcome, Task, put_text, status_if_put, task_of};
use std::alloc::Global;

/// Runs the command that the words spell (without the name of the program) and writes its text to
/// the sink.
///
/// The commands are those of `calc_language::read_words`. The text has a line for each term of the
/// answer (for `tab`, for each tableau), or is the line `0` if there is none; for `rsk`, `unrsk`
/// and `rect` it is two tableaux, a word or a tableau; for `growth` it has a line of shapes for
/// each line of the grid.
///
/// First the words are read. They are refused by one line if they are no command (`Syntax`), exceed
/// a limit or have a wrong shape (`Range`), or have a number that is too large (`Past`). Then the
/// whole answer is computed. It is refused by the line `! Large` (`Past`) only if a coefficient
/// that it has by definition exceeds 2^127 - 1, or a weight of the command, which bounds the
/// numbers of its computation, is 2^127 or more. The tableaux of `tab` are not stored: each is
/// written when it is found. Last, `finish` is called, also after a refusal.
///
/// Returns `SinkFault` if and only if a call of the sink failed; the sink is not called after that.
/// If memory runs out it returns `NoMemory` and writes nothing, except that a batch has written the
/// earlier answers and called `finish`.
///
/// `batch` runs each line of the source as a command, and writes its block, the text of its answer
/// or refusal, as soon as the line is read, with the line `--` between two blocks; after a block,
/// `finish` is called if the input read so far has no further complete line. It ends with
/// `SomeRefused` if a line was refused. If a read fails, it ends with `SourceFault` after the lines
/// read completely. Other commands do not touch the source. `work` runs generated lines in this
/// way, but writes only the numbers of their blocks, terms and bytes.
pub fn run<S: Source, K: Sink>(
    alloc: Global,
    words: &[String],
    source: &mut S,
    sink: &mut K,
) -> Status
    // If the status is `Done`, the text can be read back as a list of terms in the printed order
    // (labels strictly increasing; coefficients in lowest terms, not 0). That list is the answer to
    // the command, as it is defined by polynomials, and no other text can be read back as it.
    //
    // For `quantum` and `fusion` the list also results if the product is reduced (by rim hooks, or
    // into the alcove) after each factor. For `tab`, `rsk`, `unrsk`, `rect` and `growth` the text
    // is the text of the answer. For `batch` and `work` the text is as in `SaysOver`.
    ensures headline { result ≡ Status.Done → (before : List ℕ)
        → (K.seen sink.old).written ≡ Some before
        → PrintsAnswerTo (map string_bytes words.now) before (S.seen source.old).left
        (K.seen sink.new).written }

    // If a batch was read to its end, the blocks of all its lines were written, and the block of
    // each line that was not refused is the answer to the command of this line.
    ensures lines { RunsLines (map string_bytes words.now) → IsThrough result → (before : List ℕ)
        → (K.seen sink.old).written ≡ Some before
        → PrintsLines before (S.seen source.old).left (K.seen sink.new).written }

    // If the sink failed in a batch (`CutsLines`), either the blocks of all lines that were read,
    // except the last, were written whole, followed by a prefix of the last block; or the blocks of
    // all these lines were written whole, and `finish` failed. In the second case one further line
    // may have been read, for which memory ran out.
    ensures cut { RunsLines (map string_bytes words.now) → result ≡ Status.SinkFault
        → CutsLines (K.seen sink.old) (K.seen sink.new) (S.seen source.old) (S.seen source.new) }

    // The text that was written, by the status. It is the whole text of an outcome of the words
    // (`IsOutcome`), and `finish` succeeded after it. After a fault of the sink it is a prefix of
    // the text of an outcome. After a fault of the source it consists of the blocks of the lines
    // read completely, and `finish` succeeded after it. If memory ran out, it is empty or, in a
    // batch, consists of the blocks of all lines that were read before, and `finish` succeeded after
    // it.
    ensures leaves { Leaves (K.seen sink.old) (K.seen sink.new) (S.seen source.old)
        (S.seen source.new) (sink.new ≡ sink.old)
        (RunsLines (map string_bytes words.now)) (IsOutcome (map string_bytes words.now)) result }

    // If the words spell a command without an error, the command is answered; it is refused only
    // if a coefficient that its answer has by definition exceeds 2^127 - 1, or a weight of the
    // command, which bounds the numbers of its computation, is 2^127 or more. If the words spell a
    // command with an error, the line that names the first error is written. If they are no
    // command, the line `! Syntax` is written, with the first place that is wrong.
    ensures answers { AnswersWords (map string_bytes words.now)
        (Appends (K.seen sink.old) (K.seen sink.new)) result }

    // No fault of the sink or of the source is hidden by the status (`HidesNoFault`).
    ensures faults { HidesNoFault (K.seen sink.old) (K.seen sink.new) (S.seen source.old)
        (S.seen source.new) result }

    // Whether the sink records its bytes and their number, and the source the bytes that it has
    // left, is unchanged.
    ensures told { KeepsTold (K.seen sink.old) (K.seen sink.new) (S.seen source.old)
        (S.seen source.new) }

    // If a batch ends with `Done` or `SomeRefused`, the source was read to its end. Commands other
    // than `batch` do not touch the source.
    ensures all_read { RunsLines (map string_bytes words.now) → IsThrough result
        → IsEmptied (S.seen source.new).left }
    ensures untouched { (RunsLines (map string_bytes words.now) → ⊥) → source.new ≡ source.old }
{
    match task_of(alloc, words) {
        Ok(Task::Lines) => batch(alloc, source, sink),
        Ok(Task::Workload { lines, seed }) => work(alloc, lines, seed, sink),
        Ok(Task::Put { outcome }) => put_outcome(outcome, sink),
        Err(NoMemory) => Status::NoMemory,
    }
}

/// Writes the text of an outcome of the words of a command and calls `finish` on the sink. Returns
/// the status of the outcome, or `SinkFault`.
fn put_outcome<K: Sink>(outcome: Outcome, sink: &mut K) -> Status
    requires { HasText outcome }
    ensures { PutsOutcome (K.seen sink.old) (K.seen sink.new) outcome result }
{
    let mut outcome = outcome;
    let status = status_if_put(&outcome);
    if !put_text(b"", &mut outcome, sink) {
        return Status::SinkFault;
    }
    finished(status, sink)
}
