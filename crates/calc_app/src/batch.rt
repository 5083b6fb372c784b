//! The lines of a batch. One after another, each line is read and run as a command, and its block,
//! the text of its answer or refusal, is written.

ghost use Rattle.std.specs.Prelude.{◌≡◌, ◌≤◌, ◌++◌, ℕ, List, [], length, Some, true, false, IfOk};
ghost use Rattle.lru.specs.LruCache.{lru_cache};
ghost use Rattle.batch_lines.specs.Feeds.{HasNoFeed};
ghost use Rattle.batch_lines.specs.Reading.{IsAtEnd, ReadsNext, Took, most_pending};
ghost use Rattle.calc_base.specs.Puts.{Puts};
ghost use Rattle.sym_model.specs.BatchLine.{batch_line, too_long};
ghost use Rattle.batch_lines.specs.Ends.{separator, progress_after};
ghost use Rattle.calc_words.specs.Commands.{IsSound};
ghost use Rattle.calc_app.specs.Batch.{ComesOfLine, TakesTurn, CutsTurn, CountsTurn, EndsBatch};
ghost use Rattle.calc_language.specs.Reading.{IsWithinItsLimits, command_of};
ghost use Rattle.calc_replies.specs.Computed.{IsReplyTo, RunsNoOther, text_of, HasText, HasBlock};
ghost use Rattle.calc_replies.specs.Computed.{status_for};

use batch_lines::{LineFault, LineReader, Next, Progress, at_end, finished, separator};
use calc_base::{NoMemory, Place, Sink, Source, Status, WordsFault};
use calc_language::{Command, read_line_by};
use calc_replies::{Outcome, put_text, reply_by, status_if_put};
use schubert_transition::Memo;
use std::alloc::Global;

/// The greatest number of bytes of a line, without its line feed.
const MOST_BYTES: u64 = 4096;

/// The greatest number of Schubert polynomials that are stored for later lines.
const KEPT: usize = 64;

/// The result of reading the next line of a batch.
#[derive(Drop)]
enum Turn {
    /// No outcome: the line is skipped.
    Passed,
    /// The outcome of the words of the line, or the refusal of a line that is too long.
    Block { outcome: Outcome },
    /// There is no line left.
    Last,
}

/// Runs the lines of the source and writes their blocks, with the line `--` between two blocks.
///
/// The block of a line is written before the next line is run; only Schubert polynomials are stored
/// for later lines. After each line, also one that is skipped, `finish` is called on the sink if
/// the bytes read so far have no further complete line. If the source fails, the run ends after the
/// lines read completely, and `finish` is called. If memory runs out for a line, the run ends after
/// the lines before it, and `finish` is called.
pub(crate) fn batch<S: Source, K: Sink>(alloc: Global, source: &mut S, sink: &mut K) -> Status
    ensures { EndsBatch (K.seen sink.old) (K.seen sink.new) (S.seen source.old) (S.seen source.new)
        (sink.new ≡ sink.old) result }
{
    let Ok(mut reader) = LineReader::new(alloc) else {
        return Status::NoMemory;
    };
    let Ok(mut memo) = new_memo(alloc) else {
        return Status::NoMemory;
    };
    let mut words: Vec<String> = Vec::new(alloc);
    let mut progress = Progress {
        is_first: true,
        is_done: true,
    };
    loop {
        match next_turn(alloc, &mut memo, &mut words, &mut reader, source) {
            Ok(Turn::Passed) => {
                if !hand_on(&reader, sink) {
                    return Status::SinkFault;
                }
            }
            Ok(Turn::Block { outcome }) => {
                if !put_block(&mut progress, outcome, sink) {
                    return Status::SinkFault;
                }
                if !hand_on(&reader, sink) {
                    return Status::SinkFault;
                }
            }
            Ok(Turn::Last) => return finished(at_end(progress), sink),
            Err(LineFault::SourceFault) => return finished(Status::SourceFault, sink),
            Err(LineFault::NoMemory) => return finished(Status::NoMemory, sink),
        }
    }
}

/// An empty store for up to 64 Schubert polynomials of earlier lines.
pub(crate) fn new_memo(alloc: Global) -> Result<Memo, NoMemory>
    ensures { IfOk result (λ memo. memo ≡ lru_cache [] 64) }
{
    Memo::new(alloc, KEPT)
}

/// Reads the next line and computes its outcome; `Passed` if the line is skipped, `Last` at the
/// end. The words of the line are put into the buffer `words`.
#[tactic(auto, using(batch_lines::proofs::NextLines::reads_at_most))]
fn next_turn<S: Source>(
    alloc: Global,
    memo: &mut Memo,
    words: &mut Vec<String>,
    reader: &mut LineReader,
    source: &mut S,
) -> Result<Turn, LineFault>
    requires { IsAtEnd reader.old.has_ended (S.seen source.old).left }
    ensures takes { IfOk result (TakesTurn (S.seen source.old) (S.seen source.new)
        reader.old.pending reader.new.pending reader.new.has_ended) }
    ensures cuts { CutsTurn (S.seen source.old).left
        (S.seen source.new).left reader.old.pending reader.old.has_ended result }
    ensures counts { CountsTurn (S.seen source.old).faults (S.seen source.new).faults result }
    ensures later { (S.seen source.old).faults ≤ (S.seen source.new).faults }
    ensures took { (taken : List ℕ) × Took (S.seen source.old).left (S.seen source.new).left taken }
    ensures short { IfOk result (λ _. length reader.new.pending ≤ most_pending) }
{
    match reader.next(source)? {
        Next::Line => match line_outcome(alloc, memo, words, reader.line())? {
            None => Ok(Turn::Passed),
            Some(outcome) => Ok(Turn::Block { outcome }),
        },
        Next::TooLong => Ok(Turn::Block {
            outcome: refused_long(),
        }),
        Next::End => Ok(Turn::Last),
    }
}

/// Computes the outcome of a line (`ComesOfLine`); None if the line is skipped. The words of the line
/// are put into the buffer `words`.
pub(crate) fn line_outcome(
    alloc: Global,
    memo: &mut Memo,
    words: &mut Vec<String>,
    line: &[u8],
) -> Result<Option<Outcome>, NoMemory>
    ensures { IfOk result (ComesOfLine (batch_line line.now)) }
{
    match read_line_by(alloc, words, line) {
        Ok(Some(command)) => {
            let outcome = reply_once(alloc, memo, command)?;
            Ok(Some(outcome))
        }
        Ok(None) => Ok(None),
        Err(WordsFault::NoMemory) => Err(NoMemory),
        Err(fault) => Ok(Some(Outcome::Refused { fault })),
    }
}

/// The outcome of a command that is a line of a batch. The command is dropped.
fn reply_once(alloc: Global, memo: &mut Memo, command: Command) -> Result<Outcome, NoMemory>
    requires limits { IsWithinItsLimits command }
    requires sound { IsSound command }
    requires alone { RunsNoOther (command_of command) }
    ensures { IsReplyTo (command_of command) result }
{
    let reply = reply_by(alloc, memo, &command);
    // The command is dropped by a call, so that the proof need not unfold the type of commands.
    drop(command);
    reply
}

/// The outcome of a line of more than 4,096 bytes: its refusal.
fn refused_long() -> Outcome
    ensures { ComesOfLine too_long (Some result) }
{
    Outcome::Refused {
        fault: WordsFault::Range {
            at: Place {
                word: 0,
                byte: MOST_BYTES,
            },
        },
    }
}

/// Writes the block of a line, the text of `outcome`, with the line `--` before it unless it is the
/// first block. Returns whether all calls of the sink succeeded.
fn put_block<K: Sink>(progress: &mut Progress, outcome: Outcome, sink: &mut K) -> bool
    requires { HasText outcome }
    ensures goes { Puts true (K.seen sink.old) result (K.seen sink.new)
        (separator progress.old.is_first ++ text_of outcome) }
    ensures printable { HasBlock outcome }
    ensures counts { progress.new ≡ progress_after progress.old (status_for outcome) }
{
    let mut outcome = outcome;
    let front = separator(progress.is_first);
    progress.count(status_if_put(&outcome));
    put_text(front, &mut outcome, sink)
}

/// Calls `finish` on the sink if the bytes read so far have no further complete line, so that a
/// caller who sends a line and waits gets its block. Returns whether the sink did not fail.
fn hand_on<K: Sink>(reader: &LineReader, sink: &mut K) -> bool
    ensures goes { Puts true (K.seen sink.old) result (K.seen sink.new) [] }
    ensures none { result ≡ false → HasNoFeed reader.now.pending }
{
    reader.has_line() || sink.finish().is_ok()
}
