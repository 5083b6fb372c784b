//! The command `work`: generated lines are run one after another, and their blocks (the texts of
//! their answers or refusals) are counted.

ghost use Rattle.std.specs.Prelude.{◌≡◌, ◌<◌, ◌≤◌, IfOk};
ghost use Rattle.sym_model.specs.BatchLine.{batch_line};
ghost use Rattle.batch_lines.specs.Totals.{sums_with, AreSmall};
ghost use Rattle.calc_replies.specs.Computed.{text_of, HasText, HasBlock};
ghost use Rattle.calc_app.specs.Work.{AddsLine, AreSumsOf, PutsSums, EndsWork};

use crate::batch::{line_outcome, new_memo};
use batch_lines::{LineBuf, Sums, finished, put_summary, work_line};
use calc_base::{GrowingSink, NoMemory, Sink, Status};
use calc_replies::{Outcome, put_text};
use schubert_transition::Memo;
use std::alloc::Global;

/// Runs the first `lines` lines that are generated from `seed` (at most 65,536), and writes the
/// numbers of their blocks, terms and bytes.
///
/// One block is stored at a time. If memory runs out it returns `NoMemory` and writes nothing.
pub fn work<K: Sink>(alloc: Global, lines: u16, seed: u32, sink: &mut K) -> Status
    requires { seed ≤ 65536 }
    ensures { EndsWork (K.seen sink.old) (K.seen sink.new) (sink.new ≡ sink.old) lines seed result }
{
    match sums_of(alloc, lines, seed) {
        Ok(sums) => put_sums(&sums, sink),
        Err(NoMemory) => Status::NoMemory,
    }
}

/// Writes the text of the sums and calls `finish` on the sink. Returns `Done`, or `SinkFault`.
fn put_sums<K: Sink>(sums: &Sums, sink: &mut K) -> Status
    ensures { PutsSums (K.seen sink.old) (K.seen sink.new) sums.now result }
{
    if !put_summary(sums, sink) {
        return Status::SinkFault;
    }
    finished(Status::Done, sink)
}

/// The numbers of blocks, terms and bytes in the blocks of the first `lines` lines that are
/// generated from `seed`.
fn sums_of(alloc: Global, lines: u16, seed: u32) -> Result<Sums, NoMemory>
    requires { seed ≤ 65536 }
    ensures { IfOk result (AreSumsOf lines seed) }
{
    let mut state = seed;
    let mut line = LineBuf::new();
    let mut text = GrowingSink::new(alloc);
    let mut sums = Sums::new();
    let mut memo = new_memo(alloc)?;
    let mut words: Vec<String> = Vec::new(alloc);
    for _index in 0..lines {
        work_line(&mut state, &mut line);
        add_line(
            alloc,
            &mut memo,
            &mut words,
            line.as_bytes(),
            &mut text,
            &mut sums,
        )?;
    }
    Ok(sums)
}

/// Runs a line, and adds its block, with the terms and bytes of the block, to the sums. A skipped
/// line has no block.
fn add_line(
    alloc: Global,
    memo: &mut Memo,
    words: &mut Vec<String>,
    line: &[u8],
    text: &mut GrowingSink,
    sums: &mut Sums,
) -> Result<(), NoMemory>
    requires small { AreSmall sums.old }
    requires room { sums.old.lines < 65536 }
    ensures { IfOk result (λ _. AddsLine (batch_line line.now) sums.old sums.new) }
{
    match line_outcome(alloc, memo, words, line)? {
        Some(outcome) => add_block(outcome, text, sums),
        None => Ok(()),
    }
}

/// Adds the block of an outcome, with the terms and bytes of the block, to the sums.
fn add_block(outcome: Outcome, text: &mut GrowingSink, sums: &mut Sums) -> Result<(), NoMemory>
    requires has_text { HasText outcome }
    requires small { AreSmall sums.old }
    requires room { sums.old.lines < 65536 }
    ensures sums { IfOk result (λ _. sums.new ≡ sums_with sums.old (text_of outcome)) }
    ensures small { IfOk result (λ _. AreSmall sums.new) }
    ensures printable { IfOk result (λ _. HasBlock outcome) }
{
    let mut outcome = outcome;
    text.clear();
    // Writing into memory fails only if memory runs out.
    if !put_text(b"", &mut outcome, text) {
        return Err(NoMemory);
    }
    sums.add(text.bytes());
    Ok(())
}
