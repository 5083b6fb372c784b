//! The outcome of the words of a command. It is computed before anything is written, except for the
//! tableaux of `tab`, each of which is written when it is found.
ghost use Rattle.std.specs.Prelude.{◌≡◌, ℕ, Some, map, string_bytes};
ghost use Rattle.sym_model.specs.Command.{Command as PlainCommand};
ghost use Rattle.sym_model.specs.CommandOffence.{Offence};
ghost use Rattle.sym_model.specs.Entry.{SpellsWithoutOffence, HasFirstOffence};
ghost use Rattle.calc_words.specs.Commands.{IsSound};
ghost use Rattle.sym_model.specs.Grammar.{all_entries};
ghost use Rattle.sym_model.specs.SyntaxPlace.{IsSyntaxPlace};
ghost use Rattle.calc_language.specs.Reading.{command_of, IsWithinItsLimits};
ghost use Rattle.calc_replies.specs.Computed.{reply_of, IsReplyTo, RunsNoOther, IsTaskOf};
ghost use Rattle.calc_replies.specs.Computed.{IsTaskFor, AcceptsTask, RefusesTask, TaskGoesWrong};

use crate::composing::composed;
use crate::expanding::expanded;
use crate::form::Form;
use crate::tableau_answer::TableauAnswer;
use crate::{grids, insertion, listing, permutations, products, reductions};
use calc_base::{GrowingSink, NoMemory, SumFault, WordsFault};
use calc_language::{Command, read_words};
use expansion_printer::Answer;
use schubert_transition::Memo;
use std::alloc::Global;

/// The outcome of the words of a command.
pub enum Outcome {
    /// The command is answered: the whole answer, and the form in which it is printed.
    Answered { answer: Answer, form: Form },
    /// The command is answered: the text of the answer in its form.
    Written { text: GrowingSink },
    /// The words are refused, for the reason `fault`, which is not that memory ran out.
    Refused { fault: WordsFault },
    /// The command is refused, since its answer is too large.
    Large,
    /// The answer of a command on tableaux: `tab`, `rsk`, `unrsk`, `rect` or `growth`.
    Told { lines: TableauAnswer },
}

// `Drop` is written out, so that a function that drops an outcome calls it, and the proof of that
// function need not unfold the type of answers.
impl Drop for Outcome {
    fn drop(self) {
        match self {
            Outcome::Answered { answer, form: _ } => drop(answer),
            Outcome::Written { text } => drop(text),
            Outcome::Refused { fault: _ } => {}
            Outcome::Large => {}
            Outcome::Told { lines } => drop(lines),
        }
    }
}

/// The task to be done for the words of a command: to run lines, or to write an outcome.
#[derive(Drop)]
pub enum Task {
    /// The lines of the input are to be run (`batch`).
    Lines,
    /// Generated lines are to be run (`work`): the first `lines` lines that are generated from
    /// `seed`.
    Workload { lines: u16, seed: u32 },
    /// The outcome of the words is to be written (every other command, and refused words).
    Put { outcome: Outcome },
}

/// The outcome of an answer that is printed as a block.
pub(crate) fn as_block(answer: Answer) -> Outcome
    ensures { result ≡ Outcome.Answered answer Form.Block }
{
    Outcome::Answered {
        answer,
        form: Form::Block,
    }
}

/// The outcome of a command that asks for an expansion: `answer`, which is to be printed in the
/// form `form`, or `Large` if the answer is too large.
pub(crate) fn answered(answer: Result<Answer, SumFault>, form: Form) -> Result<Outcome, NoMemory>
    ensures { result ≡ reply_of answer form }
{
    match answer {
        Ok(answer) => Ok(Outcome::Answered { answer, form }),
        Err(SumFault::Large) => Ok(Outcome::Large),
        Err(SumFault::NoMemory) => Err(NoMemory),
    }
}

/// The task for the words of a command: to write the whole answer or the refusal, or to run lines.
/// Fails only if memory runs out.
pub fn task_of(alloc: Global, words: &[String]) -> Result<Task, NoMemory>
    ensures computes { IsTaskFor (map string_bytes words.now) result }
    ensures accepts { (command : PlainCommand)
        → SpellsWithoutOffence all_entries (map string_bytes words.now) command
        → AcceptsTask command result }
    ensures refuses { (offence : Offence)
        → HasFirstOffence all_entries (map string_bytes words.now) (Some offence)
        → RefusesTask offence result }
    ensures goes_wrong { (word byte : ℕ)
        → IsSyntaxPlace all_entries (map string_bytes words.now) word byte
        → TaskGoesWrong word byte result }
{
    match read_words(alloc, words) {
        Ok(command) => {
            let task = task_for(alloc, &command);
            // The command is dropped by a call, so that the proof need not unfold the type of
            // commands.
            drop(command);
            task
        }
        Err(WordsFault::NoMemory) => Err(NoMemory),
        Err(fault) => Ok(Task::Put {
            outcome: Outcome::Refused { fault },
        }),
    }
}

/// The task for a command: to write its outcome, or to run lines.
fn task_for(alloc: Global, command: &Command) -> Result<Task, NoMemory>
    requires limits { IsWithinItsLimits command.now }
    requires sound { IsSound command.now }
    ensures { IsTaskOf (command_of command.now) result }
{
    match command {
        Command::Batch => Ok(Task::Lines),
        Command::Work { lines, seed } => Ok(Task::Workload {
            lines: *lines,
            seed: *seed,
        }),
        _ => {
            let outcome = reply_to(alloc, command)?;
            Ok(Task::Put { outcome })
        }
    }
}

/// The outcome of a command that is a line of a batch. Schubert polynomials of earlier lines are
/// taken from the store `memo`. The command must be within its limits, and not be `batch` or
/// `work`. Fails only if memory runs out.
pub fn reply_by(alloc: Global, memo: &mut Memo, command: &Command) -> Result<Outcome, NoMemory>
    requires limits { IsWithinItsLimits command.now }
    requires sound { IsSound command.now }
    requires alone { RunsNoOther (command_of command.now) }
    ensures { IsReplyTo (command_of command.now) result }
{
    match command {
        Command::Schubert { perm } => permutations::schubert_by(memo, perm),
        _ => reply_to(alloc, command),
    }
}

/// The outcome of a command: its answer, or `Large` if it is too large. The command must be within
/// its limits, and not be `batch` or `work`. Fails only if memory runs out.
pub fn reply_to(alloc: Global, command: &Command) -> Result<Outcome, NoMemory>
    requires limits { IsWithinItsLimits command.now }
    requires sound { IsSound command.now }
    requires alone { RunsNoOther (command_of command.now) }
    ensures { IsReplyTo (command_of command.now) result }
{
    match command {
        Command::Mult {
            rows,
            one_line,
            factors,
        } => products::mult(alloc, *rows, *one_line, factors),
        Command::Skew {
            rows,
            one_line,
            outer,
            inner,
        } => products::skew(alloc, *rows, *one_line, outer, inner),
        Command::Coef { outer, left, right } => products::coef(alloc, outer, left, right),
        Command::Coprod { shape } => products::coprod(alloc, shape),
        Command::Quantum {
            rows,
            cols,
            factors,
        } => reductions::quantum(alloc, *rows, *cols, factors),
        Command::Fusion {
            rows,
            level,
            factors,
        } => reductions::fusion(alloc, *rows, *level, factors),
        Command::Schubert { perm } => permutations::schubert(alloc, perm),
        Command::Schubmult { left, right } => permutations::schubmult(alloc, left, right),
        Command::Tab {
            outer,
            inner,
            after,
        } => listing::tab(alloc, outer, inner, after),
        Command::Expand {
            target,
            one_line,
            formula,
        } => expanded(alloc, *target, *one_line, formula),
        Command::Rsk { letters } => insertion::rsk(alloc, letters),
        Command::Unrsk { p, q } => insertion::unrsk(alloc, p, q),
        Command::Rect { tableau } => insertion::rect(tableau),
        Command::Growth { perm } => grids::growth(alloc, perm),
        Command::Plethysm {
            target,
            outer,
            inner,
        } => composed(alloc, *target, outer, inner),
        Command::Dschubmult { left, right } => permutations::dschubmult(alloc, left, right),
        Command::Stanley { rows, perm } => permutations::stanley(alloc, *rows, perm),
        Command::Batch | Command::Work { .. } => unreachable!(),
    }
}
