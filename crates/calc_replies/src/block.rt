//! Writes the text of an outcome to a sink, and computes the status with which the run then ends.

ghost use Rattle.std.specs.Prelude.{◌≡◌, ◌++◌, true};
ghost use Rattle.calc_base.specs.Puts.{Puts};
ghost use Rattle.calc_replies.specs.Computed.{text_of, HasText, HasBlock, refusal_status};
ghost use Rattle.calc_replies.specs.Computed.{status_for};

use crate::form::put_answer;
use crate::outcome::Outcome;
use crate::tableau_answer::put_told;
use calc_base::{Sink, Status, WordsFault, put_if};
use expansion_printer::{print_large, print_refusal};

/// Writes the text `front` to the sink, followed by the text of the outcome (`text_of`): its answer
/// or the line of its refusal. Returns whether all calls of the sink succeeded.
pub fn put_text<K: Sink>(front: &[u8], outcome: &mut Outcome, sink: &mut K) -> bool
    requires { HasText outcome.old }
    ensures goes { Puts true (K.seen sink.old) result (K.seen sink.new)
        (front.now ++ text_of outcome.old) }
    ensures printable { HasBlock outcome.old }
{
    match outcome {
        Outcome::Answered { answer, form } => put_answer(front, answer, *form, sink),
        Outcome::Written { text } => put_if(put_front(front, sink), sink, text.bytes()),
        Outcome::Refused { fault } => put_front(front, sink) && print_refusal(fault, sink).is_ok(),
        Outcome::Large => put_front(front, sink) && print_large(sink).is_ok(),
        Outcome::Told { lines } => put_front(front, sink) && put_told(lines, sink),
    }
}

/// Writes the text `front` to the sink, unless it is empty, and returns whether the call of the
/// sink succeeded.
fn put_front<K: Sink>(front: &[u8], sink: &mut K) -> bool
    ensures { Puts true (K.seen sink.old) result (K.seen sink.new) front.now }
{
    front.is_empty() || sink.put(front).is_ok()
}

/// The status with which a run ends after the outcome is written, if no call of the sink fails.
pub fn status_if_put(outcome: &Outcome) -> Status
    ensures { result ≡ status_for outcome.now }
{
    match outcome {
        Outcome::Answered { .. } | Outcome::Written { .. } | Outcome::Told { .. } => Status::Done,
        Outcome::Refused { fault } => refused(*fault),
        Outcome::Large => Status::Past,
    }
}

/// The status of words that are refused for the reason `fault`.
fn refused(fault: WordsFault) -> Status
    ensures { result ≡ refusal_status fault }
{
    match fault {
        WordsFault::Syntax { .. } => Status::Syntax,
        WordsFault::Literal { .. } => Status::Past,
        WordsFault::Range { .. } | WordsFault::Shape { .. } => Status::Range,
        WordsFault::NoMemory => Status::NoMemory,
    }
}
