//! The printed forms of answers: a block of lines, or one line.

ghost use Rattle.std.specs.Prelude.{◌≡◌, ◌++◌, true};
ghost use Rattle.calc_base.specs.Puts.{Puts};
ghost use Rattle.expansion_printer.specs.Answers.{plain_answer};
ghost use Rattle.sym_model.specs.Answer.{IsPrintable};
ghost use Rattle.sym_model.specs.PrintedForm.{answer_text_in};
ghost use Rattle.calc_replies.specs.Forms.{plain_form, form_asked};

use calc_base::{Basis, Sink};
use expansion_printer::{Answer, print_after, print_one_line_after};

/// The printed form of an answer.
#[derive(Clone, Copy, Debug)]
pub enum Form {
    /// A block, with a line for each term.
    Block,
    /// One line: an expression whose terms have basis elements such as `s[2,1]`.
    Line { basis: Basis },
}

/// The printed form that a command asks for: if `one_line` is true, one line with elements of the
/// basis, such as `s[2,1]`; otherwise the block, with a line for each term.
pub(crate) fn asked_form(one_line: bool, basis: Basis) -> Form
    ensures { result ≡ form_asked one_line basis }
{
    if one_line {
        Form::Line { basis }
    } else {
        Form::Block
    }
}

/// Writes the text `front` to the sink, followed by the answer in the given form. Returns whether
/// all calls of the sink succeeded.
pub(crate) fn put_answer<K: Sink>(front: &[u8], answer: &Answer, form: Form, sink: &mut K) -> bool
    ensures goes { Puts true (K.seen sink.old) result (K.seen sink.new)
        (front.now ++ answer_text_in (plain_form form) (plain_answer answer.now)) }
    ensures printable { IsPrintable (plain_answer answer.now) }
{
    match form {
        Form::Block => print_after(front, answer, sink).is_ok(),
        Form::Line { basis } => print_one_line_after(front, answer, basis, sink).is_ok(),
    }
}
