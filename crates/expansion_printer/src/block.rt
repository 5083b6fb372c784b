//! The printed block of an answer.
ghost use Rattle.std.specs.Prelude.{◌++◌, codes};
ghost use Rattle.std.specs.List.{All};
ghost use Rattle.calc_base.specs.Puts.{Prints};
ghost use Rattle.expansion_printer.specs.Gathering.{Gathers};
ghost use Rattle.sym_model.specs.Answer.{answer, answer_text, IsPrintable};
ghost use Rattle.sym_model.specs.Kind.{number};
ghost use Rattle.sym_model.specs.PrintedBlock.{block_by, line_by};
ghost use Rattle.linear_combinations.specs.Entries.{IsCanonicalList};
ghost use Rattle.sparse_polys.specs.Combination.{terms_of};
ghost use Rattle.expansion_printer.specs.Answers.{plain_answer, number_terms};

use crate::answer::Answer;
use crate::coefficients::{Ratio, put_fraction};
use crate::named::Named;
use crate::text_buffer::TextBuffer;
use calc_base::{Sink, SinkFault};
use coeff_rings::Int;
use linear_combinations::Terms;

/// Prints the block of the answer: a line for each term, or the line `0` if there is no term. The
/// block of a number is one line.
///
/// Returns `SinkFault` if and only if a write failed. No write follows a failed one, and what was
/// written is then a prefix of the block.
pub fn print<K: Sink>(answer: &Answer, sink: &mut K) -> Result<(), SinkFault>
    ensures prints { Prints (K.seen sink.old) (K.seen sink.new)
        (answer_text (plain_answer answer.now)) result }

    // The labels of an answer are in the printed order, its coefficients are in lowest terms and
    // not 0, and its numbers have at most 128 bits. So the block can be read back.
    ensures printable { IsPrintable (plain_answer answer.now) }
{
    print_after(b"", answer, sink)
}

/// Prints the text `front` and then the block of the answer. If `front` is empty, the sink is not
/// called for it.
///
/// Returns `SinkFault` if and only if a write failed. No write follows a failed one, and what was
/// written is then a prefix of the two texts, one after the other.
pub fn print_after<K: Sink>(front: &[u8], answer: &Answer, sink: &mut K) -> Result<(), SinkFault>
    ensures prints { Prints (K.seen sink.old) (K.seen sink.new)
        (front.now ++ answer_text (plain_answer answer.now)) result }

    // The labels of an answer are in the printed order, its coefficients are in lowest terms and
    // not 0, and its numbers have at most 128 bits. So the block can be read back.
    ensures printable { IsPrintable (plain_answer answer.now) }
{
    let mut text = TextBuffer::new();
    text.put(front, sink);
    put_block(answer, &mut text, sink);
    text.finish(sink)
}

/// Writes the block of the answer.
fn put_block<K: Sink>(answer: &Answer, text: &mut TextBuffer, sink: &mut K)
    ensures goes { Gathers text.old (K.seen sink.old) text.new (K.seen sink.new)
        (answer_text (plain_answer answer.now)) }
    ensures printable { IsPrintable (plain_answer answer.now) }
{
    match answer {
        Answer::Number { value } => put_value(*value, text, sink),
        Answer::Expansion { terms } => put_terms(terms, text, sink),
        Answer::Product { terms } => put_terms(terms, text, sink),
        Answer::Pairs { terms } => put_terms(terms, text, sink),
        Answer::Powers { terms } => put_terms(terms, text, sink),
        Answer::Permutations { terms } => put_terms(terms, text, sink),
        Answer::Polynomial { terms } => put_terms(terms, text, sink),
        Answer::Shifts { terms } => put_terms(terms, text, sink),
    }
}

/// Writes the line of the number `value`.
fn put_value<K: Sink>(value: Int, text: &mut TextBuffer, sink: &mut K)
    ensures goes { Gathers text.old (K.seen sink.old) text.new (K.seen sink.new)
        (answer_text (answer number (number_terms value))) }
    ensures printable { IsPrintable (answer number (number_terms value)) }
{
    let (num, den) = value.parts();
    put_fraction(num, den, text, sink);
    text.put_byte(b'\n', sink);
}

/// Writes the block of the terms: a line for each term, or the line `0` if there is no term.
fn put_terms<L: Named, R: Ratio, K: Sink>(terms: &Terms<L, R>, text: &mut TextBuffer, sink: &mut K)
    ensures goes { Gathers text.old (K.seen sink.old) text.new (K.seen sink.new)
        (block_by L.line_rules (terms_of R.value terms.now)) }
    ensures held { All (λ (t : L × R). R.is_held t.1) terms.now }
    ensures canonical { IsCanonicalList L.order L.is_label R.value terms.now }
{
    if terms.is_empty() {
        return text.put(b"0\n", sink);
    }
    for (label, c) in terms.iter() {
        put_line(label, *c, text, sink);
    }
}

/// Writes the line of a term: its coefficient and its label.
pub(crate) fn put_line<L: Named, R: Ratio, K: Sink>(
    label: &L,
    c: R,
    text: &mut TextBuffer,
    sink: &mut K,
)
    ensures goes { Gathers text.old (K.seen sink.old) text.new (K.seen sink.new)
        (line_by L.line_rules (label.now, R.value c)) }
    ensures held { R.is_held c }
{
    let (num, den) = c.parts();
    put_fraction(num, den, text, sink);
    label.put_name(text, sink);
    text.put_byte(b'\n', sink);
}
