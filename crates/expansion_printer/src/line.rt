//! The one-line form of an answer.
ghost use Rattle.std.specs.Prelude.{◌++◌, List, ℕ};
ghost use Rattle.std.specs.List.{All};
ghost use Rattle.calc_base.specs.Puts.{Prints};
ghost use Rattle.expansion_printer.specs.Gathering.{Gathers};
ghost use Rattle.expression_reading.specs.Trees.{basis_of};
ghost use Rattle.expansion_printer.specs.Answers.{plain_answer};
ghost use Rattle.expansion_printer.specs.SignedTerms.{signed_text};
ghost use Rattle.linear_combinations.specs.Entries.{IsCanonicalList};
ghost use Rattle.sparse_polys.specs.Combination.{terms_of};
ghost use Rattle.sym_model.specs.Answer.{IsPrintable};
ghost use Rattle.sym_model.specs.LabelLimits.{is_label};
ghost use Rattle.sym_model.specs.OneLine.{one_line};
ghost use Rattle.sym_model.specs.PrintedForm.{as_line, answer_text_in};
ghost use Rattle.sym_model.specs.PrintedOrder.{printed_order};

use crate::atoms::put_atom;
use crate::coefficients::{Ratio, put_coefficient, put_sign};
use crate::text_buffer::TextBuffer;
use crate::{Answer, print_after};
use calc_base::{Basis, Sink, SinkFault};
use linear_combinations::Terms;
use partitions::Partition;

/// Prints an expansion or a product on one line, such as `-1/3*p[3]+1/3*p[1,1,1]`: the terms in
/// their order, or `0` if there is no term. Each partition is written with the letter of the basis.
/// An answer of another kind, whose labels are not partitions, is printed as a block.
///
/// Returns `SinkFault` if and only if a write failed. No write follows a failed one, and what was
/// written is then a prefix of the line.
pub fn print_one_line<K: Sink>(answer: &Answer, basis: Basis, sink: &mut K) -> Result<(), SinkFault>
    ensures prints { Prints (K.seen sink.old) (K.seen sink.new)
        (answer_text_in (as_line (basis_of basis)) (plain_answer answer.now)) result }

    // The labels of an answer are in the printed order, its coefficients are in lowest terms and
    // not 0, and its numbers have at most 128 bits. So the line can be read back.
    ensures printable { IsPrintable (plain_answer answer.now) }
{
    print_one_line_after(b"", answer, basis, sink)
}

/// Prints the text `front` and then the answer on one line, with the letter of the basis before
/// each partition; if its labels are not partitions, it is printed as a block. If `front` is empty,
/// the sink is not called for it.
///
/// Returns `SinkFault` if and only if a write failed. No write follows a failed one, and what was
/// written is then a prefix of the two texts, one after the other.
pub fn print_one_line_after<K: Sink>(
    front: &[u8],
    answer: &Answer,
    basis: Basis,
    sink: &mut K,
) -> Result<(), SinkFault>
    ensures prints { Prints (K.seen sink.old) (K.seen sink.new)
        (front.now ++ answer_text_in (as_line (basis_of basis)) (plain_answer answer.now)) result }

    // The labels of an answer are in the printed order, its coefficients are in lowest terms and
    // not 0, and its numbers have at most 128 bits. So the line can be read back.
    ensures printable { IsPrintable (plain_answer answer.now) }
{
    match answer {
        Answer::Expansion { terms } => print_terms(front, basis, terms, sink),
        Answer::Product { terms } => print_terms(front, basis, terms, sink),
        _ => print_after(front, answer, sink),
    }
}

/// Prints the text `front` and then the terms on one line. Each partition is written as a basis
/// element, such as `s[2,1]`.
fn print_terms<R: Ratio, K: Sink>(
    front: &[u8],
    basis: Basis,
    terms: &Terms<Partition, R>,
    sink: &mut K,
) -> Result<(), SinkFault>
    ensures prints { Prints (K.seen sink.old) (K.seen sink.new)
        (front.now ++ one_line (basis_of basis) (terms_of R.value terms.now)) result }
    ensures held { All (λ (t : List ℕ × R). R.is_held t.1) terms.now }
    ensures canonical { IsCanonicalList printed_order is_label R.value terms.now }
{
    let mut text = TextBuffer::new();
    text.put(front, sink);
    put_line(basis, terms, &mut text, sink);
    text.finish(sink)
}

/// Writes the terms on one line. Each partition is written as a basis element, such as `s[2,1]`.
fn put_line<R: Ratio, K: Sink>(
    basis: Basis,
    terms: &Terms<Partition, R>,
    text: &mut TextBuffer,
    sink: &mut K,
)
    ensures goes { Gathers text.old (K.seen sink.old) text.new (K.seen sink.new)
        (one_line (basis_of basis) (terms_of R.value terms.now)) }
    ensures held { All (λ (t : List ℕ × R). R.is_held t.1) terms.now }
    ensures canonical { IsCanonicalList printed_order is_label R.value terms.now }
{
    if terms.is_empty() {
        return text.put(b"0\n", sink);
    }
    let mut is_first = true;
    for (label, c) in terms.iter() {
        put_term(basis, is_first, label, *c, text, sink);
        is_first = false;
    }
    text.put_byte(b'\n', sink);
}

/// Writes a term with its sign; the first term has a sign only if it is negative.
fn put_term<R: Ratio, K: Sink>(
    basis: Basis,
    is_first: bool,
    label: &Partition,
    c: R,
    text: &mut TextBuffer,
    sink: &mut K,
)
    ensures goes { Gathers text.old (K.seen sink.old) text.new (K.seen sink.new)
        (signed_text (basis_of basis) is_first (label.now, R.value c)) }
    ensures held { R.is_held c }
{
    let (num, den) = c.parts();
    put_sign(is_first, num, text, sink);
    put_coefficient(num, den, text, sink);
    put_atom(basis, label.parts(), text, sink);
}
