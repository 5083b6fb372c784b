//! One-line forms of answers, which are expressions with atoms such as `s[2,1]`, read back as
//! answers.
ghost use Rattle.std.specs.Prelude.{◌≡◌, ◌≢◌, None, IfOk, IsErrOf, MatchBool, OnErr, length};
ghost use Rattle.sym_model.specs.Answer.{IsPrintable};
ghost use Rattle.sym_model.specs.PrintedForm.{as_line, answer_text_in, read_in};
ghost use Rattle.expression_reading.specs.Trees.{basis_of};
ghost use Rattle.expansion_printer.specs.Answers.{kind_of, kind_of_answer, plain_answer};
ghost use Rattle.block_reader.specs.Lines.{HasAtoms, IsLineOfExpression};

use crate::rewriting::as_block;
use crate::{ReadBackFault, read_back};
use calc_base::{Basis, CountSink, MemSink, NoMemory};
use expansion_printer::{Answer, Kind, print_one_line};
use std::alloc::Global;

/// The answer of the kind `kind`, an expansion or a product, whose one-line form with elements of
/// the basis `basis`, such as `s[2,1]`, is `text`.
///
/// Fails with `NotPrinted` if `text` is not such a form, and with `NoMemory` only if memory runs
/// out.
pub fn read_one_line(
    alloc: Global,
    text: &[u8],
    kind: Kind,
    basis: Basis,
) -> Result<Answer, ReadBackFault>
    requires { HasAtoms (kind_of kind) }
    ensures kind { IfOk result (λ answer. kind_of_answer answer ≡ kind_of kind) }
    ensures prints { IfOk result (λ answer.
        answer_text_in (as_line (basis_of basis)) (plain_answer answer) ≡ text.now) }
    ensures printable { IfOk result (λ answer. IsPrintable (plain_answer answer)) }

    // The text without its line feed is an expression that denotes the terms of the answer.
    ensures expression { IfOk result
        (λ answer. IsLineOfExpression (basis_of basis) (plain_answer answer)) }
    ensures not_printed { IsErrOf result ReadBackFault.NotPrinted
        → read_in (as_line (basis_of basis)) (kind_of kind) text.now ≡ None }
{
    let block = as_block(alloc, text)?;
    let answer = read_back(alloc, &block, kind)?;
    checked(alloc, answer, basis, text)
}

/// The answer, if the text is its one-line form in the basis; otherwise `NotPrinted`.
fn checked(
    alloc: Global,
    answer: Answer,
    basis: Basis,
    text: &[u8],
) -> Result<Answer, ReadBackFault>
    ensures same { IfOk result (λ same. same ≡ answer) }
    ensures prints { IfOk result (λ same.
        answer_text_in (as_line (basis_of basis)) (plain_answer same) ≡ text.now) }
    ensures printable { IfOk result (λ same. IsPrintable (plain_answer same)) }
    ensures not_printed { IsErrOf result ReadBackFault.NotPrinted
        → answer_text_in (as_line (basis_of basis)) (plain_answer answer) ≢ text.now }

    // Memory can run out only if the one-line form of the answer has the length of the text.
    ensures no_memory { IsErrOf result ReadBackFault.NoMemory
        → length (answer_text_in (as_line (basis_of basis)) (plain_answer answer))
        ≡ length text.now }
{
    if is_line(alloc, &answer, basis, text)? {
        Ok(answer)
    } else {
        Err(ReadBackFault::NotPrinted)
    }
}

/// Whether the text is the one-line form of the answer in the basis.
fn is_line(alloc: Global, answer: &Answer, basis: Basis, text: &[u8]) -> Result<bool, NoMemory>
    ensures compares { IfOk result (λ same. MatchBool same
        (answer_text_in (as_line (basis_of basis)) (plain_answer answer.now) ≡ text.now)
        (answer_text_in (as_line (basis_of basis)) (plain_answer answer.now) ≢ text.now)) }
    ensures no_memory { OnErr result
        (length (answer_text_in (as_line (basis_of basis)) (plain_answer answer.now))
        ≡ length text.now) }
    ensures printable { IsPrintable (plain_answer answer.now) }
{
    if !has_length(answer, basis, text) {
        return Ok(false);
    }
    let mut sink = MemSink::new(alloc, text.len(), &[])?;
    if print_one_line(answer, basis, &mut sink).is_err() {
        // This sink has room for the text, which is as long as the one-line form, so it fails only
        // if memory runs out.
        return Err(NoMemory);
    }
    Ok(sink.bytes() == text)
}

/// Whether the one-line form of the answer in the basis has the length of the text.
fn has_length(answer: &Answer, basis: Basis, text: &[u8]) -> bool
    ensures length { let line = answer_text_in (as_line (basis_of basis)) (plain_answer answer.now) in
        MatchBool result (length line ≡ length text.now) (length line ≢ length text.now) }
    ensures printable { IsPrintable (plain_answer answer.now) }
{
    let mut count = CountSink::new();
    let _ = print_one_line(answer, basis, &mut count);
    count.count() == text.len() as u128
}
