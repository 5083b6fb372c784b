//! Printed blocks, which have one line for each term of an answer, read back as answers.
ghost use Rattle.std.specs.Prelude.{◌≡◌, ◌≢◌, None, IfOk, IsErrOf, MatchBool, OnErr, length};
ghost use Rattle.sym_model.specs.Answer.{answer_text, IsPrintable};
ghost use Rattle.sym_model.specs.Kind.{label_rules, number, expansion, product, pairs, powers};
ghost use Rattle.sym_model.specs.Kind.{permutations, polynomial, shifts};
ghost use Rattle.sym_model.specs.PrintedBlock.{read_by};
ghost use Rattle.expansion_printer.specs.Answers.{kind_of, kind_of_answer, plain_answer};
ghost use Rattle.block_reader.specs.Readings.{IsReading};

use crate::ReadBackFault;
use crate::cutting::cut;
use crate::lines::read_terms;
use crate::numbers::signed_of;
use calc_base::{CountSink, GrowingSink, NoMemory};
use coeff_rings::Int;
use expansion_printer::{Answer, Kind, print};
use std::alloc::Global;

/// The answer of the kind `kind` whose printed block is `text`.
///
/// Fails with `NotPrinted` if `text` is not the block of an answer of this kind, and with
/// `NoMemory` only if memory runs out.
pub fn read_back(alloc: Global, text: &[u8], kind: Kind) -> Result<Answer, ReadBackFault>
    ensures kind { IfOk result (λ answer. kind_of_answer answer ≡ kind_of kind) }
    ensures prints { IfOk result (λ answer. answer_text (plain_answer answer) ≡ text.now) }
    ensures printable { IfOk result (λ answer. IsPrintable (plain_answer answer)) }
    ensures not_printed { IsErrOf result ReadBackFault.NotPrinted
        → read_by (label_rules (kind_of kind)) text.now ≡ None }
{
    let answer = candidate(alloc, text, kind)?;
    checked(alloc, answer, text)
}

/// The answer, if the text is its block; otherwise `NotPrinted`, or `NoMemory` if memory runs out.
fn checked(alloc: Global, answer: Answer, text: &[u8]) -> Result<Answer, ReadBackFault>
    ensures same { IfOk result (λ same. same ≡ answer) }
    ensures prints { IfOk result (λ same. answer_text (plain_answer same) ≡ text.now) }
    ensures printable { IfOk result (λ same. IsPrintable (plain_answer same)) }
    ensures not_printed { IsErrOf result ReadBackFault.NotPrinted
        → answer_text (plain_answer answer) ≢ text.now }

    // Memory can run out only if the block has the length of the text.
    ensures no_memory { IsErrOf result ReadBackFault.NoMemory
        → length (answer_text (plain_answer answer)) ≡ length text.now }
{
    if is_block(alloc, &answer, text)? {
        Ok(answer)
    } else {
        Err(ReadBackFault::NotPrinted)
    }
}

/// Whether the text is the block of the answer.
fn is_block(alloc: Global, answer: &Answer, text: &[u8]) -> Result<bool, NoMemory>
    ensures compares { IfOk result
        (λ same. MatchBool same (answer_text (plain_answer answer.now) ≡ text.now)
        (answer_text (plain_answer answer.now) ≢ text.now)) }
    ensures no_memory { OnErr result
        (length (answer_text (plain_answer answer.now)) ≡ length text.now) }
    ensures printable { IsPrintable (plain_answer answer.now) }
{
    if !has_length(answer, text) {
        return Ok(false);
    }
    let mut sink = GrowingSink::new(alloc);
    if print(answer, &mut sink).is_err() {
        // This sink fails only if memory runs out.
        return Err(NoMemory);
    }
    Ok(sink.bytes() == text)
}

/// Whether the block of the answer has the length of the text.
fn has_length(answer: &Answer, text: &[u8]) -> bool
    ensures length { MatchBool result
        (length (answer_text (plain_answer answer.now)) ≡ length text.now)
        (length (answer_text (plain_answer answer.now)) ≢ length text.now) }
    ensures printable { IsPrintable (plain_answer answer.now) }
{
    let mut count = CountSink::new();
    let _ = print(answer, &mut count);
    count.count() == text.len() as u128
}

/// The only answer of the kind `kind` that can have the block `text`. Fails with `NotPrinted` only
/// if no answer of this kind has this block.
fn candidate(alloc: Global, text: &[u8], kind: Kind) -> Result<Answer, ReadBackFault>
    ensures { IsReading (kind_of kind) text.now result }
{
    match kind {
        Kind::Number => read_number(text),
        Kind::Expansion => read_expansion(alloc, text),
        Kind::Product => read_product(alloc, text),
        Kind::Pairs => read_pairs(alloc, text),
        Kind::Powers => read_powers(alloc, text),
        Kind::Permutations => read_permutations(alloc, text),
        Kind::Polynomial => read_polynomial(alloc, text),
        Kind::Shifts => read_shifts(alloc, text),
    }
}

/// The only number that can have the text as its block, or `NotPrinted`.
fn read_number(text: &[u8]) -> Result<Answer, ReadBackFault>
    ensures { IsReading number text.now result }
{
    let (line, _) = cut(text, b'\n');
    match signed_of(line) {
        Some(value) => Ok(Answer::Number {
            value: Int::new(value),
        }),
        None => Err(ReadBackFault::NotPrinted),
    }
}

/// The only list of partitions with fractions that can have the text as its block, or `NotPrinted`.
fn read_expansion(alloc: Global, text: &[u8]) -> Result<Answer, ReadBackFault>
    ensures { IsReading expansion text.now result }
{
    let terms = read_terms(alloc, text)?;
    Ok(Answer::Expansion { terms })
}

/// The only list of partitions with integer coefficients that can have the text as its block, or
/// `NotPrinted`.
fn read_product(alloc: Global, text: &[u8]) -> Result<Answer, ReadBackFault>
    ensures { IsReading product text.now result }
{
    let terms = read_terms(alloc, text)?;
    Ok(Answer::Product { terms })
}

/// The only list of pairs of partitions that can have the text as its block, or `NotPrinted`.
fn read_pairs(alloc: Global, text: &[u8]) -> Result<Answer, ReadBackFault>
    ensures { IsReading pairs text.now result }
{
    let terms = read_terms(alloc, text)?;
    Ok(Answer::Pairs { terms })
}

/// The only list of partitions with powers of q that can have the text as its block, or
/// `NotPrinted`.
fn read_powers(alloc: Global, text: &[u8]) -> Result<Answer, ReadBackFault>
    ensures { IsReading powers text.now result }
{
    let terms = read_terms(alloc, text)?;
    Ok(Answer::Powers { terms })
}

/// The only list of permutations that can have the text as its block, or `NotPrinted`.
fn read_permutations(alloc: Global, text: &[u8]) -> Result<Answer, ReadBackFault>
    ensures { IsReading permutations text.now result }
{
    let terms = read_terms(alloc, text)?;
    Ok(Answer::Permutations { terms })
}

/// The only list of monomials that can have the text as its block, or `NotPrinted`.
fn read_polynomial(alloc: Global, text: &[u8]) -> Result<Answer, ReadBackFault>
    ensures { IsReading polynomial text.now result }
{
    let terms = read_terms(alloc, text)?;
    Ok(Answer::Polynomial { terms })
}

/// The only list of permutations with monomials in the variables y that can have the text as its
/// block, or `NotPrinted`.
fn read_shifts(alloc: Global, text: &[u8]) -> Result<Answer, ReadBackFault>
    ensures { IsReading shifts text.now result }
{
    let terms = read_terms(alloc, text)?;
    Ok(Answer::Shifts { terms })
}
