//! The terms of the lines of a printed block, which has one line for each term, read back.
ghost use Rattle.std.specs.Prelude.{◌≡◌, ◌++◌, ◌&&◌, false, IfOk, IsErrOf, OnOk, MatchOption};
ghost use Rattle.sparse_polys.specs.Combination.{terms_of};
ghost use Rattle.sym_model.specs.Canonical.{is_ordered};
ghost use Rattle.sym_model.specs.NumberText.{cut_at};
ghost use Rattle.sym_model.specs.PrintedBlock.{term_of_line, terms_of as block_terms};
ghost use Rattle.block_reader.specs.Fitting.{all_fit, fits, terms_found};
ghost use Rattle.block_reader.specs.Parts.{denominator_after};

use crate::ReadBackFault;
use crate::coefficients::Coefficient;
use crate::cutting::{after_first, cut};
use crate::labels::Spelled;
use crate::numbers::{denominator_of, signed_of};
use calc_base::NoMemory;
use coeff_rings::{Int, Scalar};
use linear_combinations::{Label, Terms};
use std::alloc::Global;

/// The terms that the lines of a text spell, or `NotPrinted` if a block cannot have these terms.
pub(crate) fn read_terms<L: Spelled, R: Coefficient>(
    alloc: Global,
    text: &[u8],
) -> Result<Terms<L, R>, ReadBackFault>
    ensures ok { IfOk result (λ terms. terms_of R.value terms
        ≡ block_terms L.line_rules text.now) }
    ensures refused { IsErrOf result ReadBackFault.NotPrinted
        → (is_ordered L.order (block_terms L.line_rules text.now)
        && all_fit R.has_fractions L.is_label (block_terms L.line_rules text.now)) ≡ false }
{
    let pairs = read_pairs(alloc, text)?;
    match Terms::from_pairs(pairs) {
        Some(terms) => Ok(terms),
        None => Err(ReadBackFault::NotPrinted),
    }
}

/// The labels and coefficients of the terms that the lines of a text spell; terms with the
/// coefficient 0 are left out. `NotPrinted` if a block cannot have one of the terms.
fn read_pairs<L: Spelled, R: Coefficient>(
    alloc: Global,
    text: &[u8],
) -> Result<Vec<(L, R)>, ReadBackFault>
    ensures ok { IfOk result (λ pairs. terms_of R.value pairs.items
        ≡ block_terms L.line_rules text.now) }
    ensures refused { IsErrOf result ReadBackFault.NotPrinted
        → all_fit R.has_fractions L.is_label (block_terms L.line_rules text.now) ≡ false }
{
    let mut pairs = Vec::new(alloc);
    let mut rest = text;
    loop {
        let (line, tail) = cut(rest, b'\n');
        let found = read_line(alloc, line)?;
        push_found(&mut pairs, found)?;
        if tail.is_empty() {
            return Ok(pairs);
        }
        rest = after_first(tail);
    }
}

/// Appends the term that was found in a line, if there is one.
fn push_found<L: Label, R: Scalar>(
    pairs: &mut Vec<(L, R)>,
    found: Option<(L, R)>,
) -> Result<(), NoMemory>
    ensures { OnOk result (terms_of R.value pairs.new.items
        ≡ terms_of R.value pairs.old.items ++ terms_found R.value found) }
{
    let Some(pair) = found else {
        return Ok(());
    };
    pairs.push(pair)?;
    Ok(())
}

/// The term of a line, or `None` if its coefficient is 0; `NotPrinted` if a block cannot have this
/// term.
fn read_line<L: Spelled, R: Coefficient>(
    alloc: Global,
    line: &[u8],
) -> Result<Option<(L, R)>, ReadBackFault>
    ensures ok { IfOk result (λ found. terms_found R.value found
        ≡ term_of_line L.line_rules (cut_at 32 line.now)) }
    ensures refused { IsErrOf result ReadBackFault.NotPrinted
        → all_fit R.has_fractions L.is_label (term_of_line L.line_rules (cut_at 32 line.now))
        ≡ false }
{
    let (coefficient, name) = cut(line, b' ');
    let (num, den) = cut(coefficient, b'/');
    let Some(num) = signed_of(num) else {
        return Err(ReadBackFault::NotPrinted);
    };
    if Int::new(num).is_zero() {
        return Ok(None);
    }
    let Some(c) = coefficient_with(num, den) else {
        return Err(ReadBackFault::NotPrinted);
    };
    match L::spelled(alloc, name)? {
        Some(label) => Ok(Some((label, c))),
        None => Err(ReadBackFault::NotPrinted),
    }
}

/// The coefficient with the numerator `num` and the denominator in `text`, which follows the
/// numerator; `None` if a block cannot have such a coefficient.
fn coefficient_with<R: Coefficient>(num: i128, text: &[u8]) -> Option<R>
    ensures { MatchOption result (fits R.has_fractions (num, denominator_after text.now) ≡ false)
        (λ c. R.value c ≡ (num, denominator_after text.now)) }
{
    let Some(den) = denominator_of(text) else {
        return None;
    };
    R::of_parts(num, den)
}
