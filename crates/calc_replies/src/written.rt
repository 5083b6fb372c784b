//! Answers whose terms are written into memory one after another, so that only their text is kept.
ghost use Rattle.std.specs.Prelude.{◌≡◌, ◌++◌, ◌<◌, [], true, false, length};
ghost use Rattle.std.specs.Prelude.{IfOk, IfSome, IsErrOf, IsTrue, None, Ok};
ghost use Rattle.std.specs.Bool.{OnFalse};
ghost use Rattle.sym_model.specs.Canonical.{is_printable};
ghost use Rattle.sym_model.specs.Command as commands;
ghost use Rattle.sym_model.specs.Kind.{label_rules, product};
ghost use Rattle.sym_model.specs.PrintedBlock.{block_by, lines_by};
ghost use Rattle.sym_model.specs.WholeTerms.{as_fractions};
ghost use Rattle.schur_products.specs.ListedTerms.{ListsProductOf};
ghost use Rattle.calc_replies.specs.Computed.{IsReplyTo};

use crate::outcome::Outcome;
use calc_base::{GrowingSink, NoMemory, SumFault};
use expansion_printer::LineText;
use partitions::Factors;
use schur_products::{ProductLister, list_by_rows};
use std::alloc::Global;

/// The outcome of `mult`, printed as a block, if the terms of the product can be listed one after
/// another; otherwise `None`.
pub(crate) fn written_product(alloc: Global, factors: &Factors) -> Result<Option<Outcome>, NoMemory>
    ensures { IfOk result (λ o. IfSome o (λ outcome.
        IsReplyTo (commands.mult None false factors.now) (Ok outcome))) }
{
    let Some(lister) = list_by_rows(alloc, factors)? else {
        return Ok(None);
    };
    match text_of_terms(alloc, lister) {
        Ok(text) => Ok(Some(Outcome::Written { text })),
        Err(SumFault::Large) => Ok(Some(Outcome::Large)),
        Err(SumFault::NoMemory) => Err(NoMemory),
    }
}

/// The block of the terms that the lister gives. Returns `Large` only if a coefficient exceeds
/// 2^127 - 1.
fn text_of_terms(alloc: Global, lister: ProductLister) -> Result<GrowingSink, SumFault>
    ensures text { IfOk result (λ sink.
        sink.bytes ≡ block_by (label_rules product) (as_fractions lister)) }
    ensures fits { IfOk result (λ _. is_printable (as_fractions lister) ≡ true) }
    ensures large { IsErrOf result SumFault.Large → is_printable (as_fractions lister) ≡ false }
{
    let mut lister = lister;
    let mut text = LineText::new(alloc);
    while push_next(&mut lister, &mut text)? {}
    Ok(text.finish()?)
}

/// Appends the line of the next term to the text; false if there is no further term.
fn push_next(lister: &mut ProductLister, text: &mut LineText) -> Result<bool, SumFault>
    ensures lines { IfOk result (λ _.
        text.old ++ lines_by (label_rules product) (as_fractions lister.old)
        ≡ text.new ++ lines_by (label_rules product) (as_fractions lister.new)) }
    ensures fits { IfOk result (λ _. is_printable (as_fractions lister.old)
        ≡ is_printable (as_fractions lister.new)) }
    ensures less { IfOk result (λ more. IsTrue more → length lister.new < length lister.old) }
    ensures ended { IfOk result (λ more. OnFalse more (lister.new ≡ [])) }
    ensures large { IsErrOf result SumFault.Large
        → is_printable (as_fractions lister.old) ≡ false }
{
    let Some((label, c)) = lister.next()? else {
        return Ok(false);
    };
    text.push(&label, c)?;
    Ok(true)
}
