//! Reading a word as an expression. An atom of an expression is a basis element such as s[2,1].
ghost use Rattle.std.specs.Prelude.{◌≡◌, ◌≤◌, IfOk, MatchOption};
ghost use Rattle.sym_model.specs.Phrase.{Phrase, SpellsPhrase};
ghost use Rattle.sym_model.specs.Expression.{degree};
ghost use Rattle.sym_model.specs.ExpressionOffence.{degree_limit, offences_within};
ghost use Rattle.expression_reading.specs.Trees.{basis_of, tree_of};
ghost use Rattle.expression_reading.specs.Offences.{offence_in};
ghost use Rattle.expression_reading.specs.ScanSteps.{IsScanned};
ghost use Rattle.expression_reading.specs.Reading.{IsRead, IsReadBy, IsWrongByte, IsFaultOf};
ghost use Rattle.expression_reading.specs.declared.reading.ExpressionFault.TheVariants.{NoMemory as no_memory};

use crate::Formula;
use crate::builder::build;
use crate::formula::degree_limit;
use crate::offence::{Kind, Offence, earlier};
use crate::scan::{Scan, scan_word};
use calc_base::{Basis, NoMemory};
use std::alloc::Global;
use thiserror::Error;

/// The reason why a word is refused as an expression: its first error, with its byte, or that
/// memory ran out.
#[derive(Clone, Copy, Debug, PartialEq, Eq, Hash, Error)]
pub enum ExpressionFault {
    /// The word is not an expression, and `byte` is the length of its longest prefix that begins an
    /// expression.
    #[error("no expression, at byte {byte}")]
    Syntax { byte: u64 },
    /// A number over 2^127 - 1 begins at this byte.
    #[error("a number too large, at byte {byte}")]
    Literal { byte: u64 },
    /// A limit is exceeded at this byte.
    #[error("past a limit, at byte {byte}")]
    Range { byte: u64 },
    /// At this byte there is a number of an atom greater than the one before it, or a denominator
    /// 0; or, in the inner expression of a plethysm, a minus or a fraction.
    #[error("a list out of shape, at byte {byte}")]
    Shape { byte: u64 },
    /// Memory ran out.
    #[error("out of memory")]
    NoMemory,
}

impl From<NoMemory> for ExpressionFault {
    ghost from_gives = { λ _ e. e ≡ no_memory };

    fn from(_: NoMemory) -> Self {
        ExpressionFault::NoMemory
    }
}

/// The greatest number of bytes of an expression.
const MAX_BYTES: u64 = 4096;

/// The fault with the byte and the kind of this error.
fn fault_of(offence: Offence) -> ExpressionFault
    ensures { IsFaultOf (offence_in offence) result }
{
    let byte = offence.byte;
    match offence.kind {
        Kind::Literal => ExpressionFault::Literal { byte },
        Kind::Range => ExpressionFault::Range { byte },
        Kind::Shape => ExpressionFault::Shape { byte },
    }
}

/// The `Formula` of a word that is an expression and has been scanned, or its first error; a degree
/// over `limit` is an error.
fn judged(alloc: Global, limit: u16, word: &[u8], scan: Scan) -> Result<Formula, ExpressionFault>
    requires scanned { IsScanned word.now (Ok scan) }
    requires low { limit ≤ 20 }
    ensures { IsReadBy (offences_within limit) word.now result }
{
    let len = word.len() as u64;
    let past = Offence {
        byte: len,
        kind: Kind::Range,
    };
    let long = (len > MAX_BYTES).then_some(Offence {
        byte: MAX_BYTES,
        kind: Kind::Range,
    });
    if let Some(first) = earlier(scan.first, long) {
        return Err(fault_of(first));
    }
    if scan.is_high {
        return Err(fault_of(past));
    }
    let tree = build(alloc, word)?;
    let Ok(formula) = Formula::from_tree(tree) else {
        return Err(fault_of(past));
    };
    if formula.degree() > limit {
        return Err(fault_of(past));
    }
    Ok(formula)
}

/// The byte of the first error of syntax in a word that is not an expression: the length of the
/// longest prefix of the word that begins an expression. None if the word is an expression, with or
/// without other errors. No memory is allocated.
pub fn wrong_byte(word: &[u8]) -> Option<u64>
    ensures { MatchOption result ((phrase : Phrase) × SpellsPhrase word.now phrase)
        (IsWrongByte word.now) }
{
    match scan_word(word) {
        Ok(_) => None,
        Err(byte) => Some(byte),
    }
}

/// Reads a word as an expression whose degree must be at most `limit`.
pub(crate) fn read_within(
    alloc: Global,
    limit: u16,
    word: &[u8],
) -> Result<Formula, ExpressionFault>
    requires { limit ≤ 20 }
    ensures read { IsReadBy (offences_within limit) word.now result }
    ensures low { IfOk result (λ f. degree (tree_of f.tree) ≤ limit) }
{
    match scan_word(word) {
        Err(byte) => Err(ExpressionFault::Syntax { byte }),
        Ok(scan) => judged(alloc, limit, word, scan),
    }
}

/// Reads a word as an expression that is to be expanded into the target basis. Its atoms are basis
/// elements, such as s[2,1], of m, e, h, p and s.
///
/// A word that is not an expression is refused as `Syntax`, at the length of its longest prefix
/// that begins an expression. Otherwise it is refused with its first error: `Literal` for a number
/// over 2^127 - 1; `Range` for a parenthesis that opens depth 65, for the 65th number of an atom,
/// for byte 4,096 of a longer word, and, at the end of the word, for a degree over the limit of the
/// target basis; `Shape` for a number of an atom that is greater than the one before it, and for a
/// denominator 0.
pub fn read_expression(
    alloc: Global,
    target: Basis,
    word: &[u8],
) -> Result<Formula, ExpressionFault>
    ensures read { IsRead (basis_of target) word.now result }
    ensures low { IfOk result (λ f. degree (tree_of f.tree) ≤ degree_limit (basis_of target)) }
{
    read_within(alloc, degree_limit(target), word)
}
