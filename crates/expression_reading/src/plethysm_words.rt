//! Reading words as the two expressions of a plethysm.
ghost use Rattle.std.specs.Prelude.{◌≡◌, ◌≤◌, IfOk, List, option_map};
ghost use Rattle.sym_model.specs.Expression.{degree};
ghost use Rattle.sym_model.specs.ExpressionOffence.{first_of, offences_within, inner_offences};
ghost use Rattle.sym_model.specs.ExpressionOffence.{plethysm_degree_limit, sign_offences, shape};
ghost use Rattle.sym_model.specs.Phrase.{Phrase, SpellsPhrase};
ghost use Rattle.expression_reading.specs.Reading.{IsReadBy};
ghost use Rattle.expression_reading.specs.Signs.{refused_by_sign};
ghost use Rattle.expression_reading.specs.Trees.{tree_of};

use crate::Formula;
use crate::reading::{ExpressionFault, read_within};
use std::alloc::Global;

/// The greatest degree of each expression of a plethysm, and the greatest product of the two
/// degrees.
pub const PLETHYSM_DEGREE: u16 = 10;

/// The byte of the first minus or the first byte of the first fraction, whichever is lower, in a
/// word that is an expression; None if it has neither.
fn first_sign(word: &[u8]) -> Option<u64>
    ensures { (phrase : Phrase) → SpellsPhrase word.now phrase
        → option_map (λ byte. (byte, shape)) result ≡ first_of (sign_offences 0 phrase) }
{
    let mut digits_from: u64 = 0;
    for (i, byte) in word.iter().enumerate() {
        let at = i as u64;
        match byte {
            b'0'..=b'9' => {}
            b'-' => return Some(at),
            b'/' => return Some(digits_from),
            _ => digits_from = at + 1,
        }
    }
    None
}

/// The first refusal of a word whose first minus or fraction is at the byte `sign`, given the
/// refusal `fault` for its other errors: `Shape` at `sign` if the byte of `fault` is later, and
/// otherwise `fault`; `Syntax` and `NoMemory` are not changed.
fn first_refusal(fault: ExpressionFault, sign: u64) -> ExpressionFault
    ensures { result ≡ refused_by_sign sign fault }
{
    match fault {
        ExpressionFault::Literal { byte }
        | ExpressionFault::Range { byte }
        | ExpressionFault::Shape { byte }
            if sign < byte => ExpressionFault::Shape { byte: sign },
        fault => fault,
    }
}

/// Reads a word as the outer expression of a plethysm, whose degree must be at most 10.
///
/// If the word is not such an expression, it is refused with its first error, as in
/// `read_expression`.
pub fn read_outer(alloc: Global, word: &[u8]) -> Result<Formula, ExpressionFault>
    ensures read { IsReadBy (offences_within plethysm_degree_limit) word.now result }
    ensures low { IfOk result (λ f. degree (tree_of f.tree) ≤ plethysm_degree_limit) }
{
    read_within(alloc, PLETHYSM_DEGREE, word)
}

/// Reads a word as the inner expression of a plethysm, whose degree must be at most 10, and which
/// must have no minus and no fraction.
///
/// If the word is not such an expression, it is refused with its first error, as in
/// `read_expression`; a minus and the first byte of a fraction are errors, too, of the kind
/// `Shape`.
pub fn read_inner(alloc: Global, word: &[u8]) -> Result<Formula, ExpressionFault>
    ensures read { IsReadBy inner_offences word.now result }
    ensures low { IfOk result (λ f. degree (tree_of f.tree) ≤ plethysm_degree_limit) }
{
    match read_outer(alloc, word) {
        Ok(formula) => match first_sign(word) {
            None => Ok(formula),
            Some(byte) => Err(ExpressionFault::Shape { byte }),
        },
        Err(fault) => match first_sign(word) {
            None => Err(fault),
            Some(byte) => Err(first_refusal(fault, byte)),
        },
    }
}
