//! A slow program that follows the definition, for the printed block of a list of terms.

ghost use Rattle.std.specs.Prelude.{◌≡◌, ◌++◌, codes, decimal, map, IfOk, OnOk, string_bytes};
ghost use Rattle.std.specs.Fmt.{signed_decimal};
ghost use Rattle.sym_model.specs.PrintedBlock.{fraction_text, numbers_text, label_text, line_text};
ghost use Rattle.sym_model.specs.PrintedBlock.{lines_text, block};
ghost use Rattle.plain_programs.specs.PlainTerm.{term_of};

use std::alloc::{AllocError, Global};

/// A term of a list: its label and its coefficient, a fraction.
#[derive(Drop)]
pub struct PlainTerm {
    /// The label, a partition.
    pub label: Vec<u64>,
    /// The numerator of the coefficient.
    pub numerator: i128,
    /// The denominator of the coefficient.
    pub denominator: u128,
}

/// The printed block of a list of terms: a line for each term, or the line `0` if there is no term.
/// Fails only if memory runs out.
pub fn plain_block(alloc: Global, terms: &[PlainTerm]) -> Result<String, AllocError>
    ensures { IfOk result (λ text. string_bytes text ≡ block (map term_of terms.now)) }
{
    let mut text = String::new(alloc);
    if terms.is_empty() {
        text.push_str("0\n")?;
    }
    for term in terms {
        push_line(&mut text, term)?;
    }
    Ok(text)
}

fn push_line(text: &mut String, term: &PlainTerm) -> Result<(), AllocError>
    ensures { OnOk result (string_bytes text.new
        ≡ string_bytes text.old ++ line_text (term_of term.now)) }
{
    push_fraction(text, term.numerator, term.denominator)?;
    text.push_str("  (")?;
    push_numbers(text, &term.label)?;
    text.push_str(")\n")
}

fn push_fraction(text: &mut String, numerator: i128, denominator: u128) -> Result<(), AllocError>
    ensures { OnOk result (string_bytes text.new
        ≡ string_bytes text.old ++ fraction_text (numerator, denominator)) }
{
    write!(text, "{numerator}")?;
    if denominator != 1 {
        write!(text, "/{denominator}")?;
    }
    Ok(())
}

fn push_numbers(text: &mut String, numbers: &[u64]) -> Result<(), AllocError>
    ensures { OnOk result (string_bytes text.new
        ≡ string_bytes text.old ++ numbers_text numbers.now) }
{
    let [first, rest @ ..] = numbers else {
        return Ok(());
    };
    write!(text, "{first}")?;
    for number in rest {
        write!(text, ",{number}")?;
    }
    Ok(())
}
