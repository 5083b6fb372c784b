//! Prints lines for the programs whose output shows the results of library calls, one line for each
//! call.
//!
//! A function that prints computed values is expensive to prove, and so is one that drops several
//! values between several `?`. So the printing is done here, and a list of results is printed by
//! one call.
#![tactic(auto)]

use anyhow::Result;
use std::fmt::Display;

/// Prints a line with the name `what`, a colon and a result.
pub fn said<T: Display>(rt: &impl Print, what: &str, answer: &T) -> Result<()> {
    Ok(println!(rt; "{what}: {answer}")?)
}

/// Prints a line for each name and result of a list.
pub fn each_said<T: Display>(rt: &impl Print, rows: &[(&str, T)]) -> Result<()> {
    for (what, answer) in rows {
        said(rt, what, answer)?;
    }
    Ok(())
}

/// Prints a line with the name `what` and yes or no.
pub fn truth(rt: &impl Print, what: &str, answer: bool) -> Result<()> {
    said(rt, what, &if answer { "yes" } else { "no" })
}

/// Prints a line with the name `what` and a text, given by its bytes, in quotes.
pub fn text(rt: &impl Print, what: &str, bytes: &[u8]) -> Result<()> {
    Ok(println!(rt; "{what}: \"{}\"", str::from_utf8(bytes)?)?)
}

/// Prints a line with the name `what` and a list of numbers in parentheses.
pub fn line<T: Display>(rt: &impl Print, what: &str, parts: &[T]) -> Result<()> {
    print!(rt; "{what}: ")?;
    label(rt, parts)?;
    end(rt)
}

/// Prints a list of numbers in parentheses, with commas between them and without a line feed.
pub fn label<T: Display>(rt: &impl Print, parts: &[T]) -> Result<()> {
    print!(rt; "(")?;
    for (at, part) in parts.iter().enumerate() {
        let comma = if at == 0 { "" } else { "," };
        print!(rt; "{comma}{part}")?;
    }
    Ok(print!(rt; ")")?)
}

/// Begins a line of terms: prints the name `what` and a colon.
pub fn start(rt: &impl Print, what: &str) -> Result<()> {
    Ok(print!(rt; "{what}:")?)
}

/// Prints a term of a line: its coefficient, and its label in parentheses.
pub fn term<C: Display, T: Display>(rt: &impl Print, c: &C, parts: &[T]) -> Result<()> {
    print!(rt; "  {c} ")?;
    label(rt, parts)
}

/// Ends a line of terms.
pub fn end(rt: &impl Print) -> Result<()> {
    Ok(println!(rt)?)
}
