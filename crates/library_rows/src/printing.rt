//! The printing of terms: the coefficient, and the label in brackets.
use anyhow::Result;
use block_reader::ReadBackFault;
use coeff_rings::{Digits, Frac, Int, Scalar};
use expansion_printer::Answer;
use linear_combinations::{Lin, Terms};
use partitions::Partition;
use perm_codes::Perm;
use row_texts::{end, said, start, term};
use sparse_polys::{Monomial, Pair, Poly, Power, Shifted};

/// Prints the result of reading a text back: the answer, or that the text is refused.
pub fn read_as(rt: &impl Print, what: &str, read: Result<Answer, ReadBackFault>) -> Result<()> {
    match read {
        Ok(answer) => answered(rt, what, &answer),
        Err(ReadBackFault::NotPrinted) => said(rt, what, &"refused"),
        Err(ReadBackFault::NoMemory) => said(rt, what, &"no memory"),
    }
}

fn answered(rt: &impl Print, what: &str, answer: &Answer) -> Result<()> {
    match answer {
        Answer::Number { value } => said(rt, what, &value.get()),
        Answer::Expansion { terms } => fractions(rt, what, terms),
        Answer::Product { terms } => shapes(rt, what, terms),
        Answer::Pairs { terms } => pairs(rt, what, terms),
        Answer::Powers { terms } => powers(rt, what, terms),
        Answer::Permutations { terms } => permutations(rt, what, terms),
        Answer::Polynomial { terms } => monomials(rt, what, terms),
        Answer::Shifts { terms } => shifts(rt, what, terms),
    }
}

fn fractions(rt: &impl Print, what: &str, list: &Terms<Partition, Frac>) -> Result<()> {
    start(rt, what)?;
    for (shape, c) in list.iter() {
        fraction(rt, *c, shape.parts())?;
    }
    end(rt)
}

fn fraction(rt: &impl Print, c: Frac, parts: &[u16]) -> Result<()> {
    let mut digits = Digits::new();
    c.digits(&mut digits);
    term(rt, &str::from_utf8(digits.as_bytes())?, parts)
}

fn pairs(rt: &impl Print, what: &str, list: &Terms<Pair, Int>) -> Result<()> {
    start(rt, what)?;
    for (pair, c) in list.iter() {
        term(rt, &c.get(), pair.first.parts())?;
        term(rt, &"and", pair.second.parts())?;
    }
    end(rt)
}

fn powers(rt: &impl Print, what: &str, list: &Terms<Power, Int>) -> Result<()> {
    start(rt, what)?;
    for (power, c) in list.iter() {
        term(rt, &c.get(), power.shape.parts())?;
        term(rt, &"q to the power", &[power.power])?;
    }
    end(rt)
}

/// Prints a sum of terms y^e·S_w, each by its coefficient, the letters of w and the exponents e.
fn shifts(rt: &impl Print, what: &str, list: &Terms<Shifted, Int>) -> Result<()> {
    start(rt, what)?;
    for (shifted, c) in list.iter() {
        term(rt, &c.get(), shifted.perm.letters())?;
        term(rt, &"in y", shifted.y.exponents())?;
    }
    end(rt)
}

/// Prints an expansion whose coefficients are integers.
pub fn sum(rt: &impl Print, what: &str, list: Lin<Partition, Int>) -> Result<()> {
    let sorted = list.sorted_terms()?;
    shapes(rt, what, &sorted)
}

/// Prints terms whose coefficients are integers.
fn shapes(rt: &impl Print, what: &str, list: &Terms<Partition, Int>) -> Result<()> {
    start(rt, what)?;
    for (shape, c) in list.iter() {
        term(rt, &c.get(), shape.parts())?;
    }
    end(rt)
}

/// Prints a polynomial, each monomial by its exponents.
pub fn polynomial(rt: &impl Print, what: &str, list: Poly<Int>) -> Result<()> {
    let sorted = list.sorted_terms()?;
    monomials(rt, what, &sorted)
}

fn monomials(rt: &impl Print, what: &str, list: &Terms<Monomial, Int>) -> Result<()> {
    start(rt, what)?;
    for (monomial, c) in list.iter() {
        term(rt, &c.get(), monomial.exponents())?;
    }
    end(rt)
}

fn permutations(rt: &impl Print, what: &str, list: &Terms<Perm, Int>) -> Result<()> {
    start(rt, what)?;
    for (w, c) in list.iter() {
        term(rt, &c.get(), w.letters())?;
    }
    end(rt)
}
