//! Calls of the slow programs that follow the definitions, with their results.
use anyhow::Result;
use plain_programs::{
    Core, Signed, plain_alcove, plain_arrangements, plain_beta, plain_column_reading,
    plain_conjugate, plain_core, plain_exponent_lists, plain_fillings, plain_from_beta,
    plain_good_readings, plain_insertion_pair, plain_later_than, plain_monomial,
    plain_reading_word, plain_readings_with_content, plain_removal, plain_sorted_parts,
    plain_tableau_readings, plain_tableaux, plain_words,
};
use row_texts::truth;
use std::alloc::Global;

/// Prints the results of calls of the crate `plain_programs`, one line each.
pub fn print(rt: &(impl Print + Alloc<A = Global>)) -> Result<()> {
    counted(rt)?;
    listed(rt)?;
    inserted(rt)?;
    on_beta_lists(rt)?;
    reduced(rt)
}

fn counted(rt: &(impl Print + Alloc<A = Global>)) -> Result<()> {
    let alloc = rt.alloc();
    count(
        rt,
        "words of 4 letters up to 3",
        plain_words(alloc, 3, 4)?.len(),
    )?;
    count(
        rt,
        "fillings of rows 2 and 1",
        plain_fillings(alloc, 2, &[2, 1])?.len(),
    )?;
    count(
        rt,
        "tableaux of (2,1) up to 3",
        plain_tableaux(alloc, 3, &[2, 1], &[])?.len(),
    )?;
    count(
        rt,
        "of (3,2,1)/(2,1) up to 4",
        plain_tableaux(alloc, 4, &[3, 2, 1], &[2, 1])?.len(),
    )?;
    count(
        rt,
        "of (2)/(3)",
        plain_tableaux(alloc, 3, &[2], &[3])?.len(),
    )?;
    count(
        rt,
        "of the empty shape",
        plain_tableaux(alloc, 0, &[], &[])?.len(),
    )?;
    count(
        rt,
        "exponents of degree 3 in 3 places",
        plain_exponent_lists(alloc, 3, 3)?.len(),
    )?;
    count(
        rt,
        "monomials of m(2,1) in 3 variables",
        plain_monomial(alloc, &[2, 1], 3)?.len(),
    )
}

fn listed(rt: &(impl Print + Alloc<A = Global>)) -> Result<()> {
    let alloc = rt.alloc();
    lists(
        rt,
        "arrangements of (2,1) in 3 places",
        &plain_arrangements(alloc, &[2, 1], 3)?,
    )?;
    list(
        rt,
        "the conjugate of (3,1)",
        &plain_conjugate(alloc, &[3, 1])?,
    )?;
    list(
        rt,
        "0 2 1 0 2 sorted",
        &plain_sorted_parts(alloc, &[0, 2, 1, 0, 2])?,
    )?;
    let all = plain_tableau_readings(alloc, 2, &[2, 1], &[])?;
    lists(rt, "readings of (2,1) up to 2", &all)?;
    lists(rt, "after 1 1 2", plain_later_than(&[1, 1, 2], &all))?;
    let standard = plain_readings_with_content(alloc, &[1, 1, 1], &[2, 1], &[])?;
    lists(rt, "readings of (2,1) with 1 2 3", &standard)?;
    let lattice = plain_good_readings(alloc, 3, &[], &[3, 2, 1], &[2, 1])?;
    lists(rt, "lattice readings of (3,2,1)/(2,1)", &lattice)
}

fn inserted(rt: &(impl Print + Alloc<A = Global>)) -> Result<()> {
    let alloc = rt.alloc();
    let pair = plain_insertion_pair(alloc, &[4, 2, 7, 3, 6, 1, 5])?;
    lists(rt, "P of 4 2 7 3 6 1 5", &pair.insertion)?;
    lists(rt, "Q of 4 2 7 3 6 1 5", &pair.recording)?;
    list(
        rt,
        "the reading word of P",
        &plain_reading_word(alloc, &pair.insertion)?,
    )?;
    let columns = plain_column_reading(alloc, &[3, 2, 2], &[], &pair.insertion)?;
    list(rt, "the column reading of P", &columns)
}

fn on_beta_lists(rt: &(impl Print + Alloc<A = Global>)) -> Result<()> {
    let alloc = rt.alloc();
    let beta = plain_beta(alloc, 3, &[2, 1])?;
    list(rt, "the beta list of (2,1) of length 3", &beta)?;
    list(rt, "and back", &plain_from_beta(alloc, &beta)?)?;
    signed(
        rt,
        "(4,2) in the alcove of 3 and 5",
        &plain_alcove(alloc, 3, 5, &[4, 2])?,
    )?;
    signed(
        rt,
        "(4,1,1) in the alcove of 3 and 5",
        &plain_alcove(alloc, 3, 5, &[4, 1, 1])?,
    )?;
    signed(
        rt,
        "(4) in the alcove of 2 and 3",
        &plain_alcove(alloc, 2, 3, &[4])?,
    )
}

fn reduced(rt: &(impl Print + Alloc<A = Global>)) -> Result<()> {
    let alloc = rt.alloc();
    core(
        rt,
        "(4,4) without hooks of 4",
        &plain_core(alloc, 2, 4, &[4, 4])?,
    )?;
    core(
        rt,
        "(4) without hooks of 4",
        &plain_core(alloc, 2, 4, &[4])?,
    )?;
    core(
        rt,
        "(2,2) without hooks of 4",
        &plain_core(alloc, 2, 4, &[2, 2])?,
    )?;
    let removal = plain_removal(alloc, 3, &[2, 1])?;
    truth(rt, "a hook of 3 in (2,1)", removal.is_some())
}

fn count(rt: &impl Print, what: &str, answer: usize) -> Result<()> {
    Ok(println!(rt; "{what}: {answer}")?)
}

fn list(rt: &impl Print, what: &str, numbers: &[u64]) -> Result<()> {
    print!(rt; "{what}:")?;
    spaced(rt, numbers)?;
    Ok(println!(rt)?)
}

/// Prints a line with the name `what` and lists of numbers, with a bar between two lists.
fn lists(rt: &impl Print, what: &str, lists: &[Vec<u64>]) -> Result<()> {
    print!(rt; "{what}:")?;
    for (i, numbers) in lists.iter().enumerate() {
        if i > 0 {
            print!(rt; " |")?;
        }
        spaced(rt, numbers)?;
    }
    Ok(println!(rt)?)
}

fn spaced(rt: &impl Print, numbers: &[u64]) -> Result<()> {
    for number in numbers {
        print!(rt; " {number}")?;
    }
    Ok(())
}

fn signed(rt: &impl Print, what: &str, answer: &Option<Signed>) -> Result<()> {
    match answer {
        Some(signed) if signed.is_negative => {
            print!(rt; "{what}: minus")?;
            spaced(rt, &signed.numbers)?;
        }
        Some(signed) => {
            print!(rt; "{what}: plus")?;
            spaced(rt, &signed.numbers)?;
        }
        None => print!(rt; "{what}: 0")?,
    }
    Ok(println!(rt)?)
}

fn core(rt: &impl Print, what: &str, core: &Core) -> Result<()> {
    let sign = if core.is_negative { "minus" } else { "plus" };
    print!(rt; "{what}: {sign} q^{}", core.power)?;
    spaced(rt, &core.shape)?;
    Ok(println!(rt)?)
}
