//! Calls that read printed texts back, with their results.
use crate::printing::read_as;
use anyhow::Result;
use block_reader::{read_back, read_one_line};
use expansion_printer::Kind;
use expression_reading::Basis;
use std::alloc::Global;

/// Prints the results of reading answers back from their printed texts: from blocks, which have a
/// line for each term, and from one-line forms.
pub fn print(rt: &(impl Print + Alloc<A = Global>)) -> Result<()> {
    blocks(rt)?;
    line(rt, "the line of s_(2,1) in p", "-1/3*p[3]+1/3*p[1,1,1]\n")?;
    line(rt, "1*s[1] as a line in p", "1*s[1]\n")
}

fn blocks(rt: &(impl Print + Alloc<A = Global>)) -> Result<()> {
    let (product, expansion) = (Kind::Product, Kind::Expansion);
    block(
        rt,
        "the block of 1 at (2) as a product",
        "1  (2)\n",
        product,
    )?;
    block(rt, "2/4 at (2) as an expansion", "2/4  (2)\n", expansion)?;
    block(rt, "1/2 at (2) as an expansion", "1/2  (2)\n", expansion)?;
    block(rt, "a block without its last line feed", "1  (2)", product)?;
    other_blocks(rt)
}

/// Prints the results of reading blocks of the kinds other than expansions.
fn other_blocks(rt: &(impl Print + Alloc<A = Global>)) -> Result<()> {
    block(rt, "the block of 2 as a number", "2\n", Kind::Number)?;
    block(rt, "a pair", "1  (2,1) ()\n", Kind::Pairs)?;
    block(rt, "a power", "1  q^1  ()\n", Kind::Powers)?;
    block(rt, "a permutation", "1  (2,1)\n", Kind::Permutations)?;
    block(rt, "a monomial", "1  (1,0,1)\n", Kind::Polynomial)?;
    block(rt, "a shift", "-1  (2,1) (0,1)\n", Kind::Shifts)
}

/// Prints the result of reading a block.
fn block(rt: &(impl Print + Alloc<A = Global>), what: &str, text: &str, kind: Kind) -> Result<()> {
    read_as(rt, what, read_back(rt.alloc(), text.as_bytes(), kind))
}

/// Prints the result of reading a one-line form of an expansion in p.
fn line(rt: &(impl Print + Alloc<A = Global>), what: &str, text: &str) -> Result<()> {
    let read = read_one_line(rt.alloc(), text.as_bytes(), Kind::Expansion, Basis::P);
    read_as(rt, what, read)
}
