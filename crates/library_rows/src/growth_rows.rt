//! Calls that compute a growth grid, the tableaux of its last line and last column, and a reading
//! word, with their results.
use anyhow::Result;
use growth_diagrams::{Grid, grow};
use perm_codes::Perm;
use row_insertion::reading_word;
use row_texts::{end, label, line, start};
use skew_shapes::Tableau;
use std::alloc::Global;

/// Prints the permutation with the code 1 1 0, its growth grid, its insertion tableau P and
/// recording tableau Q, and the reading word of P.
pub fn print(rt: &(impl Print + Alloc<A = Global>)) -> Result<()> {
    let w = Perm::from_code(rt.alloc(), &[1, 1, 0])?;
    line(rt, "code 1 1 0", w.letters())?;
    let grid = grow(rt.alloc(), &w)?;
    lines(rt, &grid)?;
    pair(rt, &grid)
}

/// Prints the insertion tableau P and the recording tableau Q that a growth grid gives, and the
/// reading word of P.
fn pair(rt: &(impl Print + Alloc<A = Global>), grid: &Grid) -> Result<()> {
    let (p, q) = grid.pair_of()?;
    rows(rt, "growth P", p.tableau())?;
    rows(rt, "growth Q", q.tableau())?;
    by_rows(rt, p.tableau())
}

/// Prints the rows of a tableau, a line each.
fn rows(rt: &impl Print, what: &str, tableau: &Tableau) -> Result<()> {
    for row in 1..tableau.shape().outer().rows() + 1 {
        line(rt, what, tableau.row(row))?;
    }
    Ok(())
}

fn by_rows(rt: &(impl Print + Alloc<A = Global>), tableau: &Tableau) -> Result<()> {
    let word = reading_word(rt.alloc(), tableau)?;
    line(rt, "the reading word of P", word.as_slice())
}

fn lines(rt: &impl Print, grid: &Grid) -> Result<()> {
    for i in 0..grid.side() + 1 {
        shapes(rt, grid, i)?;
    }
    Ok(())
}

/// Prints the shapes in line i of a growth grid; nothing if the grid has no line i.
fn shapes(rt: &impl Print, grid: &Grid, i: u16) -> Result<()> {
    if i > grid.side() {
        return Ok(());
    }
    start(rt, "growth shapes")?;
    for j in 0..grid.side() + 1 {
        label(rt, grid.shape_at(i, j).parts())?;
    }
    end(rt)
}
