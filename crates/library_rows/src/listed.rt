//! Calls of the listers of horizontal strips, of vertical strips, of arrangements, of semistandard
//! tableaux and of lattice tableaux, with their results. A tableau is given by its column reading.
use crate::shapes::skew;
use anyhow::Result;
use calc_base::Lister;
use partitions::{Arrangements, Partition};
use row_texts::{line, said};
use skew_shapes::{HorizontalStrips, Skew, VerticalStrips};
use std::alloc::Global;
use tableau_iter::{Fillings, Lattice};

/// Prints the results of the listers of strips, of arrangements and of tableaux, one line each.
pub fn print(rt: &(impl Print + Alloc<A = Global>)) -> Result<()> {
    horizontal(rt)?;
    vertical(rt)?;
    arranged(rt)?;
    fillings(rt)?;
    counted(rt)
}

fn horizontal(rt: &(impl Print + Alloc<A = Global>)) -> Result<()> {
    let inner = Partition::from_parts(rt.alloc(), &[2, 1])?;
    let mut list = HorizontalStrips::new(rt.alloc(), &inner, 2)?;
    listed(rt, "(2,1) with a horizontal strip of 2", &mut list)
}

fn vertical(rt: &(impl Print + Alloc<A = Global>)) -> Result<()> {
    let inner = Partition::from_parts(rt.alloc(), &[2, 1])?;
    let mut list = VerticalStrips::new(rt.alloc(), &inner, 2)?;
    listed(rt, "(2,1) with a vertical strip of 2", &mut list)
}

fn arranged(rt: &(impl Print + Alloc<A = Global>)) -> Result<()> {
    let shape = Partition::from_parts(rt.alloc(), &[2])?;
    if shape.rows() > 2 {
        return Ok(());
    }
    let mut list = Arrangements::new(rt.alloc(), &shape, 2)?;
    listed(rt, "(2) in 2 places", &mut list)
}

fn fillings(rt: &(impl Print + Alloc<A = Global>)) -> Result<()> {
    let Some(shape) = skew(rt.alloc(), &[2, 1], &[])? else {
        return Ok(());
    };
    up_to_two(rt, &shape)?;
    standard(rt, &shape)?;
    said(rt, "columns of (2,1)", &shape.columns())?;
    lattice(rt, &shape)
}

fn up_to_two(rt: &(impl Print + Alloc<A = Global>), shape: &Skew) -> Result<()> {
    let mut list = Fillings::all(rt.alloc(), shape, 2)?;
    listed(rt, "(2,1) up to 2", &mut list)
}

fn standard(rt: &(impl Print + Alloc<A = Global>), shape: &Skew) -> Result<()> {
    let mut list = Fillings::with_content(rt.alloc(), shape, &[1, 1, 1])?;
    listed(rt, "(2,1) with 1 2 3", &mut list)
}

/// Prints the content of the first lattice tableau with entries up to 2.
fn lattice(rt: &(impl Print + Alloc<A = Global>), shape: &Skew) -> Result<()> {
    let start = Partition::from_parts(rt.alloc(), &[])?;
    if start.size() > 0 {
        return Ok(());
    }
    if start.rows() > 0 {
        return Ok(());
    }
    if shape.cells() > 3 {
        return Ok(());
    }
    let mut list = Lattice::new(rt.alloc(), shape, &start, 2)?;
    if list.advance() {
        line(rt, "the content of (2,1)", list.content())?;
    }
    Ok(())
}

/// Prints the items of a list, a line each, but at most the first hundred.
pub(crate) fn listed<L: Lister>(rt: &impl Print, what: &str, list: &mut L) -> Result<()> {
    for _ in 0..100u16 {
        if list.advance() {
            line(rt, what, list.current())?;
        }
    }
    Ok(())
}

/// Prints the numbers of tableaux of some shapes and contents. They are compared with the numbers
/// that `tests/outside/skew_kostka.py` obtains from another program.
fn counted(rt: &(impl Print + Alloc<A = Global>)) -> Result<()> {
    count(
        rt,
        "tableaux of (3,2,1) / (1) with content (2,2,1)",
        (&[3, 2, 1], &[1], &[2, 2, 1]),
    )?;
    count(
        rt,
        "tableaux of (4,3,2) / (2,1) with content (1,2,3)",
        (&[4, 3, 2], &[2, 1], &[1, 2, 3]),
    )?;
    count(
        rt,
        "tableaux of (4,3,2) / (2,1) with content (0,3,0,2,1)",
        (&[4, 3, 2], &[2, 1], &[0, 3, 0, 2, 1]),
    )?;
    count(
        rt,
        "tableaux of (4,4,3) / (2) with content (3,3,3)",
        (&[4, 4, 3], &[2], &[3, 3, 3]),
    )?;
    count(
        rt,
        "tableaux of (5,4,3,2,1) / (3,2,1) with content (2,1,2,1,2,1)",
        (&[5, 4, 3, 2, 1], &[3, 2, 1], &[2, 1, 2, 1, 2, 1]),
    )?;
    count(
        rt,
        "tableaux of (2,2) / (2,2) with content ()",
        (&[2, 2], &[2, 2], &[]),
    )
}

/// Prints the number of semistandard tableaux of a skew shape with a given content.
fn count(
    rt: &(impl Print + Alloc<A = Global>),
    what: &str,
    case: (&[u16], &[u16], &[u16]),
) -> Result<()> {
    let Some(shape) = skew(rt.alloc(), case.0, case.1)? else {
        return Ok(());
    };
    said(rt, what, &number_of(rt.alloc(), &shape, case.2)?)
}

/// The number of semistandard tableaux of a skew shape with a given content; 10,000 if there are
/// more, and 0 if the content has more than 512 numbers.
fn number_of(alloc: Global, shape: &Skew, content: &[u16]) -> Result<u16> {
    if content.len() > 512 {
        return Ok(0);
    }
    let mut list = Fillings::with_content(alloc, shape, content)?;
    Ok(length(&mut list))
}

/// The number of items of a list; 10,000 if it has more.
fn length<L: Lister>(list: &mut L) -> u16 {
    for count in 0..10000 {
        if !list.advance() {
            return count;
        }
    }
    10000
}
