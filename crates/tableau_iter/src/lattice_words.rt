//! The test of whether rows of numbers are a lattice tableau of a skew shape.
ghost use Rattle.std.specs.Prelude.{◌≡◌, true, false, length, map, IfOk, MatchOption};
ghost use Rattle.sym_model.specs.TableauList.{is_lattice_tableau};
ghost use Rattle.sym_model.specs.GoodTableau.{column_reading, is_among, lattice_readings};
ghost use Rattle.sym_model.specs.Partition.{cells};
ghost use Rattle.sym_model.specs.Polynomial.{same};
ghost use Rattle.sym_model.specs.Schur.{row_lengths};
ghost use Rattle.skew_shapes.specs.CellFillings.{filled_with, is_tableau};

use crate::reading::{part_at, reading_of_rows};
use crate::word::is_lattice;
use calc_base::{NoMemory, Word};
use partitions::Partition;
use skew_shapes::{Skew, Tableau, TableauFault};
use std::alloc::Global;

/// Whether the lengths of `rows` are the lengths of the rows of outer/inner.
fn have_lengths(outer: &[u16], inner: &[u16], rows: &[Vec<u16>]) -> bool
    ensures { result ≡ same (map length (map (λ r. r.items) rows.now))
        (row_lengths outer.now inner.now) }
{
    if rows.len() != outer.len() {
        return false;
    }
    for row in 0..outer.len() {
        if rows[row].len() != usize::from(outer[row].saturating_sub(part_at(inner, row))) {
            return false;
        }
    }
    true
}

/// Whether the filling of `shape` with the column reading `reading` is semistandard with entries at
/// least 1.
fn is_semistandard(alloc: Global, shape: Skew, reading: &[u16]) -> Result<bool, NoMemory>
    requires { length reading.now ≡ length (cells shape.0 shape.1) }
    ensures { IfOk result (λ b. b ≡ is_tableau (filled_with shape.0 shape.1 reading.now)) }
{
    let Err(fault) = Tableau::from_reading(alloc, shape, reading) else {
        return Ok(true);
    };
    match fault {
        TableauFault::Order => Ok(false),
        TableauFault::Length => unreachable!(),
        TableauFault::NoMemory => Err(NoMemory),
    }
}

/// Whether `reading` is the column reading of a lattice tableau of `shape`: the filling with that
/// reading is semistandard, and the reading is a lattice word.
fn is_listed(alloc: Global, shape: Skew, reading: &[u16]) -> Result<bool, NoMemory>
    requires { length reading.now ≡ length (cells shape.0 shape.1) }
    ensures { IfOk result (λ b. b ≡ is_among reading.now (lattice_readings shape.0 shape.1)) }
{
    let letters = shape.outer().rows();
    if !is_semistandard(alloc, shape, reading)? {
        return Ok(false);
    }
    is_lattice(alloc, letters, reading)
}

/// The column reading of `rows` if they are a lattice tableau of shape outer/inner, and otherwise
/// `None`. Lattice tableaux are semistandard, have entries from 1 to the number of rows of `outer`,
/// and for each column the content of that column and of those right of it is a partition. Fails
/// only if memory runs out.
pub fn lattice_reading(
    alloc: Global,
    outer: &Partition,
    inner: &Partition,
    rows: &[Vec<u16>],
) -> Result<Option<Word>, NoMemory>
    ensures { IfOk result (λ reading. MatchOption reading
        (is_lattice_tableau outer.now inner.now (map (λ r. r.items) rows.now) ≡ false)
        (λ w. (is_lattice_tableau outer.now inner.now (map (λ r. r.items) rows.now) ≡ true)
        × (w ≡ column_reading outer.now inner.now (map (λ r. r.items) rows.now)))) }
{
    if !have_lengths(outer.parts(), inner.parts(), rows) {
        return Ok(None);
    }
    let Some(shape) = Skew::new(outer.copy()?, inner.copy()?) else {
        return Ok(None);
    };
    let reading = reading_of_rows(alloc, outer.parts(), inner.parts(), rows)?;
    if !is_listed(alloc, shape, &reading)? {
        return Ok(None);
    }
    Ok(Some(Word::from_slice(alloc, &reading)?))
}
