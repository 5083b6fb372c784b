//! The type of a standard tableau.
ghost use Rattle.std.specs.Prelude.{◌≡◌, ◌≤◌, ◌==◌, ◌↔◌, [], length, IsOk, IfOk, IfErr};
ghost use Rattle.sym_model.specs.GoodTableau.{every};
ghost use Rattle.sym_model.specs.Partition.{after};
ghost use Rattle.sym_model.specs.Schur.{letters_of, times_in};
ghost use Rattle.sym_model.specs.StandardTableau.{IsStandard};

use crate::Tableau;
use std::marker::Model;

/// A standard tableau: a tableau of straight shape in which each number from 1 to the number of its
/// cells occurs once.
#[derive(Debug, Drop)]
pub struct Standard {
    tableau: Tableau,
}

impl Model for Standard {
    ghost use Rattle.std.specs.Prelude.{◌≡◌, []};
    ghost use Rattle.sym_model.specs.StandardTableau.{IsStandard};
    ghost use Rattle.sym_model.specs.Tableau.{SkewFilling};

    ghost Value = { SkewFilling };

    ghost view = { λ s. s.tableau };

    ghost invariant = { λ s. (s.tableau.inner ≡ []) × IsStandard s.tableau.rows };
}

impl Standard {
    /// The tableau `t` as a standard tableau. If its inner partition is not empty, or if its
    /// entries are not the numbers from 1 to the number of its cells, each once, `t` is returned
    /// unchanged as the error.
    pub fn new(t: Tableau) -> Result<Standard, Tableau>
        ensures standard { IsOk result ↔ ((t.inner ≡ []) × IsStandard t.rows) }
        ensures ok { IfOk result (λ s. s ≡ t) }
        ensures err { IfErr result (λ back. back ≡ t) }
    {
        if t.shape().inner().rows() != 0 {
            return Err(t);
        }
        if !has_each_once(&t) {
            return Err(t);
        }
        Ok(Standard { tableau: t })
    }

    /// This standard tableau as a tableau.
    pub fn tableau(&self) -> &Tableau
        ensures value { result.now ≡ self.now }
        ensures standard { (self.now.inner ≡ []) × IsStandard self.now.rows }
    {
        &self.tableau
    }
}

/// Whether each number from 1 to the number of cells of `t`, a tableau of straight shape, occurs in
/// it exactly once.
fn has_each_once(t: &Tableau) -> bool
    requires { t.now.inner ≡ [] }
    ensures { result ≡ every (λ k. times_in k (letters_of t.now.rows) == 1)
        (after 0 (length (letters_of t.now.rows))) }
{
    for number in 0..t.shape().cells() {
        if times(t, number + 1) != 1 {
            return false;
        }
    }
    true
}

/// The number of times that `number` occurs in the tableau `t`.
fn times(t: &Tableau, number: u16) -> usize
    ensures { result ≡ times_in number (letters_of t.now.rows) }
{
    let mut count = 0usize;
    for row in 0..t.shape().outer().rows() {
        count += times_in_row(t.row(row + 1), number);
    }
    count
}

/// The number of times that `number` occurs in the row.
fn times_in_row(row: &[u16], number: u16) -> usize
    ensures count { result ≡ times_in number row.now }
    ensures most { result ≤ length row.now }
{
    let [first, later @ ..] = row else {
        return 0;
    };
    let rest = times_in_row(later, number);
    if *first == number { rest + 1 } else { rest }
}
