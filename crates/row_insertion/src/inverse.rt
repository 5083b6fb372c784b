//! The word with a given insertion tableau and a given recording tableau.
ghost use Rattle.std.specs.Prelude.{◌≤◌, length, IfOk};
ghost use Rattle.sym_model.specs.Schur.{letters_of};
ghost use Rattle.row_insertion.specs.Pairs.{HaveOneShape, IsTheWordOf};

use crate::Word;
use crate::making::rows_of;
use crate::shrinking::{row_ending, take_last, take_out};
use calc_base::NoMemory;
use skew_shapes::{Standard, Tableau};
use std::alloc::Global;

/// The only word with the insertion tableau `p` and the recording tableau `q`, which must have the
/// same straight shape with at most 512 cells. Fails only if memory runs out.
pub fn word_of_pair(alloc: Global, p: &Tableau, q: &Standard) -> Result<Word, NoMemory>
    requires one_shape { HaveOneShape p.now q.now }
    requires few { length (letters_of p.now.rows) ≤ 512 }
    ensures { IfOk result (λ word. IsTheWordOf word p.now.rows q.now.rows) }
{
    let mut insertion = rows_of(alloc, p)?;
    let mut recording = rows_of(alloc, q.tableau())?;
    let mut letters = Vec::new(alloc);
    let mut step = p.shape().cells();
    while step > 0 {
        let row = row_ending(&recording, step);
        take_last(&mut recording, row);
        letters.push(take_out(&mut insertion, row))?;
        step -= 1;
    }
    letters.reverse();
    Word::from_slice(alloc, &letters)
}
