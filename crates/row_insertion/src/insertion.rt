//! The insertion tableau and the recording tableau of a word.
ghost use Rattle.std.specs.Prelude.{◌≡◌, ◌≤◌, true, length, IfOk};
ghost use Rattle.sym_model.specs.Insertion.{insertion_pair};
ghost use Rattle.sym_model.specs.Tableau.{are_letters};
ghost use Rattle.sym_model.specs.Knuth.{IsOnlyTableauOf};
ghost use Rattle.row_insertion.specs.Pairs.{HaveOneShape};

use crate::growing::{insert, push_at};
use crate::making::{standard_of, tableau_of};
use calc_base::NoMemory;
use skew_shapes::{Standard, Tableau};
use std::alloc::Global;

/// The insertion tableau and the recording tableau of a word of at most 512 letters, each at least
/// 1 (Robinson, Schensted and Knuth): the letters are inserted one by one by row insertion, and the
/// recording tableau has in each cell the number of the insertion that added it. The insertion
/// tableau is the only straight tableau whose reading word is in the Knuth class of the word. Fails
/// only if memory runs out.
pub fn insert_word(alloc: Global, letters: &[u16]) -> Result<(Tableau, Standard), NoMemory>
    requires few { length letters.now ≤ 512 }
    requires letters { are_letters letters.now ≡ true }
    ensures pair { IfOk result (λ pair. (pair.0.rows, pair.1.rows) ≡ insertion_pair letters.now) }
    ensures only { IfOk result (λ pair. IsOnlyTableauOf letters.now pair.0.rows) }
    ensures one_shape { IfOk result (λ pair. HaveOneShape pair.0 pair.1) }
{
    let mut insertion = Vec::new(alloc);
    let mut recording = Vec::new(alloc);
    for (at, letter) in letters.iter().enumerate() {
        let row = insert(&mut insertion, *letter)?;
        push_at(&mut recording, row, at as u16 + 1)?;
    }
    let p = tableau_of(alloc, &insertion)?;
    let q = standard_of(alloc, &recording)?;
    Ok((p, q))
}
