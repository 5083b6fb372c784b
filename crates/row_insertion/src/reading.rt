//! The reading word of a tableau.
ghost use Rattle.std.specs.Prelude.{◌≡◌, IfOk};
ghost use Rattle.sym_model.specs.Insertion.{reading_word};

use crate::Word;
use calc_base::NoMemory;
use skew_shapes::Tableau;
use std::alloc::Global;

/// The reading word of a tableau: its rows from the bottom up, each from left to right. Fails only
/// if memory runs out.
pub fn reading_word(alloc: Global, t: &Tableau) -> Result<Word, NoMemory>
    ensures { IfOk result (λ word. word ≡ reading_word t.now.rows) }
{
    let mut letters = Vec::new(alloc);
    let mut row = t.shape().outer().rows();
    while row > 0 {
        letters.extend_from_slice(t.row(row))?;
        row -= 1;
    }
    Word::from_slice(alloc, &letters)
}
