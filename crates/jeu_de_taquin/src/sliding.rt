//! One slide, and slides until the inner partition is empty.
ghost use Rattle.std.specs.Prelude.{◌≡◌};
ghost use Rattle.sym_model.specs.Insertion.{reading_word};
ghost use Rattle.sym_model.specs.Knuth.{AreKnuthEquivalent, IsOnlyTableauOf};
ghost use Rattle.sym_model.specs.Slide.{HasInnerCorner, IsReached, slide};

use crate::empty_cell::move_letters;
use skew_shapes::Tableau;

/// The slide of the tableau `t` from its inner corner in row `row`: the corner becomes an empty
/// cell; of the neighbour on its right and the neighbour below it, the one with the smaller letter
/// (the one below if the letters are equal) moves into it, and so on with the cell that is then
/// empty; the last empty cell is removed from the shape. The reading word of the result is in the
/// Knuth class of that of `t`. No memory is allocated.
pub fn slide(t: Tableau, row: u16) -> Tableau
    requires { HasInnerCorner row t.inner }
    ensures slide { result ≡ slide row t }
    ensures class { AreKnuthEquivalent (reading_word t.rows) (reading_word result.rows) }
{
    let column = t.shape().inner().part(row);
    let mut filled = t.into_filled();
    filled.add_inner_cell(row);
    let last = move_letters(&mut filled, row, column);
    filled.drop_outer_cell(last);
    match filled.into_tableau() {
        Ok(tableau) => tableau,
        Err(_) => unreachable!(),
    }
}

/// The straight tableau reached from `t` by slides, the same for every choice of inner corners: the
/// only straight tableau whose reading word is in the Knuth class of the reading word of `t`
/// (Schützenberger). No memory is allocated.
pub fn rectify(t: Tableau) -> Tableau
    ensures reached { IsReached t result }
    ensures only { IsOnlyTableauOf (reading_word t.rows) result.rows }
{
    let mut t = t;
    while t.shape().inner().rows() > 0 {
        let row = t.shape().inner().rows();
        t = slide(t, row);
    }
    t
}
