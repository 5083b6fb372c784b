//! The test whether some letter of a permutation has more than a given number of greater letters
//! before it.
ghost use Rattle.std.specs.Prelude.{◌≡◌, ◌≤◌, ◌↔◌, IsTrue, length};
ghost use Rattle.sym_model.specs.BetaList.{greater};
ghost use Rattle.stanley_expand.specs.GreaterBefore.{HasMoreBefore};

use perm_codes::Perm;

/// Whether some letter of `perm` has more than `most` greater letters before it.
///
/// If w(i) < w(i + 1) in w = `perm`, then w(i + 1) has at most as many greater letters before it as
/// w(i) has. So the greater letters are counted only for a letter that is not greater than the one
/// directly before it.
pub(crate) fn has_more_before(perm: &Perm, most: u16) -> bool
    requires { length perm.now ≤ 254 }
    ensures { IsTrue result ↔ HasMoreBefore most perm.now }
{
    let letters = perm.letters();
    let mut last = 0;
    for (at, letter) in letters.iter().enumerate() {
        let rises = last < *letter;
        last = *letter;
        if rises {
            continue;
        }
        if count_greater(*letter, &letters[..at]) > most {
            return true;
        }
    }
    false
}

/// The number of the given letters that are greater than `bound`.
fn count_greater(bound: u8, letters: &[u8]) -> u16
    requires { length letters.now ≤ 255 }
    ensures { result ≡ greater bound letters.now }
{
    letters.iter().filter(|letter| **letter > bound).count() as u16
}
