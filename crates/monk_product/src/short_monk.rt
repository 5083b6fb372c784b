//! Monk's rule for lists of Schubert polynomials of short permutations.
ghost use Rattle.std.specs.Prelude.{◌≡◌, ◌+◌, ◌≤◌, nat_eq, length, OnOk, IfOk, IsErrOf};
ghost use Rattle.std.specs.Cmp.Lexicographic.{pointwise};
ghost use Rattle.sym_model.specs.Permutation.{covers_down, covers_up};
ghost use Rattle.linear_combinations.specs.Gains.{each_with, Gains, Overflows};
ghost use Rattle.std.specs.Prelude.{neg_ℤ};

use crate::monk::TimesVar;
use crate::short_perm::ShortPerm;
use calc_base::{NoMemory, SumFault};
use coeff_rings::Int;
use linear_combinations::{Lin, Rule, Terms};
use perm_codes::Perm;
use std::alloc::Global;
use transition_walk::Factor;

/// A list of Schubert polynomials of short permutations with integer coefficients.
pub(crate) type ShortSum = Lin<ShortPerm, Int>;

/// For each cover of w that exchanges the letters at `place`, counted from 0, and at a greater
/// place, adds `c` to its coefficient in `sum`. Returns `Large` only if, for some permutation, the
/// absolute values of the old coefficient and of the added ones have a sum of 2^127 or more.
fn add_covers_up(w: &ShortPerm, place: usize, c: Int, sum: &mut ShortSum) -> Result<(), SumFault>
    requires place { place + 1 ≤ 31 }
    requires few { length w.now ≤ 31 }
    ensures gains { OnOk result
        (Gains sum.old (each_with c (covers_up (place + 1) w.now)) sum.new) }
    ensures large { IsErrOf result SumFault.Large
        → Overflows (pointwise nat_eq) sum.old (each_with c (covers_up (place + 1) w.now)) }
{
    for other in place + 1..w.len().max(place + 1) + 1 {
        let cover = w.cover(place, other);
        sum.add_each(cover.as_slice(), c)?;
    }
    Ok(())
}

/// For each cover of w that exchanges the letters at `place`, counted from 0, and at a smaller
/// place, subtracts `c` from its coefficient in `sum`. Returns `Large` only if, for some
/// permutation, the absolute values of the old coefficient and of the subtracted ones have a sum of
/// 2^127 or more.
fn subtract_covers_down(
    w: &ShortPerm,
    place: usize,
    c: Int,
    sum: &mut ShortSum,
) -> Result<(), SumFault>
    requires place { place + 1 ≤ 31 }
    ensures gains { OnOk result
        (Gains sum.old (each_with (neg_ℤ c) (covers_down (place + 1) w.now)) sum.new) }
    ensures large { IsErrOf result SumFault.Large
        → Overflows (pointwise nat_eq) sum.old
        (each_with (neg_ℤ c) (covers_down (place + 1) w.now)) }
{
    for other in 0..place {
        let cover = w.cover(other, place);
        sum.subtract_each(cover.as_slice(), c)?;
    }
    Ok(())
}

impl Rule<ShortPerm, ShortPerm> for TimesVar {
    ghost use Rattle.std.specs.Prelude.{◌≤◌, length};
    ghost use Rattle.monk_product.specs.Monk.{monk_terms};

    ghost takes = { λ rule w. (1 ≤ rule.r) × (rule.r ≤ 31) × (length w ≤ 31) };

    ghost image = { λ rule w. monk_terms rule.r w };

    fn add_image(&self, w: &ShortPerm, c: Int, sum: &mut ShortSum) -> Result<(), SumFault> {
        let place = usize::from(self.r) - 1;
        add_covers_up(w, place, c, sum)?;
        subtract_covers_down(w, place, c, sum)
    }
}

impl Factor<ShortPerm> for TimesVar {
    ghost use Rattle.std.specs.Prelude.{length};
    ghost use Rattle.sym_model.specs.Polynomial.{pair, times};
    ghost use Rattle.sym_model.specs.Schubert.{schubert_in};
    ghost use Rattle.transition_laws.proofs.MonkLaws.{monk_start, monk_step, monk_grows_short};

    ghost made = { λ r v. record { r = r } };

    ghost extent = { length };

    ghost most = { 31 };

    ghost extra = { 0 };

    ghost polynomial = { λ n x. schubert_in x n };

    ghost product = { λ n φ w x. pair (times (schubert_in w n) (schubert_in x n)) φ };

    fn at(r: u16, _lower: &Perm) -> TimesVar {
        TimesVar { r }
    }

    ghost start = { monk_start };

    ghost step = { monk_step };

    ghost grows = { monk_grows_short };
}

/// The given terms, with each permutation converted to the type `Perm`. Fails only if memory runs
/// out.
pub(crate) fn written_out(
    alloc: Global,
    terms: Terms<ShortPerm, Int>,
) -> Result<Terms<Perm, Int>, NoMemory>
    ensures { IfOk result (λ list. list ≡ terms) }
{
    let mut pairs = Vec::with_capacity(alloc, terms.len())?;
    for (w, c) in terms.iter() {
        let perm = w.perm(alloc)?;
        pairs.push((perm, *c))?;
    }
    Ok(Terms::from_pairs(pairs).unwrap())
}
