//! Products of Schubert polynomials of short permutations and elementary polynomials, by Sottile's
//! Pieri formula: e_d(x_1, .., x_k)·S_w is the sum of the S_v over the chains of d covers w → w·t_ab
//! → .. → v with a ≤ k < b in each cover, in which the greater letters of the exchanged pairs
//! decrease strictly.
ghost use Rattle.std.specs.Prelude.{◌≡◌, ℕ, ◌<◌, ◌≤◌, ◌-◌, ◌+ℤ◌, ◌*ℤ◌, ℤ, List, slice_index};
ghost use Rattle.std.specs.Prelude.{IsFalse, OnOk, flat_map};
ghost use Rattle.sym_model.specs.Permutation.{with_fixed};
ghost use Rattle.sym_model.specs.Polynomial.{pair, times};
ghost use Rattle.sym_model.specs.Schubert.{schubert_in};
ghost use Rattle.schubert_laws.specs.Chains.{elementary_in};
ghost use Rattle.schubert_laws.specs.ShortPermutations.{IsShort};
ghost use Rattle.double_schubert_laws.specs.KeptChains.{kept_chains, kept_lifted, less_among};
ghost use Rattle.linear_combinations.specs.Gains.{each_with, over, Gains};

use crate::short_monk::ShortSum;
use crate::short_perm::{MOST_LETTERS, ShortPerm};
use calc_base::SumFault;
use coeff_rings::{Int, Ring};

/// Adds z·e_d(x_1, .., x_k)·`list` to `sum`, in every number of variables.
///
/// Returns `Large` also if k is greater than 31, or a permutation of `list` has 32 letters. After an
/// error some of the terms may have been added.
pub(crate) fn add_elementary_product(
    list: &ShortSum,
    d: usize,
    k: usize,
    z: Int,
    sum: &mut ShortSum,
) -> Result<(), SumFault>
    ensures { OnOk result ((m : ℕ) (φ : List ℕ → ℤ)
        → over (λ w. pair (schubert_in w m) φ) sum.new
        ≡ over (λ w. pair (schubert_in w m) φ) sum.old
        +ℤ z *ℤ over (λ w. pair (times (elementary_in d k m) (schubert_in w m)) φ) list.now) }
{
    if k >= MOST_LETTERS {
        return Err(SumFault::Large);
    }
    for (w, a) in list.iter() {
        let n = w.len().max(k) + 1;
        if n > MOST_LETTERS {
            return Err(SumFault::Large);
        }
        let c = z.mul(*a).ok_or(SumFault::Large)?;
        add_chains(w, n as u8, d, k, n, c, sum)?;
    }
    Ok(())
}

/// Adds `c` to the coefficient of the last permutation of each chain of d covers from `w` on that
/// exchanges letters across the place k, among the first n places, if the greater letters of the
/// exchanged pairs decrease strictly, from at most `most` on.
#[cycle(chains)]
fn add_chains(
    w: &ShortPerm,
    most: u8,
    d: usize,
    k: usize,
    n: usize,
    c: Int,
    sum: &mut ShortSum,
) -> Result<(), SumFault>
    requires short { IsShort n w.now }
    requires few { n ≤ 32 }
    requires most { most ≤ n }
    requires places { k ≤ n }
    ensures { OnOk result (Gains sum.old (each_with c (kept_chains most d k n w.now)) sum.new) }
{
    if d == 0 {
        return sum.add_at_label(w, c);
    }
    for place in k..n {
        let letter = w.letter(place);
        if letter <= most && has_room(w, d, k, letter) {
            add_chains_at(w, place, d - 1, k, n, c, sum)?;
        }
    }
    Ok(())
}

/// Whether a chain of d covers can begin with a cover whose greater letter is `letter`: not if fewer
/// than d letters less than it are at the first k places. For d = 1 the covers themselves are looked
/// for at once.
fn has_room(w: &ShortPerm, d: usize, k: usize, letter: u8) -> bool
    requires { k ≤ 32 }
    ensures { IsFalse result → less_among k letter (with_fixed 32 w.now) < d }
{
    d == 1 || d <= w.less_among(k, letter)
}

/// Adds `c` to the coefficient of the last permutation of each chain whose first cover exchanges the
/// letter at `place`, counted from 0, and one at the first k places, and which goes on with `left`
/// covers as in `add_chains`.
#[cycle(chains)]
fn add_chains_at(
    w: &ShortPerm,
    place: usize,
    left: usize,
    k: usize,
    n: usize,
    c: Int,
    sum: &mut ShortSum,
) -> Result<(), SumFault>
    requires short { IsShort n w.now }
    requires few { n ≤ 32 }
    requires later { k ≤ place }
    requires inside { place < n }
    ensures { OnOk result (Gains sum.old
        (each_with c (flat_map (λ v. kept_chains
        (slice_index (with_fixed n w.now) place - 1) left k n v)
        (kept_lifted k (slice_index (with_fixed n w.now) place) n w.now))) sum.new) }
{
    let letter = w.letter(place);
    // The greatest letter less than `letter` between the place of the cover and `place`.
    let mut low = w.greatest_below(letter, k, place);
    for at in (0..k).rev() {
        let other = w.letter(at);
        if low <= other && other < letter {
            add_chains(&w.raised(at, place), letter - 1, left, k, n, c, sum)?;
            low = other;
        }
    }
    Ok(())
}
