//! Adds strips to partitions, cell by cell, by moving beads in their beta sets: there is a bead at
//! the place b for each beta number b.
ghost use Rattle.std.specs.Prelude.{◌≡◌, ◌-◌, ◌^◌, ◌<◌, ◌≤◌, pos, nat_eq, OnOk, IsErrOf};
ghost use Rattle.linear_combinations.specs.Gains.{Gains, Overflows, each_by, scaled};
ghost use Rattle.beta_sets.specs.BetaSets.{numbers};
ghost use Rattle.strip_rules.specs.BeadMoves.{first_bound, next_bound, next_places, with_cells};

use beta_sets::{BetaSet, Shapes};
use calc_base::SumFault;
use coeff_rings::Int;
use linear_combinations::Rule;

/// The two kinds of strips: with at most one cell in each column, and with at most one in each row.
#[derive(Clone, Copy, Drop)]
pub(crate) enum Strip {
    Horizontal,
    Vertical,
}

impl Strip {
    /// The bound for the place of the first bead that moves up: in a horizontal strip the place is
    /// at least the bound, in a vertical strip it is below the bound.
    fn first_bound(self) -> u16
        ensures { result ≡ first_bound self }
    {
        match self {
            Strip::Horizontal => 0,
            Strip::Vertical => 63,
        }
    }

    /// The bound for the place of the next bead that moves up, after a bead has moved up from
    /// `place`: the places increase in a horizontal strip and decrease in a vertical strip.
    fn next_bound(self, place: u16) -> u16
        requires { place < 63 }
        ensures { result ≡ next_bound self place }
    {
        match self {
            Strip::Horizontal => place + 1,
            Strip::Vertical => place,
        }
    }

    /// The places of the beads that may move up by one place next: those with no bead at the place
    /// above, from `bound` on in a horizontal strip, and below `bound` in a vertical strip.
    fn next_places(self, set: BetaSet, bound: u16) -> BetaSet
        requires { bound < 64 }
        ensures { numbers result ≡ next_places self bound (numbers set) }
    {
        match self {
            Strip::Horizontal => set.free(1).from(bound),
            Strip::Vertical => set.free(1).below(bound),
        }
    }
}

/// Adds `c` to the coefficient in `sum` of each set that results from `set` by moving up a bead by
/// one place, `left` times, in the order that `strip` allows; the first bead is at a place within
/// `bound`. Returns `Large` only if, at some set, the absolute values of the old coefficient and of
/// the terms to be added have a sum of 2^127 or more.
fn add_cells(
    sum: &mut Shapes,
    strip: Strip,
    set: BetaSet,
    bound: u16,
    left: u16,
    c: Int,
) -> Result<(), SumFault>
    requires few { left ≤ 20 }
    requires bound { bound < 64 }
    requires low { set < 2 ^ (63 - left) }
    ensures gains { OnOk result (Gains sum.old (scaled c (each_by (λ _. pos 1)
        (with_cells strip left bound set))) sum.new) }
    ensures large { IsErrOf result SumFault.Large → Overflows nat_eq sum.old
        (scaled c (each_by (λ _. pos 1) (with_cells strip left bound set))) }
{
    if left == 0 {
        return sum.add_owned(set, c);
    }
    let mut places = strip.next_places(set, bound);
    while let Some(place) = places.greatest() {
        places = places.without(place);
        let next = strip.next_bound(place);
        add_cells(sum, strip, set.raised_at(place), next, left - 1, c)?;
    }
    Ok(())
}

/// The rule that replaces a partition by all partitions that result from adding a strip of `cells`
/// cells.
#[derive(Drop)]
pub(crate) struct StripAdded {
    pub strip: Strip,
    pub cells: u16,
}

impl Rule<BetaSet, BetaSet> for StripAdded {
    ghost use Rattle.std.specs.Prelude.{pos, ◌-◌, ◌≤◌};
    ghost use Rattle.linear_combinations.specs.Gains.{each_by};
    ghost use Rattle.beta_sets.specs.BetaSets.{IsInRows};
    ghost use Rattle.strip_rules.specs.BeadMoves.{strips};

    ghost takes = { λ rule set. (rule.cells ≤ 20) × IsInRows 20 (20 - rule.cells) set };

    ghost image = { λ rule set. each_by (λ _. pos 1) (strips rule.strip rule.cells set) };

    fn add_image(&self, label: &BetaSet, c: Int, sum: &mut Shapes) -> Result<(), SumFault> {
        add_cells(
            sum,
            self.strip,
            *label,
            self.strip.first_bound(),
            self.cells,
            c,
        )
    }
}
