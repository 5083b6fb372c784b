//! Pairs of partitions, the labels of coproducts.
ghost use Rattle.std.specs.Prelude.{nat_le, ◌&&◌};
ghost use Rattle.sym_model.specs.LabelLimits.{is_pair_label};
ghost use Rattle.sym_model.specs.Partition.{rows};
ghost use Rattle.sym_model.specs.PrintedOrder.{pair_order};

use calc_base::NoMemory;
use linear_combinations::Label;
use partitions::Partition;
use std::cmp::Ordering;
use std::marker::Model;

/// Two partitions, the label of a term of a coproduct. Pairs are printed in the order of the first
/// partition, then of the second.
#[derive(Debug, PartialEq, Eq, Hash, Drop)]
pub struct Pair {
    /// The partition that is printed first.
    pub first: Partition,
    /// The partition that is printed second.
    pub second: Partition,
}

impl Model for Pair {
    ghost use Rattle.std.specs.Prelude.{ℕ, List};

    ghost Value = { List ℕ × List ℕ };

    ghost view = { λ p. (p.first, p.second) };

    ghost inverse = { λ v. record { first = v.0; second = v.1 } };
}

impl Label for Pair {
    ghost use Rattle.linear_combinations.proofs.Labels.{same_pair, pair_order_is_total, pair_order_equal};

    ghost is_label = { is_pair_label };

    ghost is_short = { λ pair. nat_le (rows pair.0) 16 && nat_le (rows pair.1) 16 };

    ghost order = { pair_order };

    fn cmp_printed(&self, other: &Pair) -> Ordering {
        self.first
            .cmp_printed(&other.first)
            .then(self.second.cmp_printed(&other.second))
    }

    fn copy(&self) -> Result<Pair, NoMemory> {
        Ok(Pair {
            first: self.first.copy()?,
            second: self.second.copy()?,
        })
    }

    ghost same_label = { same_pair };

    ghost order_total = { pair_order_is_total };

    ghost order_equal = { pair_order_equal };
}
