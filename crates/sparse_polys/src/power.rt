//! Partitions with a power of q, the labels of quantum products.
ghost use Rattle.std.specs.Prelude.{nat_le};
ghost use Rattle.sym_model.specs.LabelLimits.{is_power_label};
ghost use Rattle.sym_model.specs.Partition.{rows};
ghost use Rattle.sym_model.specs.PrintedOrder.{power_order};

use calc_base::NoMemory;
use linear_combinations::Label;
use partitions::Partition;
use std::cmp::Ordering;
use std::marker::Model;

/// A power of q and a partition, the label of a term of a quantum product. Labels are printed in
/// increasing order of the power, then in the order of the partition.
#[derive(Debug, PartialEq, Eq, Hash, Drop)]
pub struct Power {
    /// The exponent of q.
    pub power: u32,
    /// The partition of the label.
    pub shape: Partition,
}

impl Model for Power {
    ghost use Rattle.std.specs.Prelude.{ℕ, List};

    ghost Value = { ℕ × List ℕ };

    ghost view = { λ p. (p.power, p.shape) };

    ghost inverse = { λ v. record { power = v.0; shape = v.1 } };
}

impl Label for Power {
    ghost use Rattle.linear_combinations.proofs.Labels.{same_power, power_order_is_total};
    ghost use Rattle.linear_combinations.proofs.Labels.{power_order_equal};

    ghost is_label = { is_power_label };

    ghost is_short = { λ label. nat_le (rows label.1) 16 };

    ghost order = { power_order };

    fn cmp_printed(&self, other: &Power) -> Ordering {
        let power = self.power;
        power
            .cmp(&other.power)
            .then(self.shape.cmp_printed(&other.shape))
    }

    fn copy(&self) -> Result<Power, NoMemory> {
        Ok(Power {
            power: self.power,
            shape: self.shape.copy()?,
        })
    }

    ghost same_label = { same_power };

    ghost order_total = { power_order_is_total };

    ghost order_equal = { power_order_equal };
}
