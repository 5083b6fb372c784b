//! Permutations as labels.
ghost use Rattle.std.specs.Prelude.{length, nat_le};
ghost use Rattle.sym_model.specs.LabelLimits.{is_permutation_label};
ghost use Rattle.sym_model.specs.PrintedOrder.{permutation_order};

use crate::label::Label;
use calc_base::NoMemory;
use perm_codes::Perm;
use std::cmp::Ordering;

impl Label for Perm {
    ghost use Rattle.printing_laws.proofs.Labels.{same_partition, permutation_order_is_total};
    ghost use Rattle.printing_laws.proofs.Labels.{permutation_order_equal};

    ghost is_label = { is_permutation_label };

    ghost is_short = { λ letters. nat_le (length letters) 16 };

    ghost order = { permutation_order };

    fn cmp_printed(&self, other: &Perm) -> Ordering {
        Perm::cmp_printed(self, other)
    }

    fn copy(&self) -> Result<Perm, NoMemory> {
        Perm::copy(self)
    }

    ghost same_label = { same_partition };

    ghost order_total = { permutation_order_is_total };

    ghost order_equal = { permutation_order_equal };
}
