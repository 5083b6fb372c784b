//! The implementation of the trait `Label` for monomials.
ghost use Rattle.std.specs.Prelude.{length, nat_le};
ghost use Rattle.sym_model.specs.LabelLimits.{is_monomial_label};
ghost use Rattle.sym_model.specs.PrintedOrder.{printed_order};

use crate::{Label, Monomial};
use calc_base::NoMemory;
use std::cmp::Ordering;

impl Label for Monomial {
    ghost use Rattle.sym_model.proofs.Orders.{printed_order-total};
    ghost use Rattle.linear_combinations.proofs.Labels.{same_partition};
    ghost use Rattle.linear_combinations.proofs.Labels.{monomial_order_equal};

    ghost is_label = { is_monomial_label };

    ghost is_short = { λ exponents. nat_le (length exponents) 16 };

    ghost order = { printed_order };

    fn cmp_printed(&self, other: &Monomial) -> Ordering {
        Monomial::cmp_printed(self, other)
    }

    fn copy(&self) -> Result<Monomial, NoMemory> {
        Monomial::copy(self)
    }

    ghost same_label = { same_partition };

    ghost order_total = { printed_order-total };

    ghost order_equal = { monomial_order_equal };
}
