//! Pairs of a permutation and a monomial, the labels of products of double Schubert polynomials.
ghost use Rattle.std.specs.Prelude.{length, nat_le, ◌&&◌};
ghost use Rattle.sym_model.specs.LabelLimits.{is_shifted_label};
ghost use Rattle.sym_model.specs.PrintedOrder.{shifted_order};

use crate::{Label, Monomial};
use calc_base::NoMemory;
use perm_codes::Perm;
use std::cmp::Ordering;
use std::marker::Model;

/// A permutation and a monomial in the variables y, the label of a term y^e·S_w of a product of
/// double Schubert polynomials. Labels are printed in the order of the permutation, then of the
/// monomial.
#[derive(Debug, PartialEq, Eq, Hash, Drop)]
pub struct Shifted {
    /// The permutation w of the label y^e·S_w.
    pub perm: Perm,
    /// The monomial y^e of the label y^e·S_w.
    pub y: Monomial,
}

impl Model for Shifted {
    ghost use Rattle.std.specs.Prelude.{ℕ, List};

    ghost Value = { List ℕ × List ℕ };

    ghost view = { λ l. (l.perm, l.y) };

    ghost inverse = { λ v. record { perm = v.0; y = v.1 } };
}

impl Label for Shifted {
    ghost use Rattle.linear_combinations.proofs.Labels.{same_pair};
    ghost use Rattle.linear_combinations.proofs.Labels.{shifted_order_is_total, shifted_order_equal};

    ghost is_label = { is_shifted_label };

    ghost is_short = { λ label. nat_le (length label.0) 16 && nat_le (length label.1) 16 };

    ghost order = { shifted_order };

    fn cmp_printed(&self, other: &Shifted) -> Ordering {
        self.perm
            .cmp_printed(&other.perm)
            .then(self.y.cmp_printed(&other.y))
    }

    fn copy(&self) -> Result<Shifted, NoMemory> {
        Ok(Shifted {
            perm: self.perm.copy()?,
            y: self.y.copy()?,
        })
    }

    ghost same_label = { same_pair };

    ghost order_total = { shifted_order_is_total };

    ghost order_equal = { shifted_order_equal };
}
