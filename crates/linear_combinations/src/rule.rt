//! Linear maps that are given by the image of each label.
ghost use Rattle.std.specs.Prelude.{ℤ, List, OnOk, IsErrOf};
ghost use Rattle.linear_combinations.specs.Gains.{Gains, Overflows, scaled};

use crate::label::Label;
use crate::lin::Lin;
use calc_base::SumFault;
use coeff_rings::Int;

/// A linear map given on labels: each label has an image, a list of labels with integer
/// coefficients.
pub trait Rule<K: Label, L: Label> {
    // The labels for which `add_image` may be called.
    ghost takes: { Self → K → Type 0 };

    // The image of a label.
    ghost image: { Self → K → List (L × ℤ) };

    /// Adds `c` times the image of `label` to `sum`. Returns `Large` only if adding the terms of
    /// the image, times `c`, overflows (`Overflows`). After an error some of these terms may have
    /// been added.
    fn add_image(&self, label: &K, c: Int, sum: &mut Lin<L, Int>) -> Result<(), SumFault>
        requires { takes self.now label.now }
        ensures gains { OnOk result (Gains sum.old (scaled c (image self.now label.now)) sum.new) }
        ensures large { IsErrOf result SumFault.Large
            → Overflows L.eq sum.old (scaled c (image self.now label.now)) };
}
