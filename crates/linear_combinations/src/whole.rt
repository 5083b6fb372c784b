//! Functions that add terms to a table with integer coefficients. One clause of each contract
//! states what is added, and another one when `Large` can be returned. If a function that adds one
//! term returns an error, the table is unchanged. If a function that adds many terms returns an
//! error, some of them may have been added, and the table is of no further use.
ghost use Rattle.std.specs.Prelude.{◌≡◌, ◌↔◌, ℤ, pos, neg_ℤ, [], ◌∷◌, FitsSigned};
ghost use Rattle.std.specs.Prelude.{OnOk, OnErr, IsErrOf};
ghost use Rattle.std.specs.Int.{w128};
ghost use Rattle.fraction_laws.specs.Fractions.{whole};
ghost use Rattle.sym_model.specs.Sum.{Among};
ghost use Rattle.linear_combinations.specs.Entries.{coefficient, AreHeld, IsCanonicalList};
ghost use Rattle.linear_combinations.specs.Entries.{IsCombination, IsRefused};
ghost use Rattle.linear_combinations.specs.Gains.{Gains, Overflows, scaled, each_with, replaced};
ghost use Rattle.linear_combinations.specs.Gains.{RefusesFirst};

use crate::label::Label;
use crate::lin::Lin;
use crate::rule::Rule;
use crate::terms::Terms;
use calc_base::SumFault;
use coeff_rings::{Int, Ring, Scalar};

impl<L: Label> Lin<L, Int> {
    /// Adds `c` to the coefficient of `label`, and takes ownership of the label.
    ///
    /// Returns `Large` if and only if the sum of `c` and this coefficient overflows. On an error
    /// the table is unchanged.
    pub fn add_owned(&mut self, label: L, c: Int) -> Result<(), SumFault>
        ensures gains { OnOk result (Gains self.old ((label, c) ∷ []) self.new) }
        ensures large { IsErrOf result SumFault.Large → Overflows L.eq self.old ((label, c) ∷ []) }
        ensures refused { IsErrOf result SumFault.Large
            ↔ IsRefused (FitsSigned w128) ⟦<Int as Scalar>⟧.checked_sum
            (coefficient L.eq (pos 0) self.old label) c }
        ensures err { OnErr result (self.new ≡ self.old) }
        ensures table { OnOk result (IsCombination L.eq L.is_label whole self.new) }
        ensures held { OnOk result (AreHeld L.eq (pos 0) (FitsSigned w128) self.new) }
    {
        self.add_term(label, c)
    }

    /// Adds `c` to the coefficient of `label`. The label is copied if it is new in the table.
    ///
    /// Returns `Large` if and only if the sum of `c` and this coefficient overflows. On an error
    /// the table is unchanged.
    pub fn add_at_label(&mut self, label: &L, c: Int) -> Result<(), SumFault>
        ensures gains { OnOk result (Gains self.old ((label.now, c) ∷ []) self.new) }
        ensures large { IsErrOf result SumFault.Large
            → Overflows L.eq self.old ((label.now, c) ∷ []) }
        ensures refused { IsErrOf result SumFault.Large
            ↔ IsRefused (FitsSigned w128) ⟦<Int as Scalar>⟧.checked_sum
            (coefficient L.eq (pos 0) self.old label.now) c }
        ensures fits { OnOk result (¬ IsRefused (FitsSigned w128) ⟦<Int as Scalar>⟧.checked_sum
            (coefficient L.eq (pos 0) self.old label.now) c) }
        ensures err { OnErr result (self.new ≡ self.old) }
        ensures table { OnOk result (IsCombination L.eq L.is_label whole self.new) }
        ensures held { OnOk result (AreHeld L.eq (pos 0) (FitsSigned w128) self.new) }
    {
        self.add_copied(label, c)
    }

    /// Adds `c` to the coefficient of each of the labels `labels`.
    ///
    /// On an error `c` may have been added for some of the labels.
    pub fn add_each(&mut self, labels: &[L], c: Int) -> Result<(), SumFault>
        ensures gains { OnOk result (Gains self.old (each_with c labels.now) self.new) }
        ensures large { IsErrOf result SumFault.Large
            → Overflows L.eq self.old (each_with c labels.now) }
        ensures table { OnOk result (IsCombination L.eq L.is_label whole self.new) }
        ensures held { OnOk result (AreHeld L.eq (pos 0) (FitsSigned w128) self.new) }
    {
        for label in labels {
            self.add_at_label(label, c)?;
        }
        self.is_combination();
        Ok(())
    }

    /// Subtracts `c` from the coefficient of each of the labels `labels`.
    ///
    /// On an error `c` may have been subtracted for some of the labels.
    pub fn subtract_each(&mut self, labels: &[L], c: Int) -> Result<(), SumFault>
        ensures gains { OnOk result (Gains self.old (each_with (neg_ℤ c) labels.now) self.new) }
        ensures large { IsErrOf result SumFault.Large
            → Overflows L.eq self.old (each_with (neg_ℤ c) labels.now) }
        ensures table { OnOk result (IsCombination L.eq L.is_label whole self.new) }
        ensures held { OnOk result (AreHeld L.eq (pos 0) (FitsSigned w128) self.new) }
    {
        for label in labels {
            let less = c.neg().ok_or(SumFault::Large)?;
            self.add_at_label(label, less)?;
        }
        self.is_combination();
        Ok(())
    }

    /// Adds the table `other`.
    ///
    /// Returns `Large` if the sum of the two coefficients at the first label of `other` overflows,
    /// since no memory is allocated before this sum is computed. On an error some of the terms of
    /// `other` may have been added.
    pub fn add_terms(&mut self, other: &Lin<L, Int>) -> Result<(), SumFault>
        ensures gains { OnOk result (Gains self.old other.now self.new) }
        ensures large { IsErrOf result SumFault.Large → Overflows L.eq self.old other.now }
        ensures past { RefusesFirst L.eq self.old other.now → IsErrOf result SumFault.Large }
        ensures table { OnOk result (IsCombination L.eq L.is_label whole self.new) }
        ensures held { OnOk result (AreHeld L.eq (pos 0) (FitsSigned w128) self.new) }
        ensures other { IsCombination L.eq L.is_label whole other.now }
    {
        for (label, a) in other.iter() {
            self.add_at_label(label, *a)?;
        }
        self.is_combination();
        Ok(())
    }

    /// Adds the image of the table `list` under the linear map `rule`.
    ///
    /// On an error some of the terms of the image may have been added.
    pub fn add_by<K: Label, T: Rule<K, L>>(
        &mut self,
        rule: &T,
        list: &Lin<K, Int>,
    ) -> Result<(), SumFault>
        requires { (t : K × ℤ) → Among t list.now → T.takes rule.now t.0 }
        ensures gains { OnOk result (Gains self.old
            (replaced (T.image rule.now) list.now) self.new) }
        ensures large { IsErrOf result SumFault.Large
            → Overflows L.eq self.old (replaced (T.image rule.now) list.now) }
        ensures table { OnOk result (IsCombination L.eq L.is_label whole self.new) }
        ensures held { OnOk result (AreHeld L.eq (pos 0) (FitsSigned w128) self.new) }
        ensures list { IsCombination K.eq K.is_label whole list.now }
    {
        for (label, c) in list.iter() {
            rule.add_image(label, *c, self)?;
        }
        self.is_combination();
        Ok(())
    }
}
