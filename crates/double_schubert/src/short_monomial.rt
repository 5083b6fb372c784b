//! Monomials in 32 variables with small exponents, copied, compared and hashed as a whole.
ghost use Rattle.std.specs.Prelude.{◌≡◌, ◌<◌, ◌≤◌, [], ◌∷◌, length, nat_eq, replicate, true, IfOk};
ghost use Rattle.std.specs.Cmp.{partial_equiv_from_equiv};
ghost use Rattle.std.specs.Cmp.Lexicographic.{pointwise, nat_list_eq_equiv};
ghost use Rattle.std.proofs.Common.{ap};
ghost use Rattle.std.proofs.lemmas.Slice.Eq.{bytes_eq-Decides};
ghost use Rattle.sym_model.specs.DividedDifference.{raised};
ghost use Rattle.sym_model.specs.Partition.{size, without_last_zeros};

use calc_base::NoMemory;
use linear_combinations::Label;
use sparse_polys::Monomial;
use std::alloc::Global;
use std::cmp::Ordering;
use std::hash::{Hash, Hasher};
use std::marker::Model;

/// The number of variables of a short monomial.
pub(crate) const VARIABLES: usize = 32;

/// A monomial in 32 variables with exponents of at most 255. It allocates no memory. In contracts,
/// its value is the list of its 32 exponents.
#[derive(Drop)]
pub(crate) struct ShortMonomial {
    exponents: [u8; VARIABLES],
}

impl Model for ShortMonomial {
    ghost use Rattle.std.specs.Prelude.{◌≡◌, ℕ, List, length};

    ghost Value = { List ℕ };

    ghost view = { λ m. m.exponents };

    ghost invariant = { λ m. length m.exponents ≡ 32 };
}

impl ShortMonomial {
    /// The monomial 1.
    pub fn one() -> ShortMonomial
        ensures { result ≡ replicate 32 0 }
    {
        ShortMonomial {
            exponents: [0; VARIABLES],
        }
    }

    /// The product of this monomial and the variable y_i. The index i is from 1 to 32, and the
    /// monomial has a degree of at most 254.
    pub fn times_var(&self, i: u16) -> ShortMonomial
        requires first { 1 ≤ i }
        requires last { i ≤ 32 }
        requires room { size self.now < 255 }
        ensures { result ≡ raised i self.now }
    {
        let mut exponents = self.exponents;
        exponents[usize::from(i) - 1] += 1;
        ShortMonomial { exponents }
    }

    /// This monomial in the type `Monomial`. Fails only if memory runs out.
    pub fn monomial(&self, alloc: Global) -> Result<Monomial, NoMemory>
        ensures { IfOk result (λ m. m ≡ without_last_zeros self.now) }
    {
        let mut exponents = [0u16; VARIABLES];
        for (at, exponent) in self.exponents.iter().enumerate() {
            exponents[at] = u16::from(*exponent);
        }
        match Monomial::from_exponents(alloc, &exponents) {
            Ok(monomial) => Ok(monomial),
            Err(_) => Err(NoMemory),
        }
    }
}

impl PartialEq for ShortMonomial {
    ghost eq = { pointwise nat_eq };

    ghost laws = { partial_equiv_from_equiv nat_list_eq_equiv };

    fn eq(&self, other: &ShortMonomial) -> bool {
        self.exponents == other.exponents
    }
}

impl Eq for ShortMonomial {
    ghost laws = { nat_list_eq_equiv };
}

impl Hash for ShortMonomial {
    ghost hash_input = { λ e. e ∷ [] };

    ghost respects_eq = { λ a b same. ap (λ e. e ∷ []) ((bytes_eq-Decides a b).0 same) };

    fn hash<H: Hasher>(&self, state: &mut H) {
        state.write(&self.exponents);
    }
}

impl Label for ShortMonomial {
    ghost use Rattle.std.specs.Prelude.{true};
    ghost use Rattle.linear_combinations.proofs.Labels.{same_partition};
    ghost use Rattle.linear_combinations.proofs.Labels.{falling_lists_total, falling_lists_equal};
    ghost use Rattle.double_schubert.specs.ShortMonomials.{falling_order};

    ghost is_label = { λ e. true };

    ghost is_short = { λ e. true };

    ghost order = { falling_order };

    fn cmp_printed(&self, other: &ShortMonomial) -> Ordering {
        other.exponents.as_slice().cmp(&self.exponents.as_slice())
    }

    fn copy(&self) -> Result<ShortMonomial, NoMemory> {
        Ok(ShortMonomial {
            exponents: self.exponents,
        })
    }

    ghost same_label = { same_partition };

    ghost order_total = { falling_lists_total };

    ghost order_equal = { falling_lists_equal };
}
