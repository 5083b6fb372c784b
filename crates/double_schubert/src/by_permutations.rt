//! Sums of terms f_w·S_w, with S_w a double Schubert polynomial and f_w a polynomial in y, stored
//! as one polynomial in y for each permutation w; and the products of such sums with x_r - y_c.
ghost use Rattle.std.specs.Prelude.{ℕ, ◌+◌, ◌*◌, ◌^◌, ◌<◌, ◌≤◌, max, [], ◌∷◌, ◌++◌, List, length};
ghost use Rattle.std.specs.Prelude.{IfOk, OnOk, IsErrOf, ℤ, ◌≡◌};
ghost use Rattle.sym_model.specs.Permutation.{IsOneLine, covers_down, covers_up};
ghost use Rattle.sym_model.specs.Partition.{size};
ghost use Rattle.linear_combinations.specs.Gains.{HaveLabels, replaced};
ghost use Rattle.transition_walk.specs.Waiting.{AreWaiting, IsWaiting, Joins, WaitingOverflows};
ghost use Rattle.transition_walk.specs.Waiting.{each_waits, growth, value_of};
ghost use Rattle.double_schubert_laws.specs.Factors.{over_factor};
ghost use Rattle.double_schubert.specs.ByPermutations.{at_pairs, factor_lists, one_each};

use crate::short_monomial::ShortMonomial;
use calc_base::SumFault;
use coeff_rings::Int;
use linear_combinations::{Label, Lin, Rule};
use perm_codes::Perm;
use std::alloc::Global;
use transition_walk::{Waiting, add_waiting_by};

/// A polynomial in y with integer coefficients.
pub(crate) type InY = Lin<ShortMonomial, Int>;

/// A sum of terms f_w·S_w, with S_w the double Schubert polynomial of w: a list of different
/// permutations w, each with its polynomial f_w in y.
pub(crate) type ByPermutations = Vec<Waiting<InY>>;

/// The rule that multiplies a polynomial in y by 1.
#[derive(Drop)]
struct Plus;

/// The rule that multiplies a polynomial in y by -1.
#[derive(Drop)]
struct Minus;

/// The rule that multiplies a polynomial in y by y_a - y_c.
#[derive(Drop)]
struct Difference {
    a: u16,
    c: u16,
}

impl Rule<ShortMonomial, ShortMonomial> for Plus {
    ghost use Rattle.std.specs.Prelude.{⊤};
    ghost use Rattle.double_schubert.specs.ByPermutations.{plus_terms};

    ghost takes = { λ rule e. ⊤ };

    ghost image = { λ rule e. plus_terms e };

    fn add_image(&self, e: &ShortMonomial, k: Int, sum: &mut InY) -> Result<(), SumFault> {
        sum.add_at_label(e, k)
    }
}

impl Rule<ShortMonomial, ShortMonomial> for Minus {
    ghost use Rattle.std.specs.Prelude.{⊤};
    ghost use Rattle.double_schubert.specs.ByPermutations.{minus_terms};

    ghost takes = { λ rule e. ⊤ };

    ghost image = { λ rule e. minus_terms e };

    fn add_image(&self, e: &ShortMonomial, k: Int, sum: &mut InY) -> Result<(), SumFault> {
        let label = Some(e.copy()?);
        sum.subtract_each(label.as_slice(), k)
    }
}

impl Rule<ShortMonomial, ShortMonomial> for Difference {
    ghost use Rattle.double_schubert.specs.ByPermutations.{HasRoomFor, difference_terms};

    ghost takes = { λ rule e. HasRoomFor rule.a rule.c e };

    ghost image = { λ rule e. difference_terms rule.a rule.c e };

    fn add_image(&self, e: &ShortMonomial, k: Int, sum: &mut InY) -> Result<(), SumFault> {
        if self.a == self.c {
            return Ok(());
        }
        sum.add_owned(e.times_var(self.a), k)?;
        let less = Some(e.times_var(self.c));
        sum.subtract_each(less.as_slice(), k)
    }
}

/// For each permutation of `perms`, adds the image of `poly` under `rule` to the polynomial in y
/// that `sum` has for this permutation.
fn add_at_each<T: Rule<ShortMonomial, ShortMonomial>>(
    alloc: Global,
    sum: &mut ByPermutations,
    perms: &[Perm],
    poly: &InY,
    rule: &T,
) -> Result<(), SumFault>
    requires { HaveLabels (T.takes rule.now) poly.now }
    ensures joins { OnOk result (Joins sum.old.items
        (each_waits (replaced (T.image rule.now) poly.now) perms.now) sum.new.items) }
    ensures large { IsErrOf result SumFault.Large → WaitingOverflows sum.old.items
        (each_waits (replaced (T.image rule.now) poly.now) perms.now) }
{
    for perm in perms {
        add_waiting_by(alloc, sum, perm.copy()?, poly, rule)?;
    }
    Ok(())
}

/// Adds to `sum` the product of x_r - y_c and f·S_w, by Monk's rule; w is the permutation of `term`
/// and f its polynomial in y.
fn add_product(
    alloc: Global,
    sum: &mut ByPermutations,
    term: Waiting<InY>,
    r: u16,
    c: u16,
) -> Result<(), SumFault>
    requires first { 1 ≤ r }
    requires last { r ≤ 31 }
    requires column { 1 ≤ c }
    requires last_column { c ≤ 32 }
    requires letters { length term.perm ≤ 31 }
    requires degree { HaveLabels (λ e. size e < 255) term.factor }
    ensures joins { OnOk result (Joins sum.old.items (factor_lists r c term) sum.new.items) }
    ensures one_line { OnOk result (IsOneLine term.perm) }
    ensures large { IsErrOf result SumFault.Large
        → WaitingOverflows sum.old.items (factor_lists r c term) }
{
    let Waiting { perm, factor } = term;
    let covers = perm.covers_at(r)?;
    let difference = Difference {
        a: perm.letter(r),
        c,
    };
    add_at_each(alloc, sum, covers.up(), &factor, &Plus)?;
    add_at_each(alloc, sum, covers.down(), &factor, &Minus)?;
    add_waiting_by(alloc, sum, perm, &factor, &difference)
}

/// The product of x_r - y_c and a sum of terms f_w·S_w.
pub(crate) fn times_factor(
    alloc: Global,
    sum: ByPermutations,
    r: u16,
    c: u16,
) -> Result<ByPermutations, SumFault>
    requires first { 1 ≤ r }
    requires last { r ≤ 31 }
    requires column { 1 ≤ c }
    requires last_column { c ≤ 32 }
    requires bounds { AreWaiting size 31 254 sum.items }
    ensures value { IfOk result (λ product. (φ ψ : List ℕ × List ℕ → ℤ)
        → ((label : List ℕ × List ℕ) → IsOneLine label.0 → ψ label ≡ over_factor r c φ label)
        → value_of (at_pairs φ) product.items ≡ value_of (at_pairs ψ) sum.items) }
    ensures bounds { IfOk result (λ product. (n top : ℕ) → r ≤ n → AreWaiting size n top sum.items
        → AreWaiting size (n + 1) (top + 2) product.items) }
    ensures weight { IfOk result (λ product. (n top : ℕ) → r ≤ n → AreWaiting size n top sum.items
        → growth one_each product.items ≤ growth one_each sum.items * (n + 2)) }
    ensures large { IsErrOf result SumFault.Large → (n top : ℕ) → r ≤ n
        → AreWaiting size n top sum.items
        → 2 ^ 127 ≤ growth one_each sum.items * (n + 2) }
{
    let mut product = Vec::new(alloc);
    for term in sum {
        add_product(alloc, &mut product, term, r, c)?;
    }
    Ok(product)
}
