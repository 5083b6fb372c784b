//! Lists of terms y^e·S_w, with S_w a double Schubert polynomial, and the products of such lists
//! with x_r - y_c.
ghost use Rattle.std.specs.Prelude.{ℕ, ◌+◌, ◌*◌, ◌^◌, ◌≤◌, max, [], ◌∷◌, length, IfOk, OnOk};
ghost use Rattle.std.specs.Prelude.{IsErrOf};
ghost use Rattle.sym_model.specs.DoubleSchubert.{difference_in, shifted_in};
ghost use Rattle.sym_model.specs.Expansion.{Represents};
ghost use Rattle.sym_model.specs.ListWeight.{list_weight};
ghost use Rattle.sym_model.specs.Polynomial.{times};
ghost use Rattle.sym_model.specs.WholeTerms.{as_fractions, combined};
ghost use Rattle.linear_combinations.specs.Gains.{HaveLabels, Gains, Overflows};
ghost use Rattle.transition_laws.specs.Shifts.{IsWithin, each_beside, equal, greatest_length};

use calc_base::SumFault;
use coeff_rings::{Int, Ring};
use linear_combinations::{Lin, Rule};
use perm_codes::Perm;
use sparse_polys::{Monomial, Shifted};
use std::alloc::Global;
use transition_walk::Factor;

/// A list of terms y^e·S_w with integer coefficients; S_w is a double Schubert polynomial.
pub(crate) type Shifts = Lin<Shifted, Int>;

/// The rule that multiplies by x_r - y_c: by Monk's rule, (x_r - y_c)·y^e·S_w is the sum of the
/// y^e·S_v over the covers v = w·t_rj with j > r, minus the sum of the y^e·S_v over the covers v =
/// w·t_ir with i < r, plus (y_w(r) - y_c)·y^e·S_w.
#[derive(Drop)]
pub(crate) struct TimesFactor {
    pub(crate) r: u16,
    pub(crate) c: u16,
}

impl Rule<Shifted, Shifted> for TimesFactor {
    ghost use Rattle.transition_laws.specs.Shifts.{IsFactor, IsWithin, factor_terms};

    ghost takes = { λ rule label. IsFactor rule.r rule.c × IsWithin 254 32384 label };

    ghost image = { λ rule label. factor_terms rule.r rule.c label };

    fn add_image(&self, label: &Shifted, k: Int, sum: &mut Shifts) -> Result<(), SumFault> {
        let covers = label.perm.covers_at(self.r)?;
        let letter = label.perm.letter(self.r);
        let more = label.y.times_var(letter)?;
        let less = label.y.times_var(self.c)?;
        let minus = k.neg().ok_or(SumFault::Large)?;
        add_beside(sum, covers.up(), &label.y, k)?;
        add_beside(sum, covers.down(), &label.y, minus)?;
        add_one(sum, &label.perm, more, k)?;
        add_one(sum, &label.perm, less, minus)
    }
}

/// Adds `k` to the coefficient of the term y^e·S_w in `sum`, for w = `perm` and y^e = `y`.
fn add_one(sum: &mut Shifts, perm: &Perm, y: Monomial, k: Int) -> Result<(), SumFault>
    ensures gains { OnOk result (Gains sum.old (((perm.now, y), k) ∷ []) sum.new) }
    ensures large { IsErrOf result SumFault.Large
        → Overflows equal sum.old (((perm.now, y), k) ∷ []) }
{
    let perm = perm.copy()?;
    sum.add_owned(Shifted { perm, y }, k)
}

/// Adds `k` to the coefficient of the term y^e·S_w in `sum`, for each permutation w of `perms` and
/// for y^e = `y`.
fn add_beside(sum: &mut Shifts, perms: &[Perm], y: &Monomial, k: Int) -> Result<(), SumFault>
    ensures gains { OnOk result (Gains sum.old (each_beside k y.now perms.now) sum.new) }
    ensures large { IsErrOf result SumFault.Large
        → Overflows equal sum.old (each_beside k y.now perms.now) }
{
    for perm in perms {
        add_one(sum, perm, y.copy()?, k)?;
    }
    Ok(())
}

impl Factor<Shifted> for TimesFactor {
    ghost use Rattle.std.specs.Prelude.{length, max};
    ghost use Rattle.sym_model.specs.DoubleSchubert.{shifted_in};
    ghost use Rattle.sym_model.specs.Partition.{size};
    ghost use Rattle.sym_model.specs.Permutation.{letter};
    ghost use Rattle.double_schubert_laws.specs.Factors.{acted};
    ghost use Rattle.transition_laws.proofs.FactorLaws.{factor_start, factor_step, factor_grows};

    ghost made = { λ r v. record { r = r; c = letter v r } };

    ghost extent = { λ label. max (length label.0) (size label.1) };

    ghost most = { 254 };

    ghost extra = { 2 };

    ghost polynomial = { λ n label. shifted_in label n };

    ghost product = { acted };

    fn at(r: u16, lower: &Perm) -> TimesFactor {
        TimesFactor {
            r,
            c: lower.letter(r),
        }
    }

    ghost start = { factor_start };

    ghost step = { factor_step };

    ghost grows = { factor_grows };
}

/// The sum `list` of terms y^e·S_w is multiplied by x_r - y_c, by Monk's rule and x_r·S_w = (x_r -
/// y_w(r))·S_w + y_w(r)·S_w (Lascoux and Schützenberger). The places r and c are from 1 to 254,
/// each permutation has at most 254 letters, and each monomial in y has a degree below 32,385.
///
/// The weight of a list is the sum of the absolute values of its coefficients, or 1 for the empty
/// list. The weight of the product is at most the weight of `list` times m + 2, with m the greater
/// of r and the greatest number of letters of a permutation. Returns `Large` only if that bound is
/// 2^127 or more.
pub fn times_factor(
    alloc: Global,
    list: Lin<Shifted, Int>,
    r: u16,
    c: u16,
) -> Result<Lin<Shifted, Int>, SumFault>
    requires first { 1 ≤ r }
    requires last { r ≤ 254 }
    requires column { 1 ≤ c }
    requires last_column { c ≤ 254 }
    requires labels { HaveLabels (IsWithin 254 32384) list }
    ensures value { IfOk result (λ product. (n : ℕ)
        → Represents (λ label. shifted_in label n) (as_fractions product)
        (times (difference_in r c n) (combined (λ label. shifted_in label n) list)) 1) }
    ensures weight { IfOk result (λ product. list_weight (as_fractions product)
        ≤ list_weight (as_fractions list) * (max r (greatest_length list) + 2)) }
    ensures labels { IfOk result (λ product. (letters degree : ℕ)
        → HaveLabels (IsWithin letters degree) list → r ≤ letters
        → HaveLabels (IsWithin (letters + 1) (degree + 1)) product) }
    ensures large { IsErrOf result SumFault.Large
        → 2 ^ 127 ≤ list_weight (as_fractions list) * (max r (greatest_length list) + 2) }
{
    let mut product = Lin::new(alloc);
    product.add_by(&TimesFactor { r, c }, &list)?;
    Ok(product)
}
