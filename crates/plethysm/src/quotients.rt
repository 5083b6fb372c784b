//! Division of the coefficients of a list by a number that divides them all.
ghost use Rattle.std.specs.Prelude.{◌≡◌, ℕ, ◌<◌, ◌^◌, pos, int_div, IfOk, IsErrOf};
ghost use Rattle.sym_model.specs.Polynomial.{Poly, scale};
ghost use Rattle.monomial_laws.specs.ExpressionTerms.{IsList};
ghost use Rattle.sparse_polys.specs.Tables.{IsWholeTable};

use calc_base::SumFault;
use coeff_rings::Int;
use linear_combinations::Lin;
use sparse_polys::Whole;
use std::alloc::Global;

/// The integer quotient c/k, rounded towards 0.
fn quotient(c: Int, k: u128) -> Int
    requires { (0 < k) × (k < 2 ^ 127) }
    ensures { result ≡ int_div c (pos k) }
{
    Int::new(c.get() / k as i128)
}

/// The list in m with each coefficient divided by k. If in n variables, for every n, the list is k
/// times a polynomial f(n), then in n variables the result is f(n). `Large` is never returned.
pub(crate) fn quotients(alloc: Global, list: &Whole, k: u128) -> Result<Whole, SumFault>
    requires { (0 < k) × (k < 2 ^ 127) }
    ensures value { IfOk result (λ quotients. (f : ℕ → Poly)
        → IsList list.now (λ n. scale (pos k) (f n)) → IsList quotients f) }
    ensures table { IfOk result IsWholeTable }
    ensures small { ¬ IsErrOf result SumFault.Large }
{
    let mut quotients = Lin::new(alloc);
    for (label, c) in list.iter() {
        quotients.add_term(label.copy()?, quotient(*c, k))?;
    }
    Ok(quotients)
}
