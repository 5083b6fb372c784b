//! The polynomials m_λ, e_λ, h_λ and p_λ in different numbers of variables, related by setting
//! variables to 0.

ghost use Rattle.std.specs.Prelude.{◌≡◌, ℕ, ◌<◌, ◌≤◌, List};
ghost use Rattle.sym_model.specs.Polynomial.{Same, nothing, restrict};
ghost use Rattle.sym_model.specs.Partition.{ArePositive, rows};
ghost use Rattle.sym_model.specs.Bases.{monomial, elementary, complete, power_sum};

/// The polynomial m_λ, e_λ, h_λ or p_λ in n variables, restricted to k ≤ n variables, is the same
/// polynomial in k variables. If λ has more parts than there are variables, m_λ is 0. For p_λ the
/// parts of λ must be positive; for the other polynomials λ may be any list of numbers.
pub fn restriction_law()
    ensures monomial { (parts : List ℕ) (k n : ℕ) → k ≤ n
        → Same (restrict k (monomial parts n)) (monomial parts k) }
    ensures elementary { (parts : List ℕ) (k n : ℕ) → k ≤ n
        → Same (restrict k (elementary parts n)) (elementary parts k) }
    ensures complete { (parts : List ℕ) (k n : ℕ) → k ≤ n
        → Same (restrict k (complete parts n)) (complete parts k) }
    ensures power_sum { (parts : List ℕ) (k n : ℕ) → ArePositive parts → k ≤ n
        → Same (restrict k (power_sum parts n)) (power_sum parts k) }
    ensures few_variables { (parts : List ℕ) (n : ℕ) → n < rows parts
        → Same (monomial parts n) nothing }
{}
