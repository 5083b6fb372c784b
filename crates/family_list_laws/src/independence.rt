//! Products of the polynomials p_k, e_k and h_k are linearly independent.

ghost use Rattle.std.specs.Prelude.{ℕ, List};
ghost use Rattle.sym_model.specs.Polynomial.{same};
ghost use Rattle.sym_model.specs.Bases.{power_sum, elementary, complete};
ghost use Rattle.independence_laws.specs.Independence.{AreIndependent, HasRows};
ghost use Rattle.family_list_laws.specs.SmallPartitions.{IsSmall};

/// In n variables, the p_λ of all partitions λ with at most n rows are linearly independent over
/// the integers. So are the e_λ, and the h_λ, of all partitions with at most n cells (Macdonald,
/// I.2).
pub fn family_independence_law()
    ensures power_sums { (n : ℕ)
        → AreIndependent same (HasRows n) (λ (parts : List ℕ). power_sum parts n) }
    ensures elementary { (n : ℕ)
        → AreIndependent same (IsSmall n) (λ (parts : List ℕ). elementary parts n) }
    ensures complete { (n : ℕ)
        → AreIndependent same (IsSmall n) (λ (parts : List ℕ). complete parts n) }
{}
