//! Bounds for the coefficients of plethysms, and for the numbers in their computation by power
//! sums.

ghost use Rattle.std.specs.Prelude.{◌≡◌, ℕ, ◌+◌, ◌*◌, ◌^◌, ◌≤◌, ℤ, List, length};
ghost use Rattle.sym_model.specs.Sum.{Among, Once};
ghost use Rattle.sym_model.specs.Partition.{ArePositive, size};
ghost use Rattle.sym_model.specs.Polynomial.{Poly, coefficient};
ghost use Rattle.sym_model.specs.Expansion.{Fraction, Terms};
ghost use Rattle.sym_model.specs.ListWeight as listed;
ghost use Rattle.sym_model.specs.Plethysm.{plethysm};
ghost use Rattle.sym_model.specs.Weight.{factorial};
ghost use Rattle.sym_model.specs.WholeTerms.{WholeTerms, absolute_total};
ghost use Rattle.monomial_laws.specs.ExpressionTerms.{in_monomials, over};
ghost use Rattle.monomial_laws.specs.Majorant.{IsBounded};
ghost use Rattle.monomial_laws.proofs.DividedTerms.{labels_of};
ghost use Rattle.plethysm_laws.specs.SumsOfMonomials.{IsMonomialSum};
ghost use Rattle.plethysm_laws.specs.PowerSumPlethysm.{power_sum_plethysm, met};

/// A polynomial in n variables is bounded by N at the degree d if the absolute values of its
/// coefficients are at most the coefficients of a sum of at most N powers of x₁ + .. + xₙ with
/// exponents up to d.
///
/// Let g have degree at most b and no negative coefficient, and let it be bounded by K ≥ 1 at the
/// degree b. If f is bounded by N at the degree a, in every number of variables, then f[g] is
/// bounded by N·K^a at the degree ab. For a list of terms c·p_λ, with all labels λ of at most a
/// cells, and any exponents α, the sum, over the terms, of |c| times the absolute value of the
/// coefficient of x^α in p_λ[g] is at most K^a·(ab)! times the sum of the |c|.
///
/// Let a list of terms c·m_λ have each label once, and let each label have at most a cells. Let D
/// be a common denominator of the coefficients, and let |c|·D·Π λ_i! ≤ N·|λ|! for each term. Then D
/// times the polynomial of the list is bounded by N·(a+1) at the degree a.
pub fn plethysm_bounds_law()
    ensures plethysm { (N a K b n : ℕ) (f : ℕ → Poly) (g : Poly)
        → 1 ≤ K → IsMonomialSum b n g → IsBounded K b n g
        → ((m : ℕ) → IsBounded N a m (f m)) → IsBounded (N * K ^ a) (a * b) n (plethysm f b n g) }
    ensures path { (K a b n : ℕ) (terms : WholeTerms) (g : Poly) → 1 ≤ K
        → ((t : List ℕ × ℤ) → Among t terms → ArePositive t.0 × (size t.0 ≤ a))
        → IsMonomialSum b n g → IsBounded K b n g
        → (α : List ℕ) → length α ≡ n
        → met terms (λ label. coefficient (power_sum_plethysm label g n) α)
        ≤ absolute_total terms * (K ^ a * factorial (a * b)) }
    ensures list { (N D a n : ℕ) (terms : Terms (List ℕ)) → Once (labels_of terms)
        → ((t : List ℕ × Fraction) → Among t terms → size t.0 ≤ a) → listed.IsBounded N D terms
        → IsBounded (N * (a + 1)) a n (in_monomials (over D terms) n) }
{}
