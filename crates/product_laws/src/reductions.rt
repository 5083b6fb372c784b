//! Products of several factors that are reduced by rim hooks or into the alcove, at the end or after
//! each factor.

ghost use Rattle.std.specs.Prelude.{◌≡◌, ◌↔◌, ℕ, ◌≤◌, List, length};
ghost use Rattle.sym_model.specs.Polynomial.{Same, same};
ghost use Rattle.sym_model.specs.Expansion.{Terms};
ghost use Rattle.sym_model.specs.WholeTerms.{WholeTerms, same_power, numerators, coefficient_by};
ghost use Rattle.sym_model.specs.ReductionSteps.{AreCollected, IsReducedInSteps};
ghost use Rattle.sym_model.specs.ReductionSteps.{IsReflectedInSteps};
ghost use Rattle.sym_model.specs.Reductions.{IsRimHookReduction, IsAlcoveReductionOf, reflected_terms};
ghost use Rattle.sym_model.specs.Products.{classical_product};
ghost use Rattle.sym_model.specs.Partition.{ArePartitions};

/// Let two or more factors be given. A list of terms results from multiplying them one by one, with
/// a reduction by rim hooks of n cells (or by reflections into the alcove) after each factor, if
/// and only if two conditions hold: each label occurs in the list once, with a coefficient other
/// than 0; and the list is a reduction of the product of all factors in k variables
/// (`classical_product`).
///
/// Example: in two variables, with rim hooks of four cells, the product of (1) and (1) is (2) +
/// (1,1), and multiplying this by (1) gives 2·(2,1) + (3); here (3) reduces to 0. The product of
/// all three, (3) + 2·(2,1), reduces to the same list.
pub fn reductions_in_steps_law()
    ensures rim_hooks { (k n : ℕ) (factors : List (List ℕ)) (terms : Terms (ℕ × List ℕ))
        → 1 ≤ n → 2 ≤ length factors → ArePartitions factors
        → IsReducedInSteps k n factors (numerators terms)
        ↔ (AreCollected same_power (numerators terms)
        × IsRimHookReduction k n (classical_product k factors) terms) }
    ensures fusion { (k n : ℕ) (factors : List (List ℕ)) (terms : WholeTerms)
        → 1 ≤ n → 2 ≤ length factors → ArePartitions factors
        → IsReflectedInSteps k n factors terms
        ↔ (AreCollected same terms
        × Same terms (reflected_terms k n (classical_product k factors))) }
{}

/// The product of the factors in k variables has one reduction by rim hooks of n cells, and one into
/// the alcove: any two lists that are a reduction of it have the same coefficient at each label.
pub fn one_reduction_law()
    ensures rim_hooks { (k n : ℕ) (factors : List (List ℕ)) (first second : Terms (ℕ × List ℕ))
        → 1 ≤ n → IsRimHookReduction k n (classical_product k factors) first
        → IsRimHookReduction k n (classical_product k factors) second
        → (label : ℕ × List ℕ) → coefficient_by same_power (numerators first) label
        ≡ coefficient_by same_power (numerators second) label }
    ensures fusion { (k n : ℕ) (factors : List (List ℕ)) (first second : Terms (List ℕ))
        → IsAlcoveReductionOf k n (classical_product k factors) first
        → IsAlcoveReductionOf k n (classical_product k factors) second
        → Same (numerators first) (numerators second) }
{}
