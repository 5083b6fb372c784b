//! The law that reductions by rim hooks do not depend on the order in which the rim hooks are
//! removed.

ghost use Rattle.std.specs.Prelude.{◌≡◌, ◌↔◌, ℕ, ◌≤◌, List};
ghost use Rattle.sym_model.specs.Expansion.{Terms};
ghost use Rattle.sym_model.specs.ReductionSteps.{AreCollected, IsQuantumStep, ReduceEach};
ghost use Rattle.sym_model.specs.ReductionSteps.{reduced_each};
ghost use Rattle.sym_model.specs.Reductions.{AreReductions, IsRimHookReduction, Reduction};
ghost use Rattle.sym_model.specs.Products.{classical_product};
ghost use Rattle.sym_model.specs.Reductions.{reduced_terms};
ghost use Rattle.sym_model.specs.WholeTerms.{WholeTermsOf, numerators, same_power};
ghost use Rattle.rim_hooks.specs.AnyOrder.{HaveSameSums};

/// The order in which rim hooks are removed does not matter in a quantum product. If the terms of
/// the classical product are reduced in another order, each label has the same total coefficient in
/// the result. `step` says this for one step: it multiplies a list of terms by one more factor,
/// reduces each term of the product and adds up the terms with equal labels.
///
/// Example: from (2,2), a rim hook of two cells can be removed in the second column or in the
/// second row; then the two cells that remain are removed. Both orders end with the empty
/// partition, q^2 and, for two rows, the sign 1.
pub fn removal_order_law()
    ensures whole { (k n : ℕ) (factors : List (List ℕ)) (terms : Terms (ℕ × List ℕ))
        (reductions : List Reduction) → 1 ≤ n
        → AreReductions k n (classical_product k factors) reductions
        → IsRimHookReduction k n (classical_product k factors) terms
        ↔ HaveSameSums (numerators terms) (reduced_terms (classical_product k factors) reductions) }
    ensures step { (k n : ℕ) (factor : List ℕ) (terms next : WholeTermsOf (ℕ × List ℕ))
        (reductions : List (List Reduction)) → 1 ≤ n
        → ReduceEach k n factor terms reductions
        → IsQuantumStep k n factor terms next
        ↔ (AreCollected same_power next
        × HaveSameSums next (reduced_each k factor terms reductions)) }
{}
