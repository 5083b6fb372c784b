//! Fusion products, given by quantum products.

ghost use Rattle.std.specs.Prelude.{◌≡◌, ℕ, ◌≤◌, pos, List, ◌∷◌};
ghost use Rattle.sym_model.specs.Partition.{ArePartitions};
ghost use Rattle.sym_model.specs.Products.{classical_product};
ghost use Rattle.sym_model.specs.ReductionSteps.{with_power};
ghost use Rattle.sym_model.specs.Reductions.{reflected_terms};
ghost use Rattle.sym_model.specs.WholeTerms.{coefficient_by, same_power};
ghost use Rattle.product_laws.specs.FactorSteps.{reduced_product};
ghost use Rattle.rotation_laws.specs.Lifting.{all_lifted, lifted_label};
ghost use Rattle.rotation_laws.specs.Rotation.{IsInside};

/// The fusion product of some partitions for k rows at level n - k is their quantum product for k
/// rows and n - k columns if each label q^p·ν is read as a partition: p times, n is added to the
/// last entry of the beta list, which is then moved to the front (`lifted_label`). The products are
/// the classical product in k variables with its terms reflected into the alcove
/// (`reflected_terms`), and with its terms reduced by rim hooks of n cells (`reduced_product`).
///
/// Example: for two rows and two columns the quantum product of (2,1) and (1) is q·() + (2,2). The
/// beta list of () is 1 0, and moving 0 + 4 to the front gives 4 1, the beta list of (3,1): the
/// fusion product at level 2 is (3,1) + (2,2).
pub fn fusion_lifting_law()
    ensures products { (k n : ℕ) (factors : List (List ℕ)) → 1 ≤ n → k ≤ n
        → reflected_terms k n (classical_product k factors)
        ≡ all_lifted k n (reduced_product k n factors) }

    // A factor that is lifted p times multiplies the quantum product by q^p. By the first clause,
    // each label of the fusion product is then lifted p times more.
    ensures factor { (k n power : ℕ) (parts : List ℕ) (others : List (List ℕ)) → 1 ≤ n → 1 ≤ k
        → IsInside k n parts → ArePartitions others → (label : ℕ × List ℕ)
        → coefficient_by same_power
        (with_power power (pos 1) (reduced_product k n (parts ∷ others))) label
        ≡ coefficient_by same_power
        (reduced_product k n (lifted_label k n (power, parts) ∷ others)) label }
{}
