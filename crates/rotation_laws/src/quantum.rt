//! Rotations of a factor of a quantum product.

ghost use Rattle.std.specs.Prelude.{◌≡◌, ℕ, ◌+◌, ◌*◌, ◌/◌, ◌%◌, ◌≤◌, pos, List, ◌∷◌, length};
ghost use Rattle.sym_model.specs.Partition.{ArePartitions};
ghost use Rattle.sym_model.specs.ReductionSteps.{AreCollected, IsReducedInSteps, with_power};
ghost use Rattle.sym_model.specs.WholeTerms.{WholeTermsOf, coefficient_by, same_power};
ghost use Rattle.product_laws.specs.FactorSteps.{reduced_product};
ghost use Rattle.rotation_laws.specs.Rotation.{IsInside, rotated, wraps, all_turned, AreTurned};

/// Let a partition have at most k rows and n - k columns. Its beta list consists of k numbers below
/// n. The partition is rotated by r if r is added to each of them and n is subtracted from each sum
/// that is at least n; each subtraction gives a factor q. For r ≥ n the numbers are rotated by the
/// remainder, and each n in r gives the factor q^k.
///
/// The law: the quantum product of the rotated partition and others, times the power of q of this
/// rotation, is the quantum product of the partition and the others with each label rotated
/// (`all_turned`). The product is that in k variables, reduced by rim hooks of n cells
/// (`reduced_product`), and the others are any partitions.
///
/// Example: for two rows and two columns, rotating by 1 takes (1) to (2,1) and (2,1) to q·(1); the
/// product of (1) and (1) is (2) + (1,1), so that of (2,1) and (1) is q·() + (2,2).
pub fn quantum_rotation_law()
    ensures one { (k n r : ℕ) (parts : List ℕ) (others : List (List ℕ)) → 1 ≤ n
        → IsInside k n parts → ArePartitions others → (label : ℕ × List ℕ)
        → coefficient_by same_power (with_power (wraps k n (r % n) parts + r / n * k) (pos 1)
        (reduced_product k n (rotated k n (r % n) parts ∷ others))) label
        ≡ coefficient_by same_power (all_turned k n r (reduced_product k n (parts ∷ others))) label }

    // If all factors are rotated, by r in all, so is the product.
    ensures several { (k n : ℕ) (factors bases : List (List ℕ)) (r power : ℕ) → 1 ≤ n
        → AreTurned k n factors bases r power → (label : ℕ × List ℕ)
        → coefficient_by same_power (with_power power (pos 1) (reduced_product k n factors)) label
        ≡ coefficient_by same_power (all_turned k n r (reduced_product k n bases)) label }

    // The same for products that are reduced after each factor: the list `terms` is that of the
    // bases, and the list `answer`, times q^power, has the coefficients of its rotated terms.
    ensures steps { (k n : ℕ) (factors bases : List (List ℕ)) (r power : ℕ)
        (terms answer : WholeTermsOf (ℕ × List ℕ)) → 1 ≤ n → 2 ≤ length factors
        → 2 ≤ length bases → AreTurned k n factors bases r power
        → IsReducedInSteps k n bases terms → AreCollected same_power answer
        → ((label : ℕ × List ℕ) → coefficient_by same_power (with_power power (pos 1) answer) label
        ≡ coefficient_by same_power (all_turned k n r terms) label)
        → IsReducedInSteps k n factors answer }

    // Rotating by r and then by n - r gives the partition back, and the factor q^k.
    ensures back { (k n r s : ℕ) (parts : List ℕ) → r + s ≡ n → IsInside k n parts
        → rotated k n s (rotated k n r parts) ≡ parts }
    ensures turns { (k n r s : ℕ) (parts : List ℕ) → r + s ≡ n → IsInside k n parts
        → wraps k n s (rotated k n r parts) + wraps k n r parts ≡ k }
{}
