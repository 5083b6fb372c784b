//! The trait of the reductions that can be applied to a product after each factor.
ghost use Rattle.std.specs.Prelude.{◌≡◌, ℕ, ◌+◌, ◌≤◌, ℤ, ◌*ℤ◌, List, [], IfOk, OnOk, IsErrOf};
ghost use Rattle.fraction_laws.specs.Fractions.{whole};
ghost use Rattle.sym_model.specs.Partition.{IsPartition, rows, size};
ghost use Rattle.linear_combinations.specs.Entries.{IsCombination};
ghost use Rattle.linear_combinations.specs.Gains.{HaveLabels, Gains, Overflows, mass, over, scaled};
ghost use Rattle.reduction_laws.specs.Reductions.{multiplied};

use calc_base::{NoMemory, SumFault};
use coeff_rings::Int;
use linear_combinations::{Label, Lin};
use partitions::Partition;
use std::alloc::Global;

/// A way to reduce partitions: by rim hooks (quantum products) or into the alcove (fusion
/// products). A product of a label and a factor has terms with partitions μ; each μ is reduced to
/// one label of the type `L` with a sign, or to nothing.
pub(crate) trait Reduction<L: Label> {
    // The parameters of the reduction are within their limits.
    ghost is_rule: { Self → Type 0 };

    // The number of variables of the products.
    ghost variables: { Self → ℕ };

    // The partition of a label.
    ghost shape: { L → List ℕ };

    // The number of cells of a label: the size of its partition, plus its power of q if it has one.
    ghost cells: { L → ℕ };

    // The label of the first factor. A product begins with this label as its only term.
    ghost start: { List ℕ → L };

    // For a label, and for a partition in the product of a factor and the label's partition: the
    // list with the one reduced term, or the empty list if the partition reduces to 0.
    ghost reduced: { Self → L → List ℕ → List (L × ℤ) };

    // The second list is obtained from the first by multiplying it by the factor and reducing the
    // product.
    ghost step: { Self → List ℕ → List (L × ℤ) → List (L × ℤ) → Type 0 };

    /// The number of variables of the products.
    fn variables(&self) -> u16
        ensures { result ≡ variables self.now };

    /// The partition of a label.
    fn shape(label: &L) -> &Partition
        ensures { result.now ≡ shape label.now };

    /// The label of the first factor. A product begins with this label as its only term.
    fn start(first: &Partition) -> Result<L, NoMemory>
        ensures { IfOk result (λ label. label ≡ start first.now) };

    /// Adds to `sums` c·d times the reduced term for `label` and `grown`. Here `grown` is a
    /// partition in the product of a factor and the partition of `label`, and `d` is its
    /// coefficient in this product. Returns `Large` only if adding this term overflows.
    fn add_reduced(
        &self,
        alloc: Global,
        label: &L,
        grown: &Partition,
        c: Int,
        d: Int,
        sums: &mut Lin<L, Int>,
    ) -> Result<(), SumFault>
        requires rule { is_rule self.now }
        requires rows { rows grown.now ≤ variables self.now }
        requires cells { cells label.now ≤ 4096 }
        requires size { size grown.now ≤ 4096 }
        requires table { IsCombination L.eq L.is_label whole sums.old }
        ensures gains { OnOk result (Gains sums.old
            (scaled (c *ℤ d) (reduced self.now label.now grown.now)) sums.new) }
        ensures table { OnOk result (IsCombination L.eq L.is_label whole sums.new) }
        ensures large { IsErrOf result SumFault.Large
            → Overflows L.eq sums.old (scaled (c *ℤ d) (reduced self.now label.now grown.now)) };

    ghost bounds: { (rule : Self) → is_rule rule → (1 ≤ variables rule) × (variables rule ≤ 64) };

    ghost start_is: { (first : List ℕ)
        → (shape (start first) ≡ first) × (cells (start first) ≡ size first) };

    ghost within: { (label : L) → size (shape label) ≤ cells label };

    ghost light: { (rule : Self) (label : L) (μ : List ℕ) → mass (reduced rule label μ) ≤ 1 };

    ghost room: { (rule : Self) (label : L) (μ : List ℕ) → is_rule rule → IsPartition μ
        → rows μ ≤ variables rule
        → HaveLabels (λ m. (rows (shape m) ≤ variables rule)
        × (cells m + size (shape label) ≤ cells label + size μ))
        (reduced rule label μ) };

    ghost made: { (rule : Self) (factor : List ℕ) (terms next : List (L × ℤ)) → is_rule rule
        → IsCombination L.eq L.is_label whole next
        → Gains [] (multiplied (variables rule) shape (reduced rule) factor terms) next
        → step rule factor terms next };

    ghost changed: { (rule : Self) (factor : List ℕ) (terms next other : List (L × ℤ))
        → IsCombination L.eq L.is_label whole other
        → ((φ : L → ℤ) → over φ other ≡ over φ next) → step rule factor terms next
        → step rule factor terms other };
}
