//! The list of the partitions of d has each partition of d exactly once, in decreasing
//! lexicographic order.

ghost use Rattle.std.specs.Prelude.{◌≡◌, ◌↔◌, ℕ, List, [], ◌∷◌};
ghost use Rattle.sym_model.specs.Sum.{Among, Once};
ghost use Rattle.sym_model.specs.Partition.{IsPartition, size};
ghost use Rattle.sym_model.specs.PartitionList.{partitions_of, FallsLexicographically};

/// The list `partitions_of d` contains the partitions of d and nothing else, each once, in
/// decreasing lexicographic order.
pub fn partitions_of_law()
    ensures exactly { (d : ℕ) (parts : List ℕ) → Among parts (partitions_of d)
        ↔ (IsPartition parts × (size parts ≡ d)) }
    ensures once { (d : ℕ) → Once (partitions_of d) }
    ensures order { (d : ℕ) → FallsLexicographically (partitions_of d) }
    ensures of_4 { partitions_of 4
        ≡ (4 ∷ []) ∷ (3 ∷ 1 ∷ []) ∷ (2 ∷ 2 ∷ []) ∷ (2 ∷ 1 ∷ 1 ∷ []) ∷ (1 ∷ 1 ∷ 1 ∷ 1 ∷ []) ∷ [] }
{}
