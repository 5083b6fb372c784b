//! The list to which the arrangements of a partition straighten, computed from the lists for the
//! partition without one part.

ghost use Rattle.std.specs.Prelude.{◌≡◌, ℕ, ◌<◌, ℤ, ◌*◌, pos, List, [], ◌∷◌, length};
ghost use Rattle.sym_model.specs.Polynomial.{pair};
ghost use Rattle.sym_model.specs.Partition.{IsPartition};
ghost use Rattle.sym_model.specs.WholeTerms.{WholeTerms};
ghost use Rattle.basis_change.specs.SpecialRimHooks.{all_hooks, AreStraightenings};
ghost use Rattle.basis_change.specs.SpecialRimHooks.{IsStraightening};

/// The list to which the arrangements of a partition λ straighten, computed from the lists for λ
/// without one part. Each arrangement has a last part a, and the arrangement of the other parts
/// before it is straightened first. So the list for λ is the sum, over the different parts a of λ
/// and over the terms of the list for λ without one a, of the results of adding a special rim hook
/// of a cells to the term (Egecioglu and Remmel's rule for m in s).
///
/// Example: the list for (2) is s_(2) - s_(1,1), from the rim hooks of two cells added to the empty
/// shape.
pub fn last_part_law()
    ensures none { IsStraightening [] (([], pos 1) ∷ []) }
    ensures step { (parts : List ℕ) (lists : List (ℕ × WholeTerms)) (terms : WholeTerms)
        → IsPartition parts → 0 < length parts
        → AreStraightenings parts lists → ((g : List ℕ → ℤ) → pair terms g ≡ all_hooks g lists)
        → IsStraightening parts terms }
{}
