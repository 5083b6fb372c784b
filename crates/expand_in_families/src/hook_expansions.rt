//! A Schur polynomial as a sum of products of one h_k or e_k and a Schur polynomial of fewer rows
//! or columns.

ghost use Rattle.std.specs.Prelude.{◌≡◌, ℕ, ◌+◌, ◌-◌, ◌<◌, ◌≤◌, List, length, flat_map};
ghost use Rattle.sym_model.specs.Sum.{Among};
ghost use Rattle.sym_model.specs.Partition.{IsPartition, size, rows};
ghost use Rattle.sym_model.specs.Conjugate.{conjugate};
ghost use Rattle.sym_model.specs.Polynomial.{Same, times, scale};
ghost use Rattle.sym_model.specs.Bases.{complete_of, elementary_of};
ghost use Rattle.sym_model.specs.Schur.{schur};
ghost use Rattle.sym_model.specs.PlaceOrders.{minus_one_to};
ghost use Rattle.sym_model.specs.Strip.{IsRimHook, height};
ghost use Rattle.expand_in_families.specs.SpecialHooks.{SpecialHook, special_hooks};

/// In every number n of variables, for a partition λ with at least one row: s_λ is the sum, over
/// the special rim hooks of λ, of (-1)^(height - 1)·h_k·s_μ, with k the number of cells of the hook
/// and μ the remaining shape (the Jacobi-Trudi determinant expanded along its last column;
/// Egecioglu and Remmel). With e_k in place of h_k and the conjugate of μ in place of μ, the sum is
/// the Schur polynomial of the conjugate of λ.
///
/// The remaining shape is a partition. The hook has the other cells, at least one, and is a rim
/// hook that contains the whole last row of λ. There is one special rim hook for each row of λ.
///
/// Example: the hooks of (2,1) have 3 cells, with the empty shape remaining, and 1 cell, with (2)
/// remaining: s_(2,1) = -h_3 + h_1·s_(2).
pub fn special_hooks_law()
    ensures complete { (n : ℕ) (parts : List ℕ) → IsPartition parts → 1 ≤ rows parts
        → Same (schur parts n)
        (flat_map (λ (h : SpecialHook). scale h.sign
        (times (complete_of h.cells n) (schur h.rest n))) (special_hooks parts)) }
    ensures elementary { (n : ℕ) (parts : List ℕ) → IsPartition parts → 1 ≤ rows parts
        → Same (schur (conjugate parts) n)
        (flat_map (λ (h : SpecialHook). scale h.sign
        (times (elementary_of h.cells n) (schur (conjugate h.rest) n)))
        (special_hooks parts)) }
    ensures shapes { (parts : List ℕ) (h : SpecialHook) → IsPartition parts
        → Among h (special_hooks parts)
        → IsPartition h.rest × (1 ≤ h.cells) × (size h.rest + h.cells ≡ size parts) }
    ensures rim_hooks { (parts : List ℕ) (h : SpecialHook) → IsPartition parts
        → Among h (special_hooks parts)
        → IsRimHook parts h.rest × (rows h.rest < rows parts)
        × (h.sign ≡ minus_one_to (height parts h.rest - 1)) }
    ensures number { (parts : List ℕ) → length (special_hooks parts) ≡ rows parts }
{}
