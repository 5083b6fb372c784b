//! The coproduct of a Schur polynomial: its expansion in two sets of variables.

ghost use Rattle.std.specs.Prelude.{ℕ, ◌+◌, List, flat_map};
ghost use Rattle.sym_model.specs.Partition.{IsPartition, columns, without_last_zeros};
ghost use Rattle.sym_model.specs.Polynomial.{Same};
ghost use Rattle.sym_model.specs.Schur.{schur, skew_schur};
ghost use Rattle.sym_model.specs.Expansion.{beside};
ghost use Rattle.schur_laws.specs.InnerShapes.{shapes_inside};

/// In n + k variables the Schur polynomial s_λ is the sum, over the partitions μ inside λ, of s_μ
/// in the first n variables times s_(λ/μ) in the k variables after them (Macdonald, I.5). In the
/// proof, each tableau with entries from 1 to n + k is cut into the entries up to n, which form a
/// tableau of some shape μ, and the entries from n + 1 on.
pub fn coproduct_law()
    ensures { (n k : ℕ) (shape : List ℕ) → IsPartition shape
        → Same (schur shape (n + k))
        (flat_map (λ inner. beside (schur (without_last_zeros inner) n)
        (skew_schur shape (without_last_zeros inner) k))
        (shapes_inside shape (columns shape))) }
{}
