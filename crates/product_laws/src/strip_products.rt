//! The products of a Schur polynomial with h_k, e_k and p_k, in every number of variables: the
//! rules of Pieri and of Murnaghan and Nakayama.

ghost use Rattle.std.specs.Prelude.{ℕ, ◌-◌, ◌≤◌, List, flat_map};
ghost use Rattle.sym_model.specs.Partition.{IsPartition};
ghost use Rattle.sym_model.specs.Polynomial.{Same, times, scale};
ghost use Rattle.sym_model.specs.Bases.{complete_of, elementary_of, power_sum_of};
ghost use Rattle.sym_model.specs.Schur.{schur};
ghost use Rattle.sym_model.specs.PlaceOrders.{minus_one_to};
ghost use Rattle.sym_model.specs.Strip.{height};
ghost use Rattle.product_laws.specs.StripLists.{ListsEach, AddsHorizontalStrip, AddsVerticalStrip};
ghost use Rattle.product_laws.specs.StripLists.{AddsRimHook};

/// Pieri's rules, in every number n of variables: h_k·s_μ is the sum of the s_ν for which ν/μ is a
/// horizontal strip of k cells, and e_k·s_μ is the sum of the s_ν for which ν/μ is a vertical strip
/// of k cells; each sum is over any list that has exactly these ν, each once (Macdonald, I.5). A
/// Schur polynomial with more rows than there are variables is 0.
///
/// Example: h_2·s_(1) = s_(3) + s_(2,1), and e_2·s_(1) = s_(2,1) + s_(1,1,1).
pub fn pieri_law()
    ensures horizontal { (n k : ℕ) (parts : List ℕ) (list : List (List ℕ)) → IsPartition parts
        → ListsEach (AddsHorizontalStrip k parts) list
        → Same (times (complete_of k n) (schur parts n)) (flat_map (λ ν. schur ν n) list) }
    ensures vertical { (n k : ℕ) (parts : List ℕ) (list : List (List ℕ)) → IsPartition parts
        → ListsEach (AddsVerticalStrip k parts) list
        → Same (times (elementary_of k n) (schur parts n)) (flat_map (λ ν. schur ν n) list) }
{}

/// The rule of Murnaghan and Nakayama, in every number n of variables: for k ≥ 1, p_k·s_μ is the
/// sum of (-1)^(height - 1)·s_ν over the ν for which ν/μ is a rim hook of k cells; the sum is over
/// any list that has exactly these ν, each once (Macdonald, I.3). The height is the number of rows
/// of the rim hook.
///
/// Example: p_2·s_(1) = s_(3) - s_(1,1,1).
pub fn murnaghan_nakayama_law()
    ensures rim_hooks { (n k : ℕ) (parts : List ℕ) (list : List (List ℕ)) → 1 ≤ k
        → IsPartition parts
        → ListsEach (AddsRimHook k parts) list
        → Same (times (power_sum_of k n) (schur parts n))
        (flat_map (λ ν. scale (minus_one_to (height ν parts - 1)) (schur ν n)) list) }
{}
