//! Newton's identities for complete and elementary symmetric polynomials.

ghost use Rattle.std.specs.Prelude.{ℕ, ◌-◌, pos, flat_map};
ghost use Rattle.sym_model.specs.Polynomial.{Same, scale, times};
ghost use Rattle.sym_model.specs.Partition.{after};
ghost use Rattle.sym_model.specs.Bases.{elementary_of, complete_of, power_sum_of};
ghost use Rattle.sym_model.specs.PlaceOrders.{minus_one_to};

/// k·h_k is the sum of the p_i·h_(k-i), and k·e_k the sum of the (-1)^(i-1)·p_i·e_(k-i), for i from
/// 1 to k, in every number n of variables (Macdonald, I.2).
///
/// Example: 2·h_2 = p_1·h_1 + p_2, and 2·e_2 = p_1·e_1 - p_2.
pub fn newton_law()
    ensures complete { (k n : ℕ)
        → Same (scale (pos k) (complete_of k n))
        (flat_map (λ i. times (power_sum_of i n) (complete_of (k - i) n)) (after 0 k)) }
    ensures elementary { (k n : ℕ)
        → Same (scale (pos k) (elementary_of k n))
        (flat_map (λ i. scale (minus_one_to (i - 1))
        (times (power_sum_of i n) (elementary_of (k - i) n))) (after 0 k)) }
{}
