//! The polynomials e_k, h_k and p_k as lists of terms in another of the bases e, h and p.

ghost use Rattle.std.specs.Prelude.{ℕ, ◌-◌, ◌^◌, ◌<◌, ◌*ℤ◌, pos, length};
ghost use Rattle.sym_model.specs.Bases.{elementary_of, complete_of, power_sum_of};
ghost use Rattle.sym_model.specs.PlaceOrders.{minus_one_to};
ghost use Rattle.sym_model.specs.Weight.{factorial};
ghost use Rattle.basis_change_laws.specs.JoinedLists.{Stands};
ghost use Rattle.family_list_laws.specs.OnePartLists.{sized_orders, cycle_type_count, parity_sign};
ghost use Rattle.family_list_laws.specs.OnePartLists.{signed_orders, list_over};

/// Let μ be a partition of k with l parts of the multiplicities m_i. The coefficient of h_μ in e_k,
/// and of e_μ in h_k, is (-1)^(k - l)·l!/Π m_i!. For k ≥ 1, the coefficient of h_μ in p_k is
/// (-1)^(l - 1)·k·(l - 1)!/Π m_i!, and that of e_μ in p_k is (-1)^(k - l)·k·(l - 1)!/Π m_i!. The
/// coefficient of p_μ in k!·h_k is k!/z_μ, and in k!·e_k it is (-1)^(k - l)·k!/z_μ (Macdonald,
/// I.2). The absolute values of the coefficients add up to at most 2^k for e_k in h and h_k in e,
/// to at most 2^k - 1 for p_k in h and in e, and to at most k! for k!·h_k and k!·e_k in p.
///
/// Example: e_3 = h_1^3 - 2·h_2·h_1 + h_3.
pub fn one_part_list_law()
    ensures elementary { (k : ℕ)
        → Stands complete_of 1 (2 ^ k) k (λ n. elementary_of k n) (list_over signed_orders k) }
    ensures complete { (k : ℕ)
        → Stands elementary_of 1 (2 ^ k) k (λ n. complete_of k n) (list_over signed_orders k) }
    ensures power_complete { (k : ℕ) → 0 < k
        → Stands complete_of 1 (2 ^ k - 1) k (λ n. power_sum_of k n)
        (list_over (λ μ. minus_one_to (length μ - 1) *ℤ pos (sized_orders μ)) k) }
    ensures power_elementary { (k : ℕ) → 0 < k
        → Stands elementary_of 1 (2 ^ k - 1) k (λ n. power_sum_of k n)
        (list_over (λ μ. parity_sign μ *ℤ pos (sized_orders μ)) k) }
    ensures elementary_power { (k : ℕ)
        → Stands power_sum_of (factorial k) (factorial k) k (λ n. elementary_of k n)
        (list_over (λ μ. parity_sign μ *ℤ pos (cycle_type_count μ)) k) }
    ensures complete_power { (k : ℕ)
        → Stands power_sum_of (factorial k) (factorial k) k (λ n. complete_of k n)
        (list_over (λ μ. pos (cycle_type_count μ)) k) }
{}
