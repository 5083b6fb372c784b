//! The quotients in the closed formulas for the expansions of e_k, h_k and p_k in the bases e, h
//! and p are integers.

ghost use Rattle.std.specs.Prelude.{◌≡◌, ℕ, ◌-◌, ◌*◌, ◌<◌, List, length};
ghost use Rattle.sym_model.specs.Partition.{IsPartition, size};
ghost use Rattle.sym_model.specs.Weight.{factorial};
ghost use Rattle.basis_change_laws.specs.AugmentedMonomial.{multiplicity_factorials};
ghost use Rattle.family_list_laws.specs.OnePartLists.{orders_of_parts, sized_orders, centralizer};
ghost use Rattle.family_list_laws.specs.OnePartLists.{cycle_type_count};

/// For a partition μ of k with l parts of the multiplicities m_i, l!/Π m_i! and k!/z_μ are
/// integers, and so is k·(l - 1)!/Π m_i! if l ≥ 1.
pub fn exact_quotient_law()
    ensures orders { (μ : List ℕ) → IsPartition μ
        → orders_of_parts μ * multiplicity_factorials μ ≡ factorial (length μ) }
    ensures sized { (μ : List ℕ) → IsPartition μ → 0 < length μ
        → sized_orders μ * multiplicity_factorials μ ≡ size μ * factorial (length μ - 1) }
    ensures cycles { (μ : List ℕ) → IsPartition μ → cycle_type_count μ * centralizer μ
        ≡ factorial (size μ) }
{}
