//! The reduction of beta lists into the alcove (`reflected_into_alcove`): its result depends only
//! on the remainders of the entries modulo n and on their sum.

ghost use Rattle.std.specs.Prelude.{◌≡◌, ℕ, ◌≤◌, ◌↔◌, true, false, ℤ, List, Some, None, map};
ghost use Rattle.std.specs.Prelude.{length};
ghost use Rattle.sym_model.specs.Partition.{size};
ghost use Rattle.sym_model.specs.BetaList.{has_equal_entries, sorted_falling, sorting_sign};
ghost use Rattle.sym_model.specs.AlcoveReduction.{reflected_into_alcove};
ghost use Rattle.beta_list_laws.specs.StrictFall.{FallsStrictly};
ghost use Rattle.beta_list_laws.specs.AlcoveEnd.{remainders, match_in, IsAlcoveEnd, up};

/// Let b be strictly decreasing, and let its spread be its first entry minus its last. The result
/// of `reflected_into_alcove n b` is b if the spread is below n, and 0 (`None`) if it is n.
/// Otherwise n is subtracted from the first entry and added to the last; if two entries are then
/// equal, the result is 0, and if not, the list is sorted and reduced again, with the sign of
/// sorting.
///
/// The law: the result is 0 if and only if two entries of b leave the same remainder modulo n.
/// Otherwise it is the only strictly decreasing list c with the sum and the remainders of b and a
/// spread below n; its sign is that of sorting the list in which each entry of b is replaced by the
/// entry of c with its remainder. If, for some t, the numbers of the window [t, t + n) that leave
/// the remainders of b have the same sum as b, then c is the sorted list of these numbers.
pub fn alcove_law()
    ensures zero { (n : ℕ) (b : List ℕ) → 1 ≤ n → FallsStrictly b
        → (reflected_into_alcove n b ≡ None ↔ has_equal_entries (remainders n b) ≡ true) }
    ensures end { (n : ℕ) (b c : List ℕ) (sign : ℤ) → 1 ≤ n → FallsStrictly b
        → reflected_into_alcove n b ≡ Some (c, sign) → IsAlcoveEnd n b c }
    ensures only { (n : ℕ) (b c d : List ℕ) → 1 ≤ n → IsAlcoveEnd n b c → IsAlcoveEnd n b d
        → c ≡ d }
    ensures length { (n : ℕ) (b c : List ℕ) → IsAlcoveEnd n b c → length c ≡ length b }
    ensures sign { (n : ℕ) (b c : List ℕ) (sign : ℤ) → 1 ≤ n → FallsStrictly b
        → reflected_into_alcove n b ≡ Some (c, sign) → sign ≡ sorting_sign (map (match_in n c) b) }
    ensures window { (n t : ℕ) (b : List ℕ) → 1 ≤ n → FallsStrictly b
        → has_equal_entries (remainders n b) ≡ false
        → size (map (up n t) b) ≡ size b
        → reflected_into_alcove n b
        ≡ Some (sorted_falling (map (up n t) b), sorting_sign (map (up n t) b)) }
{}
