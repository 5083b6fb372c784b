//! The straightening rule: m_λ as a sum of Schur polynomials with signs.

ghost use Rattle.std.specs.Prelude.{◌≡◌, ℕ, ◌≤◌, ◌∷◌, [], pos, negsuc, List, Some, None};
ghost use Rattle.sym_model.specs.Polynomial.{Same};
ghost use Rattle.sym_model.specs.Partition.{IsPartition, size};
ghost use Rattle.sym_model.specs.Arrangement.{arrangements};
ghost use Rattle.sym_model.specs.Bases.{monomial};
ghost use Rattle.sym_model.specs.Schur.{schur};
ghost use Rattle.sym_model.specs.Straightening.{straightened};
ghost use Rattle.sym_model.specs.WholeTerms.{combined};
ghost use Rattle.alternant_laws.specs.StraightenedTerms.{straightened_terms};

/// Let α be an arrangement, in n places, of the parts of λ and of zeros. It straightens to 0 if two
/// entries of α + ρ are equal, and otherwise to the sign of sorting α + ρ times the Schur
/// polynomial of the sorted list less ρ (Macdonald, I.3). In every number n of variables, m_λ is
/// the sum, over the distinct α, of the polynomials to which the α straighten. The arrangements in
/// d places give the same sum, for each d that is at least the size of λ.
///
/// Example: (0,2) straightens to -s_(1,1) in two variables, so m_(2) = s_(2) - s_(1,1) there.
pub fn straighten_law()
    ensures straightens { (n : ℕ) (parts : List ℕ) → IsPartition parts
        → Same (monomial parts n)
        (combined (λ label. schur label n) (straightened_terms (arrangements parts n))) }
    ensures enough_places { (n d : ℕ) (parts : List ℕ) → IsPartition parts → size parts ≤ d
        → Same (monomial parts n)
        (combined (λ label. schur label n) (straightened_terms (arrangements parts d))) }
    ensures turned { straightened (0 ∷ 2 ∷ []) ≡ Some (negsuc 0, (1 ∷ 1 ∷ [])) }
    ensures equal { straightened (0 ∷ 1 ∷ []) ≡ None }
{}
