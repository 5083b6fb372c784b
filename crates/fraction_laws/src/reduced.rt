//! Fractions in lowest terms.

ghost use Rattle.std.specs.Prelude.{◌≡◌, ◌*ℤ◌, pos};
ghost use Rattle.sym_model.specs.Expansion.{Fraction};
ghost use Rattle.fraction_laws.specs.Fractions.{InLowestTerms, fraction_sum, fraction_product};
ghost use Rattle.fraction_laws.specs.Laws.{SumLaws, RingLaws, FieldLaws};

/// If a/b = c/d (that is, a·d = c·b), and both fractions are in lowest terms with positive
/// denominators, then a = c and b = d. Sums and products of such fractions are in lowest terms, and
/// satisfy the laws of a field.
pub fn fraction_law()
    ensures same { (r s : Fraction) → InLowestTerms r → InLowestTerms s
        → r.0 *ℤ pos s.1 ≡ s.0 *ℤ pos r.1 → r ≡ s }
    ensures sum { (r s : Fraction) → InLowestTerms r → InLowestTerms s
        → InLowestTerms (fraction_sum r s) }
    ensures product { (r s : Fraction) → InLowestTerms r → InLowestTerms s
        → InLowestTerms (fraction_product r s) }
    ensures sums { SumLaws InLowestTerms (λ (r : Fraction). r) }
    ensures products { RingLaws InLowestTerms (λ (r : Fraction). r) }
    ensures quotients { FieldLaws InLowestTerms (λ (r : Fraction). r) }
{}
