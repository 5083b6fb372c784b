//! Families of symmetric polynomials, one for each number of variables, and the number of variables
//! that determines such a family.

ghost use Rattle.std.specs.Prelude.{ℕ, ◌≤◌, List};
ghost use Rattle.sym_model.specs.Polynomial.{Poly, Same};
ghost use Rattle.sym_model.specs.Partition.{IsPartition, size};
ghost use Rattle.sym_model.specs.Expansion.{Basis, Terms, IsExpansionOf};
ghost use Rattle.sym_model.specs.Expression.{Tree, degree, denominator, cleared_value};
ghost use Rattle.sym_model.specs.WholeTerms.{HaveLabels, numerators};
ghost use Rattle.schur_laws.specs.SymmetricFamily.{IsSymmetricFamily, HasDegreeAtMost};
ghost use Rattle.schur_laws.specs.PartitionAtoms.{HasPartitions};

/// If two families of symmetric polynomials (one polynomial for each number of variables) have a
/// degree of at most d and agree in d variables, they agree in every number of variables
/// (Macdonald, I.2): a monomial of degree at most d has at most d variables, and by symmetry these
/// may be the first d. So a list of terms that expands an expression in d variables expands the
/// expression in every number of variables, if all labels are partitions, and d is at least the
/// degree of the expression and the size of each label of the list.
pub fn degree_law()
    ensures agrees { (d : ℕ) (f g : ℕ → Poly) → IsSymmetricFamily f → IsSymmetricFamily g
        → ((n : ℕ) → HasDegreeAtMost d (f n)) → ((n : ℕ) → HasDegreeAtMost d (g n))
        → Same (f d) (g d) → (n : ℕ) → Same (f n) (g n) }
    ensures expansions { (d : ℕ) (basis : Basis) (terms : Terms (List ℕ)) (e : Tree)
        → HaveLabels IsPartition (numerators terms)
        → HaveLabels (λ label. size label ≤ d) (numerators terms)
        → HasPartitions e → degree e ≤ d
        → IsExpansionOf basis terms d (cleared_value e d) (denominator e)
        → (n : ℕ) → IsExpansionOf basis terms n (cleared_value e n) (denominator e) }
{}
