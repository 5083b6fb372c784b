//! Good tableaux of a skew shape, counted column by column.

ghost use Rattle.std.specs.Prelude.{◌≡◌, ◌≤◌, ℕ, ℤ, pos, Bool, true, List, [], ◌∷◌, ◌++◌};
ghost use Rattle.sym_model.specs.Sum.{total};
ghost use Rattle.sym_model.specs.Partition.{IsPartition, rows};
ghost use Rattle.sym_model.specs.Polynomial.{join, resize};
ghost use Rattle.sym_model.specs.Schur.{contains, content};
ghost use Rattle.sym_model.specs.GoodTableau.{good_readings, product_count, skew_count};
ghost use Rattle.tableau_laws.specs.ColumnFold.{next_columns, over_columns, column_lines, is_sum};

/// A tableau of outer/inner is good for a partition `start` if start plus the content of the
/// columns right of column j is a partition, for each j ≥ 0. The good tableaux are listed by
/// choosing the columns one by one from the right: whether a column may be added depends only on
/// the sum reached, which is start plus the content so far, and on the column to its right. So the
/// sum of f(start + content) over the good tableaux, for any function f, is a sum over these
/// choices (`over_columns`), and the counts of products and of skew shapes are such sums.
///
/// Example: two of the good tableaux of the shape (2,1) for the start (2,1) reach the sum (3,2,1).
pub fn column_counting_law()
    ensures readings { (n : ℕ) (start outer inner : List ℕ) (f : List ℕ → ℤ)
        → IsPartition start → IsPartition outer → IsPartition inner → contains outer inner ≡ true
        → rows start ≤ n
        → total (λ w. f (join start (content n w))) (good_readings n start outer inner)
        ≡ over_columns n (column_lines outer inner) (λ ν right. f ν) (resize n start) [] }
    ensures product { (k : ℕ) (λ' μ ν : List ℕ) → IsPartition λ' → IsPartition μ → rows λ' ≤ k
        → pos (product_count k λ' μ ν)
        ≡ over_columns k (column_lines μ []) (is_sum ν) (resize k λ') [] }
    ensures skew { (outer inner κ : List ℕ) → IsPartition outer → IsPartition inner
        → contains outer inner ≡ true
        → pos (skew_count outer inner κ)
        ≡ over_columns (rows outer) (column_lines outer inner) (is_sum κ)
        (resize (rows outer) []) [] }
    ensures rightmost { (n : ℕ) (lines : List (List Bool)) (line : List Bool)
        (f : List ℕ → List ℕ → ℤ) (ν right : List ℕ)
        → over_columns n (lines ++ (line ∷ [])) f ν right
        ≡ next_columns n line (over_columns n lines f) ν right }
    ensures example { over_columns 3 (column_lines (2 ∷ 1 ∷ []) []) (is_sum (3 ∷ 2 ∷ 1 ∷ []))
        (2 ∷ 1 ∷ 0 ∷ []) [] ≡ pos 2 }
{}
