//! Schubert and Stanley polynomials of permutations that consist of two blocks.

ghost use Rattle.std.specs.Prelude.{ℕ, ◌+◌, List, ◌++◌, map, length};
ghost use Rattle.sym_model.specs.Polynomial.{Same, times};
ghost use Rattle.sym_model.specs.Permutation.{IsOneLine};
ghost use Rattle.sym_model.specs.Schubert.{schubert_in};
ghost use Rattle.sym_model.specs.Stanley.{behind, stanley_in};

/// Let u and v be permutations, n the number of letters of u, and u × v the permutation u followed
/// by the letters of v, each increased by n. In every number of variables, S_(u × v) is the product
/// of S_u and S_(1^n × v), and the Stanley polynomial of u × v is the product of those of u and
/// 1^n × v (Macdonald, Notes on Schubert polynomials, IV and VII; Stanley).
///
/// Example: S_(2,1,4,3) = S_(2,1)·S_(1,2,4,3) = x_1·(x_1 + x_2 + x_3).
pub fn block_product_law()
    ensures schubert { (u v : List ℕ) (n : ℕ) → IsOneLine u → IsOneLine v
        → Same (schubert_in (u ++ map (λ a. a + length u) v) n)
        (times (schubert_in u n) (schubert_in (behind (length u) v) n)) }
    ensures stanley { (u v : List ℕ) (m : ℕ) → IsOneLine u → IsOneLine v
        → Same (stanley_in (u ++ map (λ a. a + length u) v) m)
        (times (stanley_in u m) (stanley_in (behind (length u) v) m)) }
{}
