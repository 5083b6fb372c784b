//! Products with double Schubert polynomials, row by row of a diagram.

ghost use Rattle.std.specs.Prelude.{◌≡◌, ℕ, ◌+◌, ◌-◌, ◌<◌, ◌≤◌, List, [], ◌++◌, None, Some};
ghost use Rattle.std.specs.Prelude.{length, get_or, take};
ghost use Rattle.sym_model.specs.Sum.{Once};
ghost use Rattle.sym_model.specs.Partition.{Falls, after};
ghost use Rattle.sym_model.specs.PlaceOrders.{sign};
ghost use Rattle.sym_model.specs.Polynomial.{Poly, Same, In, nothing, scale, times};
ghost use Rattle.sym_model.specs.Permutation.{IsOneLine, AreInverse, first_ascent, code};
ghost use Rattle.sym_model.specs.Permutation.{with_fixed};
ghost use Rattle.sym_model.specs.DoubleSchubert.{double_schubert_in};
ghost use Rattle.schubert_laws.specs.ShortPermutations.{IsShort};
ghost use Rattle.double_schubert_laws.specs.DiagramRows.{AreWithin, HasLeftAscent, LeadsTo};
ghost use Rattle.double_row_laws.specs.DoubleRows.{times_double_rows, one_double_row};
ghost use Rattle.double_row_laws.specs.SweptRows.{swept};

/// The product of a polynomial s in x and y and a double Schubert polynomial S_v(x; y), by products
/// with elementary polynomials in x, and sums over covers of permutations of no more letters than
/// v, as `diagram_rows_law` has it for Schubert polynomials.
///
/// For a permutation q of n letters, `times_double_rows` is s times the divided difference, along a
/// path to q, of the product of all x_i - y_j over the cells (i, j) of some rows of a diagram, with
/// x and y exchanged. For no rows it is s if q = n, .., 1, and 0 for every other q (`start`,
/// `start_none`). For one row more it is a sum of products of elementary polynomials with what it is
/// for fewer rows: x_i acts as y_r, r being the place of the letter n + 1 - i in q, plus sums over
/// covers of q (`row`). It is 0 if some letters a and a + 1 stand in q in this order, both at most n
/// minus the number of rows (`none`); within a row, too (`none_within`).
///
/// For s = S_w, one row more can be multiplied letter by letter of w instead (`letters`, `swept`): a
/// letter a at one of the first c places, c being the number of cells of the row, gives y_r - y_a
/// plus sums over covers of q, and any other letter gives 1 minus the sum over the covers of w that
/// exchange it with one of those. This is the double Pieri formula for the product of all T - x_j
/// with j ≤ c, T standing for x_i. Fixed letters are added at the end of w, more than c. The same for w
/// and q that are written without fixed letters at the end, which are equal to their places, is
/// `short_letters`. Within a row, too, the value is 0 if some letters a and a + 1 stand in q in this
/// order, both at most n minus the number of rows (`none_within_letters`).
///
/// Let μ be a permutation whose code falls. If exchanges at common descents lead from μ and n, .., 1
/// to the inverse of v and to a permutation p (`diagram_rows_law`), then at p, for all rows of the
/// code of μ, `times_double_rows` is s·S_v, up to the sign of v (`end`).
///
/// Example: v = 2 1 is its own inverse, and its code 1 0 falls. So p is 2 1, and the only row has
/// the factor x_1 - y_1, which is y_1 - x_1 = -S_v with x and y exchanged. The place of the letter 2
/// in p is 1, and p·t_12 is no cover. What is left is y_1·s - e_1(x_1)·s.
pub fn double_rows_law()
    ensures start { (k : ℕ) (s : Poly) (q : List ℕ) → In (k + k) s → first_ascent q ≡ None
        → Same (times_double_rows k s [] q) s }
    ensures start_none { (k i : ℕ) (s : Poly) (q : List ℕ) → first_ascent q ≡ Some i
        → Same (times_double_rows k s [] q) nothing }
    ensures row { (k i : ℕ) (s : Poly) (rows q : List ℕ) → IsOneLine q
        → AreWithin (length q) rows → i < length q
        → Same (times_double_rows k s (take (i + 1) rows) q)
        (one_double_row (get_or rows i 0) (get_or rows i 0) (length q - i) k
        (times_double_rows k s (take i rows)) q) }
    ensures none { (k i : ℕ) (s : Poly) (rows q : List ℕ) → IsOneLine q
        → AreWithin (length q) rows → i ≤ length q → HasLeftAscent (length q - i) q
        → Same (times_double_rows k s (take i rows) q) nothing }
    ensures none_within { (e c k i : ℕ) (s : Poly) (rows q : List ℕ) → IsOneLine q
        → AreWithin (length q) rows → i < length q → c ≤ length q
        → HasLeftAscent (length q - (i + 1)) q
        → Same (one_double_row e c (length q - i) k (times_double_rows k s (take i rows)) q) nothing }
    ensures letters { (k i j : ℕ) (rows w q : List ℕ) → IsOneLine w → IsOneLine q
        → AreWithin (length q) rows → i < length q → get_or rows i 0 ≤ length w
        → get_or rows i 0 < j
        → Same (times_double_rows k (double_schubert_in (w ++ after (length w) j) k)
        (take (i + 1) rows) q)
        (swept (length w + 1) (get_or rows i 0) k (length q - i)
        (λ v p. times_double_rows k (double_schubert_in v k) (take i rows) p)
        (w ++ after (length w) j) q) }
    ensures short_letters { (k i j m n : ℕ) (rows w q : List ℕ) → IsShort m w → IsShort n q
        → AreWithin n rows → i < n → get_or rows i 0 ≤ m → m + get_or rows i 0 < j
        → Same (times_double_rows k (double_schubert_in w k) (take (i + 1) rows) (with_fixed n q))
        (swept (m + 1) (get_or rows i 0) k (n - i)
        (λ v p. times_double_rows k (double_schubert_in v k) (take i rows) p)
        (with_fixed j w) (with_fixed n q)) }
    ensures none_within_letters { (m c k i : ℕ) (rows w q : List ℕ) → IsOneLine w → IsOneLine q
        → AreWithin (length q) rows → i < length q → m ≤ length w
        → HasLeftAscent (length q - (i + 1)) q
        → Same (swept m c k (length q - i)
        (λ v p. times_double_rows k (double_schubert_in v k) (take i rows) p) w q) nothing }
    ensures end { (k : ℕ) (s : Poly) (μ p v w : List ℕ) → Once μ → Falls (code μ) → IsOneLine v
        → IsOneLine w → AreInverse v w → length w ≡ length μ → length p ≡ length μ → LeadsTo μ p w
        → Same (times_double_rows k s (code μ) p)
        (scale (sign v) (times s (double_schubert_in v k))) }
{}
