//! Products with Schubert polynomials, row by row of a diagram.

ghost use Rattle.std.specs.Prelude.{◌≡◌, ℕ, ◌+◌, ◌-◌, ◌<◌, ◌≤◌, List, [], None, Some, length};
ghost use Rattle.std.specs.Prelude.{get_or, take};
ghost use Rattle.sym_model.specs.Sum.{Once};
ghost use Rattle.sym_model.specs.Partition.{Falls};
ghost use Rattle.sym_model.specs.PlaceOrders.{sign};
ghost use Rattle.sym_model.specs.Polynomial.{Poly, Same, In, nothing, scale, times};
ghost use Rattle.sym_model.specs.Permutation.{IsOneLine, IsDescent, AreInverse, exchanged};
ghost use Rattle.sym_model.specs.Permutation.{first_ascent, code};
ghost use Rattle.sym_model.specs.Schubert.{schubert_in};
ghost use Rattle.double_schubert_laws.specs.DiagramRows.{AreWithin, HasLeftAscent, LeadsTo};
ghost use Rattle.double_schubert_laws.specs.DiagramRows.{one_row, times_rows};

/// The product of a polynomial s and a Schubert polynomial S_v, by products with elementary
/// polynomials and sums over covers of permutations of no more letters than v (the way of Samuel's
/// program `schubmult`).
///
/// For a permutation q of n letters, `times_rows` is s times a value at x = 0: that of the divided
/// difference, along a path to q, of the product of all x_i - y_j over the cells (i, j) of some
/// rows of a diagram. For no rows it is s if q = n, .., 1, and 0 for every other q (`start`,
/// `start_none`). For one row more it is a sum of products of elementary polynomials with what it
/// is for fewer rows, at other permutations (`row`). It is 0 if some letters a and a + 1 stand in q
/// in this order, both at most n minus the number of rows (`none`); within a row, too
/// (`none_within`).
///
/// Let μ be a permutation whose code falls, so that S(μ; x, y) is the product over all rows of its
/// code; no row has more cells than μ has letters (`within`). If exchanges at common descents lead
/// from μ and n, .., 1 to the inverse of v and to a permutation p (`path_start`, `path`), then at
/// p, for all rows, `times_rows` is s·S_v, up to the sign of v (`end`).
///
/// Example: v = 2 1 is its own inverse, and its code 1 0 falls. So p is 2 1, and the only row has
/// the factor x_1 - y_1. The place of the letter 2 in p is 1, so there are no covers v = p·t_a1
/// with a < 1, and p·t_12 is no cover. What is left is -e_1(x_1)·s, and S_v is x_1.
pub fn diagram_rows_law()
    ensures start { (k : ℕ) (s : Poly) (q : List ℕ) → In k s → first_ascent q ≡ None
        → Same (times_rows k s [] q) s }
    ensures start_none { (k i : ℕ) (s : Poly) (q : List ℕ) → first_ascent q ≡ Some i
        → Same (times_rows k s [] q) nothing }
    ensures row { (k i : ℕ) (s : Poly) (rows q : List ℕ) → In k s → IsOneLine q
        → AreWithin (length q) rows → i < length q
        → Same (times_rows k s (take (i + 1) rows) q)
        (one_row (get_or rows i 0) (get_or rows i 0) (length q - i) k
        (times_rows k s (take i rows)) q) }
    ensures none { (k i : ℕ) (s : Poly) (rows q : List ℕ) → IsOneLine q
        → AreWithin (length q) rows → i ≤ length q → HasLeftAscent (length q - i) q
        → Same (times_rows k s (take i rows) q) nothing }
    ensures none_within { (e c k i : ℕ) (s : Poly) (rows q : List ℕ) → In k s → IsOneLine q
        → AreWithin (length q) rows → i < length q → HasLeftAscent (length q - (i + 1)) q
        → Same (one_row e c (length q - i) k (times_rows k s (take i rows)) q) nothing }
    ensures within { (μ : List ℕ) → AreWithin (length μ) (code μ) }
    ensures path_start { (μ p : List ℕ) → first_ascent p ≡ None → LeadsTo μ p μ }
    ensures path { (μ p w : List ℕ) (i : ℕ) → LeadsTo μ p w → IsDescent p i → IsDescent w i
        → LeadsTo μ (exchanged i p) (exchanged i w) }
    ensures end { (k : ℕ) (s : Poly) (μ p v w : List ℕ) → Once μ → Falls (code μ) → IsOneLine v
        → IsOneLine w → AreInverse v w → length w ≡ length μ → length p ≡ length μ → LeadsTo μ p w
        → Same (times_rows k s (code μ) p) (scale (sign v) (times s (schubert_in v k))) }
{}
