//! The summands of a row of a diagram, in products with Schubert polynomials row by row.
ghost use Rattle.std.specs.Prelude.{◌≡◌, ◌↔◌, ℕ, ◌+◌, ◌-◌, ◌<◌, ◌≤◌, ℤ, neg_ℤ, ◌+ℤ◌, ◌*ℤ◌, List};
ghost use Rattle.std.specs.Prelude.{[], get_or, IfOk, IsTrue, OnOk};
ghost use Rattle.std.specs.Option.{option_to_list};
ghost use Rattle.sym_model.specs.Sum.{Among};
ghost use Rattle.sym_model.specs.Permutation.{covers_down, with_fixed};
ghost use Rattle.sym_model.specs.PlaceOrders.{minus_one_to};
ghost use Rattle.schubert_laws.specs.ShortPermutations.{IsShort};
ghost use Rattle.double_schubert_laws.specs.DiagramRows.{AreWithin, HasLeftAscent};
ghost use Rattle.linear_combinations.specs.Gains.{over, each_with, replaced};
ghost use Rattle.sym_model.specs.WholeTerms.{HaveLabels};
ghost use Rattle.monk_product.specs.RowProducts.{AreSummandsAt, IsNullAt, GainsExcept, sum_over};
ghost use Rattle.monk_product.specs.RowProducts.{covers_to, signed_covers};

use crate::short_monk::ShortSum;
use crate::short_perm::{MOST_LETTERS, ShortPerm};
use calc_base::SumFault;
use coeff_rings::{Int, Ring, Scalar};
use linear_combinations::{Label, Lin};
use std::alloc::Global;

/// The greatest number of permutations in all layers (`Layers`), and in each sum that the summands
/// of a row are made from.
pub(crate) const MOST_PERMUTATIONS: usize = 100_000;

/// A summand of a row: `coefficient` times e_d(x_1, .., x_r), for d = `degree` and the number r of
/// cells of the row, times the value of the rows before it at `perm`.
#[derive(Drop)]
pub(crate) struct Summand {
    pub(crate) perm: ShortPerm,
    pub(crate) degree: usize,
    pub(crate) coefficient: Int,
}

/// Whether letters a and a + 1, both at most `most`, stand in this order.
fn has_left_ascent(w: &ShortPerm, most: u8) -> bool
    requires { most ≤ 32 }
    ensures { IsTrue result ↔ HasLeftAscent most (with_fixed 32 w.now) }
{
    let mut before = w.place(1);
    for letter in 2..most + 1 {
        let place = w.place(letter);
        if before < place {
            return true;
        }
        before = place;
    }
    false
}

/// A row of a diagram, for permutations of at most n letters.
#[derive(Drop)]
struct Row {
    /// The number n.
    letters: usize,
    /// The letter whose exchanges give the covers of the row: n - i for the row i, counted from 0.
    letter: u8,
}

impl Row {
    /// Adds `c` to the coefficient of the cover, unless it has letters a and a + 1, both less than
    /// the letter of the row, in this order.
    fn add_cover(
        &self,
        cover: Option<ShortPerm>,
        c: Int,
        sum: &mut ShortSum,
    ) -> Result<(), SumFault>
        requires first { 1 ≤ self.now.letter }
        requires last { self.now.letter ≤ self.now.letters }
        requires few { self.now.letters ≤ 32 }
        requires short { (v : List ℕ) → Among v (option_to_list cover)
            → IsShort self.now.letters v }
        requires was { HaveLabels (IsShort self.now.letters) sum.old }
        ensures { OnOk result (GainsExcept self.now.letters (self.now.letter - 1) sum.old
            (each_with c (option_to_list cover)) sum.new) }
    {
        match cover {
            Some(v) if !has_left_ascent(&v, self.letter - 1) => sum.add_owned(v, c),
            _ => Ok(()),
        }
    }

    /// Adds `c` to the coefficients of the covers of w that exchange the letter at `place`, counted
    /// from 0, with a letter at a smaller place; not of all (`add_cover`).
    fn add_covers_before(
        &self,
        w: &ShortPerm,
        place: usize,
        c: Int,
        sum: &mut ShortSum,
    ) -> Result<(), SumFault>
        requires first { 1 ≤ self.now.letter }
        requires last { self.now.letter ≤ self.now.letters }
        requires few { self.now.letters ≤ 32 }
        requires place { place < self.now.letters }
        requires short { IsShort self.now.letters w.now }
        requires was { HaveLabels (IsShort self.now.letters) sum.old }
        ensures { OnOk result (GainsExcept self.now.letters (self.now.letter - 1) sum.old
            (each_with c (covers_down (place + 1) w.now)) sum.new) }
    {
        for other in 0..place {
            self.add_cover(w.cover(other, place), c, sum)?;
        }
        Ok(())
    }

    /// Adds `c` to the coefficients of the covers of w that exchange the letter at `place`, counted
    /// from 0, with a letter at a greater place, up to n; not of all (`add_cover`).
    fn add_covers_after(
        &self,
        w: &ShortPerm,
        place: usize,
        c: Int,
        sum: &mut ShortSum,
    ) -> Result<(), SumFault>
        requires first { 1 ≤ self.now.letter }
        requires last { self.now.letter ≤ self.now.letters }
        requires few { self.now.letters ≤ 32 }
        requires place { place < self.now.letters }
        requires short { IsShort self.now.letters w.now }
        requires was { HaveLabels (IsShort self.now.letters) sum.old }
        ensures { OnOk result (GainsExcept self.now.letters (self.now.letter - 1) sum.old
            (each_with c (covers_to self.now.letters (place + 1) w.now)) sum.new) }
    {
        for other in place + 1..self.letters {
            self.add_cover(w.cover(place, other), c, sum)?;
        }
        Ok(())
    }

    /// For each term c·w of `terms`, the covers of w that exchange the letter of the row: with c if
    /// the other letter stands before it, and with -c if it stands after it; not all (`add_cover`).
    fn covers(&self, alloc: Global, terms: &ShortSum) -> Result<ShortSum, SumFault>
        requires first { 1 ≤ self.now.letter }
        requires last { self.now.letter ≤ self.now.letters }
        requires few { self.now.letters ≤ 32 }
        requires was { HaveLabels (IsShort self.now.letters) terms.now }
        ensures { IfOk result (λ sum. GainsExcept self.now.letters (self.now.letter - 1) []
            (replaced (signed_covers self.now.letters self.now.letter) terms.now) sum) }
    {
        let mut sum = Lin::new(alloc);
        for (w, c) in terms.iter() {
            let place = w.place(self.letter);
            let minus = c.neg().ok_or(SumFault::Large)?;
            self.add_covers_before(w, place, *c, &mut sum)?;
            self.add_covers_after(w, place, minus, &mut sum)?;
        }
        if sum.len() > MOST_PERMUTATIONS {
            return Err(SumFault::Large);
        }
        Ok(sum)
    }

    /// Adds a summand of the given degree d for each term c·w of `terms`, with the coefficient
    /// (-1)^d·c, unless w has letters a and a + 1, both at most the letter of the row, in this
    /// order.
    fn add_summands(
        &self,
        terms: &ShortSum,
        degree: usize,
        summands: &mut Vec<Summand>,
    ) -> Result<(), SumFault>
        requires last { self.now.letter ≤ self.now.letters }
        requires few { self.now.letters ≤ 32 }
        requires short { HaveLabels (IsShort self.now.letters) terms.now }
        ensures { OnOk result ((f : ℕ → List ℕ → ℤ)
            → IsNullAt self.now.letters self.now.letter (f degree)
            → sum_over f summands.new.items
            ≡ sum_over f summands.old.items
            +ℤ minus_one_to degree *ℤ over (f degree) terms.now) }
    {
        for (w, c) in terms.iter() {
            if !has_left_ascent(w, self.letter) {
                summands.push(Summand {
                    perm: w.copy()?,
                    degree,
                    coefficient: with_sign(degree, *c)?,
                })?;
            }
        }
        Ok(())
    }
}

/// (-1)^d·c for d = `degree`. Returns `Large` only if this is 2^127.
pub(crate) fn with_sign(degree: usize, c: Int) -> Result<Int, SumFault>
    ensures { IfOk result (λ signed. signed ≡ minus_one_to degree *ℤ c) }
{
    if degree % 2 == 0 {
        return Ok(c);
    }
    let minus = c.neg().ok_or(SumFault::Large)?;
    Ok(minus)
}

/// The summands at `q`, a permutation of at most n letters, of the row i of a diagram, counted from
/// 0. The row has `cells` cells, and no row has more than n cells.
///
/// Starts with q, and exchanges the letter n - i in turn, so often as there are cells, by Monk's
/// rule for divided differences of the product of all x_a - y_i over the row. Permutations in which
/// letters a and a + 1, both less than n - i, stand in this order are left out, since nothing of
/// the rows before is left at them. Returns `Large` if n is more than 32, if `q` has more letters
/// or there is no row i, or if there are too many permutations (`MOST_PERMUTATIONS`).
pub(crate) fn row_summands(
    alloc: Global,
    q: &ShortPerm,
    n: usize,
    i: usize,
    cells: usize,
) -> Result<Vec<Summand>, SumFault>
    ensures { (rows : List ℕ) → AreWithin n rows → get_or rows i 0 ≡ cells
        → IfOk result (λ summands. AreSummandsAt n i rows q.now summands.items) }
{
    if n > MOST_LETTERS || i >= n || q.len() > n {
        return Err(SumFault::Large);
    }
    let row = Row {
        letters: n,
        letter: (n - i) as u8,
    };
    let mut summands = Vec::new(alloc);
    let mut terms = Lin::new(alloc);
    terms.add_owned(q.copy()?, Int::one())?;
    for done in 0..cells {
        row.add_summands(&terms, cells - done, &mut summands)?;
        terms = row.covers(alloc, &terms)?;
    }
    row.add_summands(&terms, 0, &mut summands)?;
    Ok(summands)
}

/// The permutations at which the values of the first rows of a diagram are wanted.
#[derive(Drop)]
pub(crate) struct Layers {
    /// For each number of rows, from 0 on, the permutations at which the value of so many rows is
    /// wanted: in the printed order, each once.
    pub(crate) perms: Vec<Vec<ShortPerm>>,
    /// The sum over all summands of the likely number of terms (`likely_terms`) of what is multiplied
    /// for it: the value of the rows before at its permutation.
    pub(crate) size: usize,
}

impl Layers {
    /// The permutations at which the values of the first i rows are wanted, for i from 0 to the number
    /// of rows, if the value of all rows is wanted at `p`, a permutation of at most n letters. Those
    /// for i rows include all permutations of the summands of the row i, counted from 0, at those for
    /// i + 1 rows. A row with no cells changes nothing. No clause says this: a caller has to look each
    /// permutation up.
    ///
    /// Returns `Large` if there are too many permutations in all (`MOST_PERMUTATIONS`), if their size
    /// (`Layers`) is more than `most`, or if `row_summands` does.
    pub(crate) fn of(
        alloc: Global,
        p: &ShortPerm,
        n: usize,
        rows: &[usize],
        most: usize,
    ) -> Result<Layers, SumFault> {
        let mut perms = Vec::new(alloc);
        let mut layer = Vec::new(alloc);
        layer.push(p.copy()?)?;
        let mut size = 0;
        let mut left = MOST_PERMUTATIONS;
        for i in (0..rows.len()).rev() {
            let lower = layer_below(alloc, layer.as_slice(), n, i, rows, &mut size)?;
            perms.push(layer)?;
            layer = lower;
            left = left.checked_sub(layer.len()).ok_or(SumFault::Large)?;
            if size > most {
                return Err(SumFault::Large);
            }
        }
        perms.push(layer)?;
        perms.reverse();
        Ok(Layers { perms, size })
    }
}

/// The permutations of the summands at the permutations of `layer`, of the row i of `rows`; those of
/// `layer` if this row has no cells. In the printed order, each once. Adds to `size` what these
/// summands add to the size of all (`Layers`).
fn layer_below(
    alloc: Global,
    layer: &[ShortPerm],
    n: usize,
    i: usize,
    rows: &[usize],
    size: &mut usize,
) -> Result<Vec<ShortPerm>, SumFault> {
    let (before, cells) = (cells_before(i, rows), rows.get(i).copied().unwrap_or(0));
    let mut found: ShortSum = Lin::new(alloc);
    for q in layer {
        if cells == 0 {
            found.add_at_label(q, Int::one())?;
        } else {
            for summand in row_summands(alloc, q, n, i, cells)? {
                let degree = degree_of_value(n, before, &summand.perm);
                *size = size.saturating_add(likely_terms(degree));
                found.add_owned(summand.perm, Int::one())?;
            }
        }
    }
    let mut perms = Vec::with_capacity(alloc, found.len())?;
    for (w, _) in found.sorted_terms()? {
        perms.push(w)?;
    }
    Ok(perms)
}

/// The number of cells of the first i rows.
fn cells_before(i: usize, rows: &[usize]) -> usize {
    let mut cells: usize = 0;
    for row in rows.iter().take(i) {
        cells = cells.saturating_add(*row);
    }
    cells
}

/// The degree of the value of rows with so many cells at q, a permutation of at most n letters: one
/// less for each pair of letters that stand in order.
fn degree_of_value(n: usize, cells: usize, q: &ShortPerm) -> usize {
    let pairs = n.saturating_mul(n.saturating_sub(1)) / 2;
    cells.saturating_sub(pairs.saturating_sub(q.inversions()))
}

/// A guess at the number of Schubert polynomials in the product of one of them and a polynomial of
/// this degree, for a comparison of the ways to multiply.
pub(crate) fn likely_terms(degree: usize) -> usize {
    let side = degree.saturating_add(1);
    side.saturating_mul(side)
}
