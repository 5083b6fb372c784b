//! The growth grid of a permutation.
ghost use Rattle.std.specs.Prelude.{◌≡◌, ◌-◌, ◌≤◌, ℕ, List, IfOk, length, take};
ghost use Rattle.sym_model.specs.Growth.{at_most, grid_line, growth_shape, tableau_of_chain};
ghost use Rattle.sym_model.specs.Insertion.{insertion_pair};
ghost use Rattle.sym_model.specs.Permutation.{AreInverse, IsOneLine};
ghost use Rattle.sym_model.specs.Tableau.{shape_of};
ghost use Rattle.perm_codes.specs.Limits.{IsWithinLimits};
ghost use Rattle.row_insertion.specs.Pairs.{HaveOneShape};

use crate::corner::shape_at_corner;
use crate::edges::{column_tableau, line_tableau};
use calc_base::NoMemory;
use partitions::Partition;
use perm_codes::Perm;
use skew_shapes::Standard;
use std::alloc::Global;
use std::marker::Model;

/// A permutation of n letters, with the shapes of its growth diagram at the points (i, j), for i
/// and j from 0 to n.
#[derive(Drop)]
pub struct Grid {
    permutation: Perm,
    lines: Vec<Vec<Partition>>,
}

impl Model for Grid {
    ghost use Rattle.std.specs.Prelude.{ℕ, List};
    ghost use Rattle.growth_diagrams.specs.Grids.{IsGridOf};

    ghost Value = { List ℕ };

    ghost view = { λ g. g.permutation };

    ghost invariant = { λ g. IsGridOf g.permutation g.lines.items };
}

impl Grid {
    /// The number n of letters of the permutation.
    pub fn side(&self) -> u16
        ensures value { result ≡ length self.now }
        ensures limits { IsWithinLimits self.now }
    {
        self.permutation.len()
    }

    /// The line i of the grid: the growth shapes at (i, 0), .., (i, n), if the permutation has n
    /// letters and i is at most n.
    pub fn line(&self, i: u16) -> &[Partition]
        requires { i ≤ length self.now }
        ensures shapes { result.now ≡ grid_line self.now i }
        ensures limits { IsWithinLimits self.now }
    {
        self.lines[usize::from(i)].as_slice()
    }

    /// The growth shape at (i, j), for i and j up to the number of letters. Take the word of those
    /// of the first i letters of the permutation that are at most j: the growth shape is the shape
    /// of its insertion tableau (Fomin; Stanley, Enumerative Combinatorics 2, 7.13).
    pub fn shape_at(&self, i: u16, j: u16) -> &Partition
        requires i { i ≤ length self.now }
        requires j { j ≤ length self.now }
        ensures shape { result.now ≡ growth_shape self.now i j }
        ensures insertion { result.now ≡ shape_of (insertion_pair (at_most j (take i self.now))).0 }
    {
        &self.line(i)[usize::from(j)]
    }

    /// The insertion tableau P and the recording tableau Q of the permutation, read from the chains
    /// of shapes in the last line and in the last column of its grid. The inverse permutation has
    /// the insertion tableau Q and the recording tableau P. Fails only if memory runs out.
    #[tactic(auto, using(insertion_laws::proofs::WordsAndPairs::one_shape))]
    pub fn pair_of(&self) -> Result<(Standard, Standard), NoMemory>
        ensures pair { IfOk result (λ pair. (pair.0.rows, pair.1.rows) ≡ insertion_pair self.now) }
        ensures last_line { IfOk result (λ pair.
            pair.0.rows ≡ tableau_of_chain (λ j. growth_shape self.now (length self.now) j)
            (length self.now)) }
        ensures last_column { IfOk result (λ pair.
            pair.1.rows ≡ tableau_of_chain (λ i. growth_shape self.now i (length self.now))
            (length self.now)) }
        ensures inverse { (v : List ℕ) → IsOneLine v → AreInverse v self.now
            → IfOk result (λ pair. (pair.1.rows, pair.0.rows) ≡ insertion_pair v) }
        ensures one_shape { IfOk result (λ pair. HaveOneShape pair.0 pair.1) }
    {
        let alloc = *self.lines.allocator();
        let p = line_tableau(alloc, self)?;
        let q = column_tableau(alloc, self)?;
        Ok((p, q))
    }
}

/// The growth grid of the permutation w. Fails only if memory runs out.
pub fn grow(alloc: Global, w: &Perm) -> Result<Grid, NoMemory>
    ensures { IfOk result (λ grid. grid ≡ w.now) }
{
    let permutation = w.copy()?;
    let mut lines = Vec::new(alloc);
    lines.push(first_line(alloc, w)?)?;
    for at in 0..w.len() {
        let line = next_line(alloc, w, at + 1, &lines[usize::from(at)])?;
        lines.push(line)?;
    }
    Ok(Grid { permutation, lines })
}

/// The first line of the grid of w: the shapes at (0, 0), .., (0, n), which are all empty.
fn first_line(alloc: Global, w: &Perm) -> Result<Vec<Partition>, NoMemory>
    ensures { IfOk result (λ line. line.items ≡ grid_line w.now 0) }
{
    let mut line = Vec::new(alloc);
    for _ in 0..w.len() + 1 {
        line.push(Partition::from_valid_parts(alloc, &[])?)?;
    }
    Ok(line)
}

/// The line `number` of the grid of w, computed by the local rule from `line`, the line before it.
fn next_line(
    alloc: Global,
    w: &Perm,
    number: u16,
    line: &[Partition],
) -> Result<Vec<Partition>, NoMemory>
    requires first { 1 ≤ number }
    requires last { number ≤ length w.now }
    requires line { line.now ≡ grid_line w.now (number - 1) }
    ensures { IfOk result (λ next. next.items ≡ grid_line w.now number) }
{
    let letter = w.letter(number);
    let mut next = Vec::new(alloc);
    next.push(Partition::from_valid_parts(alloc, &[])?)?;
    for at in 0..w.len() {
        let here = usize::from(at);
        let marked = letter == at + 1;
        let shape = shape_at_corner(alloc, marked, &line[here], &line[here + 1], &next[here])?;
        next.push(shape)?;
    }
    Ok(next)
}
