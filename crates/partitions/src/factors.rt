//! The factors of a product.
ghost use Rattle.std.specs.Prelude.{◌≡◌, ◌≤◌, ◌<◌, ◌↔◌, ◌++◌, ◌∷◌, [], length, slice_get, Some};
ghost use Rattle.std.specs.Prelude.{IfOk, OnOk, OnErr, IsErrOf, IsTrue, MatchOption, ◌⊎◌};
ghost use Rattle.partitions.specs.FactorList.{AreFactors, AreTooBig, rows_of};

use crate::{FactorsFault, Partition};
use calc_base::NoMemory;
use std::alloc::Global;
use std::marker::Model;

/// The greatest number of factors; `MAX_CELLS` and `MAX_ROWS` bound the numbers of cells and of
/// rows of all factors together.
const MAX_FACTORS: usize = 8;

const MAX_CELLS: u16 = 4096;

const MAX_ROWS: u16 = 512;

/// The factors of a product: 2 to 8 partitions, with at most 4,096 cells and at most 512 rows in
/// all. In contracts, a value of this type is the list of the factors.
#[derive(Debug, Drop)]
pub struct Factors {
    factors: Vec<Partition>,
    /// The number of cells of all factors together.
    cells: u16,
    /// The number of rows of all factors together.
    rows: u16,
}

impl Model for Factors {
    ghost use Rattle.std.specs.Prelude.{ℕ, List};
    ghost use Rattle.partitions.specs.FactorList.{HasSums};

    ghost Value = { List (List ℕ) };

    ghost view = { λ f. f.factors.items };

    ghost invariant = { λ f. HasSums f.factors.items f.cells f.rows };
}

impl Factors {
    /// The list of the two factors `left` and `right`.
    ///
    /// Returns `TooBig` if and only if they have more than 4,096 cells or more than 512 rows
    /// together.
    pub fn pair(alloc: Global, left: Partition, right: Partition) -> Result<Factors, FactorsFault>
        ensures ok { IfOk result (λ factors. factors ≡ left ∷ right ∷ []) }
        ensures too_many { ¬ IsErrOf result FactorsFault.TooMany }
        ensures too_big { IsErrOf result FactorsFault.TooBig ↔ AreTooBig (left ∷ right ∷ []) }
    {
        let cells = left.size() + right.size();
        let rows = left.rows() + right.rows();
        if is_too_big(cells, rows) {
            return Err(FactorsFault::TooBig);
        }
        let mut factors = Vec::new(alloc);
        factors.push(left)?;
        factors.push(right)?;
        Ok(Factors {
            factors,
            cells,
            rows,
        })
    }

    /// Appends the factor `next`.
    ///
    /// Returns `TooMany` if and only if there are already eight factors, otherwise `TooBig` if and
    /// only if the factors with `next` would have more than 4,096 cells or more than 512 rows in
    /// all. On an error the factors are unchanged.
    pub fn push(&mut self, next: Partition) -> Result<(), FactorsFault>
        ensures ok { OnOk result (self.new ≡ self.old ++ next ∷ []) }
        ensures kept { OnErr result (self.new ≡ self.old) }
        ensures too_many { IsErrOf result FactorsFault.TooMany ↔ (length self.old ≡ 8) }
        ensures too_big { IsErrOf result FactorsFault.TooBig
            ↔ ((length self.old < 8) × AreTooBig (self.old ++ next ∷ [])) }
    {
        if self.len() == MAX_FACTORS {
            return Err(FactorsFault::TooMany);
        }
        if self.is_too_big_with(&next) {
            return Err(FactorsFault::TooBig);
        }
        self.grow(next)?;
        Ok(())
    }

    /// Whether the factors with `next` appended would have more than 4,096 cells or 512 rows in
    /// all.
    fn is_too_big_with(&self, next: &Partition) -> bool
        ensures { IsTrue result ↔ AreTooBig (self.now ++ next.now ∷ []) }
    {
        is_too_big(self.cells + next.size(), self.rows + next.rows())
    }

    /// Appends the factor `next`; the caller guarantees that there are fewer than 8 factors so far,
    /// and that with `next` they have at most 4,096 cells and 512 rows in all.
    fn grow(&mut self, next: Partition) -> Result<(), NoMemory>
        requires room { length self.old < 8 }
        requires small { AreTooBig (self.old ++ next ∷ []) → ⊥ }
        ensures ok { OnOk result (self.new ≡ self.old ++ next ∷ []) }
        ensures kept { OnErr result (self.new ≡ self.old) }
    {
        let cells = self.cells + next.size();
        let rows = self.rows + next.rows();
        self.factors.push(next)?;
        self.cells = cells;
        self.rows = rows;
        Ok(())
    }

    /// The number of factors. This function allocates no memory.
    pub fn len(&self) -> usize
        ensures value { result ≡ length self.now }
        ensures limits { AreFactors self.now }
    {
        self.factors.len()
    }

    /// The factor at the place `i`, counted from 0; None if and only if there are at most `i`
    /// factors. This function allocates no memory.
    pub fn get(&self, i: usize) -> Option<&Partition>
        ensures value { MatchOption result (length self.now ≤ i)
            (λ factor. slice_get self.now i ≡ Some factor.now) }
        ensures limits { AreFactors self.now }
    {
        self.factors.get(i)
    }

    /// The number of rows of all factors together. This function allocates no memory.
    pub fn rows(&self) -> u16
        ensures value { result ≡ rows_of self.now }
        ensures limits { AreFactors self.now }
    {
        self.rows
    }

    /// An equal list of factors.
    pub fn copy(&self) -> Result<Factors, NoMemory>
        ensures { IfOk result (λ copy. copy ≡ self.now) }
    {
        let mut factors = Vec::new(*self.factors.allocator());
        for factor in self.factors.iter() {
            factors.push(factor.copy()?)?;
        }
        Ok(Factors {
            factors,
            cells: self.cells,
            rows: self.rows,
        })
    }
}

/// Whether `cells` exceeds 4,096 or `rows` exceeds 512, the limits for all factors together.
fn is_too_big(cells: u16, rows: u16) -> bool
    ensures { IsTrue result ↔ ((4096 < cells) ⊎ (512 < rows)) }
{
    cells > MAX_CELLS || rows > MAX_ROWS
}
