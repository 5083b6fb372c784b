//! The product of two Schur polynomials by the rows of the labels ν: lattice tableaux of ν/λ with
//! the content μ, built row by row, from the first row on.
ghost use Rattle.std.specs.Prelude.{◌≡◌, ℕ, ◌+◌, ◌<◌, ◌≤◌, List, [], ◌∷◌, get_or, take, replicate};
ghost use Rattle.std.specs.Prelude.{IfOk, IfSome, length};
ghost use Rattle.sym_model.specs.Partition.{part, ArePositive};
ghost use Rattle.lr_product.specs.RowExtension.{over_rows};
ghost use Rattle.lr_product.specs.WeighedSum.{comes_to};
ghost use Rattle.lattice_rows.specs.LatticeRows.{row_ways};
ghost use Rattle.lattice_rows.specs.ProductRule.{IsRule};

use crate::lattice_row::{LatticeState, MOST_LETTERS, Row, add_rows, bounds_of};
use calc_base::NoMemory;
use partitions::Partition;
use prefix_walk::Prefixes;
use std::alloc::Global;

/// The rule by which the rows of ν are found one by one.
#[derive(Drop)]
pub(crate) struct LatticeRows {
    /// The number n of letters, from 2 to 8.
    letters: usize,
    /// The number of rows of ν, zeros at the end included.
    rows: usize,
    /// The content μ of the tableaux, followed by zeros.
    content: [u8; MOST_LETTERS],
    /// The inner shape λ.
    inner: Vec<u8>,
}

impl LatticeRows {
    /// The rule for the product of the Schur polynomials of two partitions, as the inner shape and
    /// the content. `None` unless `content` has 2 to 8 parts and the first parts of both add up to
    /// at most 255.
    pub(crate) fn new(
        alloc: Global,
        inner: &Partition,
        content: &Partition,
    ) -> Result<Option<LatticeRows>, NoMemory>
        ensures { IfOk result (λ o. IfSome o (λ rule. IsRule inner.now content.now
            rule.letters rule.rows rule.content rule.inner.items)) }
    {
        let letters = usize::from(content.rows());
        if letters < 2 || letters > MOST_LETTERS || inner.part(1) + content.part(1) > 255 {
            return Ok(None);
        }
        let Some(numbers) = in_bytes(content.parts()) else {
            return Ok(None);
        };
        let Some(outside) = bytes_of(alloc, inner.parts())? else {
            return Ok(None);
        };
        Ok(Some(LatticeRows {
            letters,
            rows: usize::from(inner.rows()) + letters,
            content: numbers,
            inner: outside,
        }))
    }

    /// The state before the first row. The row above it is so long that it restricts no letter.
    pub(crate) fn start(&self) -> LatticeState
        ensures content { result.content ≡ replicate 8 0 }
        ensures ends { result.ends ≡ replicate 8 255 }
        ensures ways { (a : ℕ) (label : List ℕ) → 2 ≤ self.now.letters → self.now.letters ≤ 8
            → ArePositive (take self.now.letters self.now.content)
            → part self.now.inner.items 1 + get_or (take self.now.letters self.now.content) 0 0 ≤ 255
            → row_ways self.now.letters self.now.content self.now.inner.items (a ∷ label)
            result.content result.ends
            ≡ over_rows self.now.letters (a ∷ label) self.now.inner.items
            (comes_to (take self.now.letters self.now.content)) (replicate self.now.letters 0) [] }
    {
        LatticeState {
            content: [0; MOST_LETTERS],
            ends: [255; MOST_LETTERS],
        }
    }

    /// The length of the row λ of the inner shape at an index, counted from 0.
    fn outside(&self, index: usize) -> u16
        ensures value { result ≡ get_or self.now.inner.items index 0 }
        ensures small { result < 256 }
    {
        match self.inner.get(index) {
            Some(length) => u16::from(*length),
            None => 0,
        }
    }
}

/// The numbers, followed by zeros; `None` if one of them exceeds 255.
fn in_bytes(numbers: &[u16]) -> Option<[u8; MOST_LETTERS]>
    requires { length numbers.now ≤ 8 }
    ensures { IfSome result (λ bytes. take (length numbers.now) bytes ≡ numbers.now) }
{
    let mut bytes = [0u8; MOST_LETTERS];
    for at in 0..numbers.len() {
        let Ok(byte) = u8::try_from(numbers[at]) else {
            return None;
        };
        bytes[at] = byte;
    }
    Some(bytes)
}

/// The list of the numbers; `None` if one of them exceeds 255.
fn bytes_of(alloc: Global, numbers: &[u16]) -> Result<Option<Vec<u8>>, NoMemory>
    ensures { IfOk result (λ o. IfSome o (λ bytes. bytes.items ≡ numbers.now)) }
{
    let mut bytes: Vec<u8> = Vec::with_capacity(alloc, numbers.len())?;
    for at in 0..numbers.len() {
        let Ok(byte) = u8::try_from(numbers[at]) else {
            return Ok(None);
        };
        bytes.push(byte)?;
    }
    Ok(Some(bytes))
}

impl Prefixes<LatticeState> for LatticeRows {
    ghost use Rattle.std.specs.Prelude.{ℕ, ◌-◌, List, take, drop, cond, refl};
    ghost use Rattle.std.proofs.Common.{ap};
    ghost use Rattle.std.proofs.lemmas.Slice.Eq.{bytes_eq-Decides};
    ghost use Rattle.lattice_rows.specs.LatticeRows.{row_ways, IsLatticeState};

    ghost is_state = { λ rule after s. IsLatticeState rule.letters rule.rows after rule.content
        s.content };

    ghost ways = { λ rule after s label. row_ways rule.letters rule.content
        (drop (rule.rows - after) rule.inner.items) label s.content s.ends };

    ghost end = { λ rule. 256 };

    fn steps(
        &self,
        after: usize,
        state: &LatticeState,
        steps: &mut Vec<(u16, LatticeState)>,
    ) -> Result<(), NoMemory> {
        let outside = self.outside(self.rows - (after + 1));
        let below = self.outside(self.rows - after);
        let row = Row {
            letters: self.letters,
            is_last: after == 0,
            outside,
            below,
            content: self.content,
            start: *state,
            bounds: bounds_of(self.letters, outside, self.content, *state),
        };
        add_rows(&row, steps)?;
        Ok(())
    }

    fn place(&self, entry: u16, state: &LatticeState) -> u64 {
        let content = u64::from_le_bytes(state.content);
        let ends = u64::from_le_bytes(state.ends);
        (content.wrapping_mul(0x9E37_79B9_7F4A_7C15) ^ ends).wrapping_mul(0xFF51_AFD7_ED55_8CCD)
            ^ u64::from(entry)
    }

    fn is_same(&self, one: &LatticeState, other: &LatticeState) -> bool {
        one.content == other.content && one.ends == other.ends
    }

    ghost ended = { λ s x state. ap (λ t. cond t 1 0)
        ((bytes_eq-Decides (take s.letters x.content) (take s.letters s.content)).1
        (state.complete refl)) };
}
