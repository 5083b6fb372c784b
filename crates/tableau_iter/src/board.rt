//! A word written letter by letter into the cells of a skew shape, in the order of the column
//! reading.
ghost use Rattle.std.specs.Prelude.{◌≡◌, ℕ, ◌+◌, ◌-◌, ◌<◌, ◌≤◌, false, true, [], ◌∷◌, ◌++◌, length};
ghost use Rattle.std.specs.Prelude.{take, slice_index, IfOk, MatchOption};
ghost use Rattle.sym_model.specs.Partition.{cells, rows, size};
ghost use Rattle.sym_model.specs.Polynomial.{join};
ghost use Rattle.sym_model.specs.Schur.{content};
ghost use Rattle.tableau_iter.specs.NextLetters.{IsNextLetter};
ghost use Rattle.tableau_iter.specs.Positions.{IsNearIn, IsNewBoard, IsReady, IsSameUpTo, fits_in};
ghost use Rattle.tableau_iter.specs.Positions.{near_of};

use crate::cells::cell_numbers;
use crate::near::{ceiling, earlier_places, floor, greatest_letters};
use crate::rule::{Rule, allows, next_allowed};
use calc_base::NoMemory;
use skew_shapes::Skew;
use std::alloc::{AllocError, Global};
use std::marker::Model;

/// For each index of the column reading: in `above` and `right`, one more than the index of the
/// cell above and of the cell on the right, or 0 if there is no such cell; in `most`, the greatest
/// letter that still leaves greater letters for all cells below in the same column.
#[derive(Drop)]
struct Near {
    above: Vec<u16>,
    right: Vec<u16>,
    most: Vec<u16>,
}

/// A word with a letter for each cell of a skew shape, in the order of the column reading. The word
/// is changed letter by letter. Each letter of the prefix written so far fits (`admits`), and
/// `sums` is start plus the content of this prefix.
#[derive(Drop)]
pub(crate) struct Board {
    rule: Rule,
    counts: Vec<u16>,
    start: Vec<u16>,
    near: Near,
    sums: Vec<u16>,
    word: Vec<u16>,
}

impl Model for Board {
    ghost use Rattle.tableau_iter.specs.Positions.{IsBoard, Position, near_of, position_of};

    ghost Value = { Position };

    ghost view = { λ b. position_of b.rule b.counts.items b.start.items
        (near_of b.near.above.items b.near.right.items b.near.most.items) b.sums.items
        b.word.items };

    ghost invariant = { λ b. IsBoard (near_of b.near.above.items b.near.right.items b.near.most.items)
        b.start.items b.sums.items b.word.items };
}

impl Board {
    /// A board for `shape`, with no letter written yet: its word has only zeros, and its sums are
    /// the parts of `start`.
    pub(crate) fn new(
        alloc: Global,
        shape: &Skew,
        start: &[u16],
        letters: u16,
        rule: Rule,
        counts: &[u16],
    ) -> Result<Board, NoMemory>
        requires rows { rows start.now ≤ letters }
        requires few { letters ≤ 4096 }
        requires small { 0 < size start.now
            → size start.now + length (cells shape.now.0 shape.now.1) ≤ 4096 }
        ensures { IfOk result (λ b. IsNewBoard rule counts.now start.now letters shape.now.0
            shape.now.1 b) }
    {
        let near = near_cells(alloc, shape, letters)?;
        let sums = start_sums(alloc, start, letters)?;
        let word = vec![in alloc; 0u16; usize::from(shape.cells())]?;
        let counts = Vec::from_slice(alloc, counts)?;
        let start = Vec::from_slice(alloc, start)?;
        Ok(Board {
            rule,
            counts,
            start,
            near,
            sums,
            word,
        })
    }

    /// The number of letters of the word, one for each cell of the shape.
    pub(crate) fn len(&self) -> usize
        ensures value { result ≡ length self.now.word }
        ensures few { length self.now.word ≤ 4096 }
    {
        self.word.len()
    }

    /// The word of the board: the prefix written so far, and after it zeros or letters of earlier
    /// words.
    pub(crate) fn word(&self) -> &[u16]
        ensures { result.now ≡ self.now.word }
    {
        &self.word
    }

    /// The start plus the content of the prefix written so far: a number for each letter from 1 on.
    pub(crate) fn sums(&self) -> &[u16]
        ensures { result.now ≡ self.now.sums }
    {
        &self.sums
    }

    /// The least letter greater than `tried` that fits (`admits`) at the index `place`, after the
    /// letters before it; None if there is no such letter.
    pub(crate) fn next_letter(&self, place: usize, tried: u16) -> Option<u16>
        requires place { place < length self.now.word }
        requires ready { IsReady place self.now }
        ensures { MatchOption result
            ((b : ℕ) → tried < b → b ≤ self.now.setting.letters
            → fits_in self.now.setting (take place self.now.word) b ≡ false)
            (IsNextLetter (fits_in self.now.setting (take place self.now.word)) tried
            self.now.setting.letters) }
    {
        let least = floor(&self.near.above, &self.word, place);
        let most = ceiling(&self.near.right, &self.near.most, &self.word, place);
        next_allowed(self.rule, &self.counts, &self.sums, tried.max(least), most)
    }

    /// Whether `letter` fits at the index `place`: it is greater than the letter above, at most the
    /// letter on the right, and leaves greater letters for the cells below, and the rule allows it.
    pub(crate) fn admits(&self, place: usize, letter: u16) -> bool
        requires place { place < length self.now.word }
        requires ready { IsReady place self.now }
        ensures { result ≡ fits_in self.now.setting (take place self.now.word) letter }
    {
        let least = floor(&self.near.above, &self.word, place);
        let most = ceiling(&self.near.right, &self.near.most, &self.word, place);
        if letter <= least || most < letter {
            return false;
        }
        allows(self.rule, &self.counts, &self.sums, letter)
    }

    /// Writes `letter` at the index `place`, at which it must fit (`admits`), and adds 1 to the
    /// number for this letter in the sums.
    pub(crate) fn put(&mut self, place: usize, letter: u16)
        requires place { place < length self.old.word }
        requires ready { IsReady place self.old }
        requires fits { fits_in self.old.setting (take place self.old.word) letter ≡ true }
        ensures same { IsSameUpTo place self.old self.new }
        ensures front { take (place + 1) self.new.word ≡ take place self.old.word ++ letter ∷ [] }
        ensures ready { IsReady (place + 1) self.new }
    {
        self.word[place] = letter;
        self.sums[usize::from(letter) - 1] += 1;
    }

    /// Returns the letter at the index `place`, which must be the last one written, and subtracts 1
    /// from the number for this letter in the sums.
    pub(crate) fn take_off(&mut self, place: usize) -> u16
        requires place { place < length self.old.word }
        requires ready { IsReady (place + 1) self.old }
        ensures letter { result ≡ slice_index self.old.word place }
        ensures same { IsSameUpTo (place + 1) self.old self.new }
        ensures ready { IsReady place self.new }
    {
        let letter = self.word[place];
        self.sums[usize::from(letter) - 1] -= 1;
        letter
    }
}

/// The neighbours (`Near`) of the cells of `shape`, for tableaux with letters from 1 to `letters`.
fn near_cells(alloc: Global, shape: &Skew, letters: u16) -> Result<Near, AllocError>
    ensures { IfOk result (λ n. IsNearIn letters shape.now.0 shape.now.1
        (near_of n.above.items n.right.items n.most.items)) }
{
    let lines = cell_numbers(alloc, shape, true)?;
    let ranks = cell_numbers(alloc, shape, false)?;
    let above = earlier_places(alloc, &lines, &ranks, 1, 0)?;
    let right = earlier_places(alloc, &lines, &ranks, 0, 1)?;
    let most = greatest_letters(alloc, &above, letters)?;
    Ok(Near { above, right, most })
}

/// The parts of `start`, followed by zeros: `letters` numbers in all.
fn start_sums(alloc: Global, start: &[u16], letters: u16) -> Result<Vec<u16>, AllocError>
    requires { rows start.now ≤ letters }
    ensures { IfOk result (λ sums. sums.items ≡ join start.now (content letters [])) }
{
    let mut sums = Vec::with_capacity(alloc, usize::from(letters))?;
    for at in 0..usize::from(letters) {
        sums.push(start.get(at).copied().unwrap_or(0))?;
    }
    Ok(sums)
}
