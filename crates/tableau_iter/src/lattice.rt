//! A lister of the good tableaux of a skew shape for a partition `start`: those such that, for each
//! column, start plus the content of that column and of those right of it is a partition.
ghost use Rattle.std.specs.Prelude.{◌≡◌, ◌++◌, ◌↔◌, ℕ, ◌+◌, ◌<◌, ◌≤◌, [], ◌∷◌, IsTrue, false, true};
ghost use Rattle.std.specs.Prelude.{length, IfOk, IfSome, IsErrOf, IsSome, None, OnOk};
ghost use Rattle.std.specs.Option.{option_to_list};
ghost use Rattle.std.specs.Bool.{OnFalse};
ghost use Rattle.sym_model.specs.GoodTableau.{good_readings, is_among};
ghost use Rattle.sym_model.specs.TableauList.{later_than};
ghost use Rattle.sym_model.specs.Partition.{cells, size};
ghost use Rattle.sym_model.specs.Polynomial.{join};
ghost use Rattle.sym_model.specs.Schur.{content};

use crate::board::Board;
use crate::fault::ResumeFault;
use crate::rule::Rule;
use crate::stage::Stage;
use crate::walk::put_all;
use crate::walker::Walker;
use calc_base::{Lister, NoMemory};
use partitions::Partition;
use skew_shapes::Skew;
use std::alloc::Global;
use std::marker::Model;

/// A lister (trait `Lister`) of the good tableaux of a skew shape for a partition `start`, with
/// entries from 1 to a given number. It gives their column readings in increasing lexicographic
/// order. A tableau is good (Stembridge) if, for each column, start plus the content of that column
/// and of those right of it is a partition. Each reading is written over the one before it.
#[derive(Drop)]
pub struct Lattice {
    walker: Walker,
}

impl Model for Lattice {
    ghost use Rattle.tableau_iter.specs.Listings.{Listed};

    ghost Value = { Listed };

    ghost view = { λ l. l.walker };
}

impl Lattice {
    /// A lister of the good tableaux of `shape` for `start` with entries from 1 to `rows`. It is
    /// before the first of them. `start` must have at most `rows` rows, `rows` is at most 512, and
    /// `start` and the shape have at most 4,096 cells together. Fails only if memory runs out.
    pub fn new(
        alloc: Global,
        shape: &Skew,
        start: &Partition,
        rows: u16,
    ) -> Result<Lattice, NoMemory>
        requires start { length start.now ≤ rows }
        requires few { rows ≤ 512 }
        requires small { size start.now + length (cells shape.now.0 shape.now.1) ≤ 4096 }
        ensures rest { IfOk result (λ l. ⟦<Lattice as Lister>⟧.rest l
            ≡ good_readings rows start.now shape.now.0 shape.now.1) }
        ensures item { IfOk result (λ l. ⟦<Lattice as Lister>⟧.item l ≡ None) }
        ensures start { IfOk result (λ l. l.start ≡ start.now) }
        ensures letters { IfOk result (λ l. l.letters ≡ rows) }
    {
        let board = Board::new(alloc, shape, start.parts(), rows, Rule::Falling, &[])?;
        Ok(Lattice {
            walker: Walker::at(board, Stage::New),
        })
    }

    /// A lister of good tableaux that continues a list after a given tableau. The list has the good
    /// tableaux of `shape` for `start` with entries from 1 to `rows`, and `last` is the column
    /// reading of the given tableau. The lister is before the first tableau after that one. `start`
    /// must have at most `rows` rows, `rows` is at most 512, and `start` and the shape have at most
    /// 4,096 cells together. Unless memory runs out, it returns `NotInList` if and only if `last`
    /// is not the column reading of a tableau of the list. The tableaux before the given one are
    /// not computed again.
    pub fn resume(
        alloc: Global,
        shape: &Skew,
        start: &Partition,
        rows: u16,
        last: &[u16],
    ) -> Result<Lattice, ResumeFault>
        requires start { length start.now ≤ rows }
        requires few { rows ≤ 512 }
        requires small { size start.now + length (cells shape.now.0 shape.now.1) ≤ 4096 }
        ensures rest { IfOk result (λ l. ⟦<Lattice as Lister>⟧.rest l
            ≡ later_than last.now (good_readings rows start.now shape.now.0 shape.now.1)) }
        ensures item { IfOk result (λ l. ⟦<Lattice as Lister>⟧.item l ≡ None) }
        ensures start { IfOk result (λ l. l.start ≡ start.now) }
        ensures letters { IfOk result (λ l. l.letters ≡ rows) }
        ensures in_list { OnOk result
            (is_among last.now (good_readings rows start.now shape.now.0 shape.now.1) ≡ true) }
        ensures not_in_list { IsErrOf result ResumeFault.NotInList
            → is_among last.now (good_readings rows start.now shape.now.0 shape.now.1) ≡ false }
    {
        if last.len() != usize::from(shape.cells()) {
            return Err(ResumeFault::NotInList);
        }
        let mut board = Board::new(alloc, shape, start.parts(), rows, Rule::Falling, &[])?;
        if !put_all(&mut board, last) {
            return Err(ResumeFault::NotInList);
        }
        Ok(Lattice {
            walker: Walker::at(board, Stage::Passed),
        })
    }

    /// Start plus the content of the current tableau: for each letter i from 1 to the greatest
    /// allowed one, part i of start plus the number of entries i of the tableau.
    pub fn content(&self) -> &[u16]
        requires { IsSome self.now.item }
        ensures { IfSome self.now.item
            (λ w. result.now ≡ join self.now.start (content self.now.letters w)) }
    {
        self.walker.sums()
    }
}

impl Lister for Lattice {
    ghost rest = { λ l. l.rest };

    ghost item = { λ l. l.item };

    fn advance(&mut self) -> bool
        ensures next { self.old.rest ≡ option_to_list self.new.item ++ self.new.rest }
        ensures found { IsTrue result ↔ IsSome self.new.item }
        ensures ended { OnFalse result (self.old.rest ≡ []) }
        ensures start { self.new.start ≡ self.old.start }
        ensures letters { self.new.letters ≡ self.old.letters }
    {
        self.walker.advance()
    }

    fn current(&self) -> &[u16] {
        self.walker.current()
    }
}
