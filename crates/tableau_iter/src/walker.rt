//! A lister of the words whose letters all fit in a board (`Board::admits`).
ghost use Rattle.std.specs.Prelude.{◌≡◌, ◌++◌, ◌↔◌, ℕ, [], ◌∷◌, length, IfSome, IsSome, IsTrue};
ghost use Rattle.std.specs.Option.{option_to_list};
ghost use Rattle.std.specs.Bool.{OnTrue, OnFalse};
ghost use Rattle.sym_model.specs.Polynomial.{join};
ghost use Rattle.sym_model.specs.Schur.{content};
ghost use Rattle.tableau_iter.specs.Listings.{IsReadyAt, listed_at, rest_at};
ghost use Rattle.tableau_iter.specs.Positions.{IsReady, IsSameUpTo, passes};
ghost use Rattle.tableau_iter.specs.Walks.{later};

use crate::board::Board;
use crate::stage::Stage;
use crate::walk::{first, next};
use calc_base::Lister;
use std::marker::Model;

/// A lister (trait `Lister`) of the words whose letters all fit in a board (`Board::admits`): the
/// board has the word last written, and the stage says whether this word is current.
#[derive(Drop)]
pub(crate) struct Walker {
    board: Board,
    stage: Stage,
}

impl Model for Walker {
    ghost use Rattle.tableau_iter.specs.Listings.{IsReadyAt, Listed, listed_at};

    ghost Value = { Listed };

    ghost view = { λ w. listed_at w.stage w.board };

    ghost invariant = { λ w. IsReadyAt w.stage w.board };
}

impl Walker {
    /// The lister with this board and this stage.
    pub(crate) fn at(board: Board, stage: Stage) -> Walker
        requires { IsReadyAt stage board }
        ensures { result ≡ listed_at stage board }
    {
        Walker { board, stage }
    }

    /// Start plus the content of the current word: a number for each letter from 1 on.
    pub(crate) fn sums(&self) -> &[u16]
        requires { IsSome self.now.item }
        ensures { IfSome self.now.item
            (λ w. result.now ≡ join self.now.start (content self.now.letters w)) }
    {
        self.board.sums()
    }
}

impl Lister for Walker {
    ghost rest = { λ w. w.rest };

    ghost item = { λ w. w.item };

    fn advance(&mut self) -> bool
        ensures next { self.old.rest ≡ option_to_list self.new.item ++ self.new.rest }
        ensures found { IsTrue result ↔ IsSome self.new.item }
        ensures ended { OnFalse result (self.old.rest ≡ []) }
        ensures start { self.new.start ≡ self.old.start }
        ensures letters { self.new.letters ≡ self.old.letters }
    {
        if !step(&mut self.board, self.stage) {
            self.stage = Stage::Ended;
            return false;
        }
        self.stage = Stage::Listing;
        true
    }

    fn current(&self) -> &[u16] {
        self.board.word()
    }
}

/// Writes to the board the next word of the lister at the given stage; false if there is no further
/// word.
fn step(board: &mut Board, stage: Stage) -> bool
    requires { IsReadyAt stage board.old }
    ensures found { OnTrue result
        (rest_at stage board.old ≡ board.new.word
        ∷ later (passes board.new) board.new.setting.letters [] board.new.word) }
    ensures none { OnFalse result (rest_at stage board.old ≡ []) }
    ensures same { IsSameUpTo 0 board.old board.new }
    ensures whole { OnTrue result (IsReady (length board.new.word) board.new) }
{
    match stage {
        Stage::New => first(board, 0),
        Stage::Listing | Stage::Passed => next(board, 0),
        Stage::Ended => false,
    }
}
