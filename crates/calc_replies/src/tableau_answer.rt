//! The answers to the commands on tableaux, `tab`, `rsk`, `unrsk`, `rect` and `growth`, and their
//! text.
ghost use Rattle.std.specs.Prelude.{◌≡◌, true};
ghost use Rattle.calc_base.specs.Puts.{Puts};
ghost use Rattle.sym_model.specs.TableauText.{tableau_line, pair_text};
ghost use Rattle.calc_replies.specs.Computed.{lines_text};

use crate::grids::put_grid;
use crate::listing::{Listing, put_listed};
use crate::outcome::Outcome;
use calc_base::{Sink, Word, put_if};
use expansion_printer::{print_letters, print_tableau};
use growth_diagrams::Grid;
use skew_shapes::{Standard, Tableau};

/// The answer to a command on tableaux: `tab`, `rsk`, `unrsk`, `rect` or `growth`. It is not a list
/// of terms.
#[derive(Drop)]
pub enum TableauAnswer {
    /// The tableaux that `tab` lists; `None` if the outer shape does not contain the inner one.
    Listed { list: Option<Listing> },
    /// For `rsk`: the insertion tableau and the recording tableau of a word.
    Paired { p: Tableau, q: Standard },
    /// For `unrsk`: the letters of a word.
    Spelled { word: Word },
    /// For `rect`: a tableau of a straight shape.
    Straight { tableau: Tableau },
    /// For `growth`: the growth diagram of a permutation.
    Grown { grid: Grid },
}

/// The outcome of a command on tableaux, with the answer `lines`.
pub(crate) fn told(lines: TableauAnswer) -> Outcome
    ensures { result ≡ Outcome.Told lines }
{
    Outcome::Told { lines }
}

/// Writes the text of the answer to the sink, and returns whether all calls of the sink succeeded.
pub(crate) fn put_told<K: Sink>(lines: &mut TableauAnswer, sink: &mut K) -> bool
    ensures { Puts true (K.seen sink.old) result (K.seen sink.new) (lines_text lines.old) }
{
    match lines {
        TableauAnswer::Listed { list } => put_listed(list, sink),
        TableauAnswer::Paired { p, q } => put_pair(p, q.tableau(), sink),
        TableauAnswer::Spelled { word } => print_letters(word.as_slice(), sink).is_ok(),
        TableauAnswer::Straight { tableau } => put_tableau(true, tableau, sink),
        TableauAnswer::Grown { grid } => put_grid(grid, sink),
    }
}

/// Writes the lines of the tableaux P and Q, each with its name in front, and returns whether all
/// calls of the sink succeeded.
fn put_pair<K: Sink>(p: &Tableau, q: &Tableau, sink: &mut K) -> bool
    ensures { Puts true (K.seen sink.old) result (K.seen sink.new)
        (pair_text p.now.rows q.now.rows) }
{
    let first = put_if(true, sink, b"P ");
    let upper = put_tableau(first, p, sink);
    let second = put_if(upper, sink, b"Q ");
    put_tableau(second, q, sink)
}

/// Writes the line of a tableau if `well` is true, that is, if no call of the sink has failed so
/// far. Returns whether all calls of the sink succeeded.
fn put_tableau<K: Sink>(well: bool, tableau: &Tableau, sink: &mut K) -> bool
    ensures { Puts well (K.seen sink.old) result (K.seen sink.new) (tableau_line tableau.now.rows) }
{
    if !well {
        return false;
    }
    print_tableau(tableau, sink).is_ok()
}
