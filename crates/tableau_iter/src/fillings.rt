//! A lister of the semistandard tableaux of a skew shape.
ghost use Rattle.std.specs.Prelude.{◌≡◌, ℕ, ◌+◌, ◌*◌, ◌≤◌, length, IfOk, None};
ghost use Rattle.sym_model.specs.Partition.{size};
ghost use Rattle.sym_model.specs.TableauList.{readings_with_content, tableau_readings};

use crate::board::Board;
use crate::rule::Rule;
use crate::stage::Stage;
use crate::walker::Walker;
use calc_base::{Lister, NoMemory};
use skew_shapes::Skew;
use std::alloc::Global;
use std::marker::Model;

/// A lister (trait `Lister`) of the semistandard tableaux (Fulton) of a skew shape: all those with
/// entries from 1 to n, or those of one content. It gives their column readings in increasing
/// lexicographic order, each once; each is written over the one before it.
#[derive(Drop)]
pub struct Fillings {
    walker: Walker,
}

impl Model for Fillings {
    ghost use Rattle.tableau_iter.specs.Listings.{Listed};

    ghost Value = { Listed };

    ghost view = { λ f. f.walker };
}

impl Fillings {
    /// A lister of the semistandard tableaux of `shape` with entries from 1 to `n`. It is before
    /// the first of them. `n` must be at most 4,096. Fails only if memory runs out.
    pub fn all(alloc: Global, shape: &Skew, n: u16) -> Result<Fillings, NoMemory>
        requires { n ≤ 4096 }
        ensures rest { IfOk result (λ f. ⟦<Fillings as Lister>⟧.rest f
            ≡ tableau_readings n shape.now.0 shape.now.1) }
        ensures item { IfOk result (λ f. ⟦<Fillings as Lister>⟧.item f ≡ None) }
    {
        let board = Board::new(alloc, shape, &[], n, Rule::Free, &[])?;
        Ok(Fillings {
            walker: Walker::at(board, Stage::New),
        })
    }

    /// A lister of the semistandard tableaux of `shape` in which each entry i from 1 on occurs
    /// `content[i - 1]` times. It is before the first of them. `content` must have at most 4,096
    /// numbers. Fails only if memory runs out.
    pub fn with_content(alloc: Global, shape: &Skew, content: &[u16]) -> Result<Fillings, NoMemory>
        requires { length content.now ≤ 4096 }
        ensures rest { IfOk result (λ f. ⟦<Fillings as Lister>⟧.rest f
            ≡ readings_with_content content.now shape.now.0 shape.now.1) }
        ensures item { IfOk result (λ f. ⟦<Fillings as Lister>⟧.item f ≡ None) }
    {
        let cells = shape.cells();
        let letters = content.len() as u16;
        let board = Board::new(alloc, shape, &[], letters, Rule::Limited, content)?;
        if total(content) != u32::from(cells) {
            return Ok(Fillings {
                walker: Walker::at(board, Stage::Ended),
            });
        }
        Ok(Fillings {
            walker: Walker::at(board, Stage::New),
        })
    }
}

impl Lister for Fillings {
    ghost rest = { λ f. f.rest };

    ghost item = { λ f. f.item };

    fn advance(&mut self) -> bool {
        self.walker.advance()
    }

    fn current(&self) -> &[u16] {
        self.walker.current()
    }
}

/// The sum of the numbers.
fn total(numbers: &[u16]) -> u32
    requires { length numbers.now ≤ 4096 }
    ensures value { result ≡ size numbers.now }
    ensures most { result ≤ 65535 * length numbers.now }
{
    let [first, later @ ..] = numbers else {
        return 0;
    };
    u32::from(*first) + total(later)
}
