//! Lists of numbers that own their memory.
ghost use Rattle.std.specs.Prelude.{◌≡◌, IfOk};

use crate::NoMemory;
use std::alloc::Global;
use std::marker::Model;

/// A list of numbers that owns its memory, such as the letters of a word or the entries of a code.
#[derive(Debug, Drop)]
pub struct Word {
    letters: Vec<u16>,
}

impl Model for Word {
    ghost use Rattle.std.specs.Prelude.{ℕ, List};

    ghost Value = { List ℕ };

    ghost view = { λ w. w.letters.items };
}

impl Word {
    /// The word with these letters.
    pub fn from_slice(alloc: Global, letters: &[u16]) -> Result<Word, NoMemory>
        ensures { IfOk result (λ word. word ≡ letters.now) }
    {
        Ok(Word {
            letters: Vec::from_slice(alloc, letters)?,
        })
    }

    /// The letters.
    pub fn as_slice(&self) -> &[u16]
        ensures { result.now ≡ self.now }
    {
        self.letters.as_slice()
    }
}
