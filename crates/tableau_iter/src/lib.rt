//! Listers of the tableaux of a skew shape, by their column readings: all semistandard tableaux,
//! those of one content, and the good tableaux for a start partition. A tableau is good
//! (Stembridge) if, for each column, start plus the content of that column and of those right of it
//! is a partition. Also the test of whether rows of numbers are a lattice tableau, that is, a
//! semistandard tableau whose column reading is a lattice word.
//!
//! What is proved:
//!
//! `Lattice` lists the good tableaux of a skew shape for a start partition, by their column
//! readings in increasing lexicographic order, each once: all of them, or those after a given
//! tableau. For the current tableau, `content` gives start plus its content. Unless memory runs
//! out, `NotInList` is returned if and only if the given tableau is not in the list. `Fillings`
//! lists all semistandard tableaux with entries up to a given number, or those of one content.
//! Moving on to the next tableau writes it over the current one and allocates no memory.
//! `lattice_reading` tests whether rows of numbers are a lattice tableau of a skew shape, without
//! listing any, and returns its column reading. `reading_of_rows` returns the column reading of a
//! filling given by its rows. `lattice_reading` and `reading_of_rows` fail only if memory runs out.
#![tactic(auto)]

mod board;
mod cells;
mod fault;
mod fillings;
mod lattice;
mod lattice_words;
mod near;
mod reading;
mod rule;
mod stage;
mod walk;
mod walker;
mod word;

pub use fault::ResumeFault;
pub use fillings::Fillings;
pub use lattice::Lattice;
pub use lattice_words::lattice_reading;
pub use reading::reading_of_rows;
