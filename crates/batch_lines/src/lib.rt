//! The lines of a batch, read from a source piece by piece, the progress of a batch and the end of
//! a command; the lines that the command `work` runs, and the sums over their blocks. The block of
//! a line is the text of its answer or of its refusal.
//!
//! What is proved:
//!
//! `LineReader` gives the lines of a source one at a time, over pieces of any size; `has_line` says
//! whether a complete line was taken from the source and not yet read. The progress of a batch
//! (`Progress`), the status at its end (`at_end`), the text between two of its blocks (`separator`)
//! and the call of `finish` (`finished`) are those of the definitions in specs/Ends. `work_line`
//! writes the next line of the generator and advances its state, and allocates no memory.
//! `Sums::add` counts a block, its terms and its bytes, and `put_summary` writes the three lines of
//! the sums.
#![tactic(auto)]

mod draws;
mod ends;
mod feed;
mod heard;
mod line;
mod line_buf;
mod next;
mod numbers;
mod pieces;
mod progress;
mod reader;
mod sums;

pub use ends::{finished, separator};
pub use line::work_line;
pub use line_buf::LineBuf;
pub use next::{LineFault, Next};
pub use progress::{Progress, at_end};
pub use reader::LineReader;
pub use sums::{Sums, put_summary};
