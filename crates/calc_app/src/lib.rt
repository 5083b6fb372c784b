//! The top call of the calculator: `run` reads the words of a command, computes the whole answer
//! and writes its text, or one line with the reason of a refusal.
#![tactic(auto)]

mod batch;
mod top;
mod workload;

pub use batch_lines::{LineBuf, work_line};
pub use top::run;
pub use workload::work;
