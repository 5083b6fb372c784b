//! Reads the words of the commands on partitions, permutations and words of letters, and the words
//! of `batch` and `work`, as a `Command`.
//!
//! What is proved:
//!
//! Unless memory runs out, the reader of the words of each of these commands returns a `Command` if
//! and only if the words spell it without an error. If they spell it with an error, the reader
//! returns the first error; if they do not have the form of the command, it returns the place of
//! the first error of syntax. `joined_commands_law`: the same holds in a list of commands with
//! different names. `written_limits_law`: the values of a command whose words have no error are
//! within the limits.
//!
//! `Command` is a command of the program, and `command_of` the same command as the definitions
//! describe it. Each command but `unrsk` is sound (`IsSound`); `unrsk` is sound if its two tableaux
//! have the same straight shape, the second is standard, and there are at most 256 cells.
#![tactic(auto)]

pub mod batches;
mod command;
mod command_cuts;
mod command_words;
mod factors;
mod joined;
mod letters;
mod limits;
mod line;
mod numbers;
mod offence;
mod part_values;
mod partition_list;
mod permutation_list;
pub mod permutations;
pub mod products;
pub mod reductions;
mod splitting;
mod two_shapes;
mod word_parts;

pub use command::Command;
pub use command_cuts::{Piece, Places, cut, cut_unread, piece_at};
pub use joined::joined_commands_law;
pub use limits::written_limits_law;
pub use line::{are_passed_over, line_words, without_return};
pub use numbers::{is_number, value_of};
pub use offence::{Kind, offence as refused, syntax};
pub use part_values::{maybe_form_of, target_of, text_of};
pub use partition_list::read_partition;
pub use splitting::{behind, numbers as numbers_first};
pub use two_shapes::read_two;
pub use word_parts::Part;
