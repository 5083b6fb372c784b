//! Skew shapes, and fillings of them: semistandard tableaux, standard tableaux, and fillings with
//! any numbers. Also the partitions made by adding a horizontal or vertical strip to a partition,
//! or by adding or removing a rim hook: listers give them one at a time, and the partitions made
//! by adding a strip can also be computed as a list.
//!
//! What is proved:
//!
//! Each call of `Skew`, `Tableau`, `Standard` and `Filled` returns what its comment says, and fails
//! exactly for the causes that its comment names, or because memory runs out; the public methods of
//! `Filled` allocate no memory. `HorizontalStrips` and `VerticalStrips` list exactly the partitions
//! made by adding a horizontal or a vertical strip of k cells to a partition, in decreasing
//! lexicographic order; moving on to the next one allocates no memory. `with_horizontal_strip` and
//! `with_vertical_strip` return the same partitions as a list. `HooksAdded` and `HooksRemoved` list
//! exactly the partitions made by adding or removing a rim hook of k cells, in decreasing
//! lexicographic order, with the height of each rim hook. They work in one buffer, and moving on to
//! the next partition allocates no memory.
#![tactic(auto)]

mod fault;
mod filled;
mod hooks_added;
mod hooks_removed;
mod horizontal_strips;
mod lengths;
mod order;
mod places;
mod skew;
mod standard;
mod tableau;
mod vertical_strips;

pub use calc_base::Word;
pub use fault::TableauFault;
pub use filled::{Filled, filling_with_reading};
pub use hooks_added::HooksAdded;
pub use hooks_removed::HooksRemoved;
pub use horizontal_strips::{HorizontalStrips, with_horizontal_strip};
pub use lengths::has_cell;
pub use skew::Skew;
pub use standard::Standard;
pub use tableau::Tableau;
pub use vertical_strips::{VerticalStrips, with_vertical_strip};
