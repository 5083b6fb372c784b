//! Laws of strips, of rim hooks, and of shapes that lie inside other shapes: their conditions on
//! cells, stated as conditions on parts.
//!
//! A law function has an empty body: its contract is the law.
//!
//! What is proved:
//!
//! `strip_law`: the conditions on the parts of outer and inner under which outer/inner is a
//! horizontal strip, a vertical strip or a rim hook. `containment_law`: one shape is inside another
//! if and only if its cells are cells of the other.
#![tactic(auto)]

mod containing;
mod strips_and_hooks;

pub use containing::containment_law;
pub use strips_and_hooks::strip_law;
