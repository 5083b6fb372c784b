//! Slides of skew tableaux, and rectification (Schützenberger's jeu de taquin), in place.
//!
//! What is proved:
//!
//! `slide` makes one slide from an inner corner; the reading words before and after it are in the
//! same Knuth class. `rectify` returns a straight tableau reached by slides: the only straight
//! tableau whose reading word is in the Knuth class of the reading word of the given tableau.
//! Neither function allocates memory or can fail.
#![tactic(auto)]

mod empty_cell;
mod sliding;

pub use sliding::{rectify, slide};
