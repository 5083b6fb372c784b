//! Products of Schubert polynomials by the transition rule.
//!
//! What is proved:
//!
//! `transition_places` returns the places r < s of the transition rule for a permutation w;
//! exchanging the letters of w there removes one inversion. It returns None if and only if w is the
//! identity. `product_of` returns the product of a Schubert polynomial S_w and the polynomial of a
//! label, as a list of labels. It is written for every type of label with a `Factor`, whose laws
//! `start` and `step` determine this product. It returns `Large` only if S_w(1, .., 1), times a
//! power with the number of inversions of w as its exponent, is 2^127 or more.
//!
//! A share (`IsShare`) is a function of a permutation and a label; no step of the transition rule
//! increases its value. For each share, the sum of |c|·share(id, x) over the terms (x, c) of the
//! returned list is at most the share of w and the given label; id is the identity. If `Large` is
//! returned, there are a permutation v and a label x such that each share that is at least 1 at v
//! and x is at least 2^127 at w and the given label. So, if no coefficient can be negative, then,
//! unless memory runs out, `Large` is returned if and only if a coefficient is too large.
//!
//! The permutations that the rule has not yet replaced are called waiting. They are kept in a list,
//! each with the list of terms by which its Schubert polynomial is multiplied. `Joins` says what
//! each step adds to these lists of terms, and `AreInOrder` that no permutation is kept twice.
#![tactic(auto)]

mod factor;
mod places;
mod product;
mod todo;
mod waiting;

pub use factor::Factor;
pub use places::transition_places;
pub use product::product_of;
pub use todo::Waiting;
pub use waiting::add_waiting_by;
