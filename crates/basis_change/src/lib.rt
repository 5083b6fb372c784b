//! Changes of basis for symmetric functions: from the monomial basis m into m, e, h, p and s.
//!
//! What is proved:
//!
//! `to_basis`: a list in m as a list in m, e, h, p or s, of the same polynomial in every number of
//! variables. Into e, h and p the parts of augmented monomials become power sums one after another;
//! into s the arrangements of each label are straightened, with special rim hooks. The list comes
//! with two numbers: `den`, a multiple of all its denominators, and `num`, with |c|·`den`·Π λ_i! ≤
//! `num`·|λ|! for each of its terms c·m_λ. Let d be the greatest size of a label, and B the growth
//! into the target basis at d: 1 if d = 0, and otherwise d^d for m and s, d!·(2d)^d for e, h and p.
//! `Large` is returned only if `num`·`den`·B is 2^127 or more.
//!
//! Into e, h and p, `den`·d! times each coefficient of the answer is an integer, the absolute
//! values of these products add up to at most `num`·B, and no label of the answer has more than d
//! cells. `in_basis` and `in_family` change a list in m with integer coefficients and labels of at
//! most d cells into another basis. For e, h and p the result is d! times the list; for m and s,
//! into which only `in_basis` changes, it is the list itself.
//!
//! `last_part_law`: for every n, the arrangements of a partition in n places straighten to those
//! terms of one list whose partitions have at most n rows; this list is computed by special rim
//! hooks from the lists for the partition without one part.
#![tactic(auto)]

mod change;
mod clearing;
mod hooks;
mod kept;
mod last_part;
mod parts;
mod products;
mod rewriting;
mod straightening;
mod twenty_rows;

pub use change::{clearing_factor, in_basis, in_family, to_basis};
pub use clearing::{denominator_of, greatest_size, numerator_of, whole_of, whole_terms};
pub use last_part::last_part_law;
