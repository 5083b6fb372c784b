//! Lists of terms, each a label with a coefficient: products of polynomials, products of expansions
//! in the monomial symmetric polynomials, lists with integer coefficients and their division by a
//! number, and the families e, h and p.
//!
//! A label is a partition, a pair of partitions (`Pair`), a partition with a power of q (`Power`),
//! a permutation, a monomial, or a permutation with a monomial in y (`Shifted`).
//!
//! In the product of two monomial symmetric polynomials m_λ and m_μ, the coefficient of a partition
//! ν is the number of ways to write ν as the sum of an arrangement of λ and an arrangement of μ.
//! Exchanging equal parts gives no new way. The program searches for ν part by part, the greatest
//! part first, and stores the remaining parts of λ and μ with the number of ways to reach them.
//!
//! What is proved:
//!
//! In contracts, a `Monomial` is its list of exponents without zeros at the end. Each error of
//! `from_exponents` is returned exactly in the case that it names, `degree` is the sum of the
//! exponents, and `cmp_printed` is the printed order. `Monomial::times` adds the exponents of two
//! monomials, and `Monomial::times_var` increases one exponent by 1.
//!
//! `times` is, over every ring, the product of two polynomials in every number of variables. The
//! weight of a list is max(1, D·A)·D, with D its least common denominator and A the sum of the
//! absolute values of its coefficients; `times` returns `Large` only if the product of the weights
//! of the two lists is 2^127 or more. `times_var` is the product of a polynomial and a variable in
//! every number of variables, and fails only if out of memory.
//!
//! `times_in_m` is, over every ring, the product of two expansions in m, in every number of
//! variables. Let q be the product of the least common denominators of the two lists, and replace
//! all their coefficients by the absolute values. `Large` is returned only if q is 2^127 or more,
//! or if the product of the two resulting lists has a coefficient c such that q·c is 2^127 or more.
//!
//! `single` is the list of one term. `sum_of` is p·left + q·right for two lists and two integers;
//! it returns `Large` only if p·left, q·right or the sum has a coefficient of absolute value 2^127
//! or more. `divided` is a list with each coefficient divided by one number, in lowest terms.
#![tactic(auto)]

mod counts;
mod division;
mod expansion_products;
mod family;
mod fault;
mod monomial;
mod monomial_label;
mod pair;
mod part_steps;
mod parts;
mod poly;
mod power;
mod products;
mod search;
mod shifted;
mod states;
mod whole;

pub use division::divided;
pub use expansion_products::{times_in_m, times_whole_in_m};
pub use family::Family;
pub use fault::MonoFault;
pub use linear_combinations::{Label, Lin, Terms};
pub use monomial::Monomial;
pub use pair::Pair;
pub use poly::Poly;
pub use power::Power;
pub use products::{times, times_var};
pub use shifted::Shifted;
pub use whole::{Whole, single, sum_of};
