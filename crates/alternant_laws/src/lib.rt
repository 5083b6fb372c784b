//! Laws of alternants and of the symmetry of Schur polynomials, each for every number of variables:
//! the involutions of Bender and Knuth, Stembridge's identity, the Littlewood-Richardson rule,
//! straightening.
//!
//! A law function has an empty body: its contract is the law.
//!
//! What is proved:
//!
//! `bender_knuth_law`: the Bender–Knuth involutions on semistandard tableaux, and the symmetry of
//! skew Schur polynomials. `alternant_law`: exchanging two exponents changes the sign of an
//! alternant, and the leading monomial of a_ρ is x^ρ. `stembridge_law`: in every number of
//! variables a_(λ+ρ)·s_(μ/ν) is the sum of a_(λ+ω(T)+ρ) over the good tableaux T of the shape μ/ν
//! for the start λ; here ω(T) is the content of T, and T is good for λ if, for each column, λ plus
//! the content of that column and of the columns to its right is a partition.
//! `littlewood_richardson_law`: s_λ·s_(μ/ν) is the sum of s_(λ+ω(T)) over the same tableaux T, and
//! so the Schur coefficients of products and of skew Schur polynomials are counts of good tableaux;
//! the list of terms `classical_product` of several factors has the Schur coefficients of their
//! product. `straighten_law`: m_λ is the sum of the Schur polynomials, with signs, to which the
//! arrangements of λ straighten, in every number of variables.
#![tactic(auto)]

mod bender_knuth;
mod stembridge;
mod straightening;

ghost use Rattle.std.specs.Prelude.{ℕ, List, ◌∷◌, ◌++◌};
ghost use Rattle.sym_model.specs.Polynomial.{Same, nothing, negate};
ghost use Rattle.sym_model.specs.Alternant.{alternant, staircase};
ghost use Rattle.sym_model.specs.Leading.{Leads};

pub use bender_knuth::bender_knuth_law;
pub use stembridge::{littlewood_richardson_law, stembridge_law};
pub use straightening::straighten_law;

/// Exchanging two exponents of β changes the sign of the alternant a_β, and an alternant with two
/// equal exponents is 0 (Macdonald, I.3). In every number of variables the leading monomial of a_ρ
/// is x^ρ, and its coefficient is 1 or -1.
///
/// Example: a_(0,1) = x₂ - x₁ = -a_(1,0), and a_(1,1) = 0.
pub fn alternant_law()
    ensures exchange { (left middle right : List ℕ) (a b : ℕ)
        → Same (alternant (left ++ (a ∷ (middle ++ (b ∷ right)))))
        (negate (alternant (left ++ (b ∷ (middle ++ (a ∷ right)))))) }
    ensures equal { (left middle right : List ℕ) (a : ℕ)
        → Same (alternant (left ++ (a ∷ (middle ++ (a ∷ right))))) nothing }
    ensures staircase { (n : ℕ) → Leads (alternant (staircase n)) (staircase n) }
{}
