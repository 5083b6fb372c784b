//! Answers of commands.
ghost use Rattle.std.specs.Prelude.{◌≡◌};
ghost use Rattle.expansion_printer.specs.Answers.{kind_of, kind_of_answer};

use coeff_rings::{Frac, Int};
use linear_combinations::Terms;
use partitions::Partition;
use perm_codes::Perm;
use sparse_polys::{Monomial, Pair, Power, Shifted};

/// The kinds of answers.
#[derive(Clone, Copy, Debug, PartialEq, Eq, Hash)]
pub enum Kind {
    /// One integer.
    Number,
    /// Terms: partitions with fractions as coefficients.
    Expansion,
    /// Terms: partitions with integer coefficients.
    Product,
    /// Terms: pairs of partitions with integer coefficients.
    Pairs,
    /// Terms: partitions with a power of q and integer coefficients.
    Powers,
    /// Terms: permutations with integer coefficients.
    Permutations,
    /// Terms: monomials with integer coefficients.
    Polynomial,
    /// Terms: permutations, each with a monomial in the variables y, with integer coefficients.
    Shifts,
}

/// An answer: a number, or a list of terms in the printed order.
#[derive(Drop)]
pub enum Answer {
    /// An integer.
    Number { value: Int },
    /// The expansion of a symmetric function in a basis.
    Expansion { terms: Terms<Partition, Frac> },
    /// A product, or another combination of Schur functions with integer coefficients.
    Product { terms: Terms<Partition, Int> },
    /// The coproduct of a Schur function.
    Pairs { terms: Terms<Pair, Int> },
    /// A quantum product of Schur functions, with powers of q.
    Powers { terms: Terms<Power, Int> },
    /// A combination of Schubert polynomials with integer coefficients.
    Permutations { terms: Terms<Perm, Int> },
    /// A polynomial with integer coefficients.
    Polynomial { terms: Terms<Monomial, Int> },
    /// A combination of double Schubert polynomials; the coefficients are polynomials in the
    /// variables y.
    Shifts { terms: Terms<Shifted, Int> },
}

impl Answer {
    /// The kind of the answer.
    pub fn kind(&self) -> Kind
        ensures { kind_of result ≡ kind_of_answer self.now }
    {
        match self {
            Answer::Number { .. } => Kind::Number,
            Answer::Expansion { .. } => Kind::Expansion,
            Answer::Product { .. } => Kind::Product,
            Answer::Pairs { .. } => Kind::Pairs,
            Answer::Powers { .. } => Kind::Powers,
            Answer::Permutations { .. } => Kind::Permutations,
            Answer::Polynomial { .. } => Kind::Polynomial,
            Answer::Shifts { .. } => Kind::Shifts,
        }
    }
}
