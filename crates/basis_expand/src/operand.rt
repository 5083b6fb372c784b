//! The values of subexpressions if an expression is expanded in Schur polynomials: atoms (basis
//! elements such as e[2,1]), or lists of terms.
use calc_base::Basis;
use coeff_rings::Frac;
use linear_combinations::Lin;
use partitions::Partition;

/// The value of a subexpression: an atom m_λ, e_λ, h_λ, p_λ or s_λ, or a list of terms in Schur
/// polynomials. An atom remains an atom, because the product with e_λ, h_λ or p_λ needs no list for
/// it.
#[derive(Drop)]
pub(crate) enum Operand {
    Atom { basis: Basis, label: Partition },
    Expanded { list: Lin<Partition, Frac> },
}
