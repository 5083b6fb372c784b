//! The commands of the calculator.

use calc_base::Word;
use expression_reading::{Basis, Formula};
use partitions::{Factors, Partition};
use perm_codes::Perm;
use skew_shapes::{Standard, Tableau};

/// A command of the calculator, with the values that its words denote.
#[derive(Drop)]
pub enum Command {
    /// The product of the Schur functions of two to eight partitions: in `rows` variables if `rows`
    /// is given, and on one line if `one_line` is true.
    Mult {
        rows: Option<u16>,
        one_line: bool,
        factors: Factors,
    },
    /// The skew Schur function of the shape outer/inner: in `rows` variables if `rows` is given,
    /// and on one line if `one_line` is true.
    Skew {
        rows: Option<u16>,
        one_line: bool,
        outer: Partition,
        inner: Partition,
    },
    /// The coefficient of the Schur function of `outer` in the product of the Schur functions of
    /// `left` and `right`.
    Coef {
        outer: Partition,
        left: Partition,
        right: Partition,
    },
    /// The coproduct of the Schur function of the partition `shape`.
    Coprod {
        shape: Partition,
    },
    /// The lattice tableaux of the shape outer/inner: all of them or, if `after` is given, only
    /// those listed after the lattice tableau with the column reading `after`.
    Tab {
        outer: Partition,
        inner: Partition,
        after: Option<Word>,
    },
    /// The quantum product of the factors, for the Grassmannian Gr(rows, rows + cols).
    Quantum {
        rows: u16,
        cols: u16,
        factors: Factors,
    },
    /// The fusion product of the factors at level `level`, for partitions with at most `rows` rows.
    Fusion {
        rows: u16,
        level: u16,
        factors: Factors,
    },
    /// The Schubert polynomial of a permutation.
    Schubert {
        perm: Perm,
    },
    /// The product of the Schubert polynomials of two permutations.
    Schubmult {
        left: Perm,
        right: Perm,
    },
    /// The expansion of the expression in the target basis, on one line if `one_line` is true.
    Expand {
        target: Basis,
        one_line: bool,
        formula: Formula,
    },
    /// The insertion tableau and the recording tableau of a word under row insertion.
    Rsk {
        letters: Word,
    },
    /// The word with the insertion tableau `p` and the recording tableau `q`. In a sound command
    /// (`IsSound`) `p` and `q` have the same straight shape, of at most 256 cells, and `q` is
    /// standard.
    Unrsk {
        p: Tableau,
        q: Standard,
    },
    /// The rectification of a skew tableau.
    Rect {
        tableau: Tableau,
    },
    /// The growth diagram of a permutation: its grid of shapes.
    Growth {
        perm: Perm,
    },
    /// The plethysm of two expressions: the outer one with the monomials of the inner one in place
    /// of its variables, expanded in the target basis.
    Plethysm {
        target: Basis,
        outer: Formula,
        inner: Formula,
    },
    /// The product of the double Schubert polynomials of two permutations.
    Dschubmult {
        left: Perm,
        right: Perm,
    },
    /// The Stanley polynomial of a permutation, in `rows` variables.
    Stanley {
        rows: u16,
        perm: Perm,
    },
    /// The batch: each line of the input is run as a command.
    Batch,
    /// The sums over the answers or refusals of the first `lines` command lines that are generated
    /// from `seed`: their number, and the numbers of their terms and bytes.
    Work {
        lines: u16,
        seed: u32,
    },
}
