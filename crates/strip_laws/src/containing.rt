//! Equivalent conditions for one shape to lie inside another: on the parts, on the cells, and by
//! the test `contains`.

ghost use Rattle.std.specs.Prelude.{◌≡◌, ℕ, ◌↔◌, true, List, []};
ghost use Rattle.sym_model.specs.Partition.{Holds, IsCell};
ghost use Rattle.sym_model.specs.Schur.{contains};

/// The shape of `inner` is inside that of `outer` if and only if each cell of `inner` is a cell of
/// `outer`, and if and only if `contains outer inner` is true.
pub fn containment_law()
    ensures cells { (outer inner : List ℕ)
        → (Holds outer inner ↔ ((row column : ℕ) → IsCell inner [] row column
        → IsCell outer [] row column)) }
    ensures tested { (outer inner : List ℕ) → ((contains outer inner ≡ true) ↔ Holds outer inner) }
{}
