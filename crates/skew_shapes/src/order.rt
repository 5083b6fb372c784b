//! Tests of rows of numbers: whether a row is weakly increasing, whether its numbers are positive,
//! and whether each number of a row is greater than the number above it in the row before.
ghost use Rattle.std.specs.Prelude.{◌≡◌};
ghost use Rattle.sym_model.specs.Schur.{row_rises, columns_rise};
ghost use Rattle.sym_model.specs.Tableau.{are_letters};

/// Whether each number of the row is positive.
pub(crate) fn all_positive(row: &[u16]) -> bool
    ensures { result ≡ are_letters row.now }
{
    let [first, later @ ..] = row else {
        return true;
    };
    *first >= 1 && all_positive(later)
}

/// Whether the row is weakly increasing.
pub(crate) fn rises(row: &[u16]) -> bool
    ensures { result ≡ row_rises row.now }
{
    let [first, later @ ..] = row else {
        return true;
    };
    let [second, ..] = later else {
        return true;
    };
    *first <= *second && rises(later)
}

/// Whether each number of `lower` is greater than the number of `upper` at the same place, for the
/// places that both rows have.
pub(crate) fn stands_on(upper: &[u16], lower: &[u16]) -> bool
    ensures { result ≡ columns_rise upper.now lower.now }
{
    let [above, upper @ ..] = upper else {
        return true;
    };
    let [number, lower @ ..] = lower else {
        return true;
    };
    *above < *number && stands_on(upper, lower)
}
