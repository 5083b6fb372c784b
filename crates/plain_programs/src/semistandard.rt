//! The test whether a filling is a semistandard tableau.

ghost use Rattle.std.specs.Prelude.{◌≡◌};
ghost use Rattle.sym_model.specs.Schur.{row_rises, columns_rise, semistandard, contains};
ghost use Rattle.plain_programs.specs.Words.{words_of};

use crate::numbers::{number_at, without_first};

/// Whether all rows are weakly increasing and all columns strictly increasing in a filling of a
/// skew shape, given by its rows and the inner partition. No memory is allocated.
pub fn plain_semistandard(inner: &[u64], filling: &[Vec<u64>]) -> bool
    ensures { result ≡ semistandard inner.now (words_of filling.now) }
{
    let [row, below @ ..] = filling else {
        return true;
    };
    let [lower, ..] = below else {
        return rises(row);
    };
    let shift = number_at(inner, 0).saturating_sub(number_at(inner, 1));
    rises(row)
        && stands_on(row, without_first(lower, shift))
        && plain_semistandard(without_first(inner, 1), below)
}

/// Whether the shape `inner` lies inside `outer`: no part of `inner` is greater than the part of
/// `outer` in the same row.
pub fn plain_contains(outer: &[u64], inner: &[u64]) -> bool
    ensures { result ≡ contains outer.now inner.now }
{
    let [part, inner @ ..] = inner else {
        return true;
    };
    match outer {
        [] => *part == 0 && plain_contains(outer, inner),
        [whole, outer @ ..] => *part <= *whole && plain_contains(outer, inner),
    }
}

fn rises(row: &[u64]) -> bool
    ensures { result ≡ row_rises row.now }
{
    let [first, later @ ..] = row else {
        return true;
    };
    let [second, ..] = later else {
        return true;
    };
    *first <= *second && rises(later)
}

/// Whether each letter of the lower row that has a letter above it in the upper row is greater than
/// that letter.
fn stands_on(upper: &[u64], lower: &[u64]) -> bool
    ensures { result ≡ columns_rise upper.now lower.now }
{
    let [above, upper @ ..] = upper else {
        return true;
    };
    let [letter, lower @ ..] = lower else {
        return true;
    };
    *above < *letter && stands_on(upper, lower)
}
