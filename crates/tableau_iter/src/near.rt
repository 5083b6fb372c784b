//! The neighbours above and on the right of the cells of a skew shape, by their indices in the
//! column reading.
ghost use Rattle.std.specs.Prelude.{◌≡◌, ℕ, ◌+◌, ◌-◌, ◌<◌, ◌≤◌, ◌==◌, ◌&&◌, length, slice_index};
ghost use Rattle.std.specs.Prelude.{IfOk};
ghost use Rattle.tableau_iter.specs.Fits.{AreNeighbours, IsNeighbour, IsGreatest, IsRun};
ghost use Rattle.tableau_iter.specs.Fits.{ceiling_at, floor_at};

use std::alloc::{AllocError, Global};

/// For each index of the column reading, one more than the earlier index whose cell is `down` rows
/// above and `left` columns to the right; 0 if there is no such index. `lines` and `ranks` have the
/// row and the column of each cell.
pub(crate) fn earlier_places(
    alloc: Global,
    lines: &[u16],
    ranks: &[u16],
    down: u16,
    left: u16,
) -> Result<Vec<u16>, AllocError>
    requires few { length lines.now ≤ 4096 }
    requires ranks { length ranks.now ≡ length lines.now }
    ensures { IfOk result (λ found. AreNeighbours lines.now ranks.now down left found.items) }
{
    let mut found = Vec::with_capacity(alloc, lines.len())?;
    for place in 0..lines.len() {
        found.push(earlier_place(lines, ranks, place, down, left))?;
    }
    Ok(found)
}

/// One more than the index before `place` whose cell is `down` rows above the cell at `place` and
/// `left` columns right of it; 0 if there is no such index. `lines` and `ranks` have the row and
/// the column of each cell.
fn earlier_place(lines: &[u16], ranks: &[u16], place: usize, down: u16, left: u16) -> u16
    requires place { place < length lines.now }
    requires few { length lines.now ≤ 4096 }
    requires ranks { length ranks.now ≡ length lines.now }
    ensures { IsNeighbour lines.now ranks.now place down left result }
{
    let mut at = place;
    while at > 0 {
        if is_there(lines, ranks, place, at - 1, down, left) {
            return at as u16;
        }
        at -= 1;
    }
    0
}

/// Whether the cell at the index `at` is `down` rows above the cell at `place` and `left` columns
/// right of it; `lines` and `ranks` have the row and the column of each cell.
fn is_there(lines: &[u16], ranks: &[u16], place: usize, at: usize, down: u16, left: u16) -> bool
    requires place { place < length lines.now }
    requires at { at < length lines.now }
    requires ranks { length ranks.now ≡ length lines.now }
    ensures { result ≡ ((slice_index lines.now at + down == slice_index lines.now place)
        && (slice_index ranks.now at == slice_index ranks.now place + left)) }
{
    usize::from(lines[at]) + usize::from(down) == usize::from(lines[place])
        && usize::from(ranks[at]) == usize::from(ranks[place]) + usize::from(left)
}

/// For each index of the column reading, `letters` minus the number of cells below in the same
/// column: the greatest letter that leaves greater letters up to `letters` for all of them. `above`
/// has the neighbours above, as made by `earlier_places`.
pub(crate) fn greatest_letters(
    alloc: Global,
    above: &[u16],
    letters: u16,
) -> Result<Vec<u16>, AllocError>
    requires few { length above.now ≤ 4096 }
    ensures places { IfOk result (λ most. length most.items ≡ length above.now) }
    ensures most { IfOk result (λ most. (p : ℕ) → p < length above.now
        → IsGreatest letters above.now p (slice_index most.items p)) }
{
    let mut most = Vec::with_capacity(alloc, above.len())?;
    for place in 0..above.len() {
        most.push(letters.saturating_sub(cells_below(above, place)))?;
    }
    Ok(most)
}

/// The number of indices directly after `place` such that the cell of each is below the cell of the
/// index before it.
fn cells_below(above: &[u16], place: usize) -> u16
    requires place { place < length above.now }
    requires few { length above.now ≤ 4096 }
    ensures { IsRun above.now place result }
{
    let mut count: u16 = 0;
    for next in place + 1..above.len() {
        if usize::from(above[next]) != next {
            return count;
        }
        count += 1;
    }
    count
}

/// The letter of `word` in the cell above the cell at the index `place`; 0 if there is no such
/// cell.
pub(crate) fn floor(above: &[u16], word: &[u16], place: usize) -> u16
    requires place { place < length above.now }
    requires back { slice_index above.now place ≤ length word.now }
    ensures { result ≡ floor_at above.now word.now place }
{
    let found = usize::from(above[place]);
    if found == 0 { 0 } else { word[found - 1] }
}

/// The smaller of `most[place]` and the letter of `word` in the cell on the right of the cell at
/// the index `place`; `most[place]` if there is no such cell.
pub(crate) fn ceiling(right: &[u16], most: &[u16], word: &[u16], place: usize) -> u16
    requires place { place < length right.now }
    requires most { place < length most.now }
    requires back { slice_index right.now place ≤ length word.now }
    ensures value { result ≡ ceiling_at right.now most.now word.now place }
    ensures most { result ≤ slice_index most.now place }
{
    let found = usize::from(right[place]);
    if found == 0 {
        most[place]
    } else {
        most[place].min(word[found - 1])
    }
}
