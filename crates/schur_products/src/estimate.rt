//! Which way to count a product is expected to be faster.
use partitions::Partition;

/// From this value of the quotient of `are_rows_faster` on, rows are taken. It was measured on drawn
/// pairs of factors; a faster way by rows allows a smaller number.
const LEAST_QUOTIENT: usize = 50;

/// Whether the product of the Schur polynomials of `inner` and `content` is expected to be counted
/// faster by the rows of its labels than by columns.
///
/// By columns, the factor with fewer cells is added column by column to the other one, and a column
/// can be placed in the more ways, the more corners that one has. By rows, the number of states of a
/// label grows with the number of corners of the content.
pub(crate) fn are_rows_faster(inner: &Partition, content: &Partition) -> bool {
    let rows = content.rows();
    if rows < 2 || rows > 8 {
        return false;
    }
    let (added, start) = if inner.size() < content.size() {
        (inner, content)
    } else {
        (content, inner)
    };
    let width = usize::from(added.part(1));
    let cells = usize::from(start.size());
    // A partition with c different parts has at least c(c + 1)/2 cells. So few cells decide before
    // parts are compared.
    if width.saturating_mul(cells).saturating_mul(2) < LEAST_QUOTIENT.saturating_mul(3) {
        return false;
    }
    let least = LEAST_QUOTIENT.saturating_mul(corners(content).saturating_add(2));
    width
        .saturating_mul(corners(start))
        .saturating_mul(corners(start))
        >= least
}

/// The number of different parts of a partition, which is that of the corners of its shape.
fn corners(shape: &Partition) -> usize {
    let parts = shape.parts();
    let mut count: usize = 0;
    for at in 0..parts.len() {
        if at == 0 || parts[at] != parts[at - 1] {
            count += 1;
        }
    }
    count
}
