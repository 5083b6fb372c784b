//! A quick test that a skew shape has no lattice tableau with a given content.
ghost use Rattle.std.specs.Prelude.{◌≡◌, ◌<◌, ◌≤◌, ◌↔◌, length, get_or, IsTrue, IsFalse};
ghost use Rattle.sym_model.specs.Partition.{rows};
ghost use Rattle.sym_model.specs.GoodTableau.{product_count};
ghost use Rattle.partitions.specs.Limits.{IsWithinLimits};
ghost use Rattle.lr_product.specs.LetterRoom.{room_in_row as room_in_row_of, letter_room};
ghost use Rattle.lr_product.specs.LetterRoom.{IsOverfull, MayHaveContent};

use partitions::Partition;

/// Whether the sizes, the containment of the shapes, or too many small letters in the content show
/// that outer/inner has no lattice tableau with this content. Exchanging `inner` and `content` does
/// not change the number of these tableaux, so the test is made for both orders.
pub(crate) fn has_no_room(outer: &Partition, inner: &Partition, content: &Partition) -> bool
    ensures none { IsTrue result
        → product_count (rows outer.now) inner.now content.now outer.now ≡ 0 }
    ensures may { IsFalse result → MayHaveContent outer.now inner.now content.now }
    ensures limits { IsWithinLimits outer.now × IsWithinLimits inner.now
        × IsWithinLimits content.now }
{
    if inner.size() + content.size() != outer.size() {
        return true;
    }
    if !outer.contains(inner) {
        return true;
    }
    if !outer.contains(content) {
        return true;
    }
    if is_overfull(outer.parts(), inner.parts(), content.parts()) {
        return true;
    }
    is_overfull(outer.parts(), content.parts(), inner.parts())
}

/// Whether there is a k such that the content has more letters from 1 to k than the columns of
/// outer/inner can have.
fn is_overfull(outer: &[u16], inner: &[u16], content: &[u16]) -> bool
    requires outer { length outer.now ≤ 512 }
    requires content { length content.now ≤ 512 }
    ensures { IsTrue result ↔ IsOverfull outer.now inner.now content.now }
{
    let mut letters: u32 = 0;
    for at in 0..content.len() {
        letters += u32::from(content[at]);
        if room_up_to(outer, inner, at + 1) < letters {
            return true;
        }
    }
    false
}

/// The greatest number of letters from 1 to `k` that the columns of outer/inner can have: min(h, k)
/// for each column of h cells.
fn room_up_to(outer: &[u16], inner: &[u16], k: usize) -> u32
    requires { length outer.now ≤ 512 }
    ensures { result ≡ letter_room k outer.now inner.now (length outer.now) }
{
    let mut room: u32 = 0;
    for row in 0..outer.len() {
        room += u32::from(room_in_row(outer, inner, k, row));
    }
    room
}

/// The number of cells of row `row` of outer/inner, counted from 0, that have fewer than `k` cells
/// above them in their columns.
fn room_in_row(outer: &[u16], inner: &[u16], k: usize, row: usize) -> u16
    ensures { result ≡ room_in_row_of k outer.now inner.now row }
{
    let mut end = part_at(outer, row);
    if row >= k {
        end = end.min(part_at(inner, row - k));
    }
    end.saturating_sub(part_at(inner, row))
}

/// The part at the index `row`, counted from 0; 0 after the last part.
pub(crate) fn part_at(parts: &[u16], row: usize) -> u16
    ensures { result ≡ get_or parts.now row 0 }
{
    parts.get(row).copied().unwrap_or(0)
}
