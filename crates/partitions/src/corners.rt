//! Removal of the last cell of a row of a partition.
ghost use Rattle.std.specs.Prelude.{◌≡◌, ◌+◌, ◌<◌, length, slice_index};
ghost use Rattle.sym_model.specs.Partition.{IsPartition, without_last_zeros};
ghost use Rattle.sym_model.specs.Slide.{lowered_at};
ghost use Rattle.smallvec.specs.SmallVec.{small_vec_len};

use smallvec::SmallVec;

/// Lowers the part at `place`, counted from 0, by 1, and removes it if it is then 0. The part after
/// it must be smaller (0 after the last part).
pub(crate) fn lower_last(parts: &mut SmallVec<u16, 16>, place: usize)
    requires partition { IsPartition parts.old.items }
    requires corner { slice_index parts.old.items (place + 1) < slice_index parts.old.items place }
    ensures { parts.new.items ≡ without_last_zeros (lowered_at (place + 1) parts.old.items) }
{
    lower(parts.as_mut_slice(), place);
    if parts.as_slice()[place] == 0 {
        parts.pop();
    }
}

fn lower(numbers: &mut [u16], place: usize)
    requires within { place < length numbers.old }
    requires positive { 0 < slice_index numbers.old place }
    ensures { numbers.new ≡ lowered_at (place + 1) numbers.old }
{
    numbers[place] -= 1;
}
