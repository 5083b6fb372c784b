//! The partitions and permutations in the lines of a workload: they are drawn and written.

ghost use Rattle.std.specs.Prelude.{◌≡◌, ◌+◌, ◌<◌, ◌≤◌, [], ◌∷◌, ◌++◌, length};
ghost use Rattle.sym_model.specs.Partition.{without_last_zeros};
ghost use Rattle.sym_model.specs.Permutation.{letters_by_code};
ghost use Rattle.sym_model.specs.PlaceOrders.{places};
ghost use Rattle.sym_model.specs.PrintedBlock.{numbers_text};
ghost use Rattle.sym_model.specs.Workload.{after_draws, partition_drawn, code_drawn};
ghost use Rattle.batch_lines.specs.Parts.{AreFalling, behind_spaces, numbers_of, past};

use crate::LineBuf;
use crate::draws::{Parts, draw_below, draw_parts};

/// Appends the parts of a partition, each after a space; the partition is given by three draws
/// modulo `modulus` (`draw_parts`).
pub(crate) fn put_partition(state: &mut u32, modulus: u8, out: &mut LineBuf)
    requires within { state.old ≤ 65536 }
    requires some { 0 < modulus }
    requires small { modulus ≤ 4 }
    requires room { length out.old ≤ 58 }
    ensures text { out.new ≡ out.old ++ behind_spaces (partition_drawn modulus state.old) }
    ensures short { length out.new ≤ length out.old + 6 }
    ensures moved { state.new ≡ after_draws 3 state.old }
    ensures still_within { state.new ≤ 65536 }
{
    let parts = draw_parts(state, modulus);
    put_parts(parts, out);
}

/// Appends the parts that are not 0, each after a space.
fn put_parts(parts: Parts, out: &mut LineBuf)
    requires falling { AreFalling parts }
    requires room { length out.old ≤ 58 }
    ensures text { out.new ≡ out.old ++ behind_spaces (without_last_zeros (numbers_of parts)) }
    ensures short { length out.new ≤ length out.old + 6 }
{
    if parts.first == 0 {
        return;
    }
    out.put_word(parts.first);
    if parts.second == 0 {
        return;
    }
    out.put_word(parts.second);
    if parts.third == 0 {
        return;
    }
    out.put_word(parts.third);
}

/// Appends the parts that are not 0, with commas between them.
pub(crate) fn put_list(parts: Parts, out: &mut LineBuf)
    requires falling { AreFalling parts }
    requires room { length out.old ≤ 58 }
    ensures text { out.new ≡ out.old ++ numbers_text (without_last_zeros (numbers_of parts)) }
    ensures short { length out.new ≤ length out.old + 5 }
{
    if parts.first == 0 {
        return;
    }
    out.put_digit(parts.first);
    if parts.second == 0 {
        return;
    }
    out.put(b",");
    out.put_digit(parts.second);
    if parts.third == 0 {
        return;
    }
    out.put(b",");
    out.put_digit(parts.third);
}

/// Draws the code of a permutation of four letters, and appends the letters of the permutation,
/// each after a space.
pub(crate) fn put_permutation(state: &mut u32, out: &mut LineBuf)
    requires within { state.old ≤ 65536 }
    requires room { length out.old ≤ 56 }
    ensures text { out.new ≡ out.old
        ++ behind_spaces (letters_by_code (code_drawn state.old) (places 4)) }
    ensures short { length out.new ≤ length out.old + 8 }
    ensures moved { state.new ≡ after_draws 3 state.old }
    ensures still_within { state.new ≤ 65536 }
{
    let first = draw_below(state, 4);
    let second = draw_below(state, 3);
    let third = draw_below(state, 2);
    put_letters(first, second, third, out);
}

/// Appends the letters of the permutation of four letters with the code (first, second, third, 0),
/// each after a space.
fn put_letters(first: u8, second: u8, third: u8, out: &mut LineBuf)
    requires below_4 { first < 4 }
    requires below_3 { second < 3 }
    requires below_2 { third < 2 }
    requires room { length out.old ≤ 56 }
    ensures text { out.new ≡ out.old
        ++ behind_spaces (letters_by_code (first ∷ second ∷ third ∷ 0 ∷ []) (places 4)) }
    ensures short { length out.new ≤ length out.old + 8 }
{
    let a = first + 1;
    let b = past_one(second + 1, a);
    let c = past_one(past_one(third + 1, a.min(b)), a.max(b));
    out.put_word(a);
    out.put_word(b);
    out.put_word(c);
    // The four letters of the permutation add up to 10.
    out.put_word(10 - a - b - c);
}

/// The letter with the number `letter` among the letters 1, 2, .. other than `other`: `letter`
/// itself if it is less than `other`, and otherwise one more.
fn past_one(letter: u8, other: u8) -> u8
    requires { letter ≤ 4 }
    ensures { result ≡ past letter other }
{
    if other <= letter { letter + 1 } else { letter }
}
