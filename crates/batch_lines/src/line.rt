//! One line of a workload, that is, of the lines that are generated for the command `work`.

ghost use Rattle.std.specs.Prelude.{◌≡◌, ◌≤◌, ◌<◌, ◌++◌, [], length};
ghost use Rattle.sym_model.specs.Workload.{work_line as line_from, after_line, after_draws};
ghost use Rattle.sym_model.specs.Workload.{partition_drawn};
ghost use Rattle.batch_lines.specs.Parts.{behind_spaces};

use crate::LineBuf;
use crate::draws::{draw_below, draw_parts};
use crate::numbers::{put_list, put_partition, put_permutation};

/// Writes to `out` the line that the generator gives for the state `state`, and advances the state,
/// which is at most 65,536, to that for the next line. No memory is allocated.
///
/// A draw modulo 5 selects the command, `mult`, `skew`, `coprod`, `schubmult` or `expand p m[..]`,
/// and further draws give its partitions, of at most three parts, or its permutations of four
/// letters.
pub fn work_line(state: &mut u32, out: &mut LineBuf)
    requires { state.old ≤ 65536 }
    ensures line { out.new ≡ line_from state.old }
    ensures moved { state.new ≡ after_line state.old }
    ensures within { state.new ≤ 65536 }
{
    out.clear();
    match draw_below(state, 5) {
        0 => put_pair(b"mult", 3, b" -", 3, state, out),
        1 => put_pair(b"skew", 4, b" /", 2, state, out),
        2 => {
            out.put(b"coprod");
            put_partition(state, 3, out);
        }
        3 => {
            out.put(b"schubmult");
            put_permutation(state, out);
            out.put(b" -");
            put_permutation(state, out);
        }
        _ => {
            out.put(b"expand p m[");
            put_list(draw_parts(state, 3), out);
            out.put(b"]");
        }
    }
}

/// Writes to `out`, which is empty, the text `name`, a partition of three draws modulo `modulus`
/// (`draw_parts`), the text `sign`, and a partition of three draws modulo `other`.
fn put_pair(name: &[u8], modulus: u8, sign: &[u8], other: u8, state: &mut u32, out: &mut LineBuf)
    requires within { state.old ≤ 65536 }
    requires some { 0 < modulus }
    requires small { modulus ≤ 4 }
    requires other_some { 0 < other }
    requires other_small { other ≤ 4 }
    requires named { length name.now ≤ 9 }
    requires signed { length sign.now ≤ 2 }
    requires empty { out.old ≡ [] }
    ensures text { out.new ≡ name.now ++ (behind_spaces (partition_drawn modulus state.old)
        ++ (sign.now ++ behind_spaces (partition_drawn other (after_draws 3 state.old)))) }
    ensures moved { state.new ≡ after_draws 6 state.old }
    ensures still_within { state.new ≤ 65536 }
{
    out.put(name);
    put_partition(state, modulus, out);
    out.put(sign);
    put_partition(state, other, out);
}
