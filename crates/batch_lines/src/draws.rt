//! Draws of the pseudo-random generator from which the command `work` generates its lines.

ghost use Rattle.std.specs.Prelude.{◌≡◌, ◌<◌, ◌≤◌, ◌%◌};
ghost use Rattle.sym_model.specs.Workload.{draw as next_state, after_draws};
ghost use Rattle.batch_lines.specs.Parts.{AreFalling, parts_drawn};

/// Three weakly decreasing numbers: the parts of a partition with at most three parts, followed by
/// zeros.
#[derive(Clone, Copy, Debug)]
pub(crate) struct Parts {
    pub first: u8,
    pub second: u8,
    pub third: u8,
}

/// Advances the state of the generator by one draw, and returns the new state.
pub(crate) fn draw(state: &mut u32) -> u32
    requires { state.old ≤ 65536 }
    ensures moved { state.new ≡ next_state state.old }
    ensures drawn { result ≡ state.new }
    ensures within { state.new ≤ 65536 }
{
    *state = (75 * *state + 74) % 65_537;
    *state
}

/// Advances the state of the generator by one draw, and returns the new state modulo `modulus`.
pub(crate) fn draw_below(state: &mut u32, modulus: u8) -> u8
    requires within { state.old ≤ 65536 }
    requires some { 0 < modulus }
    ensures moved { state.new ≡ next_state state.old }
    ensures drawn { result ≡ next_state state.old % modulus }
    ensures below { result < modulus }
    ensures still_within { state.new ≤ 65536 }
{
    (draw(state) % u32::from(modulus)) as u8
}

/// The three numbers a + b + c, b + c and c, for three draws a, b and c modulo `modulus`, which is
/// from 1 to 4.
pub(crate) fn draw_parts(state: &mut u32, modulus: u8) -> Parts
    requires within { state.old ≤ 65536 }
    requires some { 0 < modulus }
    requires small { modulus ≤ 4 }
    ensures parts { result ≡ parts_drawn modulus state.old }
    ensures falling { AreFalling result }
    ensures moved { state.new ≡ after_draws 3 state.old }
    ensures still_within { state.new ≤ 65536 }
{
    let a = draw_below(state, modulus);
    let b = draw_below(state, modulus);
    let c = draw_below(state, modulus);
    Parts {
        first: a + b + c,
        second: b + c,
        third: c,
    }
}
