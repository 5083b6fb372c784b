//! One more row of a lattice tableau of a given content, filled in all ways from the greatest
//! letter to the least. A row is described by its ends E_t, the numbers of places with a letter of
//! at most t; places outside the shape have the letter 0.
ghost use Rattle.std.specs.Prelude.{◌≡◌, ℕ, ◌+◌, ◌-◌, ◌<◌, ◌≤◌, ◌==◌, List, ◌++◌, cond, true, take, drop};
ghost use Rattle.std.specs.Prelude.{[], min, slice_index, OnOk, IsTrue};
ghost use Rattle.std.specs.List.{All};
ghost use Rattle.prefix_walk.specs.Steps.{sum_at};
ghost use Rattle.lr_product.specs.RowExtension.{filled, next_row};
ghost use Rattle.lattice_rows.specs.LatticeRows.{AreBounds, AgreeBelow, CountsEndings};
ghost use Rattle.lattice_rows.specs.LatticeRows.{CountsReached, IsRowStep};

use calc_base::NoMemory;

/// The greatest number of letters.
pub(crate) const MOST_LETTERS: usize = 8;

/// What the rows added so far leave for the rows below them.
#[derive(Clone, Copy)]
pub(crate) struct LatticeState {
    /// How often each of the letters 1, .., n occurs in the rows.
    pub(crate) content: [u8; MOST_LETTERS],
    /// The ends E_(n-1), .., E_0 of the row added last.
    pub(crate) ends: [u8; MOST_LETTERS],
}

/// Bounds for the row that is to be added to a state.
#[derive(Clone, Copy)]
pub(crate) struct Bounds {
    /// The greatest number of each letter.
    pub(crate) room: [u16; MOST_LETTERS],
    /// The least E_0, .., E_n.
    pub(crate) least: [u16; MOST_LETTERS + 1],
    /// The greatest E_0, .., E_n.
    pub(crate) greatest: [u16; MOST_LETTERS + 1],
}

/// The row that is to be added to a state.
#[derive(Clone, Copy)]
pub(crate) struct Row {
    /// The number n of letters.
    pub(crate) letters: usize,
    /// Whether no row is to come after this one.
    pub(crate) is_last: bool,
    /// The number of places outside the shape, which is E_0.
    pub(crate) outside: u16,
    /// The number of places outside the shape in the row below.
    pub(crate) below: u16,
    /// How often each letter is to occur in all rows.
    pub(crate) content: [u8; MOST_LETTERS],
    /// The state to which the row is added.
    pub(crate) start: LatticeState,
    pub(crate) bounds: Bounds,
}

/// The bounds for a row whose first `outside` places are outside the shape, added to the state
/// `start`, if each letter is to occur as often in all rows as `content` says.
pub(crate) fn bounds_of(
    letters: usize,
    outside: u16,
    content: [u8; MOST_LETTERS],
    start: LatticeState,
) -> Bounds
    requires letters { letters ≤ 8 }
    requires short { outside < 256 }
    ensures bounds { AreBounds letters letters outside (take letters content) start.content
        (take letters start.ends) result.room result.least result.greatest }
    ensures short { slice_index result.greatest letters < 256 }
{
    let mut room = [0u16; MOST_LETTERS];
    let mut least = [outside; MOST_LETTERS + 1];
    let mut greatest = [outside; MOST_LETTERS + 1];
    for at in 0..letters {
        let missing = u16::from(content[at].saturating_sub(start.content[at]));
        room[at] = room_of(missing, at, &start.content);
        least[at + 1] = least[at].max(missing);
        greatest[at + 1] = (greatest[at] + room[at]).min(u16::from(start.ends[letters - 1 - at]));
    }
    Bounds {
        room,
        least,
        greatest,
    }
}

/// The greatest number of letters `at` + 1 that may be added if `missing` of them are missing: the
/// number of `content` at the index `at` may not exceed the one before it.
fn room_of(missing: u16, at: usize, content: &[u8; MOST_LETTERS]) -> u16
    requires { at < 8 }
    ensures { result ≡ min missing (cond (at == 0) missing
        (slice_index content.now (at - 1) - slice_index content.now at)) }
{
    if at == 0 {
        return missing;
    }
    missing.min(u16::from(content[at - 1].saturating_sub(content[at])))
}

/// Fills the row in all ways, and adds the states reached to `steps`, each with the number of places
/// of the row as its entry. Fails only if memory runs out.
pub(crate) fn add_rows(row: &Row, steps: &mut Vec<(u16, LatticeState)>) -> Result<(), NoMemory>
    requires some { 2 ≤ row.now.letters }
    requires letters { row.now.letters ≤ 8 }
    requires bounds { AreBounds row.now.letters row.now.letters row.now.outside
        (take row.now.letters row.now.content) row.now.start.content
        (take row.now.letters row.now.start.ends) row.now.bounds.room row.now.bounds.least
        row.now.bounds.greatest }
    requires short { slice_index row.now.bounds.greatest row.now.letters < 256 }
    requires below { row.now.below < 256 }
    requires fresh { steps.old.items ≡ [] }
    ensures steps { OnOk result (
        All (λ step. IsRowStep row.now.letters row.now.is_last row.now.content step.0 step.1.content)
        steps.new.items) }
    ensures adds { OnOk result ((a : ℕ) (f : List ℕ → List ℕ → ℕ)
        → CountsEndings row.now.letters row.now.is_last (take row.now.letters row.now.content) f
        → CountsReached row.now.letters row.now.below (take row.now.letters row.now.content) f
        → sum_at a (λ s. f (take row.now.letters s.content) (take row.now.letters s.ends))
        steps.new.items
        ≡ next_row row.now.letters true row.now.outside a f (take row.now.letters row.now.start.content)
        (take row.now.letters row.now.start.ends)) }
{
    let low = row.bounds.least[row.letters];
    let end = row.bounds.greatest[row.letters] + 1;
    let mut reached = row.start;
    for entry in low..end {
        fill(row, entry, steps, &mut reached, row.letters, entry)?;
    }
    Ok(())
}

/// Fills the first `placed` places of the row with letters up to `up_to` in all ways, and adds the
/// states reached to `steps` with the entry `entry`. `reached` is the state with the greater letters
/// of the row added; the ends of the other letters are overwritten. Fails only if memory runs out.
fn fill(
    row: &Row,
    entry: u16,
    steps: &mut Vec<(u16, LatticeState)>,
    reached: &mut LatticeState,
    up_to: usize,
    placed: u16,
) -> Result<(), NoMemory>
    requires letters { row.now.letters ≤ 8 }
    requires up_to { up_to ≤ row.now.letters }
    requires bounds { AreBounds row.now.letters row.now.letters row.now.outside
        (take row.now.letters row.now.content) row.now.start.content
        (take row.now.letters row.now.start.ends) row.now.bounds.room row.now.bounds.least
        row.now.bounds.greatest }
    requires below { row.now.below < 256 }
    requires agree { AgreeBelow up_to reached.old.content row.now.start.content }
    requires placed { row.now.outside ≤ placed }
    requires short { placed < 256 }
    requires entry { entry < 256 }
    ensures steps { OnOk result (
        All (λ step. IsRowStep row.now.letters row.now.is_last row.now.content step.0 step.1.content)
        steps.old.items
        → All (λ step. IsRowStep row.now.letters row.now.is_last row.now.content step.0 step.1.content)
        steps.new.items) }
    ensures adds { OnOk result ((a : ℕ) (f : List ℕ → List ℕ → ℕ)
        → CountsEndings row.now.letters row.now.is_last (take row.now.letters row.now.content) f
        → CountsReached row.now.letters row.now.below (take row.now.letters row.now.content) f
        → sum_at a (λ s. f (take row.now.letters s.content) (take row.now.letters s.ends))
        steps.new.items
        ≡ sum_at a (λ s. f (take row.now.letters s.content) (take row.now.letters s.ends))
        steps.old.items
        + cond (entry == a) (filled true row.now.letters row.now.outside up_to placed
        (drop ((row.now.letters + 1) - up_to) (take row.now.letters row.now.start.ends)) f
        (take row.now.letters reached.old.content
        ++ take (row.now.letters - up_to) reached.old.ends)) 0) }
    ensures content { OnOk result (reached.new.content ≡ reached.old.content) }
    ensures ends { OnOk result (take (row.now.letters - up_to) reached.new.ends
        ≡ take (row.now.letters - up_to) reached.old.ends) }
{
    if up_to == 0 {
        return add_step(row, entry, steps, reached);
    }
    let at = up_to - 1;
    let low = row.bounds.least[at].max(placed.saturating_sub(row.bounds.room[at]));
    let end = row.bounds.greatest[at].min(placed) + 1;
    for left in low..end {
        reached.content[at] = row.start.content[at] + (placed - left) as u8;
        reached.ends[row.letters - up_to] = left as u8;
        fill(row, entry, steps, reached, at, left)?;
    }
    reached.content[at] = row.start.content[at];
    Ok(())
}

/// Adds the step with the entry `entry` to the state `reached`, with its ends lowered; after the
/// last row only if the content is complete. Fails only if memory runs out.
fn add_step(
    row: &Row,
    entry: u16,
    steps: &mut Vec<(u16, LatticeState)>,
    reached: &LatticeState,
) -> Result<(), NoMemory>
    requires letters { row.now.letters ≤ 8 }
    requires below { row.now.below < 256 }
    requires entry { entry < 256 }
    ensures steps { OnOk result (
        All (λ step. IsRowStep row.now.letters row.now.is_last row.now.content step.0 step.1.content)
        steps.old.items
        → All (λ step. IsRowStep row.now.letters row.now.is_last row.now.content step.0 step.1.content)
        steps.new.items) }
    ensures adds { OnOk result ((a : ℕ) (f : List ℕ → List ℕ → ℕ)
        → CountsEndings row.now.letters row.now.is_last (take row.now.letters row.now.content) f
        → CountsReached row.now.letters row.now.below (take row.now.letters row.now.content) f
        → sum_at a (λ s. f (take row.now.letters s.content) (take row.now.letters s.ends))
        steps.new.items
        ≡ sum_at a (λ s. f (take row.now.letters s.content) (take row.now.letters s.ends))
        steps.old.items
        + cond (entry == a) (f (take row.now.letters reached.now.content)
        (take row.now.letters reached.now.ends)) 0) }
{
    if row.is_last && !is_complete(row, reached) {
        return Ok(());
    }
    steps.push((entry, lowered(row, reached)))?;
    Ok(())
}

/// The state with each end lowered to the greatest one that the next row can reach: states that
/// differ only above it can be completed in the same ways.
fn lowered(row: &Row, state: &LatticeState) -> LatticeState
    requires letters { row.now.letters ≤ 8 }
    requires below { row.now.below < 256 }
    ensures content { result.content ≡ state.now.content }
    ensures same { (f : List ℕ → List ℕ → ℕ)
        → CountsReached row.now.letters row.now.below (take row.now.letters row.now.content) f
        → f (take row.now.letters result.content) (take row.now.letters result.ends)
        ≡ f (take row.now.letters state.now.content) (take row.now.letters state.now.ends) }
{
    let mut ends = state.ends;
    let mut end = row.below;
    for at in 0..row.letters {
        let missing = u16::from(row.content[at].saturating_sub(state.content[at]));
        let room = room_of(missing, at, &state.content);
        end = (end + room).min(u16::from(state.ends[row.letters - 1 - at]));
        ends[row.letters - 1 - at] = end as u8;
    }
    LatticeState {
        content: state.content,
        ends,
    }
}

/// Whether the content of the state is that of all rows.
fn is_complete(row: &Row, state: &LatticeState) -> bool
    requires { row.now.letters ≤ 8 }
    ensures yes { IsTrue result
        → take row.now.letters state.now.content ≡ take row.now.letters row.now.content }
    ensures no { take row.now.letters state.now.content ≡ take row.now.letters row.now.content
        → IsTrue result }
{
    state.content[..row.letters] == row.content[..row.letters]
}
