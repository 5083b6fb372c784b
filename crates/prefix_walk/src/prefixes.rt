//! The trait of the rules by which labels are made entry by entry.
ghost use Rattle.std.specs.Prelude.{◌≡◌, ℕ, ◌+◌, ◌<◌, List, [], ◌∷◌, length, OnOk, IsTrue};
ghost use Rattle.std.specs.List.{All};
ghost use Rattle.prefix_walk.specs.Steps.{sum_at};

use calc_base::NoMemory;

/// A rule by which labels are made entry by entry. A state has all that the later entries depend
/// on. The entries chosen so far can lead to several states, in each of which the label can go on;
/// the walk counts how often each of them is reached.
pub trait Prefixes<S: Copy> {
    /// Whether so many entries are to come after a state.
    ghost is_state: { Self → ℕ → S → Type 0 };

    /// In how many ways so many entries, a label, complete a state.
    ghost ways: { Self → ℕ → S → List ℕ → ℕ };

    /// A number that is greater than every entry.
    ghost end: { Self → ℕ };

    /// Lists the steps of a state, after which `after` entries are to come: each entry that can come
    /// next, with the state that it leads to, in any order. An entry occurs as often as there are
    /// such states.
    fn steps(&self, after: usize, state: &S, steps: &mut Vec<(u16, S)>) -> Result<(), NoMemory>
        requires state { is_state self.now (after + 1) state.now }
        requires fresh { steps.old.items ≡ [] }
        ensures states { OnOk result
            (All (λ step. is_state self.now after step.1) steps.new.items) }
        ensures entries { OnOk result (All (λ step. step.0 < end self.now) steps.new.items) }
        ensures ways { OnOk result ((a : ℕ) (label : List ℕ) → length label ≡ after
            → ways self.now (after + 1) state.now (a ∷ label)
            ≡ sum_at a (λ s. ways self.now after s label) steps.new.items) };

    /// A number by which equal states after the same entry are found again; any number will do.
    fn place(&self, entry: u16, state: &S) -> u64;

    /// Whether two states are known to be equal.
    fn is_same(&self, one: &S, other: &S) -> bool
        ensures { IsTrue result → one.now ≡ other.now };

    /// If no entry is to come, the empty label completes a state in one way.
    ghost ended: { (s : Self) (x : S) → is_state s 0 x → ways s 0 x [] ≡ 1 };
}
