//! The rules that decide, by the letters before it, whether a letter is allowed in a column
//! reading.
ghost use Rattle.std.specs.Prelude.{◌≡◌, ℕ, ◌<◌, ◌≤◌, false, length, MatchOption};
ghost use Rattle.tableau_iter.specs.Fits.{allows};
ghost use Rattle.tableau_iter.specs.NextLetters.{IsNextLetter};

/// The condition on the content of each prefix of a column reading. `Free`: no condition.
/// `Falling`: the sum of the partition `start` and the content is a partition. `Limited`: no letter
/// occurs more often than a given number of times.
#[derive(Clone, Copy)]
pub(crate) enum Rule {
    Free,
    Falling,
    Limited,
}

/// Whether the rule allows one more `letter` after a prefix. `sums` is start plus the content of
/// the prefix; for the rule `Limited`, `counts` has the greatest number of occurrences of each
/// letter.
pub(crate) fn allows(rule: Rule, counts: &[u16], sums: &[u16], letter: u16) -> bool
    requires low { 1 ≤ letter }
    requires high { letter ≤ length sums.now }
    ensures { result ≡ allows rule counts.now sums.now letter }
{
    let at = usize::from(letter);
    match rule {
        Rule::Free => true,
        Rule::Falling => letter == 1 || sums[at - 1] < sums[at - 2],
        Rule::Limited => sums[at - 1] < counts.get(at - 1).copied().unwrap_or(0),
    }
}

/// The least letter greater than `from` and at most `to` that the rule allows after a prefix, with
/// `sums` and `counts` as in `allows`; None if there is no such letter.
pub(crate) fn next_allowed(
    rule: Rule,
    counts: &[u16],
    sums: &[u16],
    from: u16,
    to: u16,
) -> Option<u16>
    requires { to ≤ length sums.now }
    ensures { MatchOption result
        ((b : ℕ) → from < b → b ≤ to → allows rule counts.now sums.now b ≡ false)
        (IsNextLetter (allows rule counts.now sums.now) from to) }
{
    let mut letter = from;
    while letter < to {
        letter += 1;
        if allows(rule, counts, sums, letter) {
            return Some(letter);
        }
    }
    None
}
