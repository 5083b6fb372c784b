//! The test of whether a word is a lattice word.
ghost use Rattle.std.specs.Prelude.{◌≡◌, ◌≤◌, length, IfOk};
ghost use Rattle.tableau_iter.specs.LatticeWords.{is_allowed, is_lattice_word};

use calc_base::NoMemory;
use std::alloc::Global;

/// Whether `letter` is from 1 to the length of `counts`, and is 1 or has a smaller count than
/// `letter` - 1.
fn may_follow(counts: &[u16], letter: u16) -> bool
    ensures { result ≡ is_allowed (length counts.now) counts.now letter }
{
    let at = usize::from(letter);
    if at == 0 || at > counts.len() {
        return false;
    }
    at == 1 || counts[at - 1] < counts[at - 2]
}

/// Whether the word has letters from 1 to `letters` and is a lattice word: in each prefix, no
/// letter i + 1 occurs more often than i.
pub(crate) fn is_lattice(alloc: Global, letters: u16, word: &[u16]) -> Result<bool, NoMemory>
    requires { length word.now ≤ 4096 }
    ensures { IfOk result (λ b. b ≡ is_lattice_word letters word.now) }
{
    let mut counts = vec![in alloc; 0u16; usize::from(letters)]?;
    for place in 0..word.len() {
        let letter = word[place];
        if !may_follow(&counts, letter) {
            return Ok(false);
        }
        counts[usize::from(letter) - 1] += 1;
    }
    Ok(true)
}
