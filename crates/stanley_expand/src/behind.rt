//! Permutations 1^m × v, in which v follows m fixed letters.
ghost use Rattle.std.specs.Prelude.{◌≡◌, ◌<◌, ◌≤◌, length, slice_range, IfOk, OnOk};
ghost use Rattle.perm_codes.specs.Limits.{IsWithinLimits};
ghost use Rattle.sym_model.specs.Partition.{after};
ghost use Rattle.sym_model.specs.Permutation.{kept};
ghost use Rattle.sym_model.specs.Stanley.{behind};
ghost use Rattle.stanley_expand.specs.Blocks.{IsEnd, between};

use calc_base::NoMemory;
use perm_codes::Perm;
use std::alloc::Global;

/// The letters of w = `perm` after place `from` and up to place `to`, each increased by `fixed`,
/// after `fixed` + `from` fixed letters. At both places a block of w ends (`IsEnd`).
pub(crate) fn block_behind(
    alloc: Global,
    perm: &Perm,
    from: u16,
    to: u16,
    fixed: u16,
) -> Result<Perm, NoMemory>
    requires fixed { fixed ≤ 64 }
    requires letters { length perm.now ≤ 16 }
    requires from { IsEnd perm.now from }
    requires order { from < to }
    requires to { IsEnd perm.now to }
    ensures perm { IfOk result (λ block. block ≡ kept (behind fixed (between from to perm.now))) }
    ensures limits { OnOk result (IsWithinLimits perm.now) }
{
    let mut letters = first_letters(alloc, fixed + from)?;
    for letter in letters_between(perm, from, to) {
        letters.push(u16::from(*letter) + fixed)?;
    }
    Perm::from_valid_letters(alloc, letters.as_slice())
}

/// The letters after place `from` and up to place `to`.
fn letters_between(perm: &Perm, from: u16, to: u16) -> &[u8]
    requires order { from ≤ to }
    requires to { to ≤ length perm.now }
    ensures value { result.now ≡ slice_range perm.now from to }
    ensures limits { IsWithinLimits perm.now }
{
    &perm.letters()[usize::from(from)..usize::from(to)]
}

/// The letters from 1 to `last`.
fn first_letters(alloc: Global, last: u16) -> Result<Vec<u16>, NoMemory>
    requires { last ≤ 80 }
    ensures { IfOk result (λ list. list.items ≡ after 0 last) }
{
    let mut letters = Vec::new(alloc);
    for at in 0..last {
        letters.push(at + 1)?;
    }
    Ok(letters)
}
