//! Permutations of at most 32 letters, which are copied, compared and hashed as a whole.
ghost use Rattle.std.specs.Prelude.{◌≡◌, ◌+◌, ◌<◌, ◌≤◌, [], ◌∷◌, length, nat_eq, nat_lt, ◌&&◌};
ghost use Rattle.std.specs.Prelude.{IfOk, ◌-◌, take, drop, slice_index};
ghost use Rattle.std.specs.Cmp.{partial_equiv_from_equiv};
ghost use Rattle.std.specs.Cmp.Lexicographic.{pointwise, nat_list_eq_equiv};
ghost use Rattle.std.specs.Option.{option_to_list};
ghost use Rattle.std.proofs.Common.{ap};
ghost use Rattle.std.proofs.lemmas.Slice.Eq.{bytes_eq-Decides};
ghost use Rattle.sym_model.specs.Permutation.{covers_among, kept, times_swap, with_fixed};
ghost use Rattle.sym_model.specs.PlaceOrders.{inversions};
ghost use Rattle.schubert_laws.specs.Chains.{letters_before};
ghost use Rattle.double_schubert_laws.specs.KeptChains as chains;
ghost use Rattle.monk_product.specs.ShortPerms.{IsFilled, IsGreatestBelow};

use calc_base::NoMemory;
use linear_combinations::Label;
use perm_codes::{Perm, has_between};
use std::alloc::Global;
use std::cmp::Ordering;
use std::hash::{Hash, Hasher};
use std::marker::Model;

/// The greatest number of letters of a short permutation.
pub(crate) const MOST_LETTERS: usize = 32;

/// The letters of the identity, at the places 1 to 32.
const FIXED: [u8; MOST_LETTERS] = [
    1, 2, 3, 4, 5, 6, 7, 8, 9, 10, 11, 12, 13, 14, 15, 16, 17, 18, 19, 20, 21, 22, 23, 24, 25, 26,
    27, 28, 29, 30, 31, 32,
];

/// A permutation of at most 32 letters. It allocates no memory.
#[derive(Drop)]
pub(crate) struct ShortPerm {
    /// The letters at the places 1 to 32, fixed letters at the end included.
    letters: [u8; MOST_LETTERS],
    inversions: u16,
}

impl Model for ShortPerm {
    ghost use Rattle.std.specs.Prelude.{ℕ, List};
    ghost use Rattle.sym_model.specs.Permutation.{kept};
    ghost use Rattle.monk_product.specs.ShortPerms.{IsFilled};

    ghost Value = { List ℕ };

    ghost view = { λ p. kept p.letters };

    ghost invariant = { λ p. IsFilled p.letters p.inversions };
}

impl ShortPerm {
    /// The short permutation equal to `w`, which has at most 32 letters.
    pub fn of(w: &Perm) -> ShortPerm
        requires { length w.now ≤ 32 }
        ensures { result ≡ w.now }
    {
        let mut letters = FIXED;
        let own = w.letters();
        letters[..own.len()].copy_from_slice(own);
        ShortPerm {
            letters,
            inversions: w.inversions(),
        }
    }

    /// This permutation in the type `Perm`. Fails only if memory runs out.
    pub fn perm(&self, alloc: Global) -> Result<Perm, NoMemory>
        ensures { IfOk result (λ w. w ≡ self.now) }
    {
        let mut letters = [0u16; MOST_LETTERS];
        for (at, letter) in self.letters.iter().enumerate() {
            letters[at] = u16::from(*letter);
        }
        Perm::from_valid_letters(alloc, &letters[..self.len()])
    }

    /// The number of letters without the fixed letters at the end; 1 for the identity.
    pub fn len(&self) -> usize
        ensures { result ≡ length self.now }
    {
        let mut len = MOST_LETTERS;
        while len > 1 && usize::from(self.letters[len - 1]) == len {
            len -= 1;
        }
        len
    }

    /// The number of inversions.
    pub fn inversions(&self) -> usize {
        usize::from(self.inversions)
    }

    /// This permutation with the letters at the places `first` and `second`, counted from 0,
    /// exchanged; `None` unless this adds exactly one inversion. It does if and only if the letter
    /// at `first` is smaller than that at `second`, and no letter at a place between them has a
    /// value between these two letters. `first` must be less than `second`, and `second` less than
    /// 32.
    pub fn cover(&self, first: usize, second: usize) -> Option<ShortPerm>
        requires order { first < second }
        requires inside { second < 32 }
        ensures { option_to_list result
            ≡ covers_among self.now (times_swap (first + 1) (second + 1) self.now ∷ []) }
    {
        let low = self.letters[first];
        let high = self.letters[second];
        if low < high && !has_between(&self.letters[first + 1..second], low, high) {
            let mut letters = self.letters;
            letters.swap(first, second);
            Some(ShortPerm {
                letters,
                inversions: self.inversions + 1,
            })
        } else {
            None
        }
    }

    /// The letter at a place, counted from 0, fixed letters included.
    pub fn letter(&self, place: usize) -> u8
        requires { place < 32 }
        ensures { result ≡ slice_index (with_fixed 32 self.now) place }
    {
        self.letters[place]
    }

    /// The place of a letter, counted from 0, fixed letters included.
    pub fn place(&self, letter: u8) -> usize
        requires some { 1 ≤ letter }
        requires few { letter ≤ 32 }
        ensures place { result ≡ letters_before letter (with_fixed 32 self.now) }
        ensures inside { result < 32 }
    {
        let mut place = 0;
        while self.letters[place] != letter {
            place += 1;
        }
        place
    }

    /// The number of letters less than `letter` at the first `k` places, fixed letters included.
    pub fn less_among(&self, k: usize, letter: u8) -> usize
        requires { k ≤ 32 }
        ensures { result ≡ chains.less_among k letter (with_fixed 32 self.now) }
    {
        self.letters[..k].iter().filter(|x| **x < letter).count()
    }

    /// The greatest letter less than `letter` at the places from `first` on, before `end`, counted
    /// from 0, fixed letters included; 0 if there is none.
    pub fn greatest_below(&self, letter: u8, first: usize, end: usize) -> u8
        requires order { first ≤ end }
        requires inside { end ≤ 32 }
        ensures { IsGreatestBelow letter (take (end - first) (drop first (with_fixed 32 self.now)))
            result }
    {
        let mut low = 0;
        for x in &self.letters[first..end] {
            if low < *x && *x < letter {
                low = *x;
            }
        }
        low
    }

    /// This permutation with the letters at the places `first` and `second`, counted from 0,
    /// exchanged. The exchange must add exactly one inversion. `first` must be less than `second`,
    /// and `second` less than 32.
    pub fn raised(&self, first: usize, second: usize) -> ShortPerm
        requires order { first < second }
        requires inside { second < 32 }
        requires one { inversions (times_swap (first + 1) (second + 1) self.now)
            ≡ inversions self.now + 1 }
        ensures { result ≡ times_swap (first + 1) (second + 1) self.now }
    {
        let mut letters = self.letters;
        letters.swap(first, second);
        ShortPerm {
            letters,
            inversions: self.inversions + 1,
        }
    }
}

impl PartialEq for ShortPerm {
    ghost eq = { pointwise nat_eq };

    ghost laws = { partial_equiv_from_equiv nat_list_eq_equiv };

    fn eq(&self, other: &ShortPerm) -> bool {
        self.letters == other.letters
    }
}

impl Eq for ShortPerm {
    ghost laws = { nat_list_eq_equiv };
}

impl Hash for ShortPerm {
    ghost hash_input = { λ w. with_fixed 32 w ∷ [] };

    ghost respects_eq = { λ a b same. ap (λ w. with_fixed 32 w ∷ [])
        ((bytes_eq-Decides a b).0 same) };

    fn hash<H: Hasher>(&self, state: &mut H) {
        state.write(&self.letters);
    }
}

impl Label for ShortPerm {
    ghost use Rattle.std.specs.Prelude.{true};
    ghost use Rattle.sym_model.specs.LabelLimits.{is_permutation_label};
    ghost use Rattle.sym_model.specs.PrintedOrder.{permutation_order};
    ghost use Rattle.linear_combinations.proofs.Labels.{same_partition, permutation_order_is_total};
    ghost use Rattle.linear_combinations.proofs.Labels.{permutation_order_equal};

    ghost is_label = { is_permutation_label };

    ghost is_short = { λ w. true };

    ghost order = { permutation_order };

    fn cmp_printed(&self, other: &ShortPerm) -> Ordering {
        if self.letters == other.letters {
            return Ordering::Equal;
        }
        self.inversions
            .cmp(&other.inversions)
            .then(self.letters.cmp(&other.letters))
    }

    fn copy(&self) -> Result<ShortPerm, NoMemory> {
        Ok(ShortPerm {
            letters: self.letters,
            inversions: self.inversions,
        })
    }

    ghost same_label = { same_partition };

    ghost order_total = { permutation_order_is_total };

    ghost order_equal = { permutation_order_equal };
}
