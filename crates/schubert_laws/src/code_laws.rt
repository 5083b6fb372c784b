//! A permutation and its code determine each other.

ghost use Rattle.std.specs.Prelude.{◌≡◌, ℕ, ◌++◌, List, replicate, length};
ghost use Rattle.sym_model.specs.Partition.{size};
ghost use Rattle.sym_model.specs.PlaceOrders.{places, inversions};
ghost use Rattle.sym_model.specs.Permutation.{IsOneLine, kept, code, IsCode, letters_by_code};
ghost use Rattle.sym_model.specs.Permutation.{from_code};

/// The number of inversions of a list is the sum of its code. A list in which no entry is greater
/// than the number of entries after it is the code of exactly one permutation of the same length:
/// each entry a, in turn, gives the unused letter that is greater than exactly a other unused
/// letters. If fixed letters at the end of a permutation are dropped, its code loses only zeros at
/// the end. So the code determines the permutation, up to fixed letters at the end.
///
/// Example: 3 1 2 has the code 2 0 0.
pub fn code_law()
    ensures inversions { (w : List ℕ) → inversions w ≡ size (code w) }
    ensures is_code { (w : List ℕ) → IsCode (code w) }
    ensures one_line { (cs : List ℕ) → IsCode cs
        → IsOneLine (letters_by_code cs (places (length cs))) }
    ensures code { (cs : List ℕ) → IsCode cs → code (letters_by_code cs (places (length cs))) ≡ cs }
    ensures kept_one_line { (cs : List ℕ) → IsCode cs → IsOneLine (from_code cs) }
    ensures kept_code { (cs : List ℕ) → IsCode cs
        → (k : ℕ) × (code (from_code cs) ++ replicate k 0 ≡ cs) }
    ensures back { (w : List ℕ) → IsOneLine w → from_code (code w) ≡ kept w }
{}
