//! Conditions on the parts of outer and inner under which outer/inner is a horizontal strip, a
//! vertical strip or a rim hook.

ghost use Rattle.std.specs.Prelude.{◌≡◌, ℕ, ◌+◌, ◌-◌, ◌≤◌, ◌↔◌, List};
ghost use Rattle.sym_model.specs.Partition.{Falls, Holds, part, size};
ghost use Rattle.sym_model.specs.Strip.{IsHorizontalStrip, IsVerticalStrip, IsRimHook, height};
ghost use Rattle.strip_laws.specs.HookRows.{IsHookRows};

/// Let outer and inner be weakly decreasing lists of parts, with inner inside outer.
/// - outer/inner is a horizontal strip if and only if part i + 1 of outer is at most part i of
///   inner, for each i.
/// - It is a vertical strip if and only if part i of outer is at most part i of inner plus 1, for
///   each i.
/// - It is a rim hook if and only if, for some numbers first and last, it has cells exactly in the
///   rows first, .., last, and part i + 1 of outer is part i of inner plus 1 for first ≤ i < last.
///   The height of the rim hook is the number of these rows. The number of its cells is the height,
///   plus the part of outer in the row first, minus the part of inner in the row last, minus 1.
pub fn strip_law()
    ensures horizontal { (outer inner : List ℕ) → Falls outer → Falls inner → Holds outer inner
        → (IsHorizontalStrip outer inner
        ↔ ((i : ℕ) → 1 ≤ i → part outer (i + 1) ≤ part inner i)) }
    ensures vertical { (outer inner : List ℕ) → Holds outer inner
        → (IsVerticalStrip outer inner
        ↔ ((i : ℕ) → 1 ≤ i → part outer i ≤ part inner i + 1)) }
    ensures rim_hook { (outer inner : List ℕ) → Falls outer → Falls inner
        → (IsRimHook outer inner ↔ ((first : ℕ) × (last : ℕ) × IsHookRows outer inner first last)) }
    ensures height { (outer inner : List ℕ) (first last : ℕ) → Falls outer
        → IsHookRows outer inner first last
        → height outer inner ≡ last + 1 - first }
    ensures cells { (outer inner : List ℕ) (first last : ℕ) → IsHookRows outer inner first last
        → size outer + part inner last ≡ size inner + part outer first + (last - first) }
{}
