//! The two places of a permutation whose letters the transition rule exchanges.
ghost use Rattle.std.specs.Prelude.{◌≡◌, ◌+◌, ◌↔◌, [], ◌∷◌, Some, IfSome, IfNone};
ghost use Rattle.sym_model.specs.Permutation.{IsTransition, last_descent, times_swap};
ghost use Rattle.sym_model.specs.PlaceOrders.{inversions};
ghost use Rattle.transition_walk.specs.Transitions.{IsShort};

use perm_codes::Perm;

/// The places r < s of the transition rule for `w`: r is the last descent, and s the last place
/// whose letter is smaller than the letter at r. Exchanging the letters at r and s removes one
/// inversion. Returns None if and only if `w` is the identity.
pub fn transition_places(w: &Perm) -> Option<(u16, u16)>
    ensures places { IfSome result (λ p. IsTransition w.now p.0 p.1) }
    ensures fewer { IfSome result (λ p.
        inversions w.now ≡ inversions (times_swap p.0 p.1 w.now) + 1) }
    ensures short { IsShort 255 w.now }
    ensures identity { (result ≡ None) ↔ (w.now ≡ 1 ∷ []) }
    ensures none { IfNone result (last_descent w.now ≡ None) }
{
    let r = w.last_descent()?;
    Some((r, last_smaller(w, r)))
}

/// The last place of `w` whose letter is smaller than the letter at the last descent `r`.
fn last_smaller(w: &Perm, r: u16) -> u16
    requires { last_descent w.now ≡ Some r }
    ensures { IsTransition w.now r result }
{
    let bound = w.letter(r);
    let mut s = w.len();
    while s > r + 1 {
        if w.letter(s) < bound {
            return s;
        }
        s -= 1;
    }
    s
}
