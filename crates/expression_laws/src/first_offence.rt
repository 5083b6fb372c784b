//! The first error in a list of the errors of a word.

ghost use Rattle.std.specs.Prelude.{◌≡◌, ◌↔◌, List, []};
ghost use Rattle.sym_model.specs.Sum.{Among};
ghost use Rattle.sym_model.specs.ExpressionOffence.{WordOffence, ComesBefore, first_of};

/// The first error of a list of errors (`first_of`) is an element of the list, and no error of the
/// list comes before it. There is no first error if and only if the list is empty.
pub fn first_offence_law()
    ensures is_one { (offences : List WordOffence) (first : WordOffence)
        → first_of offences ≡ Some first → Among first offences }
    ensures none_before { (offences : List WordOffence) (first other : WordOffence)
        → first_of offences ≡ Some first
        → Among other offences → ¬ ComesBefore other first }
    ensures none { (offences : List WordOffence) → (first_of offences ≡ None) ↔ (offences ≡ []) }
{}
