//! Laws of the lists of words that any given forms of commands allow, and of the words of the
//! commands of this program.

ghost use Rattle.std.specs.Prelude.{◌≡◌, ◌↔◌, ◌≤◌, ◌<◌, ℕ, Bool, true, List, [], ◌∷◌, length};
ghost use Rattle.std.specs.Prelude.{Option};
ghost use Rattle.sym_model.specs.Sum.{Among};
ghost use Rattle.sym_model.specs.Expansion.{Basis};
ghost use Rattle.sym_model.specs.Expression.{Tree, degree};
ghost use Rattle.sym_model.specs.ExpressionOffence.{degree_limit};
ghost use Rattle.sym_model.specs.LongestPrefix.{IsLongestPrefix};
ghost use Rattle.sym_model.specs.Phrase.{BeginsExpression};
ghost use Rattle.expression_laws.specs.LeftToRight.{start};
ghost use Rattle.sym_model.specs.Form.{Form, SomeOf, EachOf, Has, Begins, taken, TellsExpressions};
ghost use Rattle.sym_model.specs.Form.{can_be};
ghost use Rattle.sym_model.specs.Command.{Command, expand};
ghost use Rattle.sym_model.specs.CommandOffence.{Offence, ComesBefore, first_offence};
ghost use Rattle.sym_model.specs.Entry.{Entry, SpellsCommand, HasFirstOffence};
ghost use Rattle.sym_model.specs.Entry.{SpellsWithoutOffence};
ghost use Rattle.sym_model.specs.Grammar.{all_entries, line_entries};
ghost use Rattle.sym_model.specs.SyntaxPlace.{IsSyntaxPlace};
ghost use Rattle.word_laws.specs.OneReading.{are_unambiguous};
ghost use Rattle.word_laws.specs.Reading.{bytes_taken, forms_of, syntax_place};

/// Let one or more forms (`Form`, a pattern of words) be given, let each of them allow some list of
/// words, and let `reads` test whether a word is an expression. For a list of words, `taken` is the
/// greatest k such that some list of words of one of the forms begins with the first k of the given
/// words. For a text, `bytes_taken` is the greatest k such that some expression begins with the
/// first k bytes of the text. If `syntax_place` gives a place, the words spell no command, and this
/// place is the one place of their first error of syntax (`IsSyntaxPlace`); if it gives none, the
/// words spell a command.
pub fn syntax_place_law()
    ensures longest_prefix { (reads : List ℕ → Bool) → TellsExpressions reads → (forms : List Form)
        → EachOf (λ f. can_be f ≡ true) forms → 0 < length forms → (words : List (List ℕ))
        → IsLongestPrefix (λ ws. SomeOf (λ f. Begins f ws) forms) words (taken reads forms words) }
    ensures bytes { (text : List ℕ)
        → IsLongestPrefix BeginsExpression text (bytes_taken start text) }
    ensures place { (entries : List Entry) → EachOf (λ f. can_be f ≡ true) (forms_of entries)
        → 0 < length entries
        → (words : List (List ℕ)) (word byte : ℕ) → syntax_place entries words ≡ Some (word, byte)
        → IsSyntaxPlace entries words word byte }
    ensures one_place { (entries : List Entry) (words : List (List ℕ)) (word byte other at : ℕ)
        → IsSyntaxPlace entries words word byte → IsSyntaxPlace entries words other at
        → (word ≡ other) × (byte ≡ at) }
    ensures command { (entries : List Entry) (words : List (List ℕ))
        → syntax_place entries words ≡ None
        → (command : Command) × SpellsCommand entries words command }
{}

/// Each command has a form, a pattern of words. If each form is unambiguous and the first word
/// determines the form (`are_unambiguous`), then a list of words spells at most one command and has
/// at most one first error. The forms of all commands of this program, and those of the commands
/// that a line of a batch allows, have this property.
pub fn one_command_law()
    ensures all_commands { are_unambiguous (forms_of all_entries) ≡ true }
    ensures line_commands { are_unambiguous (forms_of line_entries) ≡ true }
    ensures one_command { (entries : List Entry) → are_unambiguous (forms_of entries) ≡ true
        → (words : List (List ℕ)) (a b : Command) → SpellsCommand entries words a
        → SpellsCommand entries words b → a ≡ b }
    ensures one_offence { (entries : List Entry) → are_unambiguous (forms_of entries) ≡ true
        → (words : List (List ℕ)) (a b : Option Offence) → HasFirstOffence entries words a
        → HasFirstOffence entries words b
        → a ≡ b }
{}

/// The first error of a list of errors (`first_offence`) is one of them, and none of them is before
/// it. There is no first error if and only if the list is empty.
pub fn command_offence_law()
    ensures is_one { (offences : List Offence) (first : Offence)
        → first_offence offences ≡ Some first
        → Among first offences }
    ensures none_before { (offences : List Offence) (first other : Offence)
        → first_offence offences ≡ Some first
        → Among other offences → ¬ ComesBefore other first }
    ensures none { (offences : List Offence) → (first_offence offences ≡ None) ↔ (offences ≡ []) }
{}

/// For each command there are words of its form. If the words of a command `expand` have no error,
/// the degree of its expression is at most the greatest degree that its target basis allows.
pub fn words_of_commands_law()
    ensures words { EachOf (λ (e : Entry). (words : List (List ℕ)) × Has e.form words) all_entries }
    ensures degree { (words : List (List ℕ)) (target : Basis) (one_line : Bool) (e : Tree)
        → SpellsWithoutOffence all_entries words (expand target one_line e)
        → degree e ≤ degree_limit target }
{}
