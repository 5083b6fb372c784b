//! The meaning of words for one command, and for a list of commands that contains it.
ghost use Rattle.std.specs.Prelude.{◌≡◌, ℕ, List, [], ◌∷◌, Option};
ghost use Rattle.sym_model.specs.Command.{Command};
ghost use Rattle.sym_model.specs.CommandOffence.{Offence};
ghost use Rattle.sym_model.specs.Entry.{Entry, HasFirstOffence, SpellsWithoutOffence};
ghost use Rattle.sym_model.specs.SyntaxPlace.{IsSyntaxPlace};
ghost use Rattle.calc_words.specs.Joined.{Joined};

/// Let e be a command in a list of commands. Let no other command of the list have the name of e,
/// and let the words of each command of the list begin with its name (`Joined`). Compare the
/// reading of words as e with the reading of them as any command of the list:
/// - If the words spell a command without an error as e, they also spell it without an error as a
///   command of the list.
/// - If they have the form of e, their first error as e is also their first error for the list.
/// - If they begin with the name of e, the place of their first error of syntax as e is also that
///   for the list.
///
/// A law: it does nothing when it runs.
pub fn joined_commands_law()
    ensures says { (e : Entry) (entries : List Entry) → Joined e entries
        → (words : List (List ℕ)) (command : Command)
        → SpellsWithoutOffence (e ∷ []) words command → SpellsWithoutOffence entries words command }
    ensures offends { (e : Entry) (entries : List Entry) → Joined e entries
        → (words : List (List ℕ)) (first : Option Offence)
        → HasFirstOffence (e ∷ []) words first → HasFirstOffence entries words first }
    ensures goes_wrong { (e : Entry) (entries : List Entry) → Joined e entries
        → (words rest : List (List ℕ)) (word byte : ℕ)
        → words ≡ e.name ∷ rest → IsSyntaxPlace (e ∷ []) words word byte
        → IsSyntaxPlace entries words word byte }
{}
