//! The text of an answer, and the list of terms that is read back from it.

ghost use Rattle.std.specs.Prelude.{◌≡◌, ◌↔◌, ℕ, List};
ghost use Rattle.sym_model.specs.Command.{Command};
ghost use Rattle.sym_model.specs.Outcome.{PrintsAnswer};
ghost use Rattle.sym_model.specs.Headline.{ReadsBack};

/// A text is the text of a printable answer to a command, in the form (a line for each term, or one
/// line) that the command asks for, if and only if it can be read back in that form as a canonical
/// list of terms (labels within the limits, each once and in the printed order; coefficients in
/// lowest terms, not 0), and this list is the answer to the command.
pub fn headline_law()
    ensures { (command : Command) (text : List ℕ) → PrintsAnswer command text
        ↔ ReadsBack command text }
{}
