//! The limits that hold for a command whose words have no error.
ghost use Rattle.std.specs.Prelude.{ℕ, List};
ghost use Rattle.sym_model.specs.Command.{Command};
ghost use Rattle.sym_model.specs.Entry.{SpellsWithoutOffence};
ghost use Rattle.sym_model.specs.Grammar.{all_entries};
ghost use Rattle.calc_words.specs.Commands.{KeepsLimits};

/// A command whose words have no error is within its limits: partitions of at most 64 parts and 512
/// cells, two to eight factors, permutations of at most 16 letters, words of at most 256 letters
/// from 1 to 65,535, numbers of rows, columns and levels from 1 to 64, expressions of at most the
/// degree that is allowed for the target basis, from 1 to 10,000 lines and seeds of at most 65,536.
/// A law: it does nothing when it runs.
pub fn written_limits_law()
    ensures { (words : List (List ℕ)) (command : Command)
        → SpellsWithoutOffence all_entries words command → KeepsLimits command }
{}
