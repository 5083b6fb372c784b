//! The refusal of a command for the fault of an expression.
ghost use Rattle.std.specs.Prelude.{◌≡◌};
ghost use Rattle.calc_language.specs.Reading.{placed as placed_at};

use calc_base::{Place, WordsFault};
use calc_words::syntax;
use expression_reading::ExpressionFault;

/// The refusal of a command whose word `word` is an expression with this fault.
pub(crate) fn placed(word: u64, fault: ExpressionFault) -> WordsFault
    ensures { result ≡ placed_at word fault }
{
    match fault {
        ExpressionFault::Syntax { byte } => syntax(word, byte),
        ExpressionFault::Literal { byte } => WordsFault::Literal {
            at: Place { word, byte },
        },
        ExpressionFault::Range { byte } => WordsFault::Range {
            at: Place { word, byte },
        },
        ExpressionFault::Shape { byte } => WordsFault::Shape {
            at: Place { word, byte },
        },
        ExpressionFault::NoMemory => WordsFault::NoMemory,
    }
}
