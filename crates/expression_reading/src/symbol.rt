//! The symbols of the grammar of expressions, and the symbol of each byte.
ghost use Rattle.std.specs.Prelude.{◌≡◌};
ghost use Rattle.expression_laws.specs.LeftToRight.{symbol};
ghost use Rattle.expression_reading.specs.Symbols.{symbol_in};

use calc_base::Basis;

/// The meaning of a byte in the grammar of expressions.
#[derive(Clone, Copy)]
pub(crate) enum Symbol {
    Digit(u8),
    Plus,
    Minus,
    Star,
    Slash,
    Open,
    Close,
    OpenList,
    CloseList,
    Comma,
    Letter(Basis),
    Other,
}

pub(crate) fn symbol_of(byte: u8) -> Symbol
    ensures { symbol_in result ≡ symbol byte }
{
    match byte {
        b'0'..=b'9' => Symbol::Digit(byte),
        b'+' => Symbol::Plus,
        b'-' => Symbol::Minus,
        b'*' => Symbol::Star,
        b'/' => Symbol::Slash,
        b'(' => Symbol::Open,
        b')' => Symbol::Close,
        b'[' => Symbol::OpenList,
        b']' => Symbol::CloseList,
        b',' => Symbol::Comma,
        b'm' => Symbol::Letter(Basis::M),
        b'e' => Symbol::Letter(Basis::E),
        b'h' => Symbol::Letter(Basis::H),
        b'p' => Symbol::Letter(Basis::P),
        b's' => Symbol::Letter(Basis::S),
        _ => Symbol::Other,
    }
}
