//! The texts of atoms, that is, of basis elements such as `s[2,1]`: the letter of a basis, and the
//! parts of a partition in brackets.
ghost use Rattle.std.specs.Prelude.{◌≡◌, ◌∷◌, [], ◌++◌, ◌==◌, decimal, codes, if◌then◌else◌};
ghost use Rattle.expansion_printer.specs.Gathering.{Gathers};
ghost use Rattle.expression_reading.specs.Trees.{basis_of};
ghost use Rattle.sym_model.specs.NumberText.{numbers_text};
ghost use Rattle.sym_model.specs.OneLine.{atom_text};
ghost use Rattle.sym_model.specs.Phrase.{letter};

use crate::numbers::put_separated;
use crate::text_buffer::TextBuffer;
use calc_base::{Basis, Sink};

/// Writes the basis element with these parts, such as `s[2,1]`.
pub(crate) fn put_atom<K: Sink>(basis: Basis, parts: &[u16], text: &mut TextBuffer, sink: &mut K)
    ensures { Gathers text.old (K.seen sink.old) text.new (K.seen sink.new)
        (atom_text (basis_of basis) parts.now) }
{
    text.put_byte(letter_of(basis), sink);
    text.put_byte(b'[', sink);
    put_separated(b',', parts, text, sink);
    text.put_byte(b']', sink);
}

/// The letter of a basis.
fn letter_of(basis: Basis) -> u8
    ensures { result ∷ [] ≡ letter (basis_of basis) }
{
    match basis {
        Basis::M => b'm',
        Basis::E => b'e',
        Basis::H => b'h',
        Basis::P => b'p',
        Basis::S => b's',
    }
}
