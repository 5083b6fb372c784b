//! Rewriting a one-line form, which is an expression with atoms such as `s[2,1]`, as a block, which
//! has one line for each term.
ghost use Rattle.std.specs.Prelude.{◌≡◌, ◌++◌, true, cond, codes, IfOk, OnOk};
ghost use Rattle.block_reader.specs.Lines.{block_from, emitted, is_dropped, is_bare_after};

use calc_base::NoMemory;
use std::alloc::Global;

/// The block for a one-line form: a line for each atom, with the coefficient in front of the atom,
/// or 1 if there is no coefficient. For a text that is no one-line form, the result has no meaning.
pub(crate) fn as_block(alloc: Global, text: &[u8]) -> Result<Vec<u8>, NoMemory>
    ensures { IfOk result (λ block. block.items ≡ block_from true text.now) }
{
    let mut block = Vec::new(alloc);
    let mut bare = true;
    for byte in text {
        put_byte(&mut block, bare, *byte)?;
        bare = is_bare_after(bare, *byte);
    }
    Ok(block)
}

/// Appends to the block the text for a byte of the one-line form; `bare` says whether no digit has
/// been read since the last atom.
fn put_byte(block: &mut Vec<u8>, bare: bool, byte: u8) -> Result<(), NoMemory>
    ensures { OnOk result (block.new.items ≡ block.old.items ++ emitted bare byte) }
{
    if is_dropped(bare, byte) {
        return Ok(());
    }
    if byte == b'[' {
        return put_text(block, opening(bare));
    }
    if byte == b']' {
        return put_text(block, b")\n");
    }
    block.push(byte)?;
    Ok(())
}

/// Appends a text to the block.
fn put_text(block: &mut Vec<u8>, text: &[u8]) -> Result<(), NoMemory>
    ensures { OnOk result (block.new.items ≡ block.old.items ++ text.now) }
{
    block.extend_from_slice(text)?;
    Ok(())
}

/// The text in front of the numbers of a term, such as `2,1`: two spaces and `(`, after the
/// coefficient 1 if `bare` is true, that is, if no coefficient was read.
fn opening(bare: bool) -> &'static [u8]
    ensures { result.now ≡ cond bare (codes "1  (") (codes "  (") }
{
    if bare {
        return b"1  (";
    }
    b"  ("
}

/// Whether a byte of a one-line form adds nothing to the block: `+`, `*`, a letter, and a line feed
/// if `bare` is true, that is, if no digit was read since the last atom.
fn is_dropped(bare: bool, byte: u8) -> bool
    ensures { result ≡ is_dropped bare byte }
{
    byte == b'+' || byte == b'*' || byte >= b'a' || bare && byte == b'\n'
}

/// Whether, after the byte `byte` is read, no digit has been read since the last atom; `bare` says
/// whether this holds before `byte` is read.
fn is_bare_after(bare: bool, byte: u8) -> bool
    ensures { result ≡ is_bare_after bare byte }
{
    if byte == b']' {
        return true;
    }
    if byte >= b'0' && byte <= b'9' {
        return false;
    }
    bare
}
