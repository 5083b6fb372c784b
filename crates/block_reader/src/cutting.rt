//! Cuts a text at a separator, and removes bytes at the ends of a text.
ghost use Rattle.std.specs.Prelude.{◌≡◌};
ghost use Rattle.sym_model.specs.Kind.{after_one, after_two};
ghost use Rattle.sym_model.specs.NumberText.{cut_at};
ghost use Rattle.block_reader.specs.Parts.{inside_of};

/// Cuts a text in two before the first separator, which begins the second part; if there is no
/// separator, the second part is empty.
pub(crate) fn cut(text: &[u8], separator: u8) -> (&[u8], &[u8])
    ensures front { result.0.now ≡ (cut_at separator text.now).0 }
    ensures back { result.1.now ≡ (cut_at separator text.now).1 }
{
    for (at, byte) in text.iter().enumerate() {
        if *byte == separator {
            return text.split_at(at);
        }
    }
    text.split_at(text.len())
}

/// The text without its first byte; empty if the text is empty.
pub(crate) fn after_first(text: &[u8]) -> &[u8]
    ensures { result.now ≡ after_one text.now }
{
    match text {
        [_, rest @ ..] => rest,
        [] => text,
    }
}

/// The text without its first two bytes; empty if the text has fewer than two.
pub(crate) fn after_first_two(text: &[u8]) -> &[u8]
    ensures { result.now ≡ after_two text.now }
{
    match text {
        [_, _, rest @ ..] => rest,
        _ => &text[text.len()..],
    }
}

/// The text without its first and its last byte; empty if the text has fewer than two.
pub(crate) fn inside(text: &[u8]) -> &[u8]
    ensures { result.now ≡ inside_of text.now }
{
    match text {
        [_, inner @ .., _] => inner,
        _ => &text[text.len()..],
    }
}
