//! The stages of a lister of words.

/// The stage of a lister that writes its words to a board. `New`: before the first word. `Listing`:
/// the word on the board is current. `Passed`: the word on the board is the one after which the
/// list continues, and is not listed itself. `Ended`: after the last word.
#[derive(Clone, Copy)]
pub(crate) enum Stage {
    New,
    Listing,
    Passed,
    Ended,
}
