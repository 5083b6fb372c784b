//! The search for the first line feed of some bytes.
ghost use Rattle.std.specs.Prelude.{◌≡◌, ◌<◌, length, take, slice_index, MatchOption};
ghost use Rattle.batch_lines.specs.Feeds.{HasNoFeed};

/// The index of the first line feed, counted from 0, if there is one.
pub(crate) fn first_feed(bytes: &[u8]) -> Option<usize>
    ensures { MatchOption result (HasNoFeed bytes.now)
        (λ at. (at < length bytes.now) × HasNoFeed (take at bytes.now)
        × (slice_index bytes.now at ≡ 10)) }
{
    for (at, byte) in bytes.iter().enumerate() {
        if *byte == b'\n' {
            return Some(at);
        }
    }
    None
}
