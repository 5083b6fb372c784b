//! The bytes of a line that are stored while it is read: at most 4,096.
ghost use Rattle.std.specs.Prelude.{◌≡◌, ◌≤◌, ◌++◌, false, length, List, ℕ, IfOk};
ghost use Rattle.batch_lines.specs.Heard.{IsHeard, Hears};
ghost use Rattle.batch_lines.specs.Reading.{most_pending};

use crate::feed::first_feed;
use crate::pieces::Pieces;
use calc_base::NoMemory;

/// The greatest number of bytes of a line, without its line feed.
const MOST_BYTES: usize = 4096;

/// The state of a line while it is read: whether it has more than 4,096 bytes so far, and whether
/// it has ended.
#[derive(Clone, Copy, Debug)]
pub(crate) struct Heard {
    pub is_long: bool,
    pub has_ended: bool,
}

/// Appends `bytes` to the line and returns false, if the line then has at most 4,096 bytes. If it
/// would have more, or if `is_long` says that it is already too long, appends nothing and returns
/// true. Fails only if memory runs out.
fn add(line: &mut Vec<u8>, is_long: bool, bytes: &[u8]) -> Result<bool, NoMemory>
    ensures { (text : List ℕ) → IsHeard text line.old.items is_long
        → IfOk result (λ long. IsHeard (text ++ bytes.now) line.new.items long) }
{
    if is_long || bytes.len() > MOST_BYTES.saturating_sub(line.len()) {
        return Ok(true);
    }
    line.extend_from_slice(bytes)?;
    Ok(false)
}

/// Reads the bytes of `pieces` up to the first line feed, or all bytes if there is no line feed.
/// The bytes before the line feed are appended to the line, unless it is or becomes too long.
pub(crate) fn hear(
    pieces: &mut Pieces,
    line: &mut Vec<u8>,
    is_long: bool,
) -> Result<Heard, NoMemory>
    ensures heard { (text : List ℕ) → IsHeard text line.old.items is_long
        → IfOk result (λ heard. Hears text pieces.old pieces.new line.new.items heard) }
    ensures few { length pieces.old ≤ most_pending }
    ensures short { IfOk result (λ _. length pieces.new ≤ most_pending) }
{
    let Some(at) = first_feed(pieces.front()) else {
        let is_long = add(line, is_long, pieces.front())?;
        let count = pieces.front().len();
        pieces.skip(count);
        return Ok(Heard {
            is_long,
            has_ended: false,
        });
    };
    let is_long = add(line, is_long, &pieces.front()[..at])?;
    pieces.skip(at + 1);
    Ok(Heard {
        is_long,
        has_ended: true,
    })
}
