//! From offsets to positions and back, by the ends of lines.

ghost use Rattle.std.specs.Prelude.{◌≡◌, ◌≤◌, length};
ghost use Rattle.std.specs.Str.{IsCharBoundary};
ghost use Rattle.utf16_doc.specs.Indexed.{IsLined};
ghost use Rattle.utf16_doc.specs.Lines.{content};
ghost use Rattle.utf16_doc.specs.Positions.{position_at, run_length, offset_at};
ghost use Rattle.utf16_doc.specs.Units.{AreCheckpoints};

use crate::Encoding;
use crate::lines::{ends_up_to, is_line_break, start_of};
use crate::units::{units_before, units_of};
use base_core::Position;

/// The position of an offset. An offset inside a character counts that character.
pub fn position_in(
    encoding: Encoding,
    text: &[u8],
    ends: &[u32],
    checkpoints: &[u32],
    offset: usize,
) -> Position
    requires within { offset ≤ length text.now }
    requires lined { IsLined text.now ends.now }
    requires summed { AreCheckpoints encoding text.now checkpoints.now }
    ensures { result ≡ position_at encoding text.now offset }
{
    let line = ends_up_to(ends, offset);
    let start = start_of(ends, line);
    let upto = units_before(encoding, text, checkpoints, offset);
    let before = units_before(encoding, text, checkpoints, start);
    Position {
        line: line as u32,
        character: upto - before,
    }
}

/// How many bytes the longest run of whole characters has that stand before an end mark and have at most so many units.
fn run_length(encoding: Encoding, text: &[u8], most: u32) -> usize
    ensures value { result ≡ run_length encoding most (content text.now) }
    ensures boundary { IsCharBoundary text.now result }
{
    let mut left = most;
    for (i, byte) in text.iter().enumerate() {
        let units = units_of(encoding, *byte);
        if is_line_break(*byte) || units > left {
            return i;
        }
        left -= units;
    }
    text.len()
}

/// The offset of a position. A line past the last means the text's end, a character past the line's length that
/// length without its end mark, and a character inside another's units the start of that one.
pub fn offset_in(encoding: Encoding, text: &[u8], ends: &[u32], position: Position) -> usize
    requires { IsLined text.now ends.now }
    ensures value { result ≡ offset_at encoding text.now position }
    ensures boundary { IsCharBoundary text.now result }
{
    let line = position.line as usize;
    if line > ends.len() {
        return text.len();
    }
    let start = start_of(ends, line);
    start + run_length(encoding, &text[start..], position.character)
}
