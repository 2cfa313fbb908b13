//! How many comment marks the rest of a sentence can close, from its end.
ghost use Rattle.std.specs.Prelude.{◌≡◌, ◌^◌, ◌<◌, length, IfOk};
ghost use Rattle.coq_syntax.specs.Scan.{rooms_before, AreMarks};

use crate::characters::{closes, opens};
use base_core::NoMem;
use std::alloc::Global;

/// How many open comments the rest of a text can close, by what its next character is.
#[derive(Clone, Copy, Debug, PartialEq, Eq)]
pub struct Rooms {
    /// Where a mark, a string or a single character begins.
    pub fresh: usize,
    pub in_string: usize,
    /// At the second character of a mark.
    pub in_mark: usize,
}

/// The same, one character earlier.
fn rooms_before(character: char, rest: &[char], rooms: Rooms) -> Rooms
    requires { rooms.in_mark < 2 ^ 32 }
    ensures { result ≡ rooms_before character rest.now rooms }
{
    let fresh = if opens(character, rest) {
        rooms.in_mark.saturating_sub(1)
    } else if closes(character, rest) {
        rooms.in_mark + 1
    } else if character == '"' {
        rooms.in_string
    } else {
        rooms.fresh
    };
    let in_string = if character == '"' {
        rooms.fresh
    } else {
        rooms.in_string
    };
    Rooms {
        fresh,
        in_string,
        in_mark: rooms.fresh,
    }
}

/// Whether a comment that begins at a character can be closed, for each character. One pass from the
/// end tells it for all of them, so that no comment is sought twice.
pub fn closing_marks(alloc: Global, text: &[char]) -> Result<Vec<bool>, NoMem>
    requires { length text.now < 2 ^ 32 }
    ensures { IfOk result (λ marks. AreMarks text.now marks.items) }
{
    let mut marks = vec![in alloc; false; text.len()]?;
    let mut rooms = Rooms {
        fresh: 0,
        in_string: 0,
        in_mark: 0,
    };
    let mut i = text.len();
    while i > 0 {
        i -= 1;
        marks[i] = rooms.in_mark > 0;
        rooms = rooms_before(text[i], &text[i + 1..], rooms);
    }
    Ok(marks)
}
