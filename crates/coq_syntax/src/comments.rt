//! Where comments end.
ghost use Rattle.std.specs.Prelude.{◌≡◌, ◌+◌, ◌^◌, ◌<◌, ◌≤◌, Some, None, drop, length, MatchOption};
ghost use Rattle.sentence_split.specs.Scan.{counted_step, step, comment_end};
ghost use Rattle.coq_syntax.specs.Scan.{as_scanned, scan_state};

use crate::characters::{closes, opens};

/// What the next character of a comment is.
#[derive(Clone, Copy, Debug, PartialEq, Eq)]
pub enum Mode {
    /// A mark, a string or a single character begins.
    Fresh,
    InString,
    /// The second character of a mark.
    InMark,
}

/// How many comments are open, and what the next character is.
#[derive(Clone, Copy, Debug, PartialEq, Eq)]
pub struct State {
    pub depth: usize,
    pub mode: Mode,
}

fn fresh_step(depth: usize, character: char, rest: &[char]) -> State
    requires { depth < 2 ^ 32 }
    ensures value { scan_state result ≡ counted_step depth character rest.now }
    ensures bound { result.depth ≤ depth + 1 }
{
    if opens(character, rest) {
        return State {
            depth: depth + 1,
            mode: Mode::InMark,
        };
    }
    if depth > 0 && closes(character, rest) {
        return State {
            depth: depth - 1,
            mode: Mode::InMark,
        };
    }
    if character == '"' {
        return State {
            depth,
            mode: Mode::InString,
        };
    }
    State {
        depth,
        mode: Mode::Fresh,
    }
}

fn step(state: State, character: char, rest: &[char]) -> State
    requires { state.depth < 2 ^ 32 }
    ensures value { scan_state result ≡ step state.depth (as_scanned state.mode) character rest.now }
    ensures bound { result.depth ≤ state.depth + 1 }
{
    let depth = state.depth;
    match state.mode {
        Mode::Fresh => fresh_step(depth, character, rest),
        Mode::InString if character == '"' => State {
            depth,
            mode: Mode::Fresh,
        },
        Mode::InString => State {
            depth,
            mode: Mode::InString,
        },
        Mode::InMark => State {
            depth,
            mode: Mode::Fresh,
        },
    }
}

/// The place behind the mark that closes a comment, in what follows its first character.
pub fn after_comment(text: &[char]) -> Option<usize>
    requires { length text.now < 2 ^ 32 }
    ensures { MatchOption result (comment_end text.now ≡ None)
        (λ i. (i ≤ length text.now) × (comment_end text.now ≡ Some (drop i text.now))) }
{
    let mut state = State {
        depth: 1,
        mode: Mode::InMark,
    };
    for (i, character) in text.iter().enumerate() {
        if state.depth == 0 && state.mode == Mode::Fresh {
            return Some(i);
        }
        state = step(state, *character, &text[i + 1..]);
    }
    if state.depth == 0 && state.mode == Mode::Fresh {
        Some(text.len())
    } else {
        None
    }
}
