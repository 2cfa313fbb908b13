//! The scan for the end of a comment or a sentence.
ghost use Rattle.std.specs.Prelude.{◌≡◌, ◌+◌, ◌^◌, ◌<◌, ◌≤◌, Some, None, drop, length, MatchOption};
ghost use Rattle.sentence_split.specs.Scan.{counted_step, step, sentence_end, comment_end};

use crate::bytes::{closes, is_ended, opens};

/// What the next byte of a scan is.
#[derive(Clone, Copy, Debug, PartialEq, Eq)]
pub enum Mode {
    /// An item begins.
    Item,
    /// Inside a string.
    Quoted,
    /// The second byte of a comment mark.
    Second,
}

/// How many comments are open, and what the next byte is.
#[derive(Clone, Copy, Debug, PartialEq, Eq)]
pub struct State {
    pub depth: usize,
    pub mode: Mode,
}

fn item_step(depth: usize, byte: u8, rest: &[u8]) -> State
    requires { depth < 2 ^ 32 }
    ensures value { result ≡ counted_step depth byte rest.now }
    ensures bound { result.depth ≤ depth + 1 }
{
    if opens(byte, rest) {
        return State {
            depth: depth + 1,
            mode: Mode::Second,
        };
    }
    if depth > 0 && closes(byte, rest) {
        return State {
            depth: depth - 1,
            mode: Mode::Second,
        };
    }
    if byte == b'"' {
        return State {
            depth,
            mode: Mode::Quoted,
        };
    }
    State {
        depth,
        mode: Mode::Item,
    }
}

fn step(state: State, byte: u8, rest: &[u8]) -> State
    requires { state.depth < 2 ^ 32 }
    ensures value { result ≡ step state.depth state.mode byte rest.now }
    ensures bound { result.depth ≤ state.depth + 1 }
{
    let depth = state.depth;
    match state.mode {
        Mode::Item => item_step(depth, byte, rest),
        Mode::Quoted if byte == b'"' => State {
            depth,
            mode: Mode::Item,
        },
        Mode::Quoted => State {
            depth,
            mode: Mode::Quoted,
        },
        Mode::Second => State {
            depth,
            mode: Mode::Item,
        },
    }
}

/// The place behind the first period that ends a sentence.
pub fn after_period(text: &[u8]) -> Option<usize>
    requires { length text.now < 2 ^ 32 }
    ensures { MatchOption result (sentence_end text.now ≡ None)
        (λ i. (i ≤ length text.now) × (0 < i) × (sentence_end text.now ≡ Some (drop i text.now))) }
{
    let mut state = State {
        depth: 0,
        mode: Mode::Item,
    };
    for (i, byte) in text.iter().enumerate() {
        let rest = &text[i + 1..];
        if state.depth == 0 && state.mode == Mode::Item && *byte == b'.' && is_ended(rest) {
            return Some(i + 1);
        }
        state = step(state, *byte, rest);
    }
    None
}

/// The place behind the mark that closes a comment, in what follows its first byte.
pub fn after_comment(text: &[u8]) -> Option<usize>
    requires { length text.now < 2 ^ 32 }
    ensures { MatchOption result (comment_end text.now ≡ None)
        (λ i. (i ≤ length text.now) × (comment_end text.now ≡ Some (drop i text.now))) }
{
    let mut state = State {
        depth: 1,
        mode: Mode::Second,
    };
    for (i, byte) in text.iter().enumerate() {
        if state.depth == 0 && state.mode == Mode::Item {
            return Some(i);
        }
        state = step(state, *byte, &text[i + 1..]);
    }
    if state.depth == 0 && state.mode == Mode::Item {
        Some(text.len())
    } else {
        None
    }
}
