//! Positions in a text, and edits.
use crate::{List, Text};

/// A place in a text as editors count it: lines from 0, and UTF-16 units from the line's start
/// (LSP 3.17, "Position").
#[derive(Clone, Copy, Debug, PartialEq, Eq)]
pub struct Position {
    pub line: u32,
    pub character: u32,
}

/// From one position up to another, which is not part of it.
#[derive(Clone, Copy, Debug, PartialEq, Eq)]
pub struct Range {
    pub from_pos: Position,
    pub to_pos: Position,
}

/// One edit of a text: the new text of a range, or where there is none of the whole.
#[derive(Debug, Drop)]
pub struct Change {
    pub range: Option<Range>,
    pub text: Text,
}

/// Edits that apply one after another.
pub type ChangeList = List<Change>;
