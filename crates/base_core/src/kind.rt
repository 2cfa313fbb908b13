//! What kind of stretch of a text a sentence is.
/// What kind of stretch a sentence is.
#[derive(Clone, Copy, Debug, PartialEq, Eq, Hash)]
pub enum Kind {
    /// Ends in a period that a blank or the text's end follows.
    Plain,
    /// A run of the same one of `-`, `+` and `*`.
    Bullet,
    /// `{`
    BraceOpen,
    /// `}`
    BraceClose,
    /// Runs to the text's end without having ended.
    Unfinished,
}
