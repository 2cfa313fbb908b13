//! What the characters of a line are counted in.

/// The units of positions (LSP 3.17, "PositionEncodingKind").
#[derive(Clone, Copy, Debug, PartialEq, Eq)]
pub enum Encoding {
    /// Bytes of UTF-8.
    Utf8,
    /// Units of UTF-16: two for a character of four bytes, and one for each other.
    Utf16,
}
