//! Words inside trees: the places of tokens, and identifiers and numbers as they are written.
use base_core::Text;

/// Where a token stands: from one byte of its sentence up to another.
#[derive(Clone, Copy, Debug, PartialEq, Eq)]
pub struct TokenPlace {
    pub from: u32,
    pub to: u32,
}

/// An identifier or a number, as it is written.
#[derive(Debug, Drop)]
pub struct Word {
    pub text: Text,
    pub place: TokenPlace,
}

/// A name that a binder gives, or `_` in its place.
#[derive(Debug, Drop)]
pub enum BoundName {
    Named(Word),
    Unnamed(TokenPlace),
}
