//! Tokens, and lists of them.
ghost use Rattle.std.specs.Prelude.{◌≡◌};

use base_core::Text;
use std::marker::Model;

/// What a token is.
#[derive(Clone, Copy, Debug, PartialEq, Eq)]
pub enum TokenKind {
    Identifier,
    /// `_` alone.
    Wildcard,
    /// A word that is no identifier, as `forall`.
    Reserved,
    /// A run of ASCII digits.
    Number,
    Symbol,
    /// A string, with its marks.
    Quoted,
    /// A character that begins nothing else.
    Other,
}

/// A token, and where it stands: from one byte of its sentence up to another.
#[derive(Debug, Drop)]
pub struct Token {
    pub kind: TokenKind,
    pub text: Text,
    pub from: u32,
    pub to: u32,
}

/// The tokens of a sentence, in order.
#[derive(Debug, Drop)]
pub struct TokenList {
    items: Vec<Token>,
    period: u32,
}

impl Model for TokenList {
    ghost use Rattle.coq_syntax.specs.Tokens.{Tokens};

    ghost Value = { Tokens };

    ghost view = { λ a. record { items = a.items.items; period = a.period } };
}

impl TokenList {
    pub fn new(items: Vec<Token>, period: u32) -> TokenList
        ensures items { result.items ≡ items.items }
        ensures period { result.period ≡ period }
    {
        TokenList { items, period }
    }

    pub fn as_slice(&self) -> &[Token]
        ensures { result.now ≡ self.now.items }
    {
        self.items.as_slice()
    }

    /// The byte of the sentence's final period, where the list ends.
    pub fn period(&self) -> u32
        ensures { result ≡ self.now.period }
    {
        self.period
    }
}
