//! The reserved word and the symbols that stand in proof moves beside their terms.

ghost use Rattle.std.specs.Prelude.{◌≡◌};
ghost use Rattle.move_parser.specs.Marks as spec;

use coq_syntax::{Token, TokenKind};

#[derive(Clone, Copy, Debug, PartialEq, Eq)]
pub enum Mark {
    As,
    /// `[`
    OpenBracket,
    /// `]`
    CloseBracket,
    /// `|`
    Bar,
    /// `->`
    Forward,
    /// `<-`
    Backward,
}

impl Mark {
    fn kind(self) -> TokenKind
        ensures { result ≡ spec.kind_of self }
    {
        match self {
            Mark::As => TokenKind::Reserved,
            Mark::OpenBracket => TokenKind::Symbol,
            Mark::CloseBracket => TokenKind::Symbol,
            Mark::Bar => TokenKind::Symbol,
            Mark::Forward => TokenKind::Symbol,
            Mark::Backward => TokenKind::Symbol,
        }
    }

    fn text(self) -> &'static str
        ensures { result.now ≡ spec.text_of self }
    {
        match self {
            Mark::As => "as",
            Mark::OpenBracket => "[",
            Mark::CloseBracket => "]",
            Mark::Bar => "|",
            Mark::Forward => "->",
            Mark::Backward => "<-",
        }
    }

    pub fn is(self, token: &Token) -> bool
        ensures { result ≡ spec.is_mark self token.now }
    {
        token.kind == self.kind() && token.text.as_str() == self.text()
    }
}
