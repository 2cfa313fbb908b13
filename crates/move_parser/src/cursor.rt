//! A cursor over the tokens of a move.

ghost use Rattle.std.specs.Prelude.{◌≡◌, [], IfOk, Decides};
ghost use Rattle.coq_syntax.specs.Spelled.{identifier, name};
ghost use Rattle.move_parser.specs.Marks.{written};
ghost use Rattle.move_parser.specs.Reading.{MayTake, IsTaken, IsHere, is_wildcard};
ghost use Rattle.move_parser.specs.Parts.{IsPart, IsEndOf, no_fault};

use crate::mark::Mark;
use base_core::NoMem;
use coq_syntax::{BoundName, Token, TokenKind, TokenPlace, Word, place_of, word_of};
use std::alloc::{AllocFailed, Global};
use std::marker::Model;

/// Why nothing was read.
#[derive(Clone, Copy)]
pub enum Halt<'a> {
    /// The first of these tokens is one that no move allows there, or they end too early.
    Unexpected(&'a [Token]),
    NoMem,
}

impl<'a> From<NoMem> for Halt<'a> {
    ghost use Rattle.move_parser.specs.declared.cursor.Halt.TheVariants as halt;

    ghost from_gives = { λ _ e. e ≡ halt.NoMem };

    fn from(_error: NoMem) -> Halt<'a> {
        Halt::NoMem
    }
}

impl<'a, T: Drop> From<AllocFailed<T>> for Halt<'a> {
    ghost use Rattle.move_parser.specs.declared.cursor.Halt.TheVariants as halt;

    ghost from_gives = { λ _ e. e ≡ halt.NoMem };

    fn from(_error: AllocFailed<T>) -> Halt<'a> {
        Halt::NoMem
    }
}

/// The tokens that are still to be read.
#[derive(Drop)]
pub struct Cursor<'a> {
    rest: &'a [Token],
}

impl<'a> Model for Cursor<'a> {
    ghost use Rattle.std.specs.Prelude.{List};
    ghost use Rattle.coq_syntax.specs.declared.token.Token.{Token};

    ghost Value = { List Token };

    ghost view = { λ c. c.rest.now };
}

impl<'a> Cursor<'a> {
    pub fn new(rest: &'a [Token]) -> Cursor<'a>
        ensures { result ≡ rest.now }
    {
        Cursor { rest }
    }

    pub fn is_at_end(&self) -> bool
        ensures { Decides result (self.now ≡ []) }
    {
        self.rest.is_empty()
    }

    pub fn unexpected(&self) -> Halt<'a>
        ensures { IsHere self.now result }
    {
        Halt::Unexpected(self.rest)
    }

    /// The mark, where it stands next.
    pub fn mark(&mut self, mark: Mark) -> Option<TokenPlace>
        ensures { MayTake (written mark) self.old result self.new }
    {
        match self.rest {
            [first, rest @ ..] if mark.is(first) => {
                self.rest = rest;
                Some(place_of(first))
            }
            _ => None,
        }
    }

    /// The identifier that stands next.
    pub fn word(&mut self, alloc: Global) -> Result<Option<Word>, NoMem>
        ensures { IfOk result (λ w. MayTake identifier self.old w self.new) }
    {
        match self.rest {
            [first, rest @ ..] if first.kind == TokenKind::Identifier => {
                let word = word_of(alloc, first)?;
                self.rest = rest;
                Ok(Some(word))
            }
            _ => Ok(None),
        }
    }

    /// The identifier or `_` that stands next.
    pub fn name(&mut self, alloc: Global) -> Result<Option<BoundName>, NoMem>
        ensures { IfOk result (λ n. MayTake name self.old n self.new) }
    {
        match self.rest {
            [first, rest @ ..] if is_wildcard(first) => {
                self.rest = rest;
                Ok(Some(BoundName::Unnamed(place_of(first))))
            }
            _ => match self.word(alloc)? {
                Some(word) => Ok(Some(BoundName::Named(word))),
                None => Ok(None),
            },
        }
    }

    pub fn take(&mut self, mark: Mark) -> Result<TokenPlace, Halt<'a>>
        ensures { IsTaken (written mark) self.old result self.new }
    {
        match self.mark(mark) {
            Some(place) => Ok(place),
            None => Err(self.unexpected()),
        }
    }

    pub fn identifier(&mut self, alloc: Global) -> Result<Word, Halt<'a>>
        ensures { IsTaken identifier self.old result self.new }
    {
        match self.word(alloc)? {
            Some(word) => Ok(word),
            None => Err(self.unexpected()),
        }
    }

    #[tactic(auto, using(crate::proofs::Ending::end_refused))]
    pub fn end(&self) -> Result<(), Halt<'a>>
        ensures { IsPart IsEndOf no_fault (λ _. tt) self.now result }
    {
        if self.is_at_end() {
            Ok(())
        } else {
            Err(self.unexpected())
        }
    }
}

fn is_wildcard(token: &Token) -> bool
    ensures { result ≡ is_wildcard token.now }
{
    token.kind == TokenKind::Wildcard && token.text.as_str() == "_"
}
