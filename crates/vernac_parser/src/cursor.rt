//! A cursor over the tokens of a sentence, and the steps that every rule is made of.

ghost use Rattle.std.specs.Prelude.{◌≡◌, length};
ghost use Rattle.vernac_parser.specs.Signs.{is_sign, sign_at};
ghost use Rattle.vernac_parser.specs.Parser as spec;
ghost use Rattle.vernac_parser.specs.Parse.{assigns};
ghost use Rattle.coq_syntax.specs.CommandWords.{word_at};
ghost use Rattle.vernac_parser.specs.ParseCommand.{ended};
ghost use Rattle.vernac_parser.specs.Numbers as number;
ghost use Rattle.vernac_parser.specs.Reads.{Reads, ReadsAs};

use crate::number::NumberUse;
use crate::sign;
use crate::sign::Sign;
use base_core::NoMem;
use base_core::refusal_codes::UNEXPECTED_TOKEN;
use coq_syntax::{CommandWord, Token, TokenPlace, Word, command_word, place_of, word_of};
use std::alloc::{AllocFailed, Global};
use std::marker::Model;

/// Why no tree was read.
#[derive(Clone, Copy, PartialEq, Eq)]
pub enum Halt {
    Refused {
        code: u16,
        /// How many tokens there are from its place on.
        left: usize,
    },
    NoMem,
}

impl From<NoMem> for Halt {
    ghost use Rattle.vernac_parser.specs.declared.cursor.Halt.TheVariants as halt;

    ghost from_gives = { λ _ e. e ≡ halt.NoMem };

    fn from(_error: NoMem) -> Halt {
        Halt::NoMem
    }
}

impl<T: Drop> From<AllocFailed<T>> for Halt {
    ghost use Rattle.vernac_parser.specs.declared.cursor.Halt.TheVariants as halt;

    ghost from_gives = { λ _ e. e ≡ halt.NoMem };

    fn from(_error: AllocFailed<T>) -> Halt {
        Halt::NoMem
    }
}

/// The tokens that are still to be read.
#[derive(Drop)]
pub struct Tokens<'a> {
    rest: &'a [Token],
    /// What the next token is.
    sign: Sign,
}

impl<'a> Model for Tokens<'a> {
    ghost use Rattle.std.specs.Prelude.{◌≡◌, List};
    ghost use Rattle.coq_syntax.specs.declared.token.Token.{Token};

    ghost Value = { List Token };

    ghost view = { λ t. t.rest.now };

    ghost use Rattle.vernac_parser.specs.Signs.{sign_at};

    ghost invariant = { λ t. t.sign ≡ sign_at t.rest.now };
}

impl<'a> Tokens<'a> {
    pub fn new(rest: &'a [Token]) -> Tokens<'a>
        ensures { result ≡ rest.now }
    {
        Tokens {
            rest,
            sign: sign::sign_at(rest),
        }
    }

    /// How many there are.
    pub fn left(&self) -> usize
        ensures { result ≡ length self.now }
    {
        self.rest.len()
    }

    pub fn sign(&self) -> Sign
        ensures { result ≡ sign_at self.now }
    {
        self.sign
    }

    pub fn sees(&self, sign: Sign) -> bool
        ensures { result ≡ is_sign (sign_at self.now) sign }
    {
        sign::is_sign(self.sign, sign)
    }

    /// The refusal by this number at the next token.
    pub fn refuse_as(&self, code: u16) -> Halt
        ensures { result ≡ Halt.Refused code (length self.now) }
    {
        Halt::Refused {
            code,
            left: self.rest.len(),
        }
    }

    /// The refusal of the next token, or of an early end.
    pub fn refuse(&self) -> Halt
        ensures { result ≡ Halt.Refused spec.unexpected (length self.now) }
    {
        self.refuse_as(UNEXPECTED_TOKEN)
    }

    /// Takes the next token, which has to be this one.
    pub fn take(&mut self, sign: Sign) -> Result<TokenPlace, Halt>
        ensures { Reads (spec.take sign self.old) result self.new }
    {
        match self.rest {
            [first, rest @ ..] if sign::is_sign(self.sign, sign) => {
                self.rest = rest;
                self.sign = sign::sign_at(rest);
                Ok(place_of(first))
            }
            _ => Err(self.refuse()),
        }
    }

    fn word(&mut self, alloc: Global, sign: Sign) -> Result<Word, Halt>
        ensures { Reads (spec.taken spec.word_of sign self.old) result self.new }
    {
        match self.rest {
            [first, rest @ ..] if sign::is_sign(self.sign, sign) => {
                let word = word_of(alloc, first)?;
                self.rest = rest;
                self.sign = sign::sign_at(rest);
                Ok(word)
            }
            _ => Err(self.refuse()),
        }
    }

    pub fn identifier(&mut self, alloc: Global) -> Result<Word, Halt>
        ensures { Reads (spec.identifier self.old) result self.new }
    {
        self.word(alloc, Sign::Identifier)
    }

    pub fn number(&mut self, alloc: Global, used: NumberUse) -> Result<Word, Halt>
        ensures { Reads (spec.number (number.is_out used) (number.refusal used) self.old) result self.new }
    {
        match self.rest {
            [first, rest @ ..] if sign::is_sign(self.sign, Sign::Number) => {
                if used.is_out(first.text.as_str()) {
                    return Err(self.refuse_as(used.refusal()));
                }
                let word = word_of(alloc, first)?;
                self.rest = rest;
                self.sign = sign::sign_at(rest);
                Ok(word)
            }
            _ => Err(self.refuse()),
        }
    }

    /// Whether an identifier and `:=` stand next.
    pub fn assigns(&self) -> bool
        ensures { result ≡ assigns self.now }
    {
        match self.rest {
            [_, rest @ ..] => {
                sign::is_sign(self.sign, Sign::Identifier)
                    && sign::is_sign(sign::sign_at(rest), Sign::Assign)
            }
            [] => false,
        }
    }

    /// The command's word that stands next.
    pub fn command_word(&self) -> Option<CommandWord>
        ensures { result ≡ word_at self.now }
    {
        command_word(self.rest)
    }

    /// The end, where no token is left.
    pub fn end(&self) -> Result<(), Halt>
        ensures { ReadsAs (λ _. tt) (ended self.now) result self.now }
    {
        match self.rest {
            [] => Ok(()),
            _ => Err(self.refuse()),
        }
    }
}
