//! What the parsers make of a token: its place, its word, and where a refusal stands.

ghost use Rattle.std.specs.Prelude.{◌≡◌, IfOk};
ghost use Rattle.coq_syntax.specs.Answers.{next_place};
ghost use Rattle.coq_syntax.specs.Readings as spec;

use crate::{Token, TokenList, TokenPlace, Word};
use base_core::{NoMem, Place, Text};
use std::alloc::Global;

/// Where a token stands.
pub fn place_of(token: &Token) -> TokenPlace
    ensures { result ≡ spec.place_of token.now }
{
    TokenPlace {
        from: token.from,
        to: token.to,
    }
}

/// A token as the word that it is, with its text copied.
pub fn word_of(alloc: Global, token: &Token) -> Result<Word, NoMem>
    ensures { IfOk result (λ w. w ≡ spec.word_of token.now) }
{
    let text = Text::copy(alloc, token.text.as_str())?;
    Ok(Word {
        text,
        place: place_of(token),
    })
}

/// Where the first of the tokens that are left stands, or the period where none is left.
pub fn next_place(tokens: &TokenList, rest: &[Token]) -> Place
    ensures { result ≡ next_place tokens.now.period rest.now }
{
    match rest {
        [next, ..] => Place::Part {
            from: next.from,
            to: next.to,
        },
        [] => Place::Part {
            from: tokens.period(),
            to: tokens.period().saturating_add(1),
        },
    }
}
