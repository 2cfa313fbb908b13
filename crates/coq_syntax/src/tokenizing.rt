//! From a sentence to its tokens.
ghost use Rattle.std.specs.Prelude.{◌≡◌, ◌^◌, ◌<◌, length, IfOk, encode_utf8_all};
ghost use Rattle.std.specs.Str.{chars};
ghost use Rattle.base_core.specs.Fit.{EndsInPeriod};
ghost use Rattle.coq_syntax.specs.Pieces.{AreTokensOf, IsTokenList};
ghost use Rattle.coq_syntax.specs.SentenceTokens.{sentence_tokens};
ghost use Rattle.coq_syntax.specs.TokenPlaces.{ArePlaced};

use crate::pieces::{Piece, first_piece, kind_of};
use crate::rooms::closing_marks;
use crate::{Token, TokenList};
use base_core::{NoMem, Text};
use std::alloc::Global;

fn characters(alloc: Global, text: &str) -> Result<Vec<char>, NoMem>
    ensures { IfOk result (λ v. v.items ≡ chars text.now) }
{
    let characters = text.chars().collect(alloc)?;
    Ok(characters)
}

fn text_of(alloc: Global, characters: &[char]) -> Result<Text, NoMem>
    ensures { IfOk result (λ t. t ≡ encode_utf8_all characters.now) }
{
    let mut text = String::new(alloc);
    for character in characters {
        text.push(*character)?;
    }
    Text::from_string(alloc, text)
}

/// How many bytes the characters have.
fn bytes_of(characters: &[char]) -> usize
    requires { length (encode_utf8_all characters.now) < 2 ^ 32 }
    ensures { result ≡ length (encode_utf8_all characters.now) }
{
    let mut bytes = 0;
    for character in characters {
        bytes += character.len_utf8();
    }
    bytes
}

/// The tokens of the characters before a sentence's period.
fn pieces_tokens(alloc: Global, body: &[char]) -> Result<Vec<Token>, NoMem>
    requires { length (encode_utf8_all body.now) < 2 ^ 32 }
    ensures { IfOk result (λ items. AreTokensOf body.now items.items) }
{
    let marks = closing_marks(alloc, body)?;
    let mut items = Vec::new(alloc);
    let mut at = 0;
    let mut from = 0;
    while at < body.len() {
        match first_piece(&body[at..], marks[at]) {
            Piece::Gap(len) => {
                from += bytes_of(&body[at..at + len]);
                at += len;
            }
            Piece::Lexeme(shape, len) => {
                let text = text_of(alloc, &body[at..at + len])?;
                let to = from + text.as_str().len();
                let kind = kind_of(shape, text.as_str());
                items.push(Token {
                    kind,
                    text,
                    from: from as u32,
                    to: to as u32,
                })?;
                from = to;
                at += len;
            }
        }
    }
    Ok(items)
}

/// The tokens of a sentence. A `"` that nothing closes is a single character, and the `(` of a comment
/// that nothing closes a symbol. The time is linear in the text.
pub fn tokens(alloc: Global, sentence: &str) -> Result<TokenList, NoMem>
    requires ended { EndsInPeriod sentence.now }
    requires short { length sentence.now < 2 ^ 32 }
    ensures list { IfOk result (IsTokenList sentence.now) }
    ensures value { IfOk result (λ list. list ≡ sentence_tokens sentence.now) }
    ensures places { IfOk result (ArePlaced sentence.now) }
{
    let period = sentence.len() - 1;
    let body = characters(alloc, &sentence[..period])?;
    let items = pieces_tokens(alloc, body.as_slice())?;
    Ok(TokenList::new(items, period as u32))
}
