//! Blanks, comments and tokens of a sentence, one after another.
ghost use Rattle.std.specs.Prelude.{◌≡◌, ◌==◌, ◌+◌, ◌^◌, ◌<◌, ◌≤◌, None, drop, length, slice_index, false, not};
ghost use Rattle.std.specs.List.{prefix_len};
ghost use Rattle.sentence_split.specs.Scan.{comment_end};
ghost use Rattle.coq_syntax.specs.Characters.{continues_word, is_digit};
ghost use Rattle.coq_syntax.specs.Scan.{quoted_piece, comment_piece, symbol_piece, first_piece, IsWithin, kind_of};

use crate::TokenKind;
use crate::characters::{
    begins_pair, continues_word, is_blank, is_digit, is_mark, is_reserved, is_wildcard, opens,
    starts_word,
};
use crate::comments::after_comment;

/// What a token looks like, before its words are told apart.
#[derive(Clone, Copy, Debug, PartialEq, Eq)]
pub enum Shape {
    Word,
    Digits,
    Sign,
    Literal,
    /// A character that begins nothing else.
    Single,
}

/// What begins at a character, and how many characters it has.
#[derive(Clone, Copy, Debug, PartialEq, Eq)]
pub enum Piece {
    /// A blank or a comment.
    Gap(usize),
    Lexeme(Shape, usize),
}

fn word_len(text: &[char]) -> usize
    ensures value { result ≡ prefix_len (λ d. continues_word d) text.now }
    ensures bound { result ≤ length text.now }
{
    text.iter().take_while(|c| continues_word(**c)).count()
}

fn digits_len(text: &[char]) -> usize
    ensures value { result ≡ prefix_len (λ d. is_digit d) text.now }
    ensures bound { result ≤ length text.now }
{
    text.iter().take_while(|c| is_digit(**c)).count()
}

/// How many characters stand before the next `"`.
fn unquoted_len(text: &[char]) -> usize
    ensures value { result ≡ prefix_len (λ c. not (c == 34)) text.now }
    ensures bound { result ≤ length text.now }
{
    text.iter().take_while(|c| **c != '"').count()
}

fn quoted_piece(rest: &[char]) -> Piece
    requires { length rest.now < 2 ^ 32 }
    ensures value { result ≡ quoted_piece rest.now }
    ensures within { IsWithin result (length rest.now + 1) }
{
    let len = unquoted_len(rest);
    if len < rest.len() {
        Piece::Lexeme(Shape::Literal, len + 2)
    } else {
        Piece::Lexeme(Shape::Single, 1)
    }
}

/// A comment, or where nothing closes it the symbol `(`.
fn comment_piece(text: &[char]) -> Piece
    requires some { 0 < length text.now }
    requires short { length text.now < 2 ^ 32 }
    ensures value { result ≡ comment_piece text.now (comment_end (drop 1 text.now)) }
    ensures within { IsWithin result (length text.now) }
{
    match after_comment(&text[1..]) {
        Some(len) => Piece::Gap(len + 1),
        None => Piece::Lexeme(Shape::Sign, 1),
    }
}

fn symbol_piece(first: char, rest: &[char]) -> Piece
    ensures value { result ≡ symbol_piece first rest.now }
    ensures within { IsWithin result (length rest.now + 1) }
{
    if begins_pair(first, rest) {
        return Piece::Lexeme(Shape::Sign, 2);
    }
    if is_mark(first) {
        return Piece::Lexeme(Shape::Sign, 1);
    }
    Piece::Lexeme(Shape::Single, 1)
}

/// What begins at the first character of a text. `closable` is false only where no comment that begins
/// there is closed.
pub fn first_piece(text: &[char], closable: bool) -> Piece
    requires some { 0 < length text.now }
    requires short { length text.now < 2 ^ 32 }
    requires known { closable ≡ false → comment_end (drop 1 text.now) ≡ None }
    ensures value { result ≡ first_piece (slice_index text.now 0) (drop 1 text.now) }
    ensures within { IsWithin result (length text.now) }
{
    let first = text[0];
    let rest = &text[1..];
    if is_blank(first) {
        return Piece::Gap(1);
    }
    if starts_word(first) {
        return Piece::Lexeme(Shape::Word, 1 + word_len(rest));
    }
    if is_digit(first) {
        return Piece::Lexeme(Shape::Digits, 1 + digits_len(rest));
    }
    if first == '"' {
        return quoted_piece(rest);
    }
    if opens(first, rest) {
        if closable {
            return comment_piece(text);
        }
        return Piece::Lexeme(Shape::Sign, 1);
    }
    symbol_piece(first, rest)
}

/// The kind of a token of this shape and text.
pub fn kind_of(shape: Shape, text: &str) -> TokenKind
    ensures { result ≡ kind_of shape text.now }
{
    match shape {
        Shape::Word if is_wildcard(text) => TokenKind::Wildcard,
        Shape::Word if is_reserved(text) => TokenKind::Reserved,
        Shape::Word => TokenKind::Identifier,
        Shape::Digits => TokenKind::Number,
        Shape::Sign => TokenKind::Symbol,
        Shape::Literal => TokenKind::Quoted,
        Shape::Single => TokenKind::Other,
    }
}
