//! Sentences and gaps, one after another.
ghost use Rattle.std.specs.Prelude.{◌≡◌, ◌==◌, ◌+◌, ◌-◌, ◌^◌, ◌<◌, ◌≤◌, Some, None, drop, length, slice_index};
ghost use Rattle.std.specs.List.{prefix_len};
ghost use Rattle.sentence_split.specs.Sentences.{plain_piece, comment_piece, first_piece};
ghost use Rattle.sentence_split.specs.Scan.{sentence_end, comment_end};
ghost use Rattle.sentence_split.specs.Pieces.{IsWithin};

use crate::bytes::{is_blank, is_bullet, opens};
use crate::scan::{after_comment, after_period};
use base_core::Kind;

/// What begins at a byte of a text, with its length in bytes.
#[derive(Clone, Copy, Debug, PartialEq, Eq)]
pub enum Piece {
    /// A blank, or a comment between sentences.
    Gap(usize),
    Sentence(Kind, usize),
}

/// How often a byte stands at the front of a text.
fn run_len(byte: u8, text: &[u8]) -> usize
    ensures value { result ≡ prefix_len (λ c. c == byte) text.now }
    ensures bound { result ≤ length text.now }
{
    text.iter().take_while(|c| **c == byte).count()
}

/// A sentence that is neither bullet nor brace.
fn plain_piece(text: &[u8]) -> Piece
    requires some { 0 < length text.now }
    requires short { length text.now < 2 ^ 32 }
    ensures value { result ≡ plain_piece text.now (sentence_end text.now) }
    ensures within { IsWithin result (length text.now) }
{
    match after_period(text) {
        Some(len) => Piece::Sentence(Kind::Plain, len),
        None => Piece::Sentence(Kind::Unfinished, text.len()),
    }
}

/// A comment, or where it isn't closed the sentence that begins at it.
fn comment_piece(text: &[u8]) -> Piece
    requires some { 0 < length text.now }
    requires short { length text.now < 2 ^ 32 }
    ensures value { result ≡ comment_piece text.now (comment_end (drop 1 text.now)) }
    ensures within { IsWithin result (length text.now) }
{
    match after_comment(&text[1..]) {
        Some(len) => Piece::Gap(len + 1),
        None => plain_piece(text),
    }
}

/// What begins at the first byte of a text.
pub fn first_piece(text: &[u8]) -> Piece
    requires some { 0 < length text.now }
    requires short { length text.now < 2 ^ 32 }
    ensures value { result ≡ first_piece (slice_index text.now 0) (drop 1 text.now) }
    ensures within { IsWithin result (length text.now) }
{
    let first = text[0];
    let rest = &text[1..];
    if is_blank(first) {
        return Piece::Gap(1);
    }
    if is_bullet(first) {
        return Piece::Sentence(Kind::Bullet, 1 + run_len(first, rest));
    }
    match first {
        b'{' => Piece::Sentence(Kind::BraceOpen, 1),
        b'}' => Piece::Sentence(Kind::BraceClose, 1),
        _ if opens(first, rest) => comment_piece(text),
        _ => plain_piece(text),
    }
}
