//! Proof moves of a token list.

ghost use Rattle.std.specs.Prelude.{◌≡◌, ◌≤◌, ◌∷◌, length};
ghost use Rattle.coq_syntax.specs.Forms.{move_of};
ghost use Rattle.coq_syntax.specs.Grammar.{IsTermOf};
ghost use Rattle.coq_syntax.specs.Moves.{IsMoveOf, move_fault};
ghost use Rattle.coq_syntax.specs.Spelled as spelled;
ghost use Rattle.coq_syntax.specs.Meets.{fault_of_term};
ghost use Rattle.base_core.specs.Answers.{Gives};
ghost use Rattle.move_parser.specs.MoveWords.{text_of};
ghost use Rattle.move_parser.specs.Parts.{IsTail, IsDirection, term_place, IsBehindFirst, IsRewritingOf, fault_of_rewriting};
ghost use Rattle.coq_syntax.specs.Answers.{IsMoveParsed};
ghost use Rattle.move_parser.specs.Sentences.{read_move};
ghost use Rattle.move_parser.specs.MoveAnswers.{IsMoveWord, stop_of};

use crate::cursor::{Cursor, Halt};
use crate::mark::Mark;
use crate::move_word::{MoveWord, word_of_text};
use crate::rows::plain;
use base_core::refusal_codes::UNEXPECTED_TOKEN;
use base_core::{Refusal, Stop};
use coq_syntax::{
    Direction, MoveForm, MoveTree, SurfaceTerm, Token, TokenKind, TokenList, TokenPlace,
    next_place, place_of,
};
use std::alloc::Global;
use vernac_parser::parse_term;

fn stop_of(tokens: &TokenList, halt: Halt<'_>) -> Stop
    ensures { result ≡ stop_of tokens.now halt.entry }
{
    match halt {
        Halt::Unexpected(rest) => Stop::Refused(Refusal {
            code: UNEXPECTED_TOKEN,
            place: next_place(tokens, rest),
        }),
        Halt::NoMem => Stop::NoMem,
    }
}

/// The term that runs from a place of the list to its end.
fn last_term(alloc: Global, tokens: &TokenList, at: usize) -> Result<SurfaceTerm, Stop>
    requires { at ≤ length tokens.now.items }
    ensures { IsTail IsTermOf fault_of_term (λ t. t) tokens.now at result }
{
    let parsed = parse_term(alloc, tokens, at)?;
    match &tokens.as_slice()[parsed.next..] {
        [] => Ok(parsed.tree),
        rest => Err(stop_of(tokens, Halt::Unexpected(rest))),
    }
}

/// The arrow behind `rewrite`, where one stands there.
fn direction(tokens: &[Token]) -> Direction
    ensures { IsDirection tokens.now result }
{
    let mut cursor = Cursor::new(tokens);
    if let Some(place) = cursor.mark(Mark::Forward) {
        return Direction::Forward(place);
    }
    match cursor.mark(Mark::Backward) {
        Some(place) => Direction::Backward(place),
        None => Direction::Unmarked,
    }
}

/// Where the term of a rewriting begins in the token list.
fn term_place(direction: Direction) -> usize
    ensures { result ≡ term_place direction }
{
    match direction {
        Direction::Unmarked => 1,
        Direction::Forward(_) => 2,
        Direction::Backward(_) => 2,
    }
}

/// What stands behind `rewrite`, which these tokens are.
fn rewriting(
    alloc: Global,
    tokens: &TokenList,
    rest: &[Token],
) -> Result<(Direction, SurfaceTerm), Stop>
    requires { IsBehindFirst tokens.now.items rest.now }
    ensures { IsTail IsRewritingOf fault_of_rewriting (λ r. (r.0, r.1)) tokens.now 1 result }
{
    let direction = direction(rest);
    let term = last_term(alloc, tokens, term_place(direction))?;
    Ok((direction, term))
}

/// The move that this word begins, whose place this is, with these tokens behind it.
fn by_word(
    alloc: Global,
    tokens: &TokenList,
    word: MoveWord,
    keyword: TokenPlace,
    rest: &[Token],
) -> Result<MoveForm, Stop>
    requires { tokens.now.items ≡ spelled.keyword (text_of word) keyword ∷ rest.now }
    ensures { IsTail IsMoveOf move_fault move_of tokens.now 0 result }
{
    match word {
        MoveWord::Exact => {
            let term = last_term(alloc, tokens, 1)?;
            Ok(MoveForm::Exact { keyword, term })
        }
        MoveWord::Apply => {
            let term = last_term(alloc, tokens, 1)?;
            Ok(MoveForm::Apply { keyword, term })
        }
        MoveWord::Rewrite => {
            let (direction, term) = rewriting(alloc, tokens, rest)?;
            Ok(MoveForm::Rewrite {
                keyword,
                direction,
                term,
            })
        }
        MoveWord::Plain(word) => match plain(alloc, word, keyword, rest) {
            Ok(form) => Ok(form),
            Err(halt) => Err(stop_of(tokens, halt)),
        },
    }
}

/// The word of a move, where the token is one.
fn move_word(token: &Token) -> Option<MoveWord>
    ensures { IsMoveWord token.now result }
{
    if token.kind == TokenKind::Identifier {
        word_of_text(token.text.as_str())
    } else {
        None
    }
}

/// The move that the list is, which begins with this token, and then these.
fn parse_form(
    alloc: Global,
    tokens: &TokenList,
    first: &Token,
    rest: &[Token],
) -> Result<MoveForm, Stop>
    requires { tokens.now.items ≡ first.now ∷ rest.now }
    ensures { IsTail IsMoveOf move_fault move_of tokens.now 0 result }
{
    match move_word(first) {
        Some(word) => by_word(alloc, tokens, word, place_of(first), rest),
        None => Err(stop_of(tokens, Halt::Unexpected(tokens.as_slice()))),
    }
}

/// The proof move that the list is, whole.
pub fn parse_move(alloc: Global, tokens: &TokenList) -> Result<MoveTree, Stop>
    ensures parsed { IsMoveParsed tokens.now result }
    ensures value { Gives result (read_move tokens.now) }
{
    match tokens.as_slice() {
        [first, rest @ ..] => {
            let form = parse_form(alloc, tokens, first, rest)?;
            Ok(MoveTree::new(form))
        }
        [] => Err(stop_of(tokens, Halt::Unexpected(tokens.as_slice()))),
    }
}
