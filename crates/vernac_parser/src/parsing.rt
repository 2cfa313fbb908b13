//! Terms and commands of a token list.

ghost use Rattle.std.specs.Prelude.{◌≡◌, ◌≤◌, ◌-◌, length, drop};
ghost use Rattle.coq_syntax.specs.Answers.{IsCommandParsed, next_place};
ghost use Rattle.base_core.specs.Answers.{Gives};
ghost use Rattle.vernac_parser.specs.Answers.{IsParsed, read_term};
ghost use Rattle.vernac_parser.specs.ParseCommand.{read_command};
ghost use Rattle.vernac_parser.specs.Halts.{IsWithin, stop_of};

use crate::cursor::{Halt, Tokens};
use crate::grammar::{Grammar, MOST_NESTED, nested};
use crate::rule::Rule;
use base_core::{Place, Refusal, Stop};
use coq_syntax::{Command, SurfaceTerm, TokenList, next_place};
use std::alloc::Global;

/// A term, and the first place of the token list that no longer belongs to it.
#[derive(Drop)]
pub struct Parsed {
    pub tree: SurfaceTerm,
    pub next: usize,
}

/// Where the first of the last so many tokens stands; for none of them it is the period.
fn place_of(tokens: &TokenList, left: usize) -> Place
    requires { left ≤ length tokens.now.items }
    ensures { result ≡ next_place tokens.now.period (drop (length tokens.now.items - left) tokens.now.items) }
{
    let items = tokens.as_slice();
    next_place(tokens, &items[items.len() - left..])
}

fn stop_of(tokens: &TokenList, halt: Halt) -> Stop
    requires { IsWithin halt (length tokens.now.items) }
    ensures { result ≡ stop_of tokens.now halt }
{
    match halt {
        Halt::Refused { code, left } => Stop::Refused(Refusal {
            code,
            place: place_of(tokens, left),
        }),
        Halt::NoMem => Stop::NoMem,
    }
}

/// The term at a place of the list, read up to the first token with which no term begins. It is
/// refused there where the tokens before that one are no term. The time is linear in the tokens from there.
pub fn parse_term(alloc: Global, tokens: &TokenList, at: usize) -> Result<Parsed, Stop>
    requires { at ≤ length tokens.now.items }
    ensures parsed { IsParsed tokens.now at result }
    ensures value { Gives result (read_term tokens.now at) }
{
    let items = tokens.as_slice();
    let mut rest = Tokens::new(&items[at..]);
    match nested(alloc, &mut rest, MOST_NESTED, Rule::Whole) {
        Ok(tree) => Ok(Parsed {
            tree,
            next: items.len() - rest.left(),
        }),
        Err(halt) => Err(stop_of(tokens, halt)),
    }
}

/// The command that the list is, whole. The time is linear in the tokens.
pub fn parse_command(alloc: Global, tokens: &TokenList) -> Result<Command, Stop>
    ensures parsed { IsCommandParsed tokens.now result }
    ensures value { Gives result (read_command tokens.now) }
{
    let grammar = Grammar {
        alloc,
        limit: MOST_NESTED,
        nested,
    };
    let mut rest = Tokens::new(tokens.as_slice());
    match grammar.command(&mut rest) {
        Ok(command) => Ok(command),
        Err(halt) => Err(stop_of(tokens, halt)),
    }
}
