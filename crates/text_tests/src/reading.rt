//! What the parsers answer to a sentence, as a row tells it.

use crate::rows;
use base_core::{NoMem, Place, Stop};
use coq_syntax::{TokenList, tokens};
use move_parser::parse_move;
use std::alloc::Global;
use vernac_parser::{parse_command, parse_term};

/// A row has at most so many bytes.
const MOST_BYTES: usize = 10000;

/// The tokens of a body and a period.
pub fn tokens_of(alloc: Global, body: &str) -> Result<TokenList, NoMem> {
    if body.len() > MOST_BYTES {
        return Err(NoMem);
    }
    let mut sentence = String::from_str(alloc, body)?;
    sentence.push('.')?;
    tokens(alloc, sentence.as_str())
}

/// A refusal by its number, and the bytes at which it stands.
fn refused(alloc: Global, stop: Stop) -> Result<String, NoMem> {
    let Stop::Refused(refusal) = stop else {
        return Err(NoMem);
    };
    let Place::Part { from, to } = refusal.place else {
        return Err(NoMem);
    };
    let code = refusal.code;
    Ok(format!(in alloc; "{code} at {from} to {to}")?)
}

/// The command, or the refusal.
pub fn command(alloc: Global, body: &str) -> Result<String, NoMem> {
    let list = tokens_of(alloc, body)?;
    match parse_command(alloc, &list) {
        Ok(command) => rows::command(alloc, &command),
        Err(stop) => refused(alloc, stop),
    }
}

/// The move, or the refusal.
pub fn proof_move(alloc: Global, body: &str) -> Result<String, NoMem> {
    let list = tokens_of(alloc, body)?;
    match parse_move(alloc, &list) {
        Ok(tree) => rows::proof_move(alloc, &tree),
        Err(stop) => refused(alloc, stop),
    }
}

/// The term at a place of the list and the place behind it, or the refusal.
pub fn term(alloc: Global, body: &str, at: usize) -> Result<String, NoMem> {
    let list = tokens_of(alloc, body)?;
    if at > list.as_slice().len() {
        return Err(NoMem);
    }
    match parse_term(alloc, &list, at) {
        Ok(parsed) => {
            let next = parsed.next;
            let row = rows::term(alloc, &parsed.tree)?;
            Ok(format!(in alloc; "{row} {next}")?)
        }
        Err(stop) => refused(alloc, stop),
    }
}
