//! The rows: a verb and its words.
use crate::faults::Fault;
use crate::globals::{admit, assume, define};
use crate::judgements::{compare, infer, reduce};
use crate::notation::term;
use cic_rules::{GlobalEnv, Mode};
use std::alloc::Global;

fn number(word: &str) -> Result<u32, Fault> {
    match word.parse::<u32>() {
        Ok(number) => Ok(number),
        Err(_) => Err(Fault::NoRow),
    }
}

/// Rows that change the environment, by a name and a term.
fn declared(
    alloc: Global,
    env: &mut GlobalEnv,
    verb: &str,
    name: &str,
    text: &str,
) -> Result<String, Fault> {
    if verb == "assume" {
        assume(alloc, env, name, text)
    } else if verb == "admit" {
        admit(alloc, env, name, text)
    } else if verb == "define" {
        define(alloc, env, name, None, text, false)
    } else if verb == "opaque" {
        define(alloc, env, name, None, text, true)
    } else {
        Err(Fault::NoRow)
    }
}

/// Rows with so many units and one term.
fn judged(
    alloc: Global,
    env: &GlobalEnv,
    verb: &str,
    units: u32,
    text: &str,
) -> Result<String, Fault> {
    if verb == "whnf" {
        reduce(alloc, env, units, text, true)
    } else if verb == "head" {
        reduce(alloc, env, units, text, false)
    } else {
        infer(alloc, env, units, text)
    }
}

/// Rows with two words behind the verb.
fn with_two(
    alloc: Global,
    env: &mut GlobalEnv,
    verb: &str,
    first: &str,
    second: &str,
) -> Result<String, Fault> {
    if verb == "whnf" || verb == "head" || verb == "infer" {
        judged(alloc, env, verb, number(first)?, second)
    } else {
        declared(alloc, env, verb, first, second)
    }
}

/// Rows with three words behind the verb.
fn with_three(
    alloc: Global,
    env: &mut GlobalEnv,
    verb: &str,
    first: &str,
    second: &str,
    third: &str,
) -> Result<String, Fault> {
    if verb == "same" {
        compare(alloc, env, number(first)?, second, third, Mode::Same)
    } else if verb == "below" {
        compare(alloc, env, number(first)?, second, third, Mode::Below)
    } else if verb == "typed" {
        let ty = term(alloc, second)?;
        define(alloc, env, first, Some(ty), third, false)
    } else {
        Err(Fault::NoRow)
    }
}

/// What is told of a row, whose words stand between blanks.
pub fn answer(alloc: Global, env: &mut GlobalEnv, row: &str) -> Result<String, Fault> {
    let mut words = row.split_whitespace();
    let Some(verb) = words.next() else {
        return Err(Fault::Blank);
    };
    if verb == "--" {
        return Err(Fault::Blank);
    }
    if verb == "begin" {
        *env = GlobalEnv::empty();
        return Ok(String::from_str(alloc, "nothing")?);
    }
    let (Some(first), Some(second)) = (words.next(), words.next()) else {
        return Err(Fault::NoRow);
    };
    match words.next() {
        Some(third) => with_three(alloc, env, verb, first, second, third),
        None => with_two(alloc, env, verb, first, second),
    }
}
