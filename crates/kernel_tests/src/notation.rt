//! Terms in a short notation, for rows of cases. A digit is a variable, a small letter the global
//! at its place, `P` and `S` are the sorts of propositions and of small types. Behind its parts
//! stand `@` for an application, `>` for a product, `!` for a function and `=` for a let.
use base_core::Text;
use core_term::{Sort, Term, TermStop};
use std::alloc::Global;
use std::test::Fail;

/// The term that a text spells.
pub(crate) fn term(alloc: Global, text: &str) -> Result<Term, Fail> {
    let mut parts = Vec::new(alloc);
    for sign in text.as_bytes() {
        let part = leaf_or_node(alloc, *sign, &mut parts)?;
        parts.push(part)?;
    }
    last(&mut parts)
}

fn leaf_or_node(alloc: Global, sign: u8, parts: &mut Vec<Term>) -> Result<Term, Fail> {
    match sign {
        b'0'..=b'9' => Ok(Term::var(alloc, u32::from(sign - b'0'))?),
        b'a'..=b'z' => Ok(Term::constant(alloc, u32::from(sign - b'a'))?),
        b'P' => Ok(Term::sort(alloc, Sort::PropSort)?),
        b'S' => Ok(Term::sort(alloc, Sort::SetSort)?),
        _ => node(alloc, sign, parts),
    }
}

fn node(alloc: Global, sign: u8, parts: &mut Vec<Term>) -> Result<Term, Fail> {
    let second = last(parts)?;
    let first = last(parts)?;
    match sign {
        b'@' => Ok(Term::app(alloc, first, second)?),
        b'>' => Ok(Term::prod(alloc, Text::copy(alloc, "x")?, first, second)?),
        b'!' => Ok(Term::lam(alloc, Text::copy(alloc, "x")?, first, second)?),
        _ => {
            let ty = last(parts)?;
            Ok(Term::let_in(alloc, Text::copy(alloc, "x")?, ty, first, second)?)
        }
    }
}

fn last(parts: &mut Vec<Term>) -> Result<Term, Fail> {
    match parts.pop() {
        Some(term) => Ok(term),
        None => Err(Fail::from("a part is missing")),
    }
}

/// The variable 1 applied so often to the variable 0.
pub(crate) fn applied(alloc: Global, count: u32) -> Result<Term, TermStop> {
    let mut whole = Term::var(alloc, 1)?;
    for _ in 0..count {
        let argument = Term::var(alloc, 0)?;
        whole = Term::app(alloc, whole, argument)?;
    }
    Ok(whole)
}
