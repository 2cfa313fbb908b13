//! Terms in a short notation. A digit is a variable, a small letter the global at its place; `P` and `S`
//! are the sorts of propositions and of small types, `T` that of level 1, `L` that of the last level.
//! Behind its parts stand `@` for an application, `>` for a product, `!` for a function, and `=` for a
//! let, whose type, value and body these are.
use crate::faults::Fault;
use base_core::{NoMem, Text};
use core_term::{Node, Sort, Term};
use std::alloc::{AllocError, Global};

/// The greatest level of a sort.
const LAST_LEVEL: u16 = 1000;

/// The term that a text spells.
pub fn term(alloc: Global, text: &str) -> Result<Term, Fault> {
    let mut parts = Vec::new(alloc);
    for sign in text.as_bytes() {
        let part = leaf_or_node(alloc, *sign, &mut parts)?;
        parts.push(part)?;
    }
    last(&mut parts)
}

fn leaf_or_node(alloc: Global, sign: u8, parts: &mut Vec<Term>) -> Result<Term, Fault> {
    match sign {
        b'0'..=b'9' => Ok(Term::var(alloc, u32::from(sign - b'0'))?),
        b'a'..=b'z' => Ok(Term::constant(alloc, u32::from(sign - b'a'))?),
        b'P' => Ok(Term::sort(alloc, Sort::PropSort)?),
        b'S' => Ok(Term::sort(alloc, Sort::SetSort)?),
        b'T' => Ok(Term::sort(alloc, Sort::TypeSort(1))?),
        b'L' => Ok(Term::sort(alloc, Sort::TypeSort(LAST_LEVEL))?),
        _ => node(alloc, sign, parts),
    }
}

fn node(alloc: Global, sign: u8, parts: &mut Vec<Term>) -> Result<Term, Fault> {
    let second = last(parts)?;
    let first = last(parts)?;
    match sign {
        b'@' => Ok(Term::app(alloc, first, second)?),
        b'>' => Ok(Term::prod(alloc, Text::copy(alloc, "x")?, first, second)?),
        b'!' => Ok(Term::lam(alloc, Text::copy(alloc, "x")?, first, second)?),
        b'=' => {
            let ty = last(parts)?;
            Ok(Term::let_in(alloc, Text::copy(alloc, "x")?, ty, first, second)?)
        }
        _ => Err(Fault::NoTerm),
    }
}

fn last(parts: &mut Vec<Term>) -> Result<Term, Fault> {
    match parts.pop() {
        Some(term) => Ok(term),
        None => Err(Fault::NoTerm),
    }
}

/// Adds a term in the notation. A global past the last letter is `#` with its place, a sort of another
/// level `T` with its level.
pub fn add_term(text: &mut String, t: &Term) -> Result<(), AllocError> {
    match t.node() {
        Node::Var(i) => write!(text, "{i}"),
        Node::Sorted(sort) => add_sort(text, *sort),
        Node::Constant(place) => add_place(text, *place),
        Node::Prod {
            domain,
            codomain,
            ..
        } => {
            add_term(text, domain)?;
            add_term(text, codomain)?;
            text.push('>')
        }
        Node::Lam { domain, body, .. } => {
            add_term(text, domain)?;
            add_term(text, body)?;
            text.push('!')
        }
        Node::LetIn {
            ty,
            value,
            body,
            ..
        } => {
            add_term(text, ty)?;
            add_term(text, value)?;
            add_term(text, body)?;
            text.push('=')
        }
        Node::App { function, argument } => {
            add_term(text, function)?;
            add_term(text, argument)?;
            text.push('@')
        }
    }
}

fn add_sort(text: &mut String, sort: Sort) -> Result<(), AllocError> {
    match sort {
        Sort::PropSort => write!(text, "P"),
        Sort::SetSort => write!(text, "S"),
        Sort::TypeSort(1) => write!(text, "T"),
        Sort::TypeSort(level) => write!(text, "T{level}"),
    }
}

fn add_place(text: &mut String, place: u32) -> Result<(), AllocError> {
    match char::from_digit(place.saturating_add(10), 36) {
        Some(letter) => write!(text, "{letter}"),
        None => write!(text, "#{place}"),
    }
}
