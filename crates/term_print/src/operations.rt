//! Which globals are operators, by their names and their arguments.
ghost use Rattle.std.specs.Prelude.{◌≡◌, ◌∷◌, IfOk};
ghost use Rattle.core_term.specs.Tree.{App};
ghost use Rattle.term_print.specs.Operations.{operation_of, spine_level};
ghost use Rattle.term_print.specs.Show.{global_name};

use base_core::{NoMem, Text};
use cic_rules::GlobalEnv;
use core_term::{Node, Term};
use std::alloc::Global;
use term_spine::{Arguments, Spine};

/// What a global makes of its arguments: an operation with its operands, or nothing but an
/// application.
#[derive(Drop)]
pub enum Operation {
    Plain,
    Negation(Term),
    Conjunction(Term, Term),
    Disjunction(Term, Term),
    Equation(Term, Term),
}

/// The operation of a global with exactly these arguments.
pub fn operation_of(name: &Text, args: &Arguments) -> Result<Operation, NoMem>
    ensures { IfOk result (λ o. o ≡ operation_of name.now args.now) }
{
    match args.split()? {
        None => Ok(Operation::Plain),
        Some((first, rest)) => operation_of_some(name, first, &rest),
    }
}

fn operation_of_some(name: &Text, first: Term, rest: &Arguments) -> Result<Operation, NoMem>
    ensures { IfOk result (λ o. o ≡ operation_of name.now (first ∷ rest.now)) }
{
    match rest.split()? {
        Some((second, rest)) => operation_of_more(name, first, second, &rest),
        None => {
            if name.as_str() == "not" {
                Ok(Operation::Negation(first))
            } else {
                Ok(Operation::Plain)
            }
        }
    }
}

fn operation_of_more(
    name: &Text,
    first: Term,
    second: Term,
    rest: &Arguments,
) -> Result<Operation, NoMem>
    ensures { IfOk result (λ o. o ≡ operation_of name.now (first ∷ second ∷ rest.now)) }
{
    match rest.split()? {
        Some((third, rest)) => operation_of_three(name, first, second, third, &rest),
        None => {
            if name.as_str() == "and" {
                Ok(Operation::Conjunction(first, second))
            } else if name.as_str() == "or" {
                Ok(Operation::Disjunction(first, second))
            } else {
                Ok(Operation::Plain)
            }
        }
    }
}

fn operation_of_three(
    name: &Text,
    first: Term,
    second: Term,
    third: Term,
    rest: &Arguments,
) -> Result<Operation, NoMem>
    ensures { IfOk result (λ o. o ≡ operation_of name.now (first ∷ second ∷ third ∷ rest.now)) }
{
    match rest.split()? {
        Some(_) => Ok(Operation::Plain),
        None => {
            if name.as_str() == "eq" {
                Ok(Operation::Equation(second, third))
            } else {
                Ok(Operation::Plain)
            }
        }
    }
}

/// The name of a global.
pub fn global_name(alloc: Global, env: &GlobalEnv, place: u32) -> Result<Text, NoMem>
    ensures { IfOk result (λ name. name ≡ global_name env.now place) }
{
    match env.get(place) {
        Some(entry) => entry.name.share(),
        None => Text::copy(alloc, ""),
    }
}
