//! Rows that ask for a judgement, and what is told of it.
ghost use Rattle.std.specs.Prelude.{◌≡◌, ◌+◌, ◌^◌, ◌<◌, length, true, IfOk};
ghost use Rattle.core_term.specs.Tree.{depth_of};
ghost use Rattle.cic_rules.specs.Scopes.{IsScoped};

use crate::faults::Fault;
use crate::notation::{add_term, term};
use base_core::{Limit, Stop};
use cic_kernel::Kernel;
use cic_rules::{Answer, Context, Fuel, GlobalEnv, Inferred, Judge, Mode};
use core_term::{Node, Term};
use std::alloc::{AllocError, Global};

/// Whether a term speaks of so many variables and globals alone.
fn is_scoped(t: &Term, vars: u32, globals: u32) -> bool
    requires { vars + depth_of t.now < 2 ^ 32 }
    ensures { result ≡ true → IsScoped vars globals t.now }
{
    match t.node() {
        Node::Var(i) => *i < vars,
        Node::Sorted(_) => true,
        Node::Constant(c) => *c < globals,
        Node::Prod {
            domain,
            codomain,
            ..
        } => is_scoped(domain, vars, globals) && is_scoped(codomain, vars + 1, globals),
        Node::Lam { domain, body, .. } => {
            is_scoped(domain, vars, globals) && is_scoped(body, vars + 1, globals)
        }
        Node::LetIn {
            ty,
            value,
            body,
            ..
        } => {
            is_scoped(ty, vars, globals)
                && is_scoped(value, vars, globals)
                && is_scoped(body, vars + 1, globals)
        }
        Node::App { function, argument } => {
            is_scoped(function, vars, globals) && is_scoped(argument, vars, globals)
        }
    }
}

/// The term that a text spells, where it speaks of the environment's globals alone.
fn closed_term(alloc: Global, env: &GlobalEnv, text: &str) -> Result<Term, Fault>
    ensures { IfOk result (λ t. IsScoped 0 (length env.now) t) }
{
    let t = term(alloc, text)?;
    let globals = env.len();
    let _depth = t.depth();
    if is_scoped(&t, 0, globals) {
        Ok(t)
    } else {
        Err(Fault::OutOfScope)
    }
}

fn limit_word(limit: Limit) -> &'static str {
    match limit {
        Limit::StepLimit => "out of units",
        Limit::DepthLimit => "too deep",
        Limit::SizeLimit => "too large",
    }
}

/// Why there is no answer: the number of a refusal, or the limit.
pub fn add_stop(told: &mut String, stop: Stop) -> Result<(), Fault> {
    match stop {
        Stop::Refused(refusal) => {
            let code = refusal.code;
            Ok(write!(told, "refused {code}")?)
        }
        Stop::Out(limit) => {
            let word = limit_word(limit);
            Ok(write!(told, "{word}")?)
        }
        Stop::NoMem => Err(Fault::NoMem),
    }
}

/// The units that were spent.
pub fn add_units(told: &mut String, fuel: &Fuel) -> Result<(), AllocError> {
    let units = fuel.spent();
    write!(told, ", {units} units")
}

/// The term by weak head reduction.
pub fn reduce(
    alloc: Global,
    env: &GlobalEnv,
    units: u32,
    text: &str,
    delta: bool,
) -> Result<String, Fault> {
    let t = closed_term(alloc, env, text)?;
    let mut fuel = Fuel::new(units);
    let mut told = String::new(alloc);
    match conversion::whnf(alloc, env, &Context::empty(), &t, delta, &mut fuel) {
        Ok(reduced) => add_term(&mut told, &reduced)?,
        Err(stop) => add_stop(&mut told, stop)?,
    }
    add_units(&mut told, &fuel)?;
    Ok(told)
}

/// A type and the places of the globals that were used.
fn add_type(told: &mut String, found: &Inferred) -> Result<(), AllocError> {
    add_term(told, &found.ty)?;
    for place in found.used.as_slice() {
        let place = *place;
        write!(told, " {place}")?;
    }
    Ok(())
}

/// The type of a term.
pub fn infer(alloc: Global, env: &GlobalEnv, units: u32, text: &str) -> Result<String, Fault> {
    let t = term(alloc, text)?;
    let mut fuel = Fuel::new(units);
    let mut told = String::new(alloc);
    match (Kernel {}).infer(alloc, env, &Context::empty(), &t, &mut fuel) {
        Ok(found) => add_type(&mut told, &found)?,
        Err(stop) => add_stop(&mut told, stop)?,
    }
    add_units(&mut told, &fuel)?;
    Ok(told)
}

fn answer_word(answer: Answer) -> &'static str {
    match answer {
        Answer::Yes => "yes",
        Answer::No => "no",
        Answer::Out(limit) => limit_word(limit),
    }
}

/// Whether two terms are the same, or the first is below the second.
pub fn compare(
    alloc: Global,
    env: &GlobalEnv,
    units: u32,
    left: &str,
    right: &str,
    mode: Mode,
) -> Result<String, Fault> {
    let t = closed_term(alloc, env, left)?;
    let u = closed_term(alloc, env, right)?;
    let mut fuel = Fuel::new(units);
    let answer = conversion::conv(alloc, env, &Context::empty(), &t, &u, mode, &mut fuel)?;
    let word = answer_word(answer);
    let mut told = String::new(alloc);
    write!(told, "{word}")?;
    add_units(&mut told, &fuel)?;
    Ok(told)
}
