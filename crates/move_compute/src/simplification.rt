//! `simpl`: the head of a term is reduced, and then each of its parts.
ghost use Rattle.std.specs.Prelude.{ℕ, ◌+◌, ◌^◌, ◌≤◌};
ghost use Rattle.core_term.specs.Answers.{within_limits, Gives};
ghost use Rattle.core_term.specs.Tree.{Tree};
ghost use Rattle.cic_rules.specs.Fuel.{left, IsSpentOf, NESTING_LIMIT};
ghost use Rattle.cic_rules.specs.Judges.{Meets};
ghost use Rattle.cic_rules.specs.Runs.{pure};
ghost use Rattle.move_compute.specs.Calls.{simpl_with, charged_with, parts_with, two_parts_with};
ghost use Rattle.move_compute.specs.Simpl.{rebuilt as is_rebuilt};
ghost use Rattle.move_compute.specs.Scopes.{IsScopedOver};

use crate::heads::simpl_head;
use base_core::{Limit, Stop};
use cic_rules::{Fuel, GlobalEnv};
use core_term::{Node, Term, TermStop};
use std::alloc::Global;

/// Two parts of a term that are reduced.
#[derive(Drop)]
pub struct Parts {
    pub first: Term,
    pub last: Term,
}

/// The term with its head and each of its parts reduced. So many variables are about, of which one is
/// added under each binder.
#[cycle(simplification)]
pub(crate) fn simpl(
    alloc: Global,
    env: &GlobalEnv,
    t: &Term,
    vars: u32,
    fuel: &mut Fuel,
) -> Result<Term, Stop>
    requires room { vars ≤ 2 ^ 31 + fuel.old.nesting }
    requires term { IsScopedOver env.now vars t.now }
    ensures answer { Meets result (left fuel.new) (simpl_with env.now t.now fuel.old) }
    ensures kept { IsSpentOf fuel.old fuel.new }
{
    if !fuel.enter() {
        return Err(Stop::Out(Limit::DepthLimit));
    }
    let simplified = charged(alloc, env, t, vars, fuel);
    fuel.leave();
    simplified
}

/// A unit, the head, and then each part.
#[cycle(simplification)]
fn charged(
    alloc: Global,
    env: &GlobalEnv,
    t: &Term,
    vars: u32,
    fuel: &mut Fuel,
) -> Result<Term, Stop>
    requires room { vars + 1 ≤ 2 ^ 31 + fuel.old.nesting }
    requires nested { fuel.old.nesting ≤ NESTING_LIMIT }
    requires term { IsScopedOver env.now vars t.now }
    ensures answer { Meets result (left fuel.new) (charged_with env.now t.now fuel.old) }
    ensures kept { IsSpentOf fuel.old fuel.new }
{
    if !fuel.spend(1) {
        return Err(Stop::Out(Limit::StepLimit));
    }
    match simpl_head(alloc, env, t, vars, fuel) {
        Ok(head) => by_parts(alloc, env, &head, vars, fuel),
        Err(stop) => Err(stop),
    }
}

/// Each part of a term.
#[cycle(simplification)]
fn by_parts(
    alloc: Global,
    env: &GlobalEnv,
    t: &Term,
    vars: u32,
    fuel: &mut Fuel,
) -> Result<Term, Stop>
    requires room { vars + 1 ≤ 2 ^ 31 + fuel.old.nesting }
    requires nested { fuel.old.nesting ≤ NESTING_LIMIT }
    requires term { IsScopedOver env.now vars t.now }
    ensures answer { Meets result (left fuel.new) (parts_with env.now t.now fuel.old) }
    ensures kept { IsSpentOf fuel.old fuel.new }
{
    match t.node() {
        Node::Prod {
            name,
            domain,
            codomain,
        } => {
            let name = name.share()?;
            match two_parts(alloc, env, domain, codomain, vars, 1, fuel) {
                Ok(parts) => rebuilt(Term::prod(alloc, name, parts.first, parts.last)),
                Err(stop) => Err(stop),
            }
        }
        Node::Lam { name, domain, body } => {
            let name = name.share()?;
            match two_parts(alloc, env, domain, body, vars, 1, fuel) {
                Ok(parts) => rebuilt(Term::lam(alloc, name, parts.first, parts.last)),
                Err(stop) => Err(stop),
            }
        }
        Node::LetIn {
            name,
            ty,
            value,
            body,
        } => {
            let name = name.share()?;
            match simpl(alloc, env, ty, vars, fuel) {
                Ok(ty) => match two_parts(alloc, env, value, body, vars, 1, fuel) {
                    Ok(parts) => rebuilt(Term::let_in(alloc, name, ty, parts.first, parts.last)),
                    Err(stop) => Err(stop),
                },
                Err(stop) => Err(stop),
            }
        }
        Node::App { function, argument } => {
            match two_parts(alloc, env, function, argument, vars, 0, fuel) {
                Ok(parts) => rebuilt(Term::app(alloc, parts.first, parts.last)),
                Err(stop) => Err(stop),
            }
        }
        Node::Var(_) => same(t),
        Node::Sorted(_) => same(t),
        Node::Constant(_) => same(t),
    }
}

/// Two parts of a term, the last one under so many binders.
#[cycle(simplification)]
fn two_parts(
    alloc: Global,
    env: &GlobalEnv,
    first: &Term,
    last: &Term,
    vars: u32,
    binders: u32,
    fuel: &mut Fuel,
) -> Result<Parts, Stop>
    requires binders { binders ≤ 1 }
    requires room { vars + 1 ≤ 2 ^ 31 + fuel.old.nesting }
    requires nested { fuel.old.nesting ≤ NESTING_LIMIT }
    requires first { IsScopedOver env.now vars first.now }
    requires last { IsScopedOver env.now (vars + binders) last.now }
    ensures answer { Meets result (left fuel.new) (two_parts_with env.now first.now last.now fuel.old) }
    ensures kept { IsSpentOf fuel.old fuel.new }
{
    match simpl(alloc, env, first, vars, fuel) {
        Ok(first) => match simpl(alloc, env, last, vars + binders, fuel) {
            Ok(last) => Ok(Parts { first, last }),
            Err(stop) => Err(stop),
        },
        Err(stop) => Err(stop),
    }
}

/// A term that was built again, unless it is too large.
#[tactic(auto, using(crate::proofs::PartLaws::rebuilt_made, crate::proofs::PartLaws::rebuilt_stop))]
fn rebuilt(made: Result<Term, TermStop>) -> Result<Term, Stop>
    ensures { (t : Tree) (units : ℕ) → Gives made (within_limits t) → Meets result units (is_rebuilt t units) }
{
    match made {
        Ok(t) => Ok(t),
        Err(stop) => Err(Stop::from(stop)),
    }
}

/// A term without parts.
fn same(t: &Term) -> Result<Term, Stop>
    ensures { (units : ℕ) → Meets result units (pure t.now units) }
{
    let t = t.share()?;
    Ok(t)
}
