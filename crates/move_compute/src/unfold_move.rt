//! `unfold`: the goal with a definition's body in its place.
ghost use Rattle.std.specs.Prelude.{◌≡◌, ◌^◌, ◌≤◌, IfOk, IfSome};
ghost use Rattle.std.specs.Option.{option_copied};
ghost use Rattle.base_core.specs.Answers.{Gives};
ghost use Rattle.core_term.specs.Tree.{free_bound};
ghost use Rattle.term_spine.specs.Globals.{mentions as is_mentioned};
ghost use Rattle.cic_rules.specs.Environments.{transparent as body_of_kind, body_of_global};
ghost use Rattle.cic_rules.specs.Judges.{IsTermIn};
ghost use Rattle.cic_rules.specs.Steps.{answer_of};
ghost use Rattle.move_compute.specs.Unfold.{unfold_in};

use crate::refusals::refusal;
use crate::unfolding::unfold_all;
use base_core::refusal_codes::{NAME_NOT_IN_GOAL, NOT_TRANSPARENT};
use base_core::{Stop, Text};
use cic_rules::{Context, EntryKind, GlobalEnv};
use core_term::{Node, Term};
use std::alloc::Global;

/// The goal with the body of a definition in its place. Refused with 88 where the name is not that of a transparent definition, and
/// with 89 where that doesn't stand in the goal.
#[tactic(auto, using(crate::proofs::UnfoldScopes::scoped_if_ok, crate::proofs::UnfoldScopes::goal_free))]
pub(crate) fn unfold(
    alloc: Global,
    env: &GlobalEnv,
    ctx: &Context,
    name: &Text,
    goal: &Term,
) -> Result<Term, Stop>
    requires term { IsTermIn env.now ctx.now goal.now }
    ensures answer { Gives result (answer_of (unfold_in env.now name.now goal.now)) }
    ensures scoped { IfOk result (IsTermIn env.now ctx.now) }
{
    let _globals = env.len();
    let _hyps = ctx.len();
    unfold_closed(alloc, env, name, goal)
}

/// The same of any goal with few variables.
fn unfold_closed(alloc: Global, env: &GlobalEnv, name: &Text, goal: &Term) -> Result<Term, Stop>
    requires { free_bound goal.now ≤ 2 ^ 31 }
    ensures { Gives result (answer_of (unfold_in env.now name.now goal.now)) }
{
    let _depth = goal.depth();
    let Some(place) = env.place_of(name) else {
        return Err(refusal(NOT_TRANSPARENT));
    };
    let Some(body) = body_at(env, place) else {
        return Err(refusal(NOT_TRANSPARENT));
    };
    if !mentions(goal, place) {
        return Err(refusal(NAME_NOT_IN_GOAL));
    }
    match unfold_all(alloc, place, body, goal) {
        Ok(unfolded) => Ok(unfolded.term),
        Err(stop) => Err(Stop::from(stop)),
    }
}

/// The body of the global at a place, where it is a transparent definition.
#[tactic(auto, using(crate::proofs::UnfoldScopes::closed_if_any))]
pub(crate) fn body_at(env: &GlobalEnv, place: u32) -> Option<&Term>
    ensures body { option_copied result ≡ body_of_global env.now place }
    ensures closed { IfSome (option_copied result) (λ body. free_bound body ≡ 0) }
{
    match env.get(place) {
        Some(entry) => transparent(&entry.kind),
        None => None,
    }
}

fn transparent(kind: &EntryKind) -> Option<&Term>
    ensures { option_copied result ≡ body_of_kind kind.now }
{
    match kind {
        EntryKind::Defined { body, opaque } => { if *opaque { None } else { Some(body) } }
        _ => None,
    }
}

/// Whether the global at a place stands in a term.
#[tactic(auto, using(cic_rules::proofs::ShapeLaws::has_append))]
fn mentions(t: &Term, place: u32) -> bool
    ensures { result ≡ is_mentioned place t.now }
{
    match t.node() {
        Node::Var(_) => false,
        Node::Sorted(_) => false,
        Node::Constant(c) => *c == place,
        Node::Prod {
            domain,
            codomain,
            ..
        } => mentions(domain, place) || mentions(codomain, place),
        Node::Lam { domain, body, .. } => mentions(domain, place) || mentions(body, place),
        Node::LetIn {
            ty,
            value,
            body,
            ..
        } => mentions(ty, place) || mentions(value, place) || mentions(body, place),
        Node::App { function, argument } => {
            mentions(function, place) || mentions(argument, place)
        }
    }
}
