//! The first subterm of a goal, in preorder, that a pattern matches.
ghost use Rattle.std.specs.Prelude.{◌≡◌, ◌+◌, ◌≤◌, length, IfOk};
ghost use Rattle.core_term.specs.Tree.{depth_of};
ghost use Rattle.cic_rules.specs.Fuel.{left, IsSpentOf};
ghost use Rattle.cic_rules.specs.Judges.{MayJudge, IsTermIn, Meets};
ghost use Rattle.cic_rules.specs.Scopes.{IsScoped};
ghost use Rattle.move_rewrite.specs.Calls.{matched_with, tried_with, first_found_with};
ghost use Rattle.move_rewrite.specs.Scopes.{IsFoundFor};
ghost use Rattle.move_rewrite.specs.Search.{same_head as one_head};

use base_core::Stop;
use cic_rules::{Context, Fuel, GlobalEnv, Judge};
use core_term::{Node, Term};
use matching::{Values, match_terms, without_binders};
use std::alloc::Global;

/// A subterm, and the values by which a pattern is it.
#[derive(Drop)]
pub struct Found {
    pub subterm: Term,
    pub values: Values,
}

/// The first that the pattern, with so many variables, matches: a term under so many binders, or its parts from the
/// left.
pub(crate) fn first_found<J: Judge>(
    judge: &J,
    alloc: Global,
    env: &GlobalEnv,
    ctx: &Context,
    count: u32,
    pattern: &Term,
    binders: u32,
    t: &Term,
    fuel: &mut Fuel,
) -> Result<Option<Found>, Stop>
    requires judged { MayJudge env.now ctx.now }
    requires pattern { IsScoped (length ctx.now + count) (length env.now) pattern.now }
    requires few { count ≤ 1000 }
    requires term { IsScoped (length ctx.now + binders) (length env.now) t.now }
    requires room { binders + depth_of t.now ≤ 1000 }
    ensures answer { let run = first_found_with env.now ctx.now count pattern.now binders t.now in
        Meets result (left fuel.new) (run fuel.old) }
    ensures found { IfOk result (IsFoundFor env.now ctx.now count) }
    ensures kept { IsSpentOf fuel.old fuel.new }
{
    match tried(judge, alloc, env, ctx, count, pattern, binders, t, fuel) {
        Ok(Some(found)) => return Ok(Some(found)),
        Ok(None) => {}
        Err(stop) => return Err(stop),
    }
    match t.node() {
        Node::Var(_) => Ok(None),
        Node::Sorted(_) => Ok(None),
        Node::Constant(_) => Ok(None),
        Node::Prod {
            domain,
            codomain,
            ..
        } => match first_found(
            judge, alloc, env, ctx, count, pattern, binders, domain, fuel,
        ) {
            Ok(Some(found)) => Ok(Some(found)),
            Ok(None) => first_found(
                judge,
                alloc,
                env,
                ctx,
                count,
                pattern,
                binders + 1,
                codomain,
                fuel,
            ),
            Err(stop) => Err(stop),
        },
        Node::Lam { domain, body, .. } => {
            match first_found(
                judge, alloc, env, ctx, count, pattern, binders, domain, fuel,
            ) {
                Ok(Some(found)) => Ok(Some(found)),
                Ok(None) => first_found(
                    judge,
                    alloc,
                    env,
                    ctx,
                    count,
                    pattern,
                    binders + 1,
                    body,
                    fuel,
                ),
                Err(stop) => Err(stop),
            }
        }
        Node::LetIn {
            ty,
            value,
            body,
            ..
        } => match first_found(judge, alloc, env, ctx, count, pattern, binders, ty, fuel) {
            Ok(Some(found)) => Ok(Some(found)),
            Ok(None) => match first_found(
                judge, alloc, env, ctx, count, pattern, binders, value, fuel,
            ) {
                Ok(Some(found)) => Ok(Some(found)),
                Ok(None) => first_found(
                    judge,
                    alloc,
                    env,
                    ctx,
                    count,
                    pattern,
                    binders + 1,
                    body,
                    fuel,
                ),
                Err(stop) => Err(stop),
            },
            Err(stop) => Err(stop),
        },
        Node::App { function, argument } => {
            match first_found(
                judge, alloc, env, ctx, count, pattern, binders, function, fuel,
            ) {
                Ok(Some(found)) => Ok(Some(found)),
                Ok(None) => first_found(
                    judge, alloc, env, ctx, count, pattern, binders, argument, fuel,
                ),
                Err(stop) => Err(stop),
            }
        }
    }
}

/// A subterm under so many binders: it must have the pattern's head, and none of the variables that they bind.
fn tried<J: Judge>(
    judge: &J,
    alloc: Global,
    env: &GlobalEnv,
    ctx: &Context,
    count: u32,
    pattern: &Term,
    binders: u32,
    t: &Term,
    fuel: &mut Fuel,
) -> Result<Option<Found>, Stop>
    requires judged { MayJudge env.now ctx.now }
    requires pattern { IsScoped (length ctx.now + count) (length env.now) pattern.now }
    requires few { count ≤ 1000 }
    requires term { IsScoped (length ctx.now + binders) (length env.now) t.now }
    requires room { binders + depth_of t.now ≤ 1000 }
    ensures answer { let run = tried_with env.now ctx.now count pattern.now binders t.now in
        Meets result (left fuel.new) (run fuel.old) }
    ensures found { IfOk result (IsFoundFor env.now ctx.now count) }
    ensures kept { IsSpentOf fuel.old fuel.new }
{
    if !same_head(count, binders, pattern, t) {
        return Ok(None);
    }
    match without_binders(alloc, t, binders)? {
        Some(subterm) => matched(judge, alloc, env, ctx, count, pattern, subterm, fuel),
        None => Ok(None),
    }
}

/// A subterm that stands outside of all binders.
#[tactic(auto, using(crate::proofs::Subterms::found_by_match))]
fn matched<J: Judge>(
    judge: &J,
    alloc: Global,
    env: &GlobalEnv,
    ctx: &Context,
    count: u32,
    pattern: &Term,
    subterm: Term,
    fuel: &mut Fuel,
) -> Result<Option<Found>, Stop>
    requires judged { MayJudge env.now ctx.now }
    requires pattern { IsScoped (length ctx.now + count) (length env.now) pattern.now }
    requires few { count ≤ 1000 }
    requires term { IsTermIn env.now ctx.now subterm }
    ensures answer { let run = matched_with env.now ctx.now count pattern.now (Some subterm) in
        Meets result (left fuel.new) (run fuel.old) }
    ensures found { IfOk result (IsFoundFor env.now ctx.now count) }
    ensures kept { IsSpentOf fuel.old fuel.new }
{
    let unset = Values::unset(alloc, count)?;
    match match_terms(judge, alloc, env, ctx, 0, pattern, &subterm, unset, fuel) {
        Ok(Some(values)) => Ok(Some(Found { subterm, values })),
        Ok(None) => Ok(None),
        Err(stop) => Err(stop),
    }
}

/// Whether a pattern with so many variables and a term under so many binders have one head, applied to as many
/// arguments.
fn same_head(count: u32, binders: u32, pattern: &Term, t: &Term) -> bool
    ensures { result ≡ one_head count binders pattern.now t.now }
{
    match pattern.node() {
        Node::App { function, .. } => match t.node() {
            Node::App {
                function: other,
                ..
            } => same_head(count, binders, function, other),
            _ => false,
        },
        Node::Var(i) => match t.node() {
            Node::Var(j) => u64::from(*i) + u64::from(binders) == u64::from(*j) + u64::from(count),
            _ => false,
        },
        Node::Sorted(_) => pattern.equal(t),
        Node::Constant(_) => pattern.equal(t),
        Node::Prod { .. } => match t.node() {
            Node::Prod { .. } => true,
            _ => false,
        },
        Node::Lam { .. } => match t.node() {
            Node::Lam { .. } => true,
            _ => false,
        },
        Node::LetIn { .. } => match t.node() {
            Node::LetIn { .. } => true,
            _ => false,
        },
    }
}
