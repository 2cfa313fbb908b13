//! Weak head reduction, turn by turn.
ghost use Rattle.std.specs.Prelude.{◌≡◌, Some, IfOk};
ghost use Rattle.core_term.specs.Tree.{Constant};
ghost use Rattle.term_spine.specs.Spines.{tree_of_spine};
ghost use Rattle.cic_rules.specs.Environments.{IsEnvironment};
ghost use Rattle.cic_rules.specs.Families.{eliminator_of};
ghost use Rattle.cic_rules.specs.Fuel.{IsSpentOf};
ghost use Rattle.cic_rules.specs.Judges.{MayJudge, IsTermIn, IsNeverRefused};
ghost use Rattle.conversion.specs.Lookups.{family_if_any};
ghost use Rattle.conversion.specs.Turns.{Takes, Reduces, ReducesTo, IsSpine, global_turn, spine_turn, by_major, loop_of, reduce_of};

use crate::contractions::{beta, put_in, unfold};
use crate::iota::{fire, spine_of_term};
use crate::lookups::{argument_at, body_to_unfold, eliminated_place, value_of_variable};
use base_core::{Limit, NoMem, Stop};
use cic_rules::{Context, Fuel, GlobalEnv};
use core_term::{Node, Term};
use std::alloc::Global;
use term_spine::Spine;

/// The term by weak head reduction: its head is reduced until no rule applies, by definitions of
/// the environment only where `delta` says so. It stays in scope. A term to which no rule applies
/// is given back as it is, in shared parts.
#[cycle(reduction)]
pub fn whnf(
    alloc: Global,
    env: &GlobalEnv,
    ctx: &Context,
    t: &Term,
    delta: bool,
    fuel: &mut Fuel,
) -> Result<Term, Stop>
    requires judged { MayJudge env.now ctx.now }
    requires term { IsTermIn env.now ctx.now t.now }
    ensures answer { Reduces result fuel.old fuel.new (reduce_of env.now delta ctx.now fuel.old t.now) }
    ensures never_refused { IsNeverRefused result }
    ensures scoped { IfOk result (λ u. IsTermIn env.now ctx.now u) }
    ensures kept { IsSpentOf fuel.old fuel.new }
{
    let _globals = env.len();
    if !fuel.enter() {
        return Err(Stop::Out(Limit::DepthLimit));
    }
    let reduced = reduce(alloc, env, ctx, t, delta, fuel);
    fuel.leave();
    reduced
}

/// The same of a term that stands as its head with its arguments, and so is the answer. A spine to
/// which no rule applies is given back as it is, and nothing of it is walked.
pub(crate) fn whnf_spine(
    alloc: Global,
    env: &GlobalEnv,
    ctx: &Context,
    spine: Spine,
    delta: bool,
    fuel: &mut Fuel,
) -> Result<Spine, Stop>
    requires judged { MayJudge env.now ctx.now }
    requires term { IsTermIn env.now ctx.now (tree_of_spine spine) }
    requires spine { IsSpine spine }
    ensures answer { ReducesTo result fuel.old fuel.new (reduce_of env.now delta ctx.now fuel.old (tree_of_spine spine)) }
    ensures scoped { IfOk result (λ s. IsTermIn env.now ctx.now (tree_of_spine s)) }
    ensures kept { IsSpentOf fuel.old fuel.new }
{
    let _globals = env.len();
    if !fuel.enter() {
        return Err(Stop::Out(Limit::DepthLimit));
    }
    let reduced = reduce_spine(alloc, env, ctx, spine, delta, fuel);
    fuel.leave();
    reduced
}

/// The term of a spine, which is not too large.
pub(crate) fn term_of_spine(alloc: Global, spine: &Spine) -> Result<Term, NoMem>
    requires { IsSpine spine.now }
    ensures { IfOk result (λ t. t ≡ tree_of_spine spine.now) }
{
    match spine.whole(alloc) {
        Ok(whole) => Ok(whole),
        Err(_) => Err(NoMem),
    }
}

#[cycle(reduction)]
fn reduce(
    alloc: Global,
    env: &GlobalEnv,
    ctx: &Context,
    t: &Term,
    delta: bool,
    fuel: &mut Fuel,
) -> Result<Term, Stop>
    requires environment { IsEnvironment env.now }
    requires judged { MayJudge env.now ctx.now }
    requires term { IsTermIn env.now ctx.now t.now }
    ensures answer { Reduces result fuel.old fuel.new (loop_of env.now delta ctx.now fuel.old t.now) }
    ensures never_refused { IsNeverRefused result }
    ensures kept { IsSpentOf fuel.old fuel.new }
{
    let first = spine_of_term(alloc, t)?;
    match turn(alloc, env, ctx, &first, delta, fuel) {
        Ok(None) => {
            let same = t.share()?;
            Ok(same)
        }
        Ok(Some(next)) => match reduce_spine(alloc, env, ctx, next, delta, fuel) {
            Ok(spine) => {
                let whole = term_of_spine(alloc, &spine)?;
                Ok(whole)
            }
            Err(stop) => Err(stop),
        },
        Err(stop) => Err(stop),
    }
}

/// Turns from a spine on, until no rule applies.
#[cycle(reduction)]
fn reduce_spine(
    alloc: Global,
    env: &GlobalEnv,
    ctx: &Context,
    spine: Spine,
    delta: bool,
    fuel: &mut Fuel,
) -> Result<Spine, Stop>
    requires environment { IsEnvironment env.now }
    requires judged { MayJudge env.now ctx.now }
    requires term { IsTermIn env.now ctx.now (tree_of_spine spine) }
    requires spine { IsSpine spine }
    ensures answer { ReducesTo result fuel.old fuel.new (loop_of env.now delta ctx.now fuel.old (tree_of_spine spine)) }
    ensures kept { IsSpentOf fuel.old fuel.new }
{
    let mut spine = spine;
    while let Some(next) = turn(alloc, env, ctx, &spine, delta, fuel)? {
        spine = next;
    }
    Ok(spine)
}

/// One turn: what the spine becomes, or none where no rule applies.
#[cycle(reduction)]
fn turn(
    alloc: Global,
    env: &GlobalEnv,
    ctx: &Context,
    spine: &Spine,
    delta: bool,
    fuel: &mut Fuel,
) -> Result<Option<Spine>, Stop>
    requires judged { MayJudge env.now ctx.now }
    requires term { IsTermIn env.now ctx.now (tree_of_spine spine.now) }
    requires spine { IsSpine spine.now }
    ensures answer { Takes result fuel.old fuel.new spine.now (spine_turn env.now delta ctx.now fuel.old) }
    ensures kept { IsSpentOf fuel.old fuel.new }
{
    let _count = ctx.len();
    match spine.head.node() {
        Node::Lam { body, .. } => match spine.args.split()? {
            None => Ok(None),
            Some((value, rest)) => {
                let next = beta(alloc, body, &value, rest, fuel)?;
                Ok(Some(next))
            }
        },
        Node::LetIn { value, body, .. } => {
            let args = spine.args.share()?;
            let next = put_in(alloc, 1, body, value, args, fuel)?;
            Ok(Some(next))
        }
        Node::Var(i) => match value_of_variable(alloc, ctx, *i)? {
            None => Ok(None),
            Some(definition) => {
                let next = unfold(alloc, definition, &spine.args, fuel)?;
                Ok(Some(next))
            }
        },
        Node::Constant(place) => turn_constant(alloc, env, ctx, *place, spine, delta, fuel),
        Node::Sorted(_) => Ok(None),
        Node::Prod { .. } => Ok(None),
        Node::App { .. } => Ok(None),
    }
}

#[cycle(reduction)]
fn turn_constant(
    alloc: Global,
    env: &GlobalEnv,
    ctx: &Context,
    place: u32,
    spine: &Spine,
    delta: bool,
    fuel: &mut Fuel,
) -> Result<Option<Spine>, Stop>
    requires judged { MayJudge env.now ctx.now }
    requires term { IsTermIn env.now ctx.now (tree_of_spine spine.now) }
    requires spine { IsSpine spine.now }
    requires head { spine.now.head ≡ Constant place }
    ensures answer { Takes result fuel.old fuel.new spine.now (global_turn env.now delta ctx.now fuel.old place) }
    ensures kept { IsSpentOf fuel.old fuel.new }
{
    if let Some(body) = body_to_unfold(env, place, delta) {
        let definition = body.share()?;
        let next = unfold(alloc, definition, &spine.args, fuel)?;
        return Ok(Some(next));
    }
    let Some(family) = eliminated_place(env, place) else {
        return Ok(None);
    };
    let Some(shape) = env.shape(family) else {
        return Ok(None);
    };
    match argument_at(&spine.args, shape.major) {
        None => Ok(None),
        Some(major) => turn_eliminator(alloc, env, ctx, family, spine, major, delta, fuel),
    }
}

#[cycle(reduction)]
fn turn_eliminator(
    alloc: Global,
    env: &GlobalEnv,
    ctx: &Context,
    family: u32,
    spine: &Spine,
    major: &Term,
    delta: bool,
    fuel: &mut Fuel,
) -> Result<Option<Spine>, Stop>
    requires judged { MayJudge env.now ctx.now }
    requires term { IsTermIn env.now ctx.now (tree_of_spine spine.now) }
    requires spine { IsSpine spine.now }
    requires major { IsTermIn env.now ctx.now major.now }
    requires family { eliminator_of env.now spine.now.head ≡ family_if_any env.now (Some family) }
    ensures answer { Takes result fuel.old fuel.new spine.now (by_major env.now delta ctx.now fuel.old major.now) }
    ensures kept { IsSpentOf fuel.old fuel.new }
{
    match whnf(alloc, env, ctx, major, delta, fuel) {
        Ok(value) => fire(alloc, env, ctx, family, spine, &value, fuel),
        Err(stop) => Err(stop),
    }
}
