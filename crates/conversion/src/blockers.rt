//! What keeps a side from going on: the definition at its head, or at the head of what an
//! eliminator waits for, and the sides with the body in its place.
ghost use Rattle.std.specs.Prelude.{◌≡◌, ◌<◌, length, false, IfOk};
ghost use Rattle.core_term.specs.Tree.{Constant};
ghost use Rattle.term_spine.specs.Arguments.{within_limits};
ghost use Rattle.core_term.specs.Answers.{Gives};
ghost use Rattle.term_spine.specs.Spine.{apply_all};
ghost use Rattle.term_spine.specs.Spines.{tree_of_spine};
ghost use Rattle.cic_rules.specs.Families.{replace_major};
ghost use Rattle.cic_rules.specs.Fuel.{IsSpentOf};
ghost use Rattle.cic_rules.specs.Judges.{MayJudge, IsTermIn};
ghost use Rattle.conversion.specs.Turns.{IsSpine, ReducesTo, reduce_of};
ghost use Rattle.conversion.specs.Blockers.{global_in, IsReplaced, IsReplacedBy, IsSmallIfAny, IsPutBack, BlocksBy, spine_blocker, global_blocker_of, blocker_in};

use crate::iota::spine_of_term;
use crate::lookups::{argument_at, body_to_unfold, eliminated_place};
use crate::reduction::{term_of_spine, whnf_spine};
use base_core::{Limit, NoMem, Stop};
use cic_rules::{Context, Fuel, GlobalEnv};
use core_term::{Node, Term, TermStop};
use std::alloc::Global;
use term_spine::{Arguments, Spine, spine_of};

/// The global that keeps a side from going on, and the side with its body in its place: none where
/// that would be too large.
#[derive(Drop)]
pub(crate) struct Blocked {
    pub place: u32,
    pub replaced: Option<Spine>,
}

/// A term that is applied to arguments, or none where that would be too large.
fn applied(alloc: Global, function: Term, args: Arguments) -> Result<Option<Spine>, NoMem>
    ensures { IfOk result (λ s. IsReplaced s (apply_all function args)) }
{
    match spine_of(alloc, function, args) {
        Ok(made) => Ok(Some(made)),
        Err(TermStop::TooLarge) => Ok(None),
        Err(TermStop::NoMem) => Err(NoMem),
    }
}

/// The arguments with another one at this place, counted from 0.
#[tactic(auto, using(crate::proofs::BlockerLaws::more_stop, crate::proofs::BlockerLaws::replace_next))]
fn with_argument(
    alloc: Global,
    args: &Arguments,
    at: usize,
    value: Term,
) -> Result<Arguments, TermStop>
    ensures { Gives result (within_limits (replace_major args.now at value)) }
{
    match args.split()? {
        None => Ok(Arguments::empty()),
        Some((first, rest)) => {
            if at == 0 {
                let made = rest.with_first(alloc, value)?;
                return Ok(made);
            }
            let more = with_argument(alloc, &rest, at - 1, value)?;
            let made = more.with_first(alloc, first)?;
            Ok(made)
        }
    }
}

/// A spine with another argument at this place, or none where that would be too large.
#[tactic(auto, using(crate::proofs::BlockerLaws::spine_too_large))]
fn with_major(
    alloc: Global,
    spine: &Spine,
    at: usize,
    value: &Spine,
) -> Result<Option<Spine>, NoMem>
    requires { IsSpine value.now }
    ensures { IfOk result (λ s. IsReplacedBy s spine.now at (tree_of_spine value.now)) }
{
    let value = term_of_spine(alloc, value)?;
    let head = spine.head.share()?;
    match with_argument(alloc, &spine.args, at, value) {
        Ok(args) => applied(alloc, head, args),
        Err(TermStop::TooLarge) => Ok(None),
        Err(TermStop::NoMem) => Err(NoMem),
    }
}

/// The blocker of a side, through so many values of eliminators in one another.
#[cycle(blocking)]
pub(crate) fn blocker(
    alloc: Global,
    env: &GlobalEnv,
    ctx: &Context,
    spine: &Spine,
    majors: u32,
    fuel: &mut Fuel,
) -> Result<Option<Blocked>, Stop>
    requires judged { MayJudge env.now ctx.now }
    requires term { IsTermIn env.now ctx.now (tree_of_spine spine.now) }
    requires spine { IsSpine spine.now }
    ensures answer { BlocksBy result fuel.old fuel.new (spine_blocker env.now ctx.now fuel.old majors spine.now) }
    ensures kept { IsSpentOf fuel.old fuel.new }
{
    if majors == 0 {
        return Err(Stop::Out(Limit::DepthLimit));
    }
    match global_in(&spine.head) {
        None => Ok(None),
        Some(place) => blocker_of_global(alloc, env, ctx, place, spine, majors - 1, fuel),
    }
}

/// The place of the global that a head is.
fn global_in(head: &Term) -> Option<u32>
    ensures { result ≡ global_in head.now }
{
    match head.node() {
        Node::Constant(place) => Some(*place),
        _ => None,
    }
}

#[cycle(blocking)]
fn blocker_of_global(
    alloc: Global,
    env: &GlobalEnv,
    ctx: &Context,
    place: u32,
    spine: &Spine,
    majors: u32,
    fuel: &mut Fuel,
) -> Result<Option<Blocked>, Stop>
    requires judged { MayJudge env.now ctx.now }
    requires term { IsTermIn env.now ctx.now (tree_of_spine spine.now) }
    requires spine { IsSpine spine.now }
    requires head { spine.now.head ≡ Constant place }
    ensures answer { BlocksBy result fuel.old fuel.new (global_blocker_of env.now ctx.now fuel.old majors place spine.now) }
    ensures kept { IsSpentOf fuel.old fuel.new }
{
    if let Some(body) = body_to_unfold(env, place, true) {
        let definition = body.share()?;
        let args = spine.args.share()?;
        let replaced = applied(alloc, definition, args)?;
        return Ok(Some(Blocked { place, replaced }));
    }
    let Some(family) = eliminated_place(env, place) else {
        return Ok(None);
    };
    let Some(shape) = env.shape(family) else {
        return Ok(None);
    };
    match argument_at(&spine.args, shape.major) {
        None => Ok(None),
        Some(major) => {
            blocker_of_major(alloc, env, ctx, spine, shape.major, major, majors, fuel)
        }
    }
}

#[cycle(blocking)]
fn blocker_of_major(
    alloc: Global,
    env: &GlobalEnv,
    ctx: &Context,
    spine: &Spine,
    at: usize,
    major: &Term,
    majors: u32,
    fuel: &mut Fuel,
) -> Result<Option<Blocked>, Stop>
    requires judged { MayJudge env.now ctx.now }
    requires major { IsTermIn env.now ctx.now major.now }
    requires there { at < length spine.now.args }
    ensures answer { BlocksBy result fuel.old fuel.new (blocker_in env.now ctx.now fuel.old majors spine.now at major.now) }
    ensures kept { IsSpentOf fuel.old fuel.new }
{
    match value_of_major(alloc, env, ctx, major, fuel) {
        Ok(value) => match blocker(alloc, env, ctx, &value, majors, fuel) {
            Ok(None) => Ok(None),
            Ok(Some(inner)) => {
                let outer = put_back(alloc, spine, at, inner)?;
                Ok(Some(outer))
            }
            Err(stop) => Err(stop),
        },
        Err(stop) => Err(stop),
    }
}

/// What an eliminator waits for, reduced without definitions.
fn value_of_major(
    alloc: Global,
    env: &GlobalEnv,
    ctx: &Context,
    major: &Term,
    fuel: &mut Fuel,
) -> Result<Spine, Stop>
    requires judged { MayJudge env.now ctx.now }
    requires major { IsTermIn env.now ctx.now major.now }
    ensures answer { ReducesTo result fuel.old fuel.new (reduce_of env.now false ctx.now fuel.old major.now) }
    ensures scoped { IfOk result (λ s. IsTermIn env.now ctx.now (tree_of_spine s)) }
    ensures kept { IsSpentOf fuel.old fuel.new }
{
    let spine = spine_of_term(alloc, major)?;
    let value = whnf_spine(alloc, env, ctx, spine, false, fuel)?;
    Ok(value)
}

/// The blocker of what an eliminator waits for, as the blocker of the eliminator.
fn put_back(alloc: Global, spine: &Spine, at: usize, inner: Blocked) -> Result<Blocked, NoMem>
    requires small { IsSmallIfAny inner.replaced }
    requires there { at < length spine.now.args }
    ensures { IfOk result (λ outer. IsPutBack outer spine.now at inner) }
{
    let place = inner.place;
    match &inner.replaced {
        None => Ok(Blocked {
            place,
            replaced: None,
        }),
        Some(value) => {
            let replaced = with_major(alloc, spine, at, value)?;
            Ok(Blocked { place, replaced })
        }
    }
}
