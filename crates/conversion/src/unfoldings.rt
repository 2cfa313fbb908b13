//! The turn of two sides that only definitions take further.
ghost use Rattle.std.specs.Prelude.{◌≡◌};
ghost use Rattle.term_spine.specs.Spines.{tree_of_spine};
ghost use Rattle.cic_rules.specs.Fuel.{IsSpentOf};
ghost use Rattle.cic_rules.specs.Judges.{MayJudge, IsTermIn};
ghost use Rattle.conversion.specs.Turns.{IsSpine};
ghost use Rattle.conversion.specs.Blockers.{TakesReplaced, UnfoldsLeft, UnfoldsRight, UnfoldsBoth, UnfoldsTwo, Unfolds, TurnsBy, unblock_of};

use crate::blockers::{Blocked, blocker};
use crate::sides::{Sides, Turned, share_spine};
use base_core::{Limit, Stop};
use cic_rules::{Context, Fuel, GlobalEnv};
use std::alloc::Global;
use term_spine::Spine;

/// The turn of two sides by what blocks them, the left one looked at first.
pub(crate) fn unblock(
    alloc: Global,
    env: &GlobalEnv,
    ctx: &Context,
    left: &Spine,
    right: &Spine,
    fuel: &mut Fuel,
) -> Result<Turned, Stop>
    requires judged { MayJudge env.now ctx.now }
    requires first { IsTermIn env.now ctx.now (tree_of_spine left.now) }
    requires second { IsTermIn env.now ctx.now (tree_of_spine right.now) }
    requires left { IsSpine left.now }
    requires right { IsSpine right.now }
    ensures answer { TurnsBy result fuel.old fuel.new (unblock_of env.now ctx.now fuel.old left.now right.now) }
    ensures kept { IsSpentOf fuel.old fuel.new }
{
    let majors = fuel.calls_left();
    match blocker(alloc, env, ctx, left, majors, fuel) {
        Ok(b) => match blocker(alloc, env, ctx, right, majors, fuel) {
            Ok(c) => unfold(left, right, b, c, fuel),
            Err(stop) => Err(stop),
        },
        Err(stop) => Err(stop),
    }
}

/// The answer is No where nothing blocks either side, else a blocker is replaced.
fn unfold(
    left: &Spine,
    right: &Spine,
    b: Option<Blocked>,
    c: Option<Blocked>,
    fuel: &mut Fuel,
) -> Result<Turned, Stop>
    requires left { IsSpine left.now }
    requires right { IsSpine right.now }
    ensures answer { Unfolds result fuel.old fuel.new left.now right.now b c }
    ensures kept { IsSpentOf fuel.old fuel.new }
{
    match b {
        None => match c {
            None => Ok(Turned::Final(false)),
            Some(c) => unfold_right(left, c.replaced, fuel),
        },
        Some(b) => match c {
            None => unfold_left(b.replaced, right, fuel),
            Some(c) => unfold_two(left, right, b, c, fuel),
        },
    }
}

/// Both sides are blocked: by one global, or the one that was declared later is replaced.
fn unfold_two(
    left: &Spine,
    right: &Spine,
    b: Blocked,
    c: Blocked,
    fuel: &mut Fuel,
) -> Result<Turned, Stop>
    requires left { IsSpine left.now }
    requires right { IsSpine right.now }
    ensures answer { UnfoldsTwo result fuel.old fuel.new left.now right.now b c }
    ensures kept { IsSpentOf fuel.old fuel.new }
{
    if b.place == c.place {
        return unfold_both(b.replaced, c.replaced, fuel);
    }
    if c.place < b.place {
        return unfold_left(b.replaced, right, fuel);
    }
    unfold_right(left, c.replaced, fuel)
}

/// What replaces a side, for a unit.
fn replaced(made: Option<Spine>, fuel: &mut Fuel) -> Result<Spine, Stop>
    ensures answer { TakesReplaced result fuel.old fuel.new made }
    ensures kept { IsSpentOf fuel.old fuel.new }
{
    if !fuel.spend(1) {
        return Err(Stop::Out(Limit::StepLimit));
    }
    match made {
        Some(made) => Ok(made),
        None => Err(Stop::Out(Limit::SizeLimit)),
    }
}

fn unfold_left(made: Option<Spine>, right: &Spine, fuel: &mut Fuel) -> Result<Turned, Stop>
    requires { IsSpine right.now }
    ensures answer { UnfoldsLeft result fuel.old fuel.new made right.now }
    ensures kept { IsSpentOf fuel.old fuel.new }
{
    match replaced(made, fuel) {
        Ok(left) => {
            let right = share_spine(right)?;
            Ok(Turned::GoOn(Sides { left, right }))
        }
        Err(stop) => Err(stop),
    }
}

fn unfold_right(left: &Spine, made: Option<Spine>, fuel: &mut Fuel) -> Result<Turned, Stop>
    requires { IsSpine left.now }
    ensures answer { UnfoldsRight result fuel.old fuel.new left.now made }
    ensures kept { IsSpentOf fuel.old fuel.new }
{
    match replaced(made, fuel) {
        Ok(right) => {
            let left = share_spine(left)?;
            Ok(Turned::GoOn(Sides { left, right }))
        }
        Err(stop) => Err(stop),
    }
}

fn unfold_both(made: Option<Spine>, other: Option<Spine>, fuel: &mut Fuel) -> Result<Turned, Stop>
    ensures answer { UnfoldsBoth result fuel.old fuel.new made other }
    ensures kept { IsSpentOf fuel.old fuel.new }
{
    match replaced(made, fuel) {
        Ok(left) => match replaced(other, fuel) {
            Ok(right) => Ok(Turned::GoOn(Sides { left, right })),
            Err(stop) => Err(stop),
        },
        Err(stop) => Err(stop),
    }
}
