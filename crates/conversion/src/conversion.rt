//! Conversion, by turns of both sides: their heads, what the heads tell, and definitions last.
ghost use Rattle.std.specs.Prelude.{◌≡◌, ◌≤◌, length};
ghost use Rattle.base_core.specs.Answers.{Gives};
ghost use Rattle.core_term.specs.Tree.{free_bound};
ghost use Rattle.term_spine.specs.Spine.{eta_body as body_of_eta};
ghost use Rattle.term_spine.specs.Spines.{tree_of_spine};
ghost use Rattle.cic_rules.specs.Contexts.{extended, plain_hyp};
ghost use Rattle.cic_rules.specs.Fuel.{left, IsSpentOf};
ghost use Rattle.cic_rules.specs.Judges.{MayJudge, IsTermIn, MeetsAnswer, conv_with};
ghost use Rattle.conversion.specs.Turns.{IsSpine};
ghost use Rattle.conversion.specs.Sides.{trees_of};
ghost use Rattle.conversion.specs.Blockers.{TurnsBy};
ghost use Rattle.conversion.specs.Conversions.{answer_of, Answers, Builds, IsSide, AreSides, AreSidesIfMade, IsBinderIn, AreTermsIn, AreTermsUnder, AreAllIn, conv_of, charged_of, rounds_of, turn_of, reduced_of, binders_of, eta_left_of, eta_right_of, under_of, heads_of, all_of};

use crate::cases::eta_body;
use crate::iota::spine_of_term;
use crate::reduction::{term_of_spine, whnf_spine};
use crate::sides::{Binder, Rule, Sides, Turned, heads_agree, rule_of};
use crate::unfoldings::unblock;
use base_core::{Limit, NoMem, Stop};
use cic_rules::{Answer, Context, Fuel, GlobalEnv, Hyp, Mode, compare_cost};
use core_term::Term;
use std::alloc::Global;
use term_spine::{Arguments, Spine};

/// Whether two terms are the same by the rules of reduction and eta, or the first is below the
/// second: trees that are one at once, else by turns of both sides.
pub fn conv(
    alloc: Global,
    env: &GlobalEnv,
    ctx: &Context,
    t: &Term,
    u: &Term,
    mode: Mode,
    fuel: &mut Fuel,
) -> Result<Answer, NoMem>
    requires judged { MayJudge env.now ctx.now }
    requires first { IsTermIn env.now ctx.now t.now }
    requires second { IsTermIn env.now ctx.now u.now }
    ensures answer { MeetsAnswer result (left fuel.new) (conv_with env.now ctx.now mode t.now u.now fuel.old) }
    ensures kept { IsSpentOf fuel.old fuel.new }
{
    match convert(alloc, env, ctx, t, u, mode, fuel) {
        Ok(answer) => Ok(answer_of(answer)),
        Err(Stop::Out(limit)) => Ok(Answer::Out(limit)),
        Err(Stop::NoMem) => Err(NoMem),
        Err(Stop::Refused(_)) => unreachable!(),
    }
}

fn answer_of(holds: bool) -> Answer
    ensures { result ≡ answer_of holds }
{
    if holds { Answer::Yes } else { Answer::No }
}

/// One judgement, inside those under way.
#[cycle(conversion)]
fn convert(
    alloc: Global,
    env: &GlobalEnv,
    ctx: &Context,
    t: &Term,
    u: &Term,
    mode: Mode,
    fuel: &mut Fuel,
) -> Result<bool, Stop>
    requires judged { MayJudge env.now ctx.now }
    requires terms { AreTermsIn env.now ctx.now t.now u.now }
    ensures answer { Answers result fuel.old fuel.new (conv_of env.now ctx.now fuel.old mode t.now u.now) }
    ensures kept { IsSpentOf fuel.old fuel.new }
{
    if !fuel.enter() {
        return Err(Stop::Out(Limit::DepthLimit));
    }
    let answer = compare(alloc, env, ctx, t, u, mode, fuel);
    fuel.leave();
    answer
}

/// Trees that are one need no turn.
#[cycle(conversion)]
fn compare(
    alloc: Global,
    env: &GlobalEnv,
    ctx: &Context,
    t: &Term,
    u: &Term,
    mode: Mode,
    fuel: &mut Fuel,
) -> Result<bool, Stop>
    requires judged { MayJudge env.now ctx.now }
    requires terms { AreTermsIn env.now ctx.now t.now u.now }
    ensures answer { Answers result fuel.old fuel.new (charged_of env.now ctx.now fuel.old mode t.now u.now) }
    ensures kept { IsSpentOf fuel.old fuel.new }
{
    if !fuel.spend(compare_cost(t, u)) {
        return Err(Stop::Out(Limit::StepLimit));
    }
    if t.equal(u) {
        return Ok(true);
    }
    match sides_of(alloc, t, u) {
        Ok(sides) => take_turns(alloc, env, ctx, sides, mode, fuel),
        Err(stop) => Err(stop),
    }
}

/// Both terms as heads with arguments. This is the only time that their arguments are walked.
fn sides_of(alloc: Global, t: &Term, u: &Term) -> Result<Sides, Stop>
    ensures { AreSidesIfMade result t.now u.now }
{
    let left = spine_of_term(alloc, t)?;
    let right = spine_of_term(alloc, u)?;
    Ok(Sides { left, right })
}

/// Turns until one is final.
#[cycle(conversion)]
fn take_turns(
    alloc: Global,
    env: &GlobalEnv,
    ctx: &Context,
    sides: Sides,
    mode: Mode,
    fuel: &mut Fuel,
) -> Result<bool, Stop>
    requires judged { MayJudge env.now ctx.now }
    requires sides { AreSides env.now ctx.now sides }
    ensures answer { Answers result fuel.old fuel.new (rounds_of env.now ctx.now fuel.old mode (trees_of sides)) }
    ensures kept { IsSpentOf fuel.old fuel.new }
{
    let _globals = env.len();
    let mut sides = sides;
    loop {
        match turn(alloc, env, ctx, sides, mode, fuel) {
            Ok(Turned::Final(answer)) => return Ok(answer),
            Ok(Turned::GoOn(next)) => sides = next,
            Err(stop) => return Err(stop),
        }
    }
}

/// One turn: the heads of both sides, the left one's first, and what they tell.
#[cycle(conversion)]
fn turn(
    alloc: Global,
    env: &GlobalEnv,
    ctx: &Context,
    sides: Sides,
    mode: Mode,
    fuel: &mut Fuel,
) -> Result<Turned, Stop>
    requires judged { MayJudge env.now ctx.now }
    requires sides { AreSides env.now ctx.now sides }
    ensures answer { TurnsBy result fuel.old fuel.new (turn_of env.now ctx.now fuel.old mode (trees_of sides)) }
    ensures kept { IsSpentOf fuel.old fuel.new }
{
    match whnf_spine(alloc, env, ctx, sides.left, false, fuel) {
        Ok(left) => match whnf_spine(alloc, env, ctx, sides.right, false, fuel) {
            Ok(right) => turn_reduced(alloc, env, ctx, &left, &right, mode, fuel),
            Err(stop) => Err(stop),
        },
        Err(stop) => Err(stop),
    }
}

/// The turn of two sides whose heads were reached.
#[cycle(conversion)]
fn turn_reduced(
    alloc: Global,
    env: &GlobalEnv,
    ctx: &Context,
    left: &Spine,
    right: &Spine,
    mode: Mode,
    fuel: &mut Fuel,
) -> Result<Turned, Stop>
    requires judged { MayJudge env.now ctx.now }
    requires left { IsSide env.now ctx.now left.now }
    requires right { IsSide env.now ctx.now right.now }
    ensures answer { TurnsBy result fuel.old fuel.new (reduced_of env.now ctx.now fuel.old mode left.now right.now) }
    ensures kept { IsSpentOf fuel.old fuel.new }
{
    let rule = rule_of(mode, left, right)?;
    match rule {
        Rule::Decided(answer) => Ok(Turned::Final(answer)),
        Rule::Binders(mode, b, c) => turn_binders(alloc, env, ctx, &b, &c, mode, fuel),
        Rule::EtaLeft(b) => turn_eta_left(alloc, env, ctx, &b, right, fuel),
        Rule::EtaRight(b) => turn_eta_right(alloc, env, ctx, left, &b, fuel),
        Rule::Heads => turn_heads(alloc, env, ctx, left, right, fuel),
    }
}

/// What is bound, and then what stands under it.
#[cycle(conversion)]
fn turn_binders(
    alloc: Global,
    env: &GlobalEnv,
    ctx: &Context,
    b: &Binder,
    c: &Binder,
    mode: Mode,
    fuel: &mut Fuel,
) -> Result<Turned, Stop>
    requires judged { MayJudge env.now ctx.now }
    requires left { IsBinderIn env.now ctx.now b.now }
    requires right { IsBinderIn env.now ctx.now c.now }
    ensures answer { TurnsBy result fuel.old fuel.new (binders_of env.now ctx.now fuel.old mode b.now c.now) }
    ensures kept { IsSpentOf fuel.old fuel.new }
{
    match convert(alloc, env, ctx, &b.domain, &c.domain, Mode::Same, fuel) {
        Ok(same) => {
            if !same {
                return Ok(Turned::Final(false));
            }
            convert_under(alloc, env, ctx, b, &b.body, &c.body, mode, fuel)
        }
        Err(stop) => Err(stop),
    }
}

/// Eta with a function on the left: its body and the other side applied to its variable.
#[cycle(conversion)]
fn turn_eta_left(
    alloc: Global,
    env: &GlobalEnv,
    ctx: &Context,
    b: &Binder,
    other: &Spine,
    fuel: &mut Fuel,
) -> Result<Turned, Stop>
    requires judged { MayJudge env.now ctx.now }
    requires function { IsBinderIn env.now ctx.now b.now }
    requires other { IsSide env.now ctx.now other.now }
    ensures answer { TurnsBy result fuel.old fuel.new (eta_left_of env.now ctx.now fuel.old b.now other.now) }
    ensures kept { IsSpentOf fuel.old fuel.new }
{
    match applied_under(alloc, ctx, other, fuel) {
        Ok(applied) => convert_under(alloc, env, ctx, b, &b.body, &applied, Mode::Same, fuel),
        Err(stop) => Err(stop),
    }
}

/// Eta with a function on the right.
#[cycle(conversion)]
fn turn_eta_right(
    alloc: Global,
    env: &GlobalEnv,
    ctx: &Context,
    other: &Spine,
    b: &Binder,
    fuel: &mut Fuel,
) -> Result<Turned, Stop>
    requires judged { MayJudge env.now ctx.now }
    requires other { IsSide env.now ctx.now other.now }
    requires function { IsBinderIn env.now ctx.now b.now }
    ensures answer { TurnsBy result fuel.old fuel.new (eta_right_of env.now ctx.now fuel.old other.now b.now) }
    ensures kept { IsSpentOf fuel.old fuel.new }
{
    match applied_under(alloc, ctx, other, fuel) {
        Ok(applied) => convert_under(alloc, env, ctx, b, &applied, &b.body, Mode::Same, fuel),
        Err(stop) => Err(stop),
    }
}

/// A side one binder deeper, applied to the variable of that binder, for a unit.
fn applied_under(alloc: Global, ctx: &Context, side: &Spine, fuel: &mut Fuel) -> Result<Term, Stop>
    requires small { IsSpine side.now }
    requires free { free_bound (tree_of_spine side.now) ≤ length ctx.now }
    ensures answer { Builds result fuel.old fuel.new (body_of_eta (tree_of_spine side.now)) }
    ensures kept { IsSpentOf fuel.old fuel.new }
{
    let _count = ctx.len();
    if !fuel.spend(1) {
        return Err(Stop::Out(Limit::StepLimit));
    }
    let whole = term_of_spine(alloc, side)?;
    match eta_body(alloc, &whole) {
        Ok(applied) => Ok(applied),
        Err(stop) => Err(Stop::from(stop)),
    }
}

/// Conversion under a binder, whose answer ends the turn.
#[cycle(conversion)]
fn convert_under(
    alloc: Global,
    env: &GlobalEnv,
    ctx: &Context,
    b: &Binder,
    t: &Term,
    u: &Term,
    mode: Mode,
    fuel: &mut Fuel,
) -> Result<Turned, Stop>
    requires judged { MayJudge env.now ctx.now }
    requires binder { IsTermIn env.now ctx.now b.now.domain }
    requires terms { AreTermsUnder env.now ctx.now t.now u.now }
    ensures answer { TurnsBy result fuel.old fuel.new (under_of env.now ctx.now fuel.old b.now mode t.now u.now) }
    ensures kept { IsSpentOf fuel.old fuel.new }
{
    match under(alloc, ctx, b) {
        Ok(inner) => match convert(alloc, env, &inner, t, u, mode, fuel) {
            Ok(answer) => Ok(Turned::Final(answer)),
            Err(stop) => Err(stop),
        },
        Err(stop) => Err(stop),
    }
}

/// The context with what a binder binds.
fn under(alloc: Global, ctx: &Context, b: &Binder) -> Result<Context, Stop>
    requires { free_bound b.now.domain ≤ length ctx.now }
    ensures { Gives result (extended ctx.now (plain_hyp b.now.name b.now.domain)) }
{
    let name = b.name.share()?;
    let ty = b.domain.share()?;
    let hyp = Hyp {
        name,
        ty,
        value: None,
    };
    match ctx.with(alloc, hyp) {
        Ok(inner) => Ok(inner),
        Err(stop) => Err(stop),
    }
}

/// The heads tell where they are one variable or one global with equally many arguments, and these
/// are the same. Else definitions take the sides further.
#[cycle(conversion)]
fn turn_heads(
    alloc: Global,
    env: &GlobalEnv,
    ctx: &Context,
    left: &Spine,
    right: &Spine,
    fuel: &mut Fuel,
) -> Result<Turned, Stop>
    requires judged { MayJudge env.now ctx.now }
    requires left { IsSide env.now ctx.now left.now }
    requires right { IsSide env.now ctx.now right.now }
    ensures answer { TurnsBy result fuel.old fuel.new (heads_of env.now ctx.now fuel.old left.now right.now) }
    ensures kept { IsSpentOf fuel.old fuel.new }
{
    if !heads_agree(left, right) {
        return unblock(alloc, env, ctx, left, right, fuel);
    }
    match convert_all(alloc, env, ctx, &left.args, &right.args, fuel) {
        Ok(same) => {
            if same {
                return Ok(Turned::Final(true));
            }
            unblock(alloc, env, ctx, left, right, fuel)
        }
        Err(stop) => Err(stop),
    }
}

/// Arguments from the left, up to the first No.
#[cycle(conversion)]
fn convert_all(
    alloc: Global,
    env: &GlobalEnv,
    ctx: &Context,
    left: &Arguments,
    right: &Arguments,
    fuel: &mut Fuel,
) -> Result<bool, Stop>
    requires judged { MayJudge env.now ctx.now }
    requires terms { AreAllIn env.now ctx.now left.now right.now }
    ensures answer { Answers result fuel.old fuel.new (all_of env.now ctx.now fuel.old left.now right.now) }
    ensures kept { IsSpentOf fuel.old fuel.new }
{
    let mut ts = left.share()?;
    let mut us = right.share()?;
    loop {
        let Some((t, more)) = ts.split()? else {
            return Ok(true);
        };
        let Some((u, others)) = us.split()? else {
            return Ok(true);
        };
        match convert(alloc, env, ctx, &t, &u, Mode::Same, fuel) {
            Ok(true) => {
                ts = more;
                us = others;
            }
            Ok(false) => return Ok(false),
            Err(stop) => return Err(stop),
        }
    }
}
