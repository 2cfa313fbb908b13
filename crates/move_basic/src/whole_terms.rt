//! A term for the whole goal: one that is given, or a hypothesis.
ghost use Rattle.std.specs.Prelude.{◌≡◌, Some, slice_get, IfOk};
ghost use Rattle.cic_rules.specs.Fuel.{left, IsSpentOf};
ghost use Rattle.cic_rules.specs.Judges.{MayJudge, IsTermIn, Meets};
ghost use Rattle.proof_state.specs.Scopes.{IsSketchIn};
ghost use Rattle.move_basic.specs.Calls.{exact_with, tried_with, assumption_with};

use crate::refusals::refusal;
use base_core::Stop;
use base_core::refusal_codes::NO_ASSUMPTION;
use cic_rules::{Context, Fuel, GlobalEnv, Hyp, Judge, Mode, check, converts};
use core_term::Term;
use proof_state::{Goal, Sketch};
use std::alloc::Global;

/// `exact`.
pub(crate) fn exact<J: Judge>(
    judge: &J,
    alloc: Global,
    env: &GlobalEnv,
    ctx: &Context,
    ty: &Term,
    t: Term,
    fuel: &mut Fuel,
) -> Result<Sketch<Goal>, Stop>
    requires judged { MayJudge env.now ctx.now }
    requires goal { IsTermIn env.now ctx.now ty.now }
    ensures answer { Meets result (left fuel.new) (exact_with env.now ctx.now ty.now t fuel.old) }
    ensures sketch { IfOk result (IsSketchIn env.now ctx.now) }
    ensures kept { IsSpentOf fuel.old fuel.new }
{
    match check(judge, alloc, env, ctx, &t, ty, fuel) {
        Ok(_) => Ok(Sketch::ready(t)),
        Err(stop) => Err(stop),
    }
}

/// `assumption`: the newest hypothesis that has the type.
pub(crate) fn assumption<J: Judge>(
    judge: &J,
    alloc: Global,
    env: &GlobalEnv,
    ctx: &Context,
    ty: &Term,
    fuel: &mut Fuel,
) -> Result<Sketch<Goal>, Stop>
    requires judged { MayJudge env.now ctx.now }
    requires goal { IsTermIn env.now ctx.now ty.now }
    ensures answer { Meets result (left fuel.new) (assumption_with env.now ctx.now ty.now fuel.old) }
    ensures sketch { IfOk result (IsSketchIn env.now ctx.now) }
    ensures kept { IsSpentOf fuel.old fuel.new }
{
    let count = ctx.len();
    for i in 0..count {
        let Some(hyp) = ctx.get(i) else {
            unreachable!()
        };
        match tried(judge, alloc, env, ctx, ty, i, hyp, fuel) {
            Ok(true) => {
                let found = Term::var(alloc, i)?;
                return Ok(Sketch::ready(found));
            }
            Ok(false) => {}
            Err(stop) => return Err(stop),
        }
    }
    Err(refusal(NO_ASSUMPTION))
}

/// Whether a hypothesis has the type. One that was taken away isn't tried.
#[tactic(auto, using(crate::proofs::Hypotheses::type_scoped))]
fn tried<J: Judge>(
    judge: &J,
    alloc: Global,
    env: &GlobalEnv,
    ctx: &Context,
    ty: &Term,
    i: u32,
    hyp: &Hyp,
    fuel: &mut Fuel,
) -> Result<bool, Stop>
    requires judged { MayJudge env.now ctx.now }
    requires goal { IsTermIn env.now ctx.now ty.now }
    requires hyp { slice_get ctx.now i ≡ Some hyp.now }
    ensures answer { Meets result (left fuel.new) (tried_with env.now ctx.now ty.now i hyp.now fuel.old) }
    ensures kept { IsSpentOf fuel.old fuel.new }
{
    if hyp.name.as_str() == "_" {
        return Ok(false);
    }
    let Some(own) = ctx.type_of(alloc, i)? else {
        unreachable!()
    };
    converts(judge, alloc, env, ctx, &own, ty, Mode::Same, fuel)
}
