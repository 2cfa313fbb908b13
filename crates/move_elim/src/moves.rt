//! The call that takes `destruct` and `induction`.
ghost use Rattle.std.specs.Prelude.{◌≡◌, ◌<◌, Some, length, IfOk};
ghost use Rattle.coq_syntax.specs.Forms.{move_of, pattern_of};
ghost use Rattle.cic_rules.specs.Contexts.{type_of_variable};
ghost use Rattle.cic_rules.specs.Fuel.{left, IsSpentOf};
ghost use Rattle.cic_rules.specs.Judges.{MayJudge, IsTermIn, Meets};
ghost use Rattle.proof_state.specs.Scopes.{IsGoalIn, IsFillingIn};
ghost use Rattle.move_elim.specs.Calls.{eliminate_reduced_with, eliminate_at_with, eliminate_with, elim_with, given_for};

use crate::elimination::elimination;
use crate::refusals::refusal;
use crate::subjects::{subject_of, variable_named};
use base_core::refusal_codes::{NO_HYPOTHESIS, NOT_BUILT};
use base_core::{Stop, Text};
use cic_rules::{Context, Fuel, GlobalEnv, Judge, sort_of};
use coq_syntax::{MoveForm, Pattern};
use core_term::Term;
use proof_state::{Filling, Goal, Sketch};
use std::alloc::Global;

/// What `destruct` and `induction` give for a goal: a sketch whose holes are the goals of the cases. It takes the units of
/// the reduction of the hypothesis' type and of the sort of the goal. A move of another kind is refused.
#[tactic(auto, using(crate::proofs::GoalLaws::filling_told))]
pub fn run_elim<J: Judge>(
    judge: &J,
    alloc: Global,
    env: &GlobalEnv,
    goal: &Goal,
    form: &MoveForm,
    fuel: &mut Fuel,
) -> Result<Filling, Stop>
    requires goal { IsGoalIn env.now goal.now }
    ensures answer { Meets result (left fuel.new) (elim_with env.now goal.now (move_of form.now) fuel.old) }
    ensures filling { IfOk result (IsFillingIn env.now goal.now.ctx) }
    ensures kept { IsSpentOf fuel.old fuel.new }
{
    let _globals = env.len();
    by_form(judge, alloc, env, goal, form, fuel)
}

/// The same by the form of the move.
fn by_form<J: Judge>(
    judge: &J,
    alloc: Global,
    env: &GlobalEnv,
    goal: &Goal,
    form: &MoveForm,
    fuel: &mut Fuel,
) -> Result<Filling, Stop>
    requires goal { IsGoalIn env.now goal.now }
    ensures answer { Meets result (left fuel.new) (elim_with env.now goal.now (move_of form.now) fuel.old) }
    ensures kept { IsSpentOf fuel.old fuel.new }
{
    let ctx = &goal.ctx;
    let ty = &goal.ty;
    match form {
        MoveForm::Destruct { name, pattern, .. } => filling_of(eliminate(
            judge, alloc, env, ctx, ty, false, &name.text, pattern, fuel,
        )),
        MoveForm::Induction { name, pattern, .. } => filling_of(eliminate(
            judge, alloc, env, ctx, ty, true, &name.text, pattern, fuel,
        )),
        MoveForm::Intro { .. } => Err(refusal(NOT_BUILT)),
        MoveForm::Intros { .. } => Err(refusal(NOT_BUILT)),
        MoveForm::Exact { .. } => Err(refusal(NOT_BUILT)),
        MoveForm::Apply { .. } => Err(refusal(NOT_BUILT)),
        MoveForm::Assumption(_) => Err(refusal(NOT_BUILT)),
        MoveForm::Split(_) => Err(refusal(NOT_BUILT)),
        MoveForm::Left(_) => Err(refusal(NOT_BUILT)),
        MoveForm::Right(_) => Err(refusal(NOT_BUILT)),
        MoveForm::Reflexivity(_) => Err(refusal(NOT_BUILT)),
        MoveForm::Admit(_) => Err(refusal(NOT_BUILT)),
        MoveForm::Simpl(_) => Err(refusal(NOT_BUILT)),
        MoveForm::Unfold { .. } => Err(refusal(NOT_BUILT)),
        MoveForm::Rewrite { .. } => Err(refusal(NOT_BUILT)),
    }
}

/// The hypothesis of a name, by cases or by induction.
fn eliminate<J: Judge>(
    judge: &J,
    alloc: Global,
    env: &GlobalEnv,
    ctx: &Context,
    goal: &Term,
    induction: bool,
    name: &Text,
    pattern: &Option<Pattern>,
    fuel: &mut Fuel,
) -> Result<Sketch<Goal>, Stop>
    requires judged { MayJudge env.now ctx.now }
    requires goal { IsTermIn env.now ctx.now goal.now }
    ensures answer { let run = eliminate_with env.now induction ctx.now goal.now name.now (pattern_of pattern.now) in
        Meets result (left fuel.new) (run fuel.old) }
    ensures kept { IsSpentOf fuel.old fuel.new }
{
    let Some(i) = variable_named(ctx, name) else {
        return Err(refusal(NO_HYPOTHESIS));
    };
    match ctx.type_of(alloc, i)? {
        None => Err(refusal(NO_HYPOTHESIS)),
        Some(ty) => eliminate_at(
            judge, alloc, env, ctx, goal, induction, i, &ty, pattern, fuel,
        ),
    }
}

/// The hypothesis at a place, which has this type.
#[tactic(auto, using(crate::proofs::GoalLaws::type_scoped, crate::proofs::GoalLaws::is_there))]
fn eliminate_at<J: Judge>(
    judge: &J,
    alloc: Global,
    env: &GlobalEnv,
    ctx: &Context,
    goal: &Term,
    induction: bool,
    i: u32,
    ty: &Term,
    pattern: &Option<Pattern>,
    fuel: &mut Fuel,
) -> Result<Sketch<Goal>, Stop>
    requires judged { MayJudge env.now ctx.now }
    requires goal { IsTermIn env.now ctx.now goal.now }
    requires ty { Some ty.now ≡ type_of_variable ctx.now i }
    ensures answer { let run = eliminate_at_with env.now induction ctx.now goal.now i ty.now (pattern_of pattern.now) in
        Meets result (left fuel.new) (run fuel.old) }
    ensures kept { IsSpentOf fuel.old fuel.new }
{
    match judge.whnf(alloc, env, ctx, ty, fuel) {
        Ok(reduced) => {
            eliminate_reduced(
                judge, alloc, env, ctx, goal, induction, i, &reduced, pattern, fuel,
            )
        }
        Err(stop) => Err(stop),
    }
}

/// The same of a type that is reduced.
#[tactic(auto, using(crate::proofs::TermParts::is_subject, crate::proofs::TermParts::is_small_subject))]
fn eliminate_reduced<J: Judge>(
    judge: &J,
    alloc: Global,
    env: &GlobalEnv,
    ctx: &Context,
    goal: &Term,
    induction: bool,
    i: u32,
    ty: &Term,
    pattern: &Option<Pattern>,
    fuel: &mut Fuel,
) -> Result<Sketch<Goal>, Stop>
    requires judged { MayJudge env.now ctx.now }
    requires goal { IsTermIn env.now ctx.now goal.now }
    requires variable { i < length ctx.now }
    requires ty { IsTermIn env.now ctx.now ty.now }
    ensures answer { let run = eliminate_reduced_with env.now induction ctx.now goal.now i ty.now in
        Meets result (left fuel.new) (run (pattern_of pattern.now) fuel.old) }
    ensures kept { IsSpentOf fuel.old fuel.new }
{
    let _depth = ty.depth();
    match subject_of(alloc, env, ctx, i, ty) {
        Ok(x) => match sort_of(judge, alloc, env, ctx, goal, fuel) {
            Ok(sort) => elimination(alloc, env, ctx, goal, &x, induction, pattern, sort.sort),
            Err(stop) => Err(stop),
        },
        Err(stop) => Err(stop),
    }
}

/// What is given for a goal, where a sketch was found.
fn filling_of(sketch: Result<Sketch<Goal>, Stop>) -> Result<Filling, Stop>
    ensures { result ≡ given_for sketch }
{
    match sketch {
        Ok(sketch) => Ok(Filling::Give(sketch)),
        Err(stop) => Err(stop),
    }
}
