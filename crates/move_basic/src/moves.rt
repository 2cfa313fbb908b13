//! The call that takes a basic proof move.
ghost use Rattle.std.specs.Prelude.{◌≡◌, IfOk};
ghost use Rattle.coq_syntax.specs.Forms.{move_of};
ghost use Rattle.cic_rules.specs.Fuel.{left, IsSpentOf};
ghost use Rattle.cic_rules.specs.Judges.{Meets};
ghost use Rattle.proof_state.specs.Scopes.{IsGoalIn, IsFillingIn};
ghost use Rattle.move_basic.specs.Moves.{filling_of};
ghost use Rattle.move_basic.specs.Calls.{by_exact_with, by_apply_with, basic_with};

use crate::applying::apply;
use crate::constructing::construct;
use crate::equality::reflexivity;
use crate::introduction::{intro, intros};
use crate::refusals::refusal;
use crate::whole_terms::{assumption, exact};
use base_core::Stop;
use base_core::refusal_codes::{NOT_BUILT, NOT_ONE_CONSTRUCTOR, NOT_TWO_CONSTRUCTORS};
use cic_rules::{Fuel, GlobalEnv, Judge};
use coq_syntax::{MoveForm, SurfaceTerm};
use elaborator::elab;
use proof_state::{Filling, Goal, Sketch};
use std::alloc::Global;

/// What a move gives for a goal: a sketch whose holes are the new goals, or that the goal is given up. It takes the units of
/// the elaboration of its term, where it has one, and of its row. A move that is not among the basic ones is refused.
pub fn run_basic<J: Judge>(
    judge: &J,
    alloc: Global,
    env: &GlobalEnv,
    goal: &Goal,
    form: &MoveForm,
    fuel: &mut Fuel,
) -> Result<Filling, Stop>
    requires goal { IsGoalIn env.now goal.now }
    ensures answer { Meets result (left fuel.new) (basic_with env.now goal.now (move_of form.now) fuel.old) }
    ensures filling { IfOk result (IsFillingIn env.now goal.now.ctx) }
    ensures kept { IsSpentOf fuel.old fuel.new }
{
    let ctx = &goal.ctx;
    let ty = &goal.ty;
    match form {
        MoveForm::Intro { name, .. } => filling_of(intro(judge, alloc, env, ctx, ty, name, fuel)),
        MoveForm::Intros { names, .. } => filling_of(intros(
            judge,
            alloc,
            env,
            ctx,
            ty,
            names.as_slice(),
            fuel,
        )),
        MoveForm::Exact { term, .. } => by_exact(judge, alloc, env, goal, term, fuel),
        MoveForm::Apply { term, .. } => by_apply(judge, alloc, env, goal, term, fuel),
        MoveForm::Assumption(_) => filling_of(assumption(judge, alloc, env, ctx, ty, fuel)),
        MoveForm::Split(_) => filling_of(construct(
            judge,
            alloc,
            env,
            ctx,
            ty,
            1,
            0,
            NOT_ONE_CONSTRUCTOR,
            fuel,
        )),
        MoveForm::Left(_) => filling_of(construct(
            judge,
            alloc,
            env,
            ctx,
            ty,
            2,
            0,
            NOT_TWO_CONSTRUCTORS,
            fuel,
        )),
        MoveForm::Right(_) => filling_of(construct(
            judge,
            alloc,
            env,
            ctx,
            ty,
            2,
            1,
            NOT_TWO_CONSTRUCTORS,
            fuel,
        )),
        MoveForm::Reflexivity(_) => filling_of(reflexivity(judge, alloc, env, ctx, ty, fuel)),
        MoveForm::Admit(_) => Ok(Filling::Admit),
        MoveForm::Simpl(_) => Err(refusal(NOT_BUILT)),
        MoveForm::Unfold { .. } => Err(refusal(NOT_BUILT)),
        MoveForm::Destruct { .. } => Err(refusal(NOT_BUILT)),
        MoveForm::Induction { .. } => Err(refusal(NOT_BUILT)),
        MoveForm::Rewrite { .. } => Err(refusal(NOT_BUILT)),
    }
}

/// `exact` of a written term.
fn by_exact<J: Judge>(
    judge: &J,
    alloc: Global,
    env: &GlobalEnv,
    goal: &Goal,
    term: &SurfaceTerm,
    fuel: &mut Fuel,
) -> Result<Filling, Stop>
    requires goal { IsGoalIn env.now goal.now }
    ensures answer { Meets result (left fuel.new) (by_exact_with env.now goal.now term.now fuel.old) }
    ensures filling { IfOk result (IsFillingIn env.now goal.now.ctx) }
    ensures kept { IsSpentOf fuel.old fuel.new }
{
    match elab(judge, alloc, env, &goal.ctx, term, fuel) {
        Ok(t) => match exact(judge, alloc, env, &goal.ctx, &goal.ty, t, fuel) {
            Ok(sketch) => Ok(Filling::Give(sketch)),
            Err(stop) => Err(stop),
        },
        Err(stop) => Err(stop),
    }
}

/// `apply` of a written term.
fn by_apply<J: Judge>(
    judge: &J,
    alloc: Global,
    env: &GlobalEnv,
    goal: &Goal,
    term: &SurfaceTerm,
    fuel: &mut Fuel,
) -> Result<Filling, Stop>
    requires goal { IsGoalIn env.now goal.now }
    ensures answer { Meets result (left fuel.new) (by_apply_with env.now goal.now term.now fuel.old) }
    ensures filling { IfOk result (IsFillingIn env.now goal.now.ctx) }
    ensures kept { IsSpentOf fuel.old fuel.new }
{
    match elab(judge, alloc, env, &goal.ctx, term, fuel) {
        Ok(t) => match apply(judge, alloc, env, &goal.ctx, &goal.ty, t, fuel) {
            Ok(sketch) => Ok(Filling::Give(sketch)),
            Err(stop) => Err(stop),
        },
        Err(stop) => Err(stop),
    }
}

/// What is given for a goal, where a sketch was found.
fn filling_of(sketch: Result<Sketch<Goal>, Stop>) -> Result<Filling, Stop>
    ensures { result ≡ filling_of sketch }
{
    match sketch {
        Ok(sketch) => Ok(Filling::Give(sketch)),
        Err(stop) => Err(stop),
    }
}
