//! The call that takes `rewrite`.
ghost use Rattle.std.specs.Prelude.{IfOk};
ghost use Rattle.coq_syntax.specs.Forms.{move_of};
ghost use Rattle.cic_rules.specs.Fuel.{left, IsSpentOf};
ghost use Rattle.cic_rules.specs.Judges.{Meets};
ghost use Rattle.proof_state.specs.Scopes.{IsGoalIn, IsFillingIn};
ghost use Rattle.move_rewrite.specs.Calls.{by_rewrite_with, run_rewrite_with};

use crate::refusals::refusal;
use crate::rewriting::rewrite;
use base_core::Stop;
use base_core::refusal_codes::NOT_BUILT;
use cic_rules::{Fuel, GlobalEnv, Judge};
use coq_syntax::{Direction, MoveForm, SurfaceTerm};
use elaborator::elab;
use proof_state::{Filling, Goal};
use std::alloc::Global;

/// What `rewrite` gives for a goal: a sketch whose holes are the new goals, the rewritten one first. It takes the units of
/// the elaboration of its term and of its row. A move of another kind is refused.
pub fn run_rewrite<J: Judge>(
    judge: &J,
    alloc: Global,
    env: &GlobalEnv,
    goal: &Goal,
    form: &MoveForm,
    fuel: &mut Fuel,
) -> Result<Filling, Stop>
    requires goal { IsGoalIn env.now goal.now }
    ensures answer { Meets result (left fuel.new) (run_rewrite_with env.now goal.now (move_of form.now) fuel.old) }
    ensures filling { IfOk result (IsFillingIn env.now goal.now.ctx) }
    ensures kept { IsSpentOf fuel.old fuel.new }
{
    match form {
        MoveForm::Rewrite {
            direction,
            term,
            ..
        } => by_rewrite(judge, alloc, env, goal, *direction, term, fuel),
        MoveForm::Intro { .. } => Err(refusal(NOT_BUILT)),
        MoveForm::Intros { .. } => Err(refusal(NOT_BUILT)),
        MoveForm::Exact { .. } => Err(refusal(NOT_BUILT)),
        MoveForm::Apply { .. } => Err(refusal(NOT_BUILT)),
        MoveForm::Assumption(_) => Err(refusal(NOT_BUILT)),
        MoveForm::Split(_) => Err(refusal(NOT_BUILT)),
        MoveForm::Left(_) => Err(refusal(NOT_BUILT)),
        MoveForm::Right(_) => Err(refusal(NOT_BUILT)),
        MoveForm::Reflexivity(_) => Err(refusal(NOT_BUILT)),
        MoveForm::Admit(_) => Err(refusal(NOT_BUILT)),
        MoveForm::Simpl(_) => Err(refusal(NOT_BUILT)),
        MoveForm::Unfold { .. } => Err(refusal(NOT_BUILT)),
        MoveForm::Destruct { .. } => Err(refusal(NOT_BUILT)),
        MoveForm::Induction { .. } => Err(refusal(NOT_BUILT)),
    }
}

/// By a written term.
fn by_rewrite<J: Judge>(
    judge: &J,
    alloc: Global,
    env: &GlobalEnv,
    goal: &Goal,
    direction: Direction,
    term: &SurfaceTerm,
    fuel: &mut Fuel,
) -> Result<Filling, Stop>
    requires goal { IsGoalIn env.now goal.now }
    ensures answer { Meets result (left fuel.new) (by_rewrite_with env.now goal.now direction term.now fuel.old) }
    ensures filling { IfOk result (IsFillingIn env.now goal.now.ctx) }
    ensures kept { IsSpentOf fuel.old fuel.new }
{
    match elab(judge, alloc, env, &goal.ctx, term, fuel) {
        Ok(t) => match rewrite(judge, alloc, env, &goal.ctx, direction, &goal.ty, t, fuel) {
            Ok(sketch) => Ok(Filling::Give(sketch)),
            Err(stop) => Err(stop),
        },
        Err(stop) => Err(stop),
    }
}
