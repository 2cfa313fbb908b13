//! The call that takes `simpl` and `unfold`.
ghost use Rattle.std.specs.Prelude.{◌≡◌, ℕ, IfOk};
ghost use Rattle.coq_syntax.specs.Forms.{move_of};
ghost use Rattle.cic_rules.specs.Fuel.{left, IsSpentOf};
ghost use Rattle.cic_rules.specs.Judges.{Meets};
ghost use Rattle.proof_state.specs.Partial.{Hole};
ghost use Rattle.proof_state.specs.Scopes.{IsGoalIn, IsFillingIn};
ghost use Rattle.move_compute.specs.Calls.{by_simpl_with, compute_with};
ghost use Rattle.move_compute.specs.Moves.{by_unfold as unfolds};

use crate::refusals::refusal;
use crate::simplification::simpl;
use crate::unfold_move::unfold;
use base_core::refusal_codes::NOT_BUILT;
use base_core::{NoMem, Stop, Text};
use cic_rules::{Fuel, GlobalEnv};
use coq_syntax::MoveForm;
use core_term::Term;
use proof_state::{Filling, Goal, Sketch};
use std::alloc::Global;

/// What `simpl` or `unfold` gives for a goal: a sketch that is one hole, the goal with another type. `simpl` takes the units of
/// its row, and `unfold` none. A move of another kind is refused.
pub fn run_compute(
    alloc: Global,
    env: &GlobalEnv,
    goal: &Goal,
    form: &MoveForm,
    fuel: &mut Fuel,
) -> Result<Filling, Stop>
    requires goal { IsGoalIn env.now goal.now }
    ensures answer { Meets result (left fuel.new) (compute_with env.now goal.now (move_of form.now) fuel.old) }
    ensures filling { IfOk result (IsFillingIn env.now goal.now.ctx) }
    ensures kept { IsSpentOf fuel.old fuel.new }
{
    match form {
        MoveForm::Simpl(_) => by_simpl(alloc, env, goal, fuel),
        MoveForm::Unfold { name, .. } => by_unfold(alloc, env, goal, &name.text),
        MoveForm::Intro { .. } => Err(refusal(NOT_BUILT)),
        MoveForm::Intros { .. } => Err(refusal(NOT_BUILT)),
        MoveForm::Exact { .. } => Err(refusal(NOT_BUILT)),
        MoveForm::Apply { .. } => Err(refusal(NOT_BUILT)),
        MoveForm::Assumption(_) => Err(refusal(NOT_BUILT)),
        MoveForm::Split(_) => Err(refusal(NOT_BUILT)),
        MoveForm::Left(_) => Err(refusal(NOT_BUILT)),
        MoveForm::Right(_) => Err(refusal(NOT_BUILT)),
        MoveForm::Reflexivity(_) => Err(refusal(NOT_BUILT)),
        MoveForm::Admit(_) => Err(refusal(NOT_BUILT)),
        MoveForm::Destruct { .. } => Err(refusal(NOT_BUILT)),
        MoveForm::Induction { .. } => Err(refusal(NOT_BUILT)),
        MoveForm::Rewrite { .. } => Err(refusal(NOT_BUILT)),
    }
}

/// `simpl`: the goal with its type reduced, also where nothing changes.
#[tactic(auto, using(crate::proofs::SimplMoves::goal_simplified))]
fn by_simpl(alloc: Global, env: &GlobalEnv, goal: &Goal, fuel: &mut Fuel) -> Result<Filling, Stop>
    requires goal { IsGoalIn env.now goal.now }
    ensures answer { Meets result (left fuel.new) (by_simpl_with env.now goal.now fuel.old) }
    ensures filling { IfOk result (IsFillingIn env.now goal.now.ctx) }
    ensures kept { IsSpentOf fuel.old fuel.new }
{
    let _globals = env.len();
    let vars = goal.ctx.len();
    match simpl(alloc, env, &goal.ty, vars, fuel) {
        Ok(ty) => {
            let filling = with_type(goal, ty)?;
            Ok(filling)
        }
        Err(stop) => Err(stop),
    }
}

/// `unfold`: the goal with the definition's body in its place. Refused are a name that is no transparent definition, and then one
/// that isn't in the goal.
fn by_unfold(alloc: Global, env: &GlobalEnv, goal: &Goal, name: &Text) -> Result<Filling, Stop>
    requires goal { IsGoalIn env.now goal.now }
    ensures answer { (units : ℕ) → Meets result units (unfolds env.now goal.now name.now units) }
    ensures filling { IfOk result (IsFillingIn env.now goal.now.ctx) }
{
    match unfold(alloc, env, &goal.ctx, name, &goal.ty) {
        Ok(ty) => {
            let filling = with_type(goal, ty)?;
            Ok(filling)
        }
        Err(stop) => Err(stop),
    }
}

/// A hole for the goal with another type.
fn with_type(goal: &Goal, ty: Term) -> Result<Filling, NoMem>
    ensures { IfOk result (λ f. f ≡ Filling.Give (Hole (record { ctx = goal.now.ctx; ty = ty }))) }
{
    let ctx = goal.ctx.share()?;
    Ok(Filling::Give(Sketch::hole(Goal { ctx, ty })))
}
