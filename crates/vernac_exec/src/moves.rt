//! What a proof move gives for a goal, by the crate of its kind.
ghost use Rattle.std.specs.Prelude.{IfOk};
ghost use Rattle.coq_syntax.specs.Forms.{move_of};
ghost use Rattle.cic_rules.specs.Fuel.{IsSpentOf};
ghost use Rattle.proof_state.specs.Scopes.{IsGoalIn, IsFillingIn};
ghost use Rattle.vernac_exec.specs.Calls.{Does, run_move_with};

use base_core::Stop;
use cic_rules::{Fuel, GlobalEnv, Judge};
use coq_syntax::MoveForm;
use move_basic::run_basic;
use move_compute::run_compute;
use move_elim::run_elim;
use move_rewrite::run_rewrite;
use proof_state::{Filling, Goal};
use std::alloc::Global;

/// What a proof move gives for a goal.
pub(crate) fn run_move<J: Judge>(
    judge: &J,
    alloc: Global,
    env: &GlobalEnv,
    goal: &Goal,
    form: &MoveForm,
    fuel: &mut Fuel,
) -> Result<Filling, Stop>
    requires goal { IsGoalIn env.now goal.now }
    ensures answer { Does result fuel.old fuel.new (run_move_with env.now goal.now (move_of form.now)) }
    ensures filling { IfOk result (IsFillingIn env.now goal.now.ctx) }
    ensures kept { IsSpentOf fuel.old fuel.new }
{
    match form {
        MoveForm::Destruct { .. } => run_elim(judge, alloc, env, goal, form, fuel),
        MoveForm::Induction { .. } => run_elim(judge, alloc, env, goal, form, fuel),
        MoveForm::Rewrite { .. } => run_rewrite(judge, alloc, env, goal, form, fuel),
        MoveForm::Simpl(_) => run_compute(alloc, env, goal, form, fuel),
        MoveForm::Unfold { .. } => run_compute(alloc, env, goal, form, fuel),
        MoveForm::Intro { .. } => run_basic(judge, alloc, env, goal, form, fuel),
        MoveForm::Intros { .. } => run_basic(judge, alloc, env, goal, form, fuel),
        MoveForm::Exact { .. } => run_basic(judge, alloc, env, goal, form, fuel),
        MoveForm::Apply { .. } => run_basic(judge, alloc, env, goal, form, fuel),
        MoveForm::Assumption(_) => run_basic(judge, alloc, env, goal, form, fuel),
        MoveForm::Split(_) => run_basic(judge, alloc, env, goal, form, fuel),
        MoveForm::Left(_) => run_basic(judge, alloc, env, goal, form, fuel),
        MoveForm::Right(_) => run_basic(judge, alloc, env, goal, form, fuel),
        MoveForm::Reflexivity(_) => run_basic(judge, alloc, env, goal, form, fuel),
        MoveForm::Admit(_) => run_basic(judge, alloc, env, goal, form, fuel),
    }
}
