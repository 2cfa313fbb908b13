//! The goals of a proof under way, as they are shown.
ghost use Rattle.std.specs.Prelude.{◌≡◌, [], ◌++◌, IfOk, OnOk};
ghost use Rattle.proof_state.specs.Steps.{goal_at};
ghost use Rattle.vernac_exec.specs.Views.{printed_value, hyp_view, with_hyp_view, hyp_views, goal_view, with_goal_view, goal_views, level_views, proof_view, goals_of};

use crate::contexts::extend;
use crate::state::{OpenProof, ProverState};
use base_core::{NoMem, Text};
use bullet_focus::{Focus, GoalStack};
use cic_rules::{Context, GlobalEnv, Hyp};
use core_term::Term;
use proof_state::{Goal, ProofState};
use prover_iface::{GoalView, GoalsView, HypView, HypViewList, LevelList, ViewList};
use shared_map::SharedList;
use std::alloc::Global;
use term_print::print_term;

impl ProverState {
    /// The goals of the proof under way, as they are shown.
    pub fn goals(&self, alloc: Global) -> Result<Option<GoalsView>, NoMem>
        ensures { IfOk result (λ goals. goals ≡ goals_of self.now.env self.now.opened) }
    {
        match &self.state.opened {
            Some(open) => Ok(Some(proof_view(alloc, &self.state.env, open)?)),
            None => Ok(None),
        }
    }
}

fn proof_view(alloc: Global, env: &GlobalEnv, open: &OpenProof) -> Result<GoalsView, NoMem>
    ensures { IfOk result (λ view. view ≡ proof_view env.now open.now) }
{
    let goals = stack_views(alloc, env, &open.proof, open.focus.focused())?;
    let stack = level_views(alloc, env, &open.proof, &open.focus)?;
    let given_up = given_up_views(alloc, env, &open.proof)?;
    Ok(GoalsView {
        goals,
        stack,
        given_up,
    })
}

/// The goals that wait in each level, the innermost first.
fn level_views(
    alloc: Global,
    env: &GlobalEnv,
    proof: &ProofState,
    focus: &Focus,
) -> Result<LevelList, NoMem>
    ensures { IfOk result (λ views. views ≡ level_views env.now proof.now.goals focus.now.levels) }
{
    let mut views = LevelList::new(alloc);
    for level in 0..focus.levels() {
        views.push(stack_views(alloc, env, proof, focus.waiting(level))?)?;
    }
    Ok(views)
}

/// The goals of these numbers.
fn stack_views(
    alloc: Global,
    env: &GlobalEnv,
    proof: &ProofState,
    numbers: &GoalStack,
) -> Result<ViewList, NoMem>
    ensures { IfOk result (λ views. views ≡ goal_views env.now proof.now.goals numbers.now) }
{
    let mut views = ViewList::new(alloc);
    for at in 0..numbers.len() {
        let Some(n) = numbers.get(at) else {
            unreachable!()
        };
        add_goal(alloc, env, proof, *n, &mut views)?;
    }
    Ok(views)
}

/// Puts the goal of a number behind others, where it is there.
fn add_goal(
    alloc: Global,
    env: &GlobalEnv,
    proof: &ProofState,
    n: u32,
    views: &mut ViewList,
) -> Result<(), NoMem>
    ensures { OnOk result (views.new ≡ views.old ++ with_goal_view env.now (goal_at proof.now.goals n) []) }
{
    match proof.goal(n) {
        Some(goal) => {
            views.push(goal_view(alloc, env, goal)?)?;
            Ok(())
        }
        None => Ok(()),
    }
}

/// The goals of these numbers, in a list that is shared.
fn listed_views(
    alloc: Global,
    env: &GlobalEnv,
    proof: &ProofState,
    numbers: &SharedList<u32>,
) -> Result<ViewList, NoMem>
    ensures { IfOk result (λ views. views ≡ goal_views env.now proof.now.goals numbers.now) }
{
    let mut views = ViewList::new(alloc);
    for at in 0..numbers.len() {
        let Some(n) = numbers.get(at) else {
            unreachable!()
        };
        add_goal(alloc, env, proof, *n, &mut views)?;
    }
    Ok(views)
}

/// The goals that were given up.
fn given_up_views(alloc: Global, env: &GlobalEnv, proof: &ProofState) -> Result<ViewList, NoMem>
    ensures { IfOk result (λ views. views ≡ goal_views env.now proof.now.goals proof.now.given_up) }
{
    listed_views(alloc, env, proof, proof.given_up())
}

fn goal_view(alloc: Global, env: &GlobalEnv, goal: &Goal) -> Result<GoalView, NoMem>
    ensures { IfOk result (λ view. view ≡ goal_view env.now goal.now) }
{
    let hyps = hyp_views(alloc, env, &goal.ctx)?;
    let ty = print_term(alloc, env, &goal.ctx, &goal.ty)?;
    Ok(GoalView { hyps, ty })
}

/// Hypotheses, the oldest first. Each is printed in the context of those before it.
fn hyp_views(alloc: Global, env: &GlobalEnv, ctx: &Context) -> Result<HypViewList, NoMem>
    ensures { IfOk result (λ views. views ≡ hyp_views env.now ctx.now) }
{
    let mut views = HypViewList::new(alloc);
    let mut older = Context::empty();
    let mut at = ctx.len();
    while at > 0 {
        at -= 1;
        let Some(hyp) = ctx.get(at) else {
            unreachable!()
        };
        add_hyp(alloc, env, &older, hyp, &mut views)?;
        older = extend(alloc, &older, hyp.name.share()?, hyp)?;
    }
    Ok(views)
}

/// Puts a hypothesis behind others. One that was taken away isn't shown.
fn add_hyp(
    alloc: Global,
    env: &GlobalEnv,
    ctx: &Context,
    hyp: &Hyp,
    views: &mut HypViewList,
) -> Result<(), NoMem>
    ensures { OnOk result (views.new ≡ with_hyp_view env.now ctx.now hyp.now views.old) }
{
    if hyp.name.as_str() != "_" {
        views.push(hyp_view(alloc, env, ctx, hyp)?)?;
    }
    Ok(())
}

/// A hypothesis behind these.
fn hyp_view(alloc: Global, env: &GlobalEnv, ctx: &Context, hyp: &Hyp) -> Result<HypView, NoMem>
    ensures { IfOk result (λ view. view ≡ hyp_view env.now ctx.now hyp.now) }
{
    let name = hyp.name.share()?;
    let ty = print_term(alloc, env, ctx, &hyp.ty)?;
    let value = printed_value(alloc, env, ctx, &hyp.value)?;
    Ok(HypView { name, ty, value })
}

fn printed_value(
    alloc: Global,
    env: &GlobalEnv,
    ctx: &Context,
    value: &Option<Term>,
) -> Result<Option<Text>, NoMem>
    ensures { IfOk result (λ text. text ≡ printed_value env.now ctx.now value.now) }
{
    match value {
        Some(t) => Ok(Some(print_term(alloc, env, ctx, t)?)),
        None => Ok(None),
    }
}
