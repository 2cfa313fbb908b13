//! The sentences in a proof under way: commands, proof moves, bullets and braces.
ghost use Rattle.std.specs.Prelude.{◌≡◌, ◌^◌, ◌<◌, [], false, Ok, Some, All, IfOk, IfSome};
ghost use Rattle.std.specs.Option.{option_copied};
ghost use Rattle.base_core.specs.Answers.{Gives};
ghost use Rattle.cic_rules.specs.Fuel.{IsSpentOf};
ghost use Rattle.cic_rules.specs.Judges.{MayJudge};
ghost use Rattle.coq_syntax.specs.Forms.{move_of};
ghost use Rattle.proof_state.specs.IsProof.{IsProof};
ghost use Rattle.proof_state.specs.Scopes.{HaveGoalsIn, IsGoalIn};
ghost use Rattle.proof_state.specs.Steps.{unsolved_at};
ghost use Rattle.vernac_exec.specs.Proofs.{first_number, unsolved_by, context_in_focus, abandoned_if, all_abandoned, refocused, told_of_filling, has_unsolved};
ghost use Rattle.vernac_exec.specs.Standing.{IsDeedIn};
ghost use Rattle.vernac_exec.specs.Calls.{Does, prove_at_with, prove_with, closed_with, end_with, inside_with};

use crate::commands::check;
use crate::deed::{CodeList, Deed};
use crate::entering::{declare_as, refusal};
use crate::moves::run_move;
use crate::state::OpenProof;
use base_core::refusal_codes::{ADMITTED_GOALS, GOAL_ADMITTED, GOALS_REMAIN, NO_GOAL, PROOF_OPEN};
use base_core::{NoMem, Stop};
use bullet_focus::Focused;
use cic_rules::{Context, Decl, Declares, Fuel, GlobalEnv, Judge};
use coq_syntax::{Command, CommandForm, MoveForm};
use proof_state::{Filling, Goal, ProofState};
use prover_iface::ItemKind;
use std::alloc::Global;

/// The number of the first goal in focus.
fn first_number(open: &OpenProof) -> Option<u32>
    ensures { result ≡ first_number open.now }
{
    open.focus.focused().get(0).copied()
}

/// The first goal in focus.
#[tactic(auto, using(crate::proofs::ProvingLaws::focus_in))]
fn goal_in_focus<'a>(env: &GlobalEnv, open: &'a OpenProof) -> Option<&'a Goal>
    requires { HaveGoalsIn env.now open.now.proof.goals }
    ensures found { option_copied result ≡ unsolved_by open.now.proof.goals (first_number open.now) }
    ensures goal { IfSome result (λ g. MayJudge env.now g.now.ctx) }
{
    match first_number(open) {
        Some(n) => open.proof.unsolved(n),
        None => None,
    }
}

/// The context of the first goal in focus; the empty one where none is.
fn context_in_focus(env: &GlobalEnv, open: &OpenProof) -> Result<Context, NoMem>
    requires { HaveGoalsIn env.now open.now.proof.goals }
    ensures context { IfOk result (λ ctx. ctx ≡ context_in_focus open.now) }
    ensures judged { IfOk result (λ ctx. MayJudge env.now ctx) }
{
    match goal_in_focus(env, open) {
        Some(goal) => goal.ctx.share(),
        None => Ok(Context::empty()),
    }
}

/// Gives a goal up, where it is unsolved.
#[tactic(auto, using(crate::proofs::ProvingLaws::may_admit))]
fn abandon(alloc: Global, env: &GlobalEnv, proof: &ProofState, n: u32) -> Result<ProofState, Stop>
    requires { HaveGoalsIn env.now proof.now.goals }
    ensures proof { Gives result (Ok (abandoned_if (unsolved_at proof.now.goals n) n proof.now)) }
    ensures goals { IfOk result (λ p. HaveGoalsIn env.now p.goals) }
{
    match proof.unsolved(n) {
        Some(_) => {
            let refined = proof.refine(alloc, n, Filling::Admit)?;
            Ok(refined.proof)
        }
        None => Ok(proof.share()?),
    }
}

/// Gives these goals up, one after another, where they are unsolved.
fn all_abandoned(
    alloc: Global,
    env: &GlobalEnv,
    proof: &ProofState,
    numbers: &[u32],
) -> Result<ProofState, Stop>
    requires { HaveGoalsIn env.now proof.now.goals }
    ensures proof { Gives result (Ok (all_abandoned numbers.now proof.now)) }
    ensures goals { IfOk result (λ p. HaveGoalsIn env.now p.goals) }
{
    let mut behind = proof.share()?;
    for n in numbers {
        behind = abandon(alloc, env, &behind, *n)?;
    }
    Ok(behind)
}

/// Small numbers as numbers of refusals.
fn codes(alloc: Global, numbers: &[u32]) -> Result<CodeList, NoMem>
    requires { All (λ n. n < 2 ^ 16) numbers.now }
    ensures { IfOk result (λ codes. codes ≡ numbers.now) }
{
    let mut codes = CodeList::new(alloc);
    for n in numbers {
        codes.push(*n as u16)?;
    }
    Ok(codes)
}

/// What a bullet or a brace does, where the focus is then so.
pub(crate) fn refocused(
    alloc: Global,
    env: &GlobalEnv,
    open: &OpenProof,
    step: Focused,
) -> Result<Deed, Stop>
    requires goals { HaveGoalsIn env.now open.now.proof.goals }
    requires small { All (λ n. n < 2 ^ 16) step.refusals }
    ensures deed { Gives result (Ok (refocused open.now step)) }
    ensures goals { IfOk result (IsDeedIn env.now) }
{
    let proof = all_abandoned(alloc, env, &open.proof, step.admitted.as_slice())?;
    let told = codes(alloc, step.refusals.as_slice())?;
    Ok(Deed::GoesOn {
        proof,
        focus: step.focus,
        told,
    })
}

/// What is told where a move does so.
fn told_of_filling(alloc: Global, by: &Filling) -> Result<CodeList, NoMem>
    ensures { IfOk result (λ codes. codes ≡ told_of_filling by.now) }
{
    let mut codes = CodeList::new(alloc);
    if let Filling::Admit = by {
        codes.push(GOAL_ADMITTED)?;
    }
    Ok(codes)
}

/// A proof move at a goal in focus.
#[tactic(auto, using(crate::proofs::ProvingLaws::may_fill, crate::proofs::ProvingLaws::has_first))]
fn prove_at<J: Judge>(
    judge: &J,
    alloc: Global,
    env: &GlobalEnv,
    open: &OpenProof,
    number: u32,
    goal: &Goal,
    form: &MoveForm,
    fuel: &mut Fuel,
) -> Result<Deed, Stop>
    requires goals { HaveGoalsIn env.now open.now.proof.goals }
    requires goal { IsGoalIn env.now goal.now }
    requires there { unsolved_at open.now.proof.goals number ≡ Some goal.now }
    requires focused { first_number open.now ≡ Some number }
    ensures answer { Does result fuel.old fuel.new (prove_at_with env.now open.now number goal.now (move_of form.now)) }
    ensures deed { IfOk result (IsDeedIn env.now) }
    ensures kept { IsSpentOf fuel.old fuel.new }
{
    let by = run_move(judge, alloc, env, goal, form, fuel)?;
    let told = told_of_filling(alloc, &by)?;
    let refined = open.proof.refine(alloc, number, by)?;
    let focus = open.focus.replace_first(alloc, &refined.goals)?;
    Ok(Deed::GoesOn {
        proof: refined.proof,
        focus,
        told,
    })
}

/// A proof move.
pub(crate) fn prove<J: Judge>(
    judge: &J,
    alloc: Global,
    env: &GlobalEnv,
    open: &OpenProof,
    form: &MoveForm,
    fuel: &mut Fuel,
) -> Result<Deed, Stop>
    requires { HaveGoalsIn env.now open.now.proof.goals }
    ensures answer { Does result fuel.old fuel.new (prove_with env.now open.now (move_of form.now)) }
    ensures deed { IfOk result (IsDeedIn env.now) }
    ensures kept { IsSpentOf fuel.old fuel.new }
{
    let Some(number) = first_number(open) else {
        return Err(refusal(NO_GOAL));
    };
    let Some(goal) = open.proof.unsolved(number) else {
        return Err(refusal(NO_GOAL));
    };
    prove_at(judge, alloc, env, open, number, goal, form, fuel)
}

/// Whether a goal is unsolved. It looks at every goal.
#[tactic(auto, using(crate::proofs::ProvingLaws::unsolved_found, crate::proofs::ProvingLaws::none_unsolved_here))]
fn has_unsolved(proof: &ProofState) -> bool
    ensures { result ≡ has_unsolved proof.now.goals }
{
    for n in 0..proof.goal_count() {
        if proof.unsolved(n as u32).is_some() {
            return true;
        }
    }
    false
}

/// A proof without goals goes to the kernel.
#[tactic(auto, using(crate::proofs::ProvingLaws::whole_where_none))]
fn close<D: Declares>(
    judge: &D,
    alloc: Global,
    env: &GlobalEnv,
    open: &OpenProof,
    opaque: bool,
    fuel: &mut Fuel,
) -> Result<Deed, Stop>
    requires proof { IsProof open.now.proof }
    requires solved { has_unsolved open.now.proof.goals ≡ false }
    requires none { open.now.proof.given_up ≡ [] }
    ensures answer { Does result fuel.old fuel.new (closed_with env.now opaque open.now) }
    ensures deed { IfOk result (IsDeedIn env.now) }
    ensures kept { IsSpentOf fuel.old fuel.new }
{
    let body = open.proof.close(alloc)?;
    let name = open.theorem.name.share()?;
    let ty = open.theorem.ty.share()?;
    let decl = Decl::Define {
        name,
        ty: Some(ty),
        body,
        opaque,
    };
    declare_as(judge, alloc, env, ItemKind::Theorem, &decl, fuel)
}

/// `Qed` or `Defined`.
#[tactic(auto, using(crate::proofs::ProvingLaws::none_given_up))]
fn end_proof<D: Declares>(
    judge: &D,
    alloc: Global,
    env: &GlobalEnv,
    open: &OpenProof,
    opaque: bool,
    fuel: &mut Fuel,
) -> Result<Deed, Stop>
    ensures answer { Does result fuel.old fuel.new (end_with env.now opaque open.now) }
    ensures deed { IfOk result (IsDeedIn env.now) }
    ensures kept { IsSpentOf fuel.old fuel.new }
{
    if has_unsolved(&open.proof) {
        return Err(refusal(GOALS_REMAIN));
    }
    if open.proof.given_up().len() > 0 {
        return Err(refusal(ADMITTED_GOALS));
    }
    close(judge, alloc, env, open, opaque, fuel)
}

/// A command in a proof under way.
#[tactic(auto, unfolding(crate::specs::Proofs::obey_inside))]
pub(crate) fn obey_inside<D: Declares>(
    judge: &D,
    alloc: Global,
    env: &GlobalEnv,
    open: &OpenProof,
    command: &Command,
    fuel: &mut Fuel,
) -> Result<Deed, Stop>
    requires { HaveGoalsIn env.now open.now.proof.goals }
    ensures answer { Does result fuel.old fuel.new (inside_with env.now open.now command.now) }
    ensures deed { IfOk result (IsDeedIn env.now) }
    ensures kept { IsSpentOf fuel.old fuel.new }
{
    match command.form() {
        CommandForm::Assume { .. } => Err(refusal(PROOF_OPEN)),
        CommandForm::Define { .. } => Err(refusal(PROOF_OPEN)),
        CommandForm::State { .. } => Err(refusal(PROOF_OPEN)),
        CommandForm::Inductive { .. } => Err(refusal(PROOF_OPEN)),
        CommandForm::Check { term, .. } => {
            let ctx = context_in_focus(env, open)?;
            check(judge, alloc, env, &ctx, term, fuel)
        }
        CommandForm::Proof(_) => Ok(Deed::Passes),
        CommandForm::Qed(_) => end_proof(judge, alloc, env, open, true, fuel),
        CommandForm::Defined(_) => end_proof(judge, alloc, env, open, false, fuel),
        CommandForm::Admitted(_) => {
            let env = open.theorem.admitted.share()?;
            Ok(Deed::Declares {
                kind: ItemKind::Admitted,
                env,
            })
        }
        CommandForm::Aborted(_) => Ok(Deed::Drops),
    }
}
