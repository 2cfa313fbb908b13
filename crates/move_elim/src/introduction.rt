//! A goal behind its first binders.
ghost use Rattle.std.specs.Prelude.{◌≡◌, ◌∷◌, suc, length, IfOk};
ghost use Rattle.base_core.specs.Answers.{Gives};
ghost use Rattle.cic_rules.specs.Contexts.{extended, plain_hyp as the_plain_hyp, defined_hyp as the_defined_hyp};
ghost use Rattle.cic_rules.specs.Judges.{MayJudge, IsTermIn};
ghost use Rattle.cic_rules.specs.Scopes.{IsScopedHyp, IsScoped};
ghost use Rattle.cic_rules.specs.Steps.{answer_of};
ghost use Rattle.proof_state.specs.Scopes.{IsSketchIn};
ghost use Rattle.move_elim.specs.Cases.{hole, over_binder as sketch_over, introduced as the_introduced, introduced_behind as the_introduced_behind};

use base_core::{NoMem, Stop, Text};
use cic_rules::{Context, GlobalEnv, Hyp};
use core_term::{Node, Term};
use proof_state::{Goal, Sketch};
use std::alloc::Global;

/// A goal behind its first binders, so many.
#[cycle(first_binders)]
pub(crate) fn introduced(
    alloc: Global,
    env: &GlobalEnv,
    count: usize,
    ctx: &Context,
    t: &Term,
) -> Result<Sketch<Goal>, Stop>
    requires judged { MayJudge env.now ctx.now }
    requires goal { IsTermIn env.now ctx.now t.now }
    ensures answer { Gives result (answer_of (the_introduced count ctx.now t.now)) }
    ensures sketch { IfOk result (IsSketchIn env.now ctx.now) }
{
    if count == 0 {
        return Ok(goal_at(ctx, t)?);
    }
    match t.node() {
        Node::Prod {
            name,
            domain,
            codomain,
        } => {
            let hyp = plain_hyp(name, domain)?;
            introduced_behind(alloc, env, count - 1, ctx, hyp, codomain)
        }
        Node::LetIn {
            name,
            ty,
            value,
            body,
        } => {
            let hyp = defined_hyp(name, ty, value)?;
            introduced_behind(alloc, env, count - 1, ctx, hyp, body)
        }
        Node::Var(_) => Ok(goal_at(ctx, t)?),
        Node::Sorted(_) => Ok(goal_at(ctx, t)?),
        Node::Constant(_) => Ok(goal_at(ctx, t)?),
        Node::Lam { .. } => Ok(goal_at(ctx, t)?),
        Node::App { .. } => Ok(goal_at(ctx, t)?),
    }
}

/// The same behind one that is told first.
#[cycle(first_binders)]
#[tactic(auto, using(crate::proofs::Binders::sketch_over))]
fn introduced_behind(
    alloc: Global,
    env: &GlobalEnv,
    count: usize,
    ctx: &Context,
    hyp: Hyp,
    under: &Term,
) -> Result<Sketch<Goal>, Stop>
    requires judged { MayJudge env.now ctx.now }
    requires hyp { IsScopedHyp (length ctx.now) (length env.now) hyp }
    requires under { IsScoped (suc (length ctx.now)) (length env.now) under.now }
    ensures answer { Gives result (answer_of (the_introduced_behind count ctx.now hyp under.now)) }
    ensures sketch { IfOk result (IsSketchIn env.now ctx.now) }
{
    match enter(alloc, env, ctx, &hyp) {
        Ok(inner) => match introduced(alloc, env, count, &inner, under) {
            Ok(sketch) => {
                let sketch = over_binder(alloc, hyp, sketch)?;
                Ok(sketch)
            }
            Err(stop) => Err(stop),
        },
        Err(stop) => Err(stop),
    }
}

/// The context behind one more hypothesis.
#[tactic(auto, using(crate::proofs::Binders::hyp_in, crate::proofs::Binders::judged_behind))]
pub(crate) fn enter(
    alloc: Global,
    env: &GlobalEnv,
    ctx: &Context,
    hyp: &Hyp,
) -> Result<Context, Stop>
    requires judged { MayJudge env.now ctx.now }
    requires hyp { IsScopedHyp (length ctx.now) (length env.now) hyp.now }
    ensures answer { Gives result (extended ctx.now hyp.now) }
    ensures inner { IfOk result (λ inner. inner ≡ hyp.now ∷ ctx.now) }
    ensures judged { IfOk result (MayJudge env.now) }
{
    let name = hyp.name.share()?;
    let hyp = hyp.renamed(name)?;
    ctx.with(alloc, hyp)
}

/// A function over a hypothesis, or a let for one that has a definition.
fn over_binder(alloc: Global, hyp: Hyp, sketch: Sketch<Goal>) -> Result<Sketch<Goal>, NoMem>
    ensures { IfOk result (λ s. s ≡ sketch_over hyp.name hyp.ty hyp.value sketch) }
{
    let Hyp { name, ty, value } = hyp;
    match value {
        Some(value) => Sketch::let_in(alloc, name, ty, value, sketch),
        None => Sketch::lam(alloc, name, ty, sketch),
    }
}

/// A goal.
fn goal_at(ctx: &Context, ty: &Term) -> Result<Sketch<Goal>, NoMem>
    ensures { IfOk result (λ s. s ≡ hole ctx.now ty.now) }
{
    let ctx = ctx.share()?;
    let ty = ty.share()?;
    Ok(Sketch::hole(Goal { ctx, ty }))
}

/// A hypothesis without a definition.
pub(crate) fn plain_hyp(name: &Text, ty: &Term) -> Result<Hyp, NoMem>
    ensures { IfOk result (λ h. h ≡ the_plain_hyp name.now ty.now) }
{
    let name = name.share()?;
    let ty = ty.share()?;
    Ok(Hyp {
        name,
        ty,
        value: None,
    })
}

/// A hypothesis with one.
fn defined_hyp(name: &Text, ty: &Term, value: &Term) -> Result<Hyp, NoMem>
    ensures { IfOk result (λ h. h ≡ the_defined_hyp name.now ty.now value.now) }
{
    let name = name.share()?;
    let ty = ty.share()?;
    let value = value.share()?;
    Ok(Hyp {
        name,
        ty,
        value: Some(value),
    })
}
