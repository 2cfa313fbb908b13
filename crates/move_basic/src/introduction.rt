//! Hypotheses from the binders of a goal's type.
ghost use Rattle.std.specs.Prelude.{◌≡◌, ◌∷◌, ◌≤◌, suc, drop, length, IfOk, ℕ};
ghost use Rattle.base_core.specs.Answers.{Gives};
ghost use Rattle.cic_rules.specs.Contexts.{extended};
ghost use Rattle.cic_rules.specs.Fuel.{left, IsSpentOf};
ghost use Rattle.cic_rules.specs.Judges.{MayJudge, IsTermIn, Meets};
ghost use Rattle.cic_rules.specs.Scopes.{IsScopedHyp, IsScoped};
ghost use Rattle.cic_rules.specs.Steps.{answer_of};
ghost use Rattle.move_basic.specs.Intro.{hole, under_hyp, intros_all};
ghost use Rattle.fresh_names.specs.Shown.{shown_names};
ghost use Rattle.move_basic.specs.Names.{given_name, new_name};
ghost use Rattle.proof_state.specs.Scopes.{IsSketchIn};
ghost use Rattle.move_basic.specs.Scopes.{IsOpeningIn};
ghost use Rattle.move_basic.specs.Calls.{opened_with, intro_with, named_with, intros_with, entered_all, one_binder, named_behind};

use crate::opening::{Opening, defined_hyp, opening_of, plain_hyp};
use crate::refusals::refusal;
use base_core::refusal_codes::{NAME_USED, NO_PRODUCT};
use base_core::{NoMem, Stop, Text};
use cic_rules::{Context, Fuel, GlobalEnv, Hyp, Judge};
use coq_syntax::Word;
use core_term::{Node, Term};
use fresh_names::{Names, automatic};
use proof_state::{Goal, Sketch};
use std::alloc::Global;

/// `intro`, with a name or without.
pub(crate) fn intro<J: Judge>(
    judge: &J,
    alloc: Global,
    env: &GlobalEnv,
    ctx: &Context,
    ty: &Term,
    word: &Option<Word>,
    fuel: &mut Fuel,
) -> Result<Sketch<Goal>, Stop>
    requires judged { MayJudge env.now ctx.now }
    requires goal { IsTermIn env.now ctx.now ty.now }
    ensures answer { Meets result (left fuel.new) (intro_with env.now ctx.now ty.now word.now fuel.old) }
    ensures sketch { IfOk result (IsSketchIn env.now ctx.now) }
    ensures kept { IsSpentOf fuel.old fuel.new }
{
    let names = Names::of(alloc, ctx)?;
    match opened(judge, alloc, env, ctx, ty, fuel) {
        Ok(opening) => one_binder(alloc, env, ctx, &names, word, opening),
        Err(stop) => Err(stop),
    }
}

/// The goal behind a binder, which gets its name.
#[tactic(auto, using(crate::proofs::Openings::sketch_under, crate::proofs::Openings::renamed_hyp))]
fn one_binder(
    alloc: Global,
    env: &GlobalEnv,
    ctx: &Context,
    names: &Names,
    word: &Option<Word>,
    opening: Opening,
) -> Result<Sketch<Goal>, Stop>
    requires judged { MayJudge env.now ctx.now }
    requires opening { IsOpeningIn env.now ctx.now opening }
    requires names { names.now ≡ shown_names ctx.now }
    ensures answer { (units : ℕ) → Meets result units (one_binder env.now ctx.now word.now opening units) }
    ensures sketch { IfOk result (IsSketchIn env.now ctx.now) }
{
    let Opening { hyp, under } = opening;
    let name = new_name(alloc, env, names, word, &hyp)?;
    let hyp = hyp.renamed(name)?;
    let inner = enter(alloc, env, ctx, &hyp)?;
    let goal = Sketch::hole(Goal {
        ctx: inner,
        ty: under,
    });
    let sketch = under_hyp(alloc, hyp, goal)?;
    Ok(sketch)
}

/// `intros`, with names or without.
pub(crate) fn intros<J: Judge>(
    judge: &J,
    alloc: Global,
    env: &GlobalEnv,
    ctx: &Context,
    ty: &Term,
    words: &[Word],
    fuel: &mut Fuel,
) -> Result<Sketch<Goal>, Stop>
    requires judged { MayJudge env.now ctx.now }
    requires goal { IsTermIn env.now ctx.now ty.now }
    ensures answer { Meets result (left fuel.new) (intros_with env.now ctx.now ty.now words.now fuel.old) }
    ensures sketch { IfOk result (IsSketchIn env.now ctx.now) }
    ensures kept { IsSpentOf fuel.old fuel.new }
{
    let names = Names::of(alloc, ctx)?;
    match words {
        [] => intros_all(alloc, env, ctx, &names, ty),
        [_, ..] => intros_named(judge, alloc, env, ctx, &names, ty, words, 0, fuel),
    }
}

/// `intro` of each name from a place on.
#[cycle(intros_by_names)]
#[tactic(auto, using(crate::proofs::Lists::from_place, crate::proofs::Lists::all_behind))]
fn intros_named<J: Judge>(
    judge: &J,
    alloc: Global,
    env: &GlobalEnv,
    ctx: &Context,
    names: &Names,
    ty: &Term,
    words: &[Word],
    at: usize,
    fuel: &mut Fuel,
) -> Result<Sketch<Goal>, Stop>
    requires judged { MayJudge env.now ctx.now }
    requires goal { IsTermIn env.now ctx.now ty.now }
    requires names { names.now ≡ shown_names ctx.now }
    requires place { at ≤ length words.now }
    ensures answer { Meets result (left fuel.new) (named_with env.now ctx.now ty.now (drop at words.now) fuel.old) }
    ensures sketch { IfOk result (IsSketchIn env.now ctx.now) }
    ensures kept { IsSpentOf fuel.old fuel.new }
{
    let Some(word) = words.get(at) else {
        let sketch = goal_at(ctx, ty)?;
        return Ok(sketch);
    };
    match opened(judge, alloc, env, ctx, ty, fuel) {
        Ok(opening) => named_behind(
            judge,
            alloc,
            env,
            ctx,
            names,
            word,
            opening,
            words,
            at + 1,
            fuel,
        ),
        Err(stop) => Err(stop),
    }
}

/// The same behind a binder.
#[cycle(intros_by_names)]
#[tactic(auto, using(crate::proofs::Openings::sketch_under, crate::proofs::Openings::renamed_hyp))]
fn named_behind<J: Judge>(
    judge: &J,
    alloc: Global,
    env: &GlobalEnv,
    ctx: &Context,
    names: &Names,
    word: &Word,
    opening: Opening,
    words: &[Word],
    at: usize,
    fuel: &mut Fuel,
) -> Result<Sketch<Goal>, Stop>
    requires judged { MayJudge env.now ctx.now }
    requires opening { IsOpeningIn env.now ctx.now opening }
    requires names { names.now ≡ shown_names ctx.now }
    requires place { at ≤ length words.now }
    ensures answer { let run = named_behind env.now ctx.now word.now opening (drop at words.now) in
        Meets result (left fuel.new) (run fuel.old) }
    ensures sketch { IfOk result (IsSketchIn env.now ctx.now) }
    ensures kept { IsSpentOf fuel.old fuel.new }
{
    let Opening { hyp, under } = opening;
    let name = given_name(names, word)?;
    let names = names.with_shown(alloc, &name)?;
    let hyp = hyp.renamed(name)?;
    let inner = enter(alloc, env, ctx, &hyp)?;
    match intros_named(judge, alloc, env, &inner, &names, &under, words, at, fuel) {
        Ok(sketch) => {
            let sketch = under_hyp(alloc, hyp, sketch)?;
            Ok(sketch)
        }
        Err(stop) => Err(stop),
    }
}

/// `intro` as long as the type as it stands has a binder.
#[cycle(intros_as_it_stands)]
fn intros_all(
    alloc: Global,
    env: &GlobalEnv,
    ctx: &Context,
    names: &Names,
    ty: &Term,
) -> Result<Sketch<Goal>, Stop>
    requires judged { MayJudge env.now ctx.now }
    requires goal { IsTermIn env.now ctx.now ty.now }
    requires names { names.now ≡ shown_names ctx.now }
    ensures answer { (units : ℕ) → Meets result units (intros_all env.now ctx.now ty.now units) }
    ensures sketch { IfOk result (IsSketchIn env.now ctx.now) }
{
    match ty.node() {
        Node::Prod {
            name,
            domain,
            codomain,
        } => {
            let hyp = plain_hyp(name, domain)?;
            entered_all(alloc, env, ctx, names, hyp, codomain)
        }
        Node::LetIn {
            name,
            ty,
            value,
            body,
        } => {
            let hyp = defined_hyp(name, ty, value)?;
            entered_all(alloc, env, ctx, names, hyp, body)
        }
        Node::Var(_) => Ok(goal_at(ctx, ty)?),
        Node::Sorted(_) => Ok(goal_at(ctx, ty)?),
        Node::Constant(_) => Ok(goal_at(ctx, ty)?),
        Node::Lam { .. } => Ok(goal_at(ctx, ty)?),
        Node::App { .. } => Ok(goal_at(ctx, ty)?),
    }
}

/// The same behind a binder.
#[cycle(intros_as_it_stands)]
#[tactic(auto, using(crate::proofs::Openings::sketch_under, crate::proofs::Openings::renamed_hyp))]
fn entered_all(
    alloc: Global,
    env: &GlobalEnv,
    ctx: &Context,
    names: &Names,
    hyp: Hyp,
    under: &Term,
) -> Result<Sketch<Goal>, Stop>
    requires judged { MayJudge env.now ctx.now }
    requires hyp { IsScopedHyp (length ctx.now) (length env.now) hyp }
    requires under { IsScoped (suc (length ctx.now)) (length env.now) under.now }
    requires names { names.now ≡ shown_names ctx.now }
    ensures answer { (units : ℕ) → Meets result units (entered_all env.now ctx.now hyp under.now units) }
    ensures sketch { IfOk result (IsSketchIn env.now ctx.now) }
{
    let name = automatic(alloc, env, names, &hyp.name, &hyp.ty)?;
    let names = names.with_shown(alloc, &name)?;
    let hyp = hyp.renamed(name)?;
    let inner = enter(alloc, env, ctx, &hyp)?;
    match intros_all(alloc, env, &inner, &names, under) {
        Ok(sketch) => {
            let sketch = under_hyp(alloc, hyp, sketch)?;
            Ok(sketch)
        }
        Err(stop) => Err(stop),
    }
}

/// The type's binder: of the type as it stands, or else reduced.
#[tactic(auto, using(crate::proofs::Openings::opening_scoped))]
fn opened<J: Judge>(
    judge: &J,
    alloc: Global,
    env: &GlobalEnv,
    ctx: &Context,
    ty: &Term,
    fuel: &mut Fuel,
) -> Result<Opening, Stop>
    requires judged { MayJudge env.now ctx.now }
    requires goal { IsTermIn env.now ctx.now ty.now }
    ensures answer { Meets result (left fuel.new) (opened_with env.now ctx.now ty.now fuel.old) }
    ensures scoped { IfOk result (IsOpeningIn env.now ctx.now) }
    ensures kept { IsSpentOf fuel.old fuel.new }
{
    if let Some(opening) = opening_of(ty)? {
        return Ok(opening);
    }
    match judge.whnf(alloc, env, ctx, ty, fuel) {
        Ok(reduced) => match opening_of(&reduced)? {
            Some(opening) => Ok(opening),
            None => Err(refusal(NO_PRODUCT)),
        },
        Err(stop) => Err(stop),
    }
}

/// What a binder is called as a hypothesis.
fn new_name(
    alloc: Global,
    env: &GlobalEnv,
    names: &Names,
    word: &Option<Word>,
    hyp: &Hyp,
) -> Result<Text, Stop>
    ensures { Gives result (answer_of (new_name env.now names.now word.now hyp.now.name hyp.now.ty)) }
{
    match word {
        Some(word) => given_name(names, word),
        None => Ok(automatic(alloc, env, names, &hyp.name, &hyp.ty)?),
    }
}

/// A name that is told, which no hypothesis may have.
fn given_name(names: &Names, word: &Word) -> Result<Text, Stop>
    ensures { Gives result (answer_of (given_name names.now word.now)) }
{
    if names.has(&word.text) {
        return Err(refusal(NAME_USED));
    }
    Ok(word.text.share()?)
}

/// The context behind one more hypothesis.
#[tactic(auto, using(crate::proofs::Openings::hyp_in, crate::proofs::Openings::judged_behind))]
fn enter(alloc: Global, env: &GlobalEnv, ctx: &Context, hyp: &Hyp) -> Result<Context, Stop>
    requires judged { MayJudge env.now ctx.now }
    requires hyp { IsScopedHyp (length ctx.now) (length env.now) hyp.now }
    ensures answer { Gives result (extended ctx.now hyp.now) }
    ensures inner { IfOk result (λ inner. inner ≡ hyp.now ∷ ctx.now) }
    ensures judged { IfOk result (MayJudge env.now) }
{
    let name = hyp.name.share()?;
    let hyp = hyp.renamed(name)?;
    ctx.with(alloc, hyp)
}

/// A function over a hypothesis, or a let for one that has a definition.
fn under_hyp(alloc: Global, hyp: Hyp, sketch: Sketch<Goal>) -> Result<Sketch<Goal>, NoMem>
    ensures { IfOk result (λ s. s ≡ under_hyp hyp sketch) }
{
    let Hyp { name, ty, value } = hyp;
    match value {
        Some(value) => Sketch::let_in(alloc, name, ty, value, sketch),
        None => Sketch::lam(alloc, name, ty, sketch),
    }
}

/// A goal.
pub(crate) fn goal_at(ctx: &Context, ty: &Term) -> Result<Sketch<Goal>, NoMem>
    ensures { IfOk result (λ s. s ≡ hole ctx.now ty.now) }
{
    let ctx = ctx.share()?;
    let ty = ty.share()?;
    Ok(Sketch::hole(Goal { ctx, ty }))
}
