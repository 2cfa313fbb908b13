//! A term applied to arguments, of which some are found by matching its type and the others become goals.
ghost use Rattle.std.specs.Prelude.{◌≡◌, suc, ◌+◌, ◌-◌, ◌^◌, ◌<◌, ◌≤◌, length, false, IfOk};
ghost use Rattle.core_term.specs.Answers.{within_limits, Gives};
ghost use Rattle.core_term.specs.Places.{lift_of};
ghost use Rattle.core_term.specs.Tree.{free_bound, depth_of};
ghost use Rattle.cic_rules.specs.Fuel.{left, IsSpentOf};
ghost use Rattle.cic_rules.specs.Judges.{MayJudge, IsTermIn, Meets};
ghost use Rattle.cic_rules.specs.Scopes.{IsScoped};
ghost use Rattle.matching.specs.Patterns.{value_at, has_unset, fill};
ghost use Rattle.matching.specs.Scopes.{IsPatternIn, AreValues};
ghost use Rattle.move_basic.specs.Apply.{is_used_later};
ghost use Rattle.proof_state.specs.Partial.{Ready};
ghost use Rattle.proof_state.specs.Scopes.{IsSketchIn};
ghost use Rattle.move_basic.specs.Scopes.{AreFoundFor};
ghost use Rattle.move_basic.specs.Calls.{matched_with, last_match_with, first_match_with, match_at_end_with, argument_by_with, argument_with, arguments_with, next_argument_with, apply_with, apply_to_all_with};

use crate::refusals::refusal;
use base_core::refusal_codes::{NO_MATCH, NOT_DETERMINED};
use base_core::{NoMem, Stop};
use cic_rules::{Context, Fuel, GlobalEnv, Judge, check};
use core_term::{Node, Term, TermStop};
use matching::{Values, fill, has_unset, match_terms};
use proof_state::{Goal, Sketch};
use std::alloc::Global;

/// `apply`.
pub(crate) fn apply<J: Judge>(
    judge: &J,
    alloc: Global,
    env: &GlobalEnv,
    ctx: &Context,
    ty: &Term,
    t: Term,
    fuel: &mut Fuel,
) -> Result<Sketch<Goal>, Stop>
    requires judged { MayJudge env.now ctx.now }
    requires goal { IsTermIn env.now ctx.now ty.now }
    ensures answer { Meets result (left fuel.new) (apply_with env.now ctx.now ty.now t fuel.old) }
    ensures sketch { IfOk result (IsSketchIn env.now ctx.now) }
    ensures kept { IsSpentOf fuel.old fuel.new }
{
    match judge.infer(alloc, env, ctx, &t, fuel) {
        Ok(found) => {
            let _depth = found.ty.depth();
            match first_match(judge, alloc, env, ctx, ty, 0, &found.ty, fuel) {
                Ok(values) => with_all(judge, alloc, env, ctx, &values, &found.ty, t, fuel),
                Err(stop) => Err(stop),
            }
        }
        Err(stop) => Err(stop),
    }
}

/// The same with all of the term's arguments.
pub(crate) fn apply_to_all<J: Judge>(
    judge: &J,
    alloc: Global,
    env: &GlobalEnv,
    ctx: &Context,
    ty: &Term,
    t: Term,
    fuel: &mut Fuel,
) -> Result<Sketch<Goal>, Stop>
    requires judged { MayJudge env.now ctx.now }
    requires goal { IsTermIn env.now ctx.now ty.now }
    ensures answer { Meets result (left fuel.new) (apply_to_all_with env.now ctx.now ty.now t fuel.old) }
    ensures sketch { IfOk result (IsSketchIn env.now ctx.now) }
    ensures kept { IsSpentOf fuel.old fuel.new }
{
    match judge.infer(alloc, env, ctx, &t, fuel) {
        Ok(found) => {
            let _depth = found.ty.depth();
            match match_at_end(judge, alloc, env, ctx, ty, 0, &found.ty, fuel) {
                Ok(values) => with_all(judge, alloc, env, ctx, &values, &found.ty, t, fuel),
                Err(stop) => Err(stop),
            }
        }
        Err(stop) => Err(stop),
    }
}

/// A term of this type with an argument for each of the variables that were matched.
#[tactic(auto, using(crate::proofs::Arguments::all_left))]
fn with_all<J: Judge>(
    judge: &J,
    alloc: Global,
    env: &GlobalEnv,
    ctx: &Context,
    values: &Values,
    ty: &Term,
    t: Term,
    fuel: &mut Fuel,
) -> Result<Sketch<Goal>, Stop>
    requires judged { MayJudge env.now ctx.now }
    requires found { AreValues (length ctx.now - 0) (length env.now) values.now }
    requires few { length values.now ≤ 1000 }
    requires ty { IsTermIn env.now ctx.now ty.now }
    requires term { IsTermIn env.now ctx.now t }
    ensures answer { let run = arguments_with env.now ctx.now values.now (length values.now) ty.now (Ready t) in
        Meets result (left fuel.new) (run fuel.old) }
    ensures sketch { IfOk result (IsSketchIn env.now ctx.now) }
    ensures kept { IsSpentOf fuel.old fuel.new }
{
    let count = values.len() as u32;
    with_arguments(
        judge,
        alloc,
        env,
        ctx,
        values,
        count,
        ty,
        Sketch::ready(t),
        fuel,
    )
}

/// The values of the first that matches: this type, which stands behind so many products, or what stands behind
/// more of them.
#[tactic(auto, using(crate::proofs::Arguments::one_behind))]
fn first_match<J: Judge>(
    judge: &J,
    alloc: Global,
    env: &GlobalEnv,
    ctx: &Context,
    ty: &Term,
    count: u32,
    t: &Term,
    fuel: &mut Fuel,
) -> Result<Values, Stop>
    requires judged { MayJudge env.now ctx.now }
    requires goal { IsTermIn env.now ctx.now ty.now }
    requires pattern { IsScoped (length ctx.now + count) (length env.now) t.now }
    requires room { count + depth_of t.now ≤ 1000 }
    ensures answer { Meets result (left fuel.new) (first_match_with env.now ctx.now ty.now count t.now fuel.old) }
    ensures found { IfOk result (λ values. AreValues (length ctx.now - 0) (length env.now) values) }
    ensures few { IfOk result (λ values. length values ≤ 1000) }
    ensures kept { IsSpentOf fuel.old fuel.new }
{
    match t.node() {
        Node::Prod { codomain, .. } => {
            match matched(judge, alloc, env, ctx, ty, count, t, fuel) {
                Ok(Some(values)) => Ok(values),
                Ok(None) => first_match(judge, alloc, env, ctx, ty, count + 1, codomain, fuel),
                Err(stop) => Err(stop),
            }
        }
        Node::Var(_) => last_match(judge, alloc, env, ctx, ty, count, t, fuel),
        Node::Sorted(_) => last_match(judge, alloc, env, ctx, ty, count, t, fuel),
        Node::Constant(_) => last_match(judge, alloc, env, ctx, ty, count, t, fuel),
        Node::Lam { .. } => last_match(judge, alloc, env, ctx, ty, count, t, fuel),
        Node::LetIn { .. } => last_match(judge, alloc, env, ctx, ty, count, t, fuel),
        Node::App { .. } => last_match(judge, alloc, env, ctx, ty, count, t, fuel),
    }
}

/// The values with all products taken off.
#[tactic(auto, using(crate::proofs::Arguments::one_behind))]
fn match_at_end<J: Judge>(
    judge: &J,
    alloc: Global,
    env: &GlobalEnv,
    ctx: &Context,
    ty: &Term,
    count: u32,
    t: &Term,
    fuel: &mut Fuel,
) -> Result<Values, Stop>
    requires judged { MayJudge env.now ctx.now }
    requires goal { IsTermIn env.now ctx.now ty.now }
    requires pattern { IsScoped (length ctx.now + count) (length env.now) t.now }
    requires room { count + depth_of t.now ≤ 1000 }
    ensures answer { Meets result (left fuel.new) (match_at_end_with env.now ctx.now ty.now count t.now fuel.old) }
    ensures found { IfOk result (λ values. AreValues (length ctx.now - 0) (length env.now) values) }
    ensures few { IfOk result (λ values. length values ≤ 1000) }
    ensures kept { IsSpentOf fuel.old fuel.new }
{
    match t.node() {
        Node::Prod { codomain, .. } => {
            match_at_end(judge, alloc, env, ctx, ty, count + 1, codomain, fuel)
        }
        Node::Var(_) => last_match(judge, alloc, env, ctx, ty, count, t, fuel),
        Node::Sorted(_) => last_match(judge, alloc, env, ctx, ty, count, t, fuel),
        Node::Constant(_) => last_match(judge, alloc, env, ctx, ty, count, t, fuel),
        Node::Lam { .. } => last_match(judge, alloc, env, ctx, ty, count, t, fuel),
        Node::LetIn { .. } => last_match(judge, alloc, env, ctx, ty, count, t, fuel),
        Node::App { .. } => last_match(judge, alloc, env, ctx, ty, count, t, fuel),
    }
}

/// The values of the last type that is tried.
fn last_match<J: Judge>(
    judge: &J,
    alloc: Global,
    env: &GlobalEnv,
    ctx: &Context,
    ty: &Term,
    count: u32,
    t: &Term,
    fuel: &mut Fuel,
) -> Result<Values, Stop>
    requires judged { MayJudge env.now ctx.now }
    requires goal { IsTermIn env.now ctx.now ty.now }
    requires pattern { IsScoped (length ctx.now + count) (length env.now) t.now }
    requires room { count ≤ 1000 }
    ensures answer { Meets result (left fuel.new) (last_match_with env.now ctx.now ty.now count t.now fuel.old) }
    ensures found { IfOk result (λ values. AreValues (length ctx.now - 0) (length env.now) values) }
    ensures few { IfOk result (λ values. length values ≤ 1000) }
    ensures kept { IsSpentOf fuel.old fuel.new }
{
    match matched(judge, alloc, env, ctx, ty, count, t, fuel) {
        Ok(Some(values)) => Ok(values),
        Ok(None) => Err(refusal(NO_MATCH)),
        Err(stop) => Err(stop),
    }
}

/// A type behind so many products against the goal's.
#[tactic(auto, using(crate::proofs::Arguments::unset_pattern, crate::proofs::Arguments::found_for))]
fn matched<J: Judge>(
    judge: &J,
    alloc: Global,
    env: &GlobalEnv,
    ctx: &Context,
    ty: &Term,
    count: u32,
    t: &Term,
    fuel: &mut Fuel,
) -> Result<Option<Values>, Stop>
    requires judged { MayJudge env.now ctx.now }
    requires goal { IsTermIn env.now ctx.now ty.now }
    requires pattern { IsScoped (length ctx.now + count) (length env.now) t.now }
    requires room { count ≤ 1000 }
    ensures answer { Meets result (left fuel.new) (matched_with env.now ctx.now ty.now count t.now fuel.old) }
    ensures found { IfOk result (AreFoundFor (length ctx.now - 0) (length env.now)) }
    ensures kept { IsSpentOf fuel.old fuel.new }
{
    let unset = Values::unset(alloc, count)?;
    match_terms(judge, alloc, env, ctx, 0, t, ty, unset, fuel)
}

/// A function of this type with its arguments, of which so many are left.
#[cycle(arguments_in_turn)]
fn with_arguments<J: Judge>(
    judge: &J,
    alloc: Global,
    env: &GlobalEnv,
    ctx: &Context,
    values: &Values,
    count: u32,
    ty: &Term,
    function: Sketch<Goal>,
    fuel: &mut Fuel,
) -> Result<Sketch<Goal>, Stop>
    requires judged { MayJudge env.now ctx.now }
    requires found { AreValues (length ctx.now - 0) (length env.now) values.now }
    requires few { length values.now ≤ 1000 }
    requires place { count ≤ length values.now }
    requires ty { IsScoped (length ctx.now + (length values.now - count)) (length env.now) ty.now }
    requires function { IsSketchIn env.now ctx.now function }
    ensures answer { let run = arguments_with env.now ctx.now values.now count ty.now function in
        Meets result (left fuel.new) (run fuel.old) }
    ensures sketch { IfOk result (IsSketchIn env.now ctx.now) }
    ensures kept { IsSpentOf fuel.old fuel.new }
{
    match ty.node() {
        Node::Prod {
            domain,
            codomain,
            ..
        } => {
            if count == 0 {
                return Ok(function);
            }
            next_argument(
                judge, alloc, env, ctx, values, count, domain, codomain, function, fuel,
            )
        }
        Node::Var(_) => Ok(function),
        Node::Sorted(_) => Ok(function),
        Node::Constant(_) => Ok(function),
        Node::Lam { .. } => Ok(function),
        Node::LetIn { .. } => Ok(function),
        Node::App { .. } => Ok(function),
    }
}

/// The same with the next of them, which has this type.
#[cycle(arguments_in_turn)]
#[tactic(auto, using(crate::proofs::Arguments::next_codomain))]
fn next_argument<J: Judge>(
    judge: &J,
    alloc: Global,
    env: &GlobalEnv,
    ctx: &Context,
    values: &Values,
    count: u32,
    domain: &Term,
    codomain: &Term,
    function: Sketch<Goal>,
    fuel: &mut Fuel,
) -> Result<Sketch<Goal>, Stop>
    requires judged { MayJudge env.now ctx.now }
    requires found { AreValues (length ctx.now - 0) (length env.now) values.now }
    requires few { length values.now ≤ 1000 }
    requires some { 1 ≤ count }
    requires place { count ≤ length values.now }
    requires domain { IsScoped (length ctx.now + (length values.now - count)) (length env.now) domain.now }
    requires codomain { IsScoped (suc (length ctx.now + (length values.now - count))) (length env.now) codomain.now }
    requires function { IsSketchIn env.now ctx.now function }
    ensures answer { let run = next_argument_with env.now ctx.now values.now count domain.now codomain.now function in
        Meets result (left fuel.new) (run fuel.old) }
    ensures sketch { IfOk result (IsSketchIn env.now ctx.now) }
    ensures kept { IsSpentOf fuel.old fuel.new }
{
    let _depth = codomain.depth();
    let used = is_used_later(count - 1, codomain, 0);
    match argument(judge, alloc, env, ctx, values, count, domain, used, fuel) {
        Ok(x) => {
            let applied = Sketch::app(alloc, function, x)?;
            with_arguments(
                judge,
                alloc,
                env,
                ctx,
                values,
                count - 1,
                codomain,
                applied,
                fuel,
            )
        }
        Err(stop) => Err(stop),
    }
}

/// Whether one of the next domains, so many, speaks of the variable at a place.
fn is_used_later(count: u32, ty: &Term, at: u64) -> bool
    requires { at + depth_of ty.now < 2 ^ 64 }
    ensures { result ≡ is_used_later count ty.now at }
{
    match ty.node() {
        Node::Prod {
            domain,
            codomain,
            ..
        } => {
            if count == 0 {
                return false;
            }
            0 < domain.occurrences(at) || is_used_later(count - 1, codomain, at + 1)
        }
        Node::Var(_) => false,
        Node::Sorted(_) => false,
        Node::Constant(_) => false,
        Node::Lam { .. } => false,
        Node::LetIn { .. } => false,
        Node::App { .. } => false,
    }
}

/// The argument for a product's variable.
#[tactic(auto, using(crate::proofs::Arguments::domain_free, crate::proofs::Arguments::domain_pattern))]
pub fn argument<J: Judge>(
    judge: &J,
    alloc: Global,
    env: &GlobalEnv,
    ctx: &Context,
    values: &Values,
    count: u32,
    domain: &Term,
    used: bool,
    fuel: &mut Fuel,
) -> Result<Sketch<Goal>, Stop>
    requires judged { MayJudge env.now ctx.now }
    requires found { AreValues (length ctx.now - 0) (length env.now) values.now }
    requires few { length values.now ≤ 1000 }
    requires some { 1 ≤ count }
    requires place { count ≤ length values.now }
    requires domain { IsScoped (length ctx.now + (length values.now - count)) (length env.now) domain.now }
    ensures answer { let run = argument_with env.now ctx.now values.now count domain.now used in
        Meets result (left fuel.new) (run fuel.old) }
    ensures sketch { IfOk result (IsSketchIn env.now ctx.now) }
    ensures kept { IsSpentOf fuel.old fuel.new }
{
    let _count = ctx.len();
    let pattern = lifted(alloc, domain, count)?;
    let _depth = pattern.depth();
    if has_unset(values, &pattern, 0) {
        return Err(refusal(NOT_DETERMINED));
    }
    argument_by(
        judge,
        alloc,
        env,
        ctx,
        values,
        (count - 1) as usize,
        &pattern,
        used,
        fuel,
    )
}

/// The argument of a place: its value is checked; one that is unset and not used later becomes a goal.
fn argument_by<J: Judge>(
    judge: &J,
    alloc: Global,
    env: &GlobalEnv,
    ctx: &Context,
    values: &Values,
    place: usize,
    pattern: &Term,
    used: bool,
    fuel: &mut Fuel,
) -> Result<Sketch<Goal>, Stop>
    requires judged { MayJudge env.now ctx.now }
    requires pattern { IsPatternIn env.now ctx.now 0 values.now pattern.now }
    requires settled { has_unset values.now pattern.now 0 ≡ false }
    ensures answer { let run = argument_by_with env.now ctx.now (fill values.now pattern.now 0) used in
        Meets result (left fuel.new) (run (value_at values.now place) fuel.old) }
    ensures sketch { IfOk result (IsSketchIn env.now ctx.now) }
    ensures kept { IsSpentOf fuel.old fuel.new }
{
    match values.get(place) {
        None => {
            if used {
                return Err(refusal(NOT_DETERMINED));
            }
            let ty = filled(alloc, env, ctx, values, pattern)?;
            let ctx = ctx.share()?;
            Ok(Sketch::hole(Goal { ctx, ty }))
        }
        Some(value) => {
            let ty = filled(alloc, env, ctx, values, pattern)?;
            match check(judge, alloc, env, ctx, value, &ty, fuel) {
                Ok(_) => {
                    let value = value.share()?;
                    Ok(Sketch::ready(value))
                }
                Err(stop) => Err(stop),
            }
        }
    }
}

/// A type with the values put in.
#[tactic(auto, using(matching::proofs::MatchCalls::filled_in, matching::proofs::MatchCalls::filled_numbered))]
pub fn filled(
    alloc: Global,
    env: &GlobalEnv,
    ctx: &Context,
    values: &Values,
    pattern: &Term,
) -> Result<Term, TermStop>
    requires pattern { IsPatternIn env.now ctx.now 0 values.now pattern.now }
    requires settled { has_unset values.now pattern.now 0 ≡ false }
    ensures term { Gives result (within_limits (fill values.now pattern.now 0)) }
    ensures scoped { IfOk result (IsTermIn env.now ctx.now) }
{
    let _env = env.len();
    let _count = ctx.len();
    let _depth = pattern.depth();
    let _variables = values.len();
    fill(alloc, pattern, values, 0)
}

/// A term behind so many more variables.
#[tactic(auto, using(crate::proofs::Arguments::lift_fits, crate::proofs::Arguments::lift_numbered))]
pub fn lifted(alloc: Global, t: &Term, count: u32) -> Result<Term, NoMem>
    requires { free_bound t.now + count + 1000 ≤ 2 ^ 32 }
    ensures { IfOk result (λ u. u ≡ lift_of t.now count 0) }
{
    let _depth = t.depth();
    match t.lift(alloc, count, 0) {
        Ok(t) => Ok(t),
        Err(TermStop::NoMem) => Err(NoMem),
        Err(TermStop::TooLarge) => unreachable!(),
    }
}
