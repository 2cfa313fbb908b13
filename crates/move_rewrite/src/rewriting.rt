//! `rewrite`: a goal by an equation, all of whose subterms that are one side become the other.
ghost use Rattle.std.specs.Prelude.{◌≡◌, ◌+◌, ◌<◌, ◌≤◌, length, IfOk, IfSome};
ghost use Rattle.term_spine.specs.Spine.{count_products as products_of};
ghost use Rattle.cic_rules.specs.Fuel.{left, IsSpentOf};
ghost use Rattle.cic_rules.specs.Judges.{MayJudge, IsTermIn, Meets};
ghost use Rattle.proof_state.specs.Scopes.{IsSketchIn};
ghost use Rattle.move_rewrite.specs.Calls.{by_proof_with, by_found_with, by_equation_with, rewrite_with};
ghost use Rattle.move_rewrite.specs.Rewrite.{eliminator_into as the_eliminator_into};
ghost use Rattle.move_rewrite.specs.Scopes.{IsEquationIn, IsFound};

use crate::arguments::with_arguments;
use crate::equations::{
    Equation, count_products, end_of_products, equation_of, has_variable_head, is_unsettled,
    pattern_of,
};
use crate::refusals::refusal;
use crate::searching::{Found, first_found};
use crate::sketches::rewritten;
use base_core::refusal_codes::{
    NO_SUBTERM, NOT_AN_EQUATION, NOT_DETERMINED, NOT_PERMITTED, VARIABLE_HEAD,
};
use base_core::{NoMem, Stop, Text};
use cic_rules::{Context, Fuel, GlobalEnv, Judge, sort_of};
use coq_syntax::Direction;
use core_term::{Sort, Term};
use proof_state::{Goal, Sketch};
use std::alloc::Global;

/// `rewrite`.
pub(crate) fn rewrite<J: Judge>(
    judge: &J,
    alloc: Global,
    env: &GlobalEnv,
    ctx: &Context,
    direction: Direction,
    goal: &Term,
    t: Term,
    fuel: &mut Fuel,
) -> Result<Sketch<Goal>, Stop>
    requires judged { MayJudge env.now ctx.now }
    requires goal { IsTermIn env.now ctx.now goal.now }
    ensures answer { Meets result (left fuel.new) (rewrite_with env.now ctx.now direction goal.now t fuel.old) }
    ensures sketch { IfOk result (IsSketchIn env.now ctx.now) }
    ensures kept { IsSpentOf fuel.old fuel.new }
{
    match judge.infer(alloc, env, ctx, &t, fuel) {
        Ok(inferred) => {
            let ty = &inferred.ty;
            let _depth = ty.depth();
            let count = count_products(ty);
            match equation_of(alloc, env, end_of_products(ty))? {
                Some(equation) => by_equation(
                    judge, alloc, env, ctx, direction, goal, t, ty, count, &equation, fuel,
                ),
                None => Err(refusal(NOT_AN_EQUATION)),
            }
        }
        Err(stop) => Err(stop),
    }
}

/// By a term of this type, which has so many products and ends in this equation.
#[tactic(auto, using(crate::proofs::Sides::pattern_scoped))]
fn by_equation<J: Judge>(
    judge: &J,
    alloc: Global,
    env: &GlobalEnv,
    ctx: &Context,
    direction: Direction,
    goal: &Term,
    t: Term,
    ty: &Term,
    count: u32,
    equation: &Equation,
    fuel: &mut Fuel,
) -> Result<Sketch<Goal>, Stop>
    requires judged { MayJudge env.now ctx.now }
    requires goal { IsTermIn env.now ctx.now goal.now }
    requires term { IsTermIn env.now ctx.now t }
    requires ty { IsTermIn env.now ctx.now ty.now }
    requires count { count ≡ products_of ty.now }
    requires few { count ≤ 1000 }
    requires equation { IsEquationIn (length ctx.now + count) (length env.now) equation.now }
    ensures answer { let run = by_equation_with env.now ctx.now direction goal.now t ty.now count equation.now in
        Meets result (left fuel.new) (run fuel.old) }
    ensures sketch { IfOk result (IsSketchIn env.now ctx.now) }
    ensures kept { IsSpentOf fuel.old fuel.new }
{
    let pattern = pattern_of(direction, equation);
    if has_variable_head(count, pattern) {
        return Err(refusal(VARIABLE_HEAD));
    }
    let _depth = goal.depth();
    match first_found(judge, alloc, env, ctx, count, pattern, 0, goal, fuel) {
        Ok(Some(found)) => by_found(
            judge, alloc, env, ctx, direction, goal, t, ty, count, equation, &found, fuel,
        ),
        Ok(None) => Err(refusal(NO_SUBTERM)),
        Err(stop) => Err(stop),
    }
}

/// By a subterm that was found.
fn by_found<J: Judge>(
    judge: &J,
    alloc: Global,
    env: &GlobalEnv,
    ctx: &Context,
    direction: Direction,
    goal: &Term,
    t: Term,
    ty: &Term,
    count: u32,
    equation: &Equation,
    found: &Found,
    fuel: &mut Fuel,
) -> Result<Sketch<Goal>, Stop>
    requires judged { MayJudge env.now ctx.now }
    requires goal { IsTermIn env.now ctx.now goal.now }
    requires term { IsTermIn env.now ctx.now t }
    requires ty { IsTermIn env.now ctx.now ty.now }
    requires count { count ≡ products_of ty.now }
    requires few { count ≤ 1000 }
    requires equation { IsEquationIn (length ctx.now + count) (length env.now) equation.now }
    requires found { IsFound env.now ctx.now found.now }
    requires values { length found.now.values ≡ count }
    ensures answer { let run = by_found_with env.now ctx.now direction goal.now t ty.now count equation.now found.now in
        Meets result (left fuel.new) (run fuel.old) }
    ensures sketch { IfOk result (IsSketchIn env.now ctx.now) }
    ensures kept { IsSpentOf fuel.old fuel.new }
{
    let function = Sketch::ready(t);
    match with_arguments(
        judge,
        alloc,
        env,
        ctx,
        &found.values,
        count,
        ty,
        function,
        fuel,
    ) {
        Ok(proof) => by_proof(
            judge, alloc, env, ctx, direction, goal, equation, found, proof, fuel,
        ),
        Err(stop) => Err(stop),
    }
}

/// By a subterm that was found, and a term for the equation.
fn by_proof<J: Judge>(
    judge: &J,
    alloc: Global,
    env: &GlobalEnv,
    ctx: &Context,
    direction: Direction,
    goal: &Term,
    equation: &Equation,
    found: &Found,
    proof: Sketch<Goal>,
    fuel: &mut Fuel,
) -> Result<Sketch<Goal>, Stop>
    requires judged { MayJudge env.now ctx.now }
    requires goal { IsTermIn env.now ctx.now goal.now }
    requires equation { IsEquationIn (length ctx.now + length found.now.values) (length env.now) equation.now }
    requires found { IsFound env.now ctx.now found.now }
    requires proof { IsSketchIn env.now ctx.now proof }
    ensures answer { let run = by_proof_with env.now ctx.now direction goal.now equation.now found.now proof in
        Meets result (left fuel.new) (run fuel.old) }
    ensures sketch { IfOk result (IsSketchIn env.now ctx.now) }
    ensures kept { IsSpentOf fuel.old fuel.new }
{
    if is_unsettled(&found.values, equation) {
        return Err(refusal(NOT_DETERMINED));
    }
    match sort_of(judge, alloc, env, ctx, goal, fuel) {
        Ok(found_sort) => match eliminator_into(alloc, env, found_sort.sort)? {
            Some(eliminator) => rewritten(
                alloc, env, ctx, direction, goal, eliminator, equation, found, proof,
            ),
            None => Err(refusal(NOT_PERMITTED)),
        },
        Err(stop) => Err(stop),
    }
}

/// The eliminator of `eq` into a sort.
fn eliminator_into(alloc: Global, env: &GlobalEnv, sort: Sort) -> Result<Option<u32>, NoMem>
    ensures place { IfOk result (λ place. place ≡ the_eliminator_into env.now sort) }
    ensures within { IfOk result (λ found. IfSome found (λ place. place < length env.now)) }
{
    match sort {
        Sort::PropSort => Ok(env.place_of(&Text::copy(alloc, "eq_ind")?)),
        Sort::SetSort => Ok(env.place_of(&Text::copy(alloc, "eq_rec")?)),
        Sort::TypeSort(level) => {
            if level == 1 {
                Ok(env.place_of(&Text::copy(alloc, "eq_rect")?))
            } else {
                Ok(None)
            }
        }
    }
}
