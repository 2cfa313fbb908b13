//! Equations, and those whose sides are convertible.
ghost use Rattle.std.specs.Prelude.{◌≡◌, IfOk};
ghost use Rattle.cic_rules.specs.Fuel.{left, IsSpentOf};
ghost use Rattle.cic_rules.specs.Judges.{MayJudge, IsTermIn, Meets};
ghost use Rattle.core_term.specs.Answers.{within_limits, Gives};
ghost use Rattle.move_basic.specs.Equality.{sides_of, equation_of, reflexive};
ghost use Rattle.proof_state.specs.Scopes.{IsSketchIn};
ghost use Rattle.move_basic.specs.Scopes.{IsEquationIn};
ghost use Rattle.move_basic.specs.Calls.{by_sides_with, reflexivity_with};

use crate::refusals::refusal;
use base_core::refusal_codes::{NOT_AN_EQUALITY, NOT_CONVERTIBLE};
use base_core::{NoMem, Stop, Text};
use cic_rules::{Context, Fuel, GlobalEnv, Judge, Mode, converts};
use core_term::{Node, Term, TermStop};
use proof_state::{Goal, Sketch};
use std::alloc::Global;

/// An equation: the place of the constructor that proves it where its sides are the same, their type, and the
/// sides.
#[derive(Drop)]
pub struct Equation {
    pub same: u32,
    pub ty: Term,
    pub left: Term,
    pub right: Term,
}

/// `reflexivity`.
#[tactic(auto, using(crate::proofs::Equations::equation_scoped))]
pub(crate) fn reflexivity<J: Judge>(
    judge: &J,
    alloc: Global,
    env: &GlobalEnv,
    ctx: &Context,
    ty: &Term,
    fuel: &mut Fuel,
) -> Result<Sketch<Goal>, Stop>
    requires judged { MayJudge env.now ctx.now }
    requires goal { IsTermIn env.now ctx.now ty.now }
    ensures answer { Meets result (left fuel.new) (reflexivity_with env.now ctx.now ty.now fuel.old) }
    ensures sketch { IfOk result (IsSketchIn env.now ctx.now) }
    ensures kept { IsSpentOf fuel.old fuel.new }
{
    match judge.whnf(alloc, env, ctx, ty, fuel) {
        Ok(reduced) => match equation_of(alloc, env, &reduced)? {
            Some(equation) => by_sides(judge, alloc, env, ctx, equation, fuel),
            None => Err(refusal(NOT_AN_EQUALITY)),
        },
        Err(stop) => Err(stop),
    }
}

/// The left side is itself, where the right one is the same.
#[tactic(auto, using(crate::proofs::Equations::reflexive_scoped))]
fn by_sides<J: Judge>(
    judge: &J,
    alloc: Global,
    env: &GlobalEnv,
    ctx: &Context,
    equation: Equation,
    fuel: &mut Fuel,
) -> Result<Sketch<Goal>, Stop>
    requires judged { MayJudge env.now ctx.now }
    requires equation { IsEquationIn env.now ctx.now equation }
    ensures answer { Meets result (left fuel.new) (by_sides_with env.now ctx.now equation fuel.old) }
    ensures sketch { IfOk result (IsSketchIn env.now ctx.now) }
    ensures kept { IsSpentOf fuel.old fuel.new }
{
    match converts(
        judge,
        alloc,
        env,
        ctx,
        &equation.left,
        &equation.right,
        Mode::Same,
        fuel,
    ) {
        Ok(true) => {
            let proof = reflexive(alloc, equation)?;
            Ok(Sketch::ready(proof))
        }
        Ok(false) => Err(refusal(NOT_CONVERTIBLE)),
        Err(stop) => Err(stop),
    }
}

/// The term that proves it.
fn reflexive(alloc: Global, equation: Equation) -> Result<Term, TermStop>
    ensures { Gives result (within_limits (reflexive equation)) }
{
    let same = Term::constant(alloc, equation.same)?;
    let of_type = Term::app(alloc, same, equation.ty)?;
    Term::app(alloc, of_type, equation.left)
}

/// The equation that a term is. None is one where the environment lacks `eq`, its constructor or its
/// eliminator into `Prop`.
fn equation_of(alloc: Global, env: &GlobalEnv, t: &Term) -> Result<Option<Equation>, NoMem>
    ensures { IfOk result (λ e. e ≡ equation_of env.now t.now) }
{
    let eq = env.place_of(&Text::copy(alloc, "eq")?);
    let same = env.place_of(&Text::copy(alloc, "eq_refl")?);
    let by = env.place_of(&Text::copy(alloc, "eq_ind")?);
    match (eq, same, by) {
        (Some(eq), Some(same), Some(_)) => sides_of(eq, same, t),
        _ => Ok(None),
    }
}

/// By the places of `eq` and its constructor.
fn sides_of(eq: u32, same: u32, t: &Term) -> Result<Option<Equation>, NoMem>
    ensures { IfOk result (λ e. e ≡ sides_of eq same t.now) }
{
    let Node::App {
        function,
        argument: right,
    } = t.node()
    else {
        return Ok(None);
    };
    let Node::App {
        function,
        argument: left,
    } = function.node()
    else {
        return Ok(None);
    };
    let Node::App {
        function,
        argument: ty,
    } = function.node()
    else {
        return Ok(None);
    };
    let Node::Constant(c) = function.node() else {
        return Ok(None);
    };
    if *c != eq {
        return Ok(None);
    }
    let ty = ty.share()?;
    let left = left.share()?;
    let right = right.share()?;
    Ok(Some(Equation {
        same,
        ty,
        left,
        right,
    }))
}
