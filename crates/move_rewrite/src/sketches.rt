//! The term for a goal that is rewritten.
ghost use Rattle.std.specs.Prelude.{◌≡◌, ◌+◌, ◌^◌, ◌≤◌, false, length, IfOk};
ghost use Rattle.base_core.specs.Answers.{Gives};
ghost use Rattle.coq_syntax.specs.declared.moves.Direction.TheVariants.{Unmarked};
ghost use Rattle.core_term.specs.Answers.{within_limits, Gives as Makes};
ghost use Rattle.core_term.specs.Places.{subst_of};
ghost use Rattle.core_term.specs.Tree.{IsNumbered, free_bound};
ghost use Rattle.cic_rules.specs.Judges.{IsTermIn};
ghost use Rattle.cic_rules.specs.Steps.{answer_of};
ghost use Rattle.move_basic.specs.Intro.{hole};
ghost use Rattle.proof_state.specs.Partial.{Ready, Applies};
ghost use Rattle.move_rewrite.specs.Equations.{other_of as the_other, is_unsettled as unsettled};
ghost use Rattle.move_rewrite.specs.Scopes.{IsEquationIn, IsFound};
ghost use Rattle.move_rewrite.specs.Terms.{eliminator_at as the_eliminator_at, reflexive as the_reflexive, turned_motive as the_turned_motive, turning as the_turning, turned as the_turned, rewritten_by as the_rewritten_by, rewritten as the_rewritten};

use crate::equations::{Equation, filled_equation, other_of, pattern_of};
use crate::replacing::with_new_variable;
use crate::searching::Found;
use base_core::{NoMem, Stop, Text};
use cic_rules::{Context, GlobalEnv};
use coq_syntax::Direction;
use core_term::{Term, TermStop};
use move_basic::lifted;
use proof_state::{Goal, Sketch};
use std::alloc::Global;

/// The term for a goal, by what was found in it and a proof of the equation.
pub(crate) fn rewritten(
    alloc: Global,
    env: &GlobalEnv,
    ctx: &Context,
    direction: Direction,
    goal: &Term,
    eliminator: u32,
    equation: &Equation,
    found: &Found,
    proof: Sketch<Goal>,
) -> Result<Sketch<Goal>, Stop>
    requires goal { IsTermIn env.now ctx.now goal.now }
    requires equation { IsEquationIn (length ctx.now + length found.now.values) (length env.now) equation.now }
    requires found { IsFound env.now ctx.now found.now }
    requires settled { unsettled found.now.values equation.now ≡ false }
    ensures { let step = the_rewritten direction ctx.now goal.now eliminator equation.now found.now proof in
        Gives result (answer_of step) }
{
    let _count = ctx.len();
    let equation = filled_equation(alloc, env, ctx, &found.values, equation)?;
    let body = with_new_variable(alloc, &found.subterm, goal)?;
    let _body = body.depth();
    let _other = other_of(direction, &equation).depth();
    rewritten_by(alloc, ctx, direction, eliminator, &equation, &body, proof)
}

/// The term for the goal, by the goal as a function of a side.
fn rewritten_by(
    alloc: Global,
    ctx: &Context,
    direction: Direction,
    eliminator: u32,
    equation: &Equation,
    body: &Term,
    proof: Sketch<Goal>,
) -> Result<Sketch<Goal>, Stop>
    requires ty { free_bound equation.now.ty ≤ 2 ^ 31 }
    requires left { free_bound equation.now.left ≤ 2 ^ 31 }
    requires numbered { IsNumbered (subst_of body.now (the_other direction equation.now) 0) }
    ensures { let step = the_rewritten_by direction ctx.now eliminator equation.now body.now proof in
        Gives result (answer_of step) }
{
    let function = eliminator_at(alloc, direction, eliminator, equation, body)?;
    let ty = body.subst(alloc, other_of(direction, equation), 0)?;
    let proof = turned(alloc, direction, equation, proof)?;
    let side = pattern_of(direction, equation);
    let sketch = at_goal(alloc, ctx, function, ty, side, proof)?;
    Ok(sketch)
}

/// The eliminator at its goal, which has this type, at a side and at the proof.
fn at_goal(
    alloc: Global,
    ctx: &Context,
    function: Term,
    ty: Term,
    side: &Term,
    proof: Sketch<Goal>,
) -> Result<Sketch<Goal>, NoMem>
    ensures { let whole = Applies (Applies (Applies (Ready function) (hole ctx.now ty)) (Ready side.now)) proof in
        IfOk result (λ s. s ≡ whole) }
{
    let at_side = at_side(alloc, ctx, function, ty, side)?;
    Sketch::app(alloc, at_side, proof)
}

/// The same without the proof.
fn at_side(
    alloc: Global,
    ctx: &Context,
    function: Term,
    ty: Term,
    side: &Term,
) -> Result<Sketch<Goal>, NoMem>
    ensures { let at_goal = Applies (Ready function) (hole ctx.now ty) in
        IfOk result (λ s. s ≡ Applies at_goal (Ready side.now)) }
{
    let ctx = ctx.share()?;
    let side = side.share()?;
    let goal = Sketch::hole(Goal { ctx, ty });
    let at_goal = Sketch::app(alloc, Sketch::ready(function), goal)?;
    Sketch::app(alloc, at_goal, Sketch::ready(side))
}

/// The proof that the eliminator is given, by a proof of the equation.
fn turned(
    alloc: Global,
    direction: Direction,
    equation: &Equation,
    proof: Sketch<Goal>,
) -> Result<Sketch<Goal>, Stop>
    requires ty { free_bound equation.now.ty ≤ 2 ^ 31 }
    requires left { free_bound equation.now.left ≤ 2 ^ 31 }
    ensures { Gives result (answer_of (the_turned direction equation.now proof)) }
{
    match direction {
        Direction::Unmarked => turned_round(alloc, equation, proof),
        Direction::Forward(_) => turned_round(alloc, equation, proof),
        Direction::Backward(_) => Ok(proof),
    }
}

/// A proof of the equation turned round.
fn turned_round(
    alloc: Global,
    equation: &Equation,
    proof: Sketch<Goal>,
) -> Result<Sketch<Goal>, Stop>
    requires ty { free_bound equation.now.ty ≤ 2 ^ 31 }
    requires left { free_bound equation.now.left ≤ 2 ^ 31 }
    ensures { Gives result (answer_of (the_turned Unmarked equation.now proof)) }
{
    let turning = turning(alloc, equation)?;
    let sketch = Sketch::app(alloc, Sketch::ready(turning), proof)?;
    Ok(sketch)
}

/// The eliminator at the side that comes, and at the goal as a function of that side.
fn eliminator_at(
    alloc: Global,
    direction: Direction,
    eliminator: u32,
    equation: &Equation,
    body: &Term,
) -> Result<Term, TermStop>
    ensures { Makes result (within_limits (the_eliminator_at direction eliminator equation.now body.now)) }
{
    let eliminator = Term::constant(alloc, eliminator)?;
    let ty = equation.ty.share()?;
    let of_type = Term::app(alloc, eliminator, ty)?;
    let other = other_of(direction, equation).share()?;
    let at_side = Term::app(alloc, of_type, other)?;
    let name = Text::copy(alloc, "z")?;
    let ty = equation.ty.share()?;
    let body = body.share()?;
    let motive = Term::lam(alloc, name, ty, body)?;
    Term::app(alloc, at_side, motive)
}

/// What makes a proof of the equation one of the equation turned round.
fn turning(alloc: Global, equation: &Equation) -> Result<Term, TermStop>
    requires ty { free_bound equation.now.ty ≤ 2 ^ 31 }
    requires left { free_bound equation.now.left ≤ 2 ^ 31 }
    ensures { Makes result (within_limits (the_turning equation.now)) }
{
    let by = Term::constant(alloc, equation.by)?;
    let ty = equation.ty.share()?;
    let of_type = Term::app(alloc, by, ty)?;
    let left = equation.left.share()?;
    let at_left = Term::app(alloc, of_type, left)?;
    let motive = turned_motive(alloc, equation)?;
    let to_motive = Term::app(alloc, at_left, motive)?;
    let same = reflexive(alloc, equation)?;
    let with_same = Term::app(alloc, to_motive, same)?;
    let right = equation.right.share()?;
    Term::app(alloc, with_same, right)
}

/// The equation turned round as a function of its right side.
fn turned_motive(alloc: Global, equation: &Equation) -> Result<Term, TermStop>
    requires ty { free_bound equation.now.ty ≤ 2 ^ 31 }
    requires left { free_bound equation.now.left ≤ 2 ^ 31 }
    ensures { Makes result (within_limits (the_turned_motive equation.now)) }
{
    let eq = Term::constant(alloc, equation.eq)?;
    let shifted = lifted(alloc, &equation.ty, 1)?;
    let of_type = Term::app(alloc, eq, shifted)?;
    let newest = Term::var(alloc, 0)?;
    let at_newest = Term::app(alloc, of_type, newest)?;
    let left = lifted(alloc, &equation.left, 1)?;
    let body = Term::app(alloc, at_newest, left)?;
    let name = Text::copy(alloc, "z")?;
    let ty = equation.ty.share()?;
    Term::lam(alloc, name, ty, body)
}

/// The left side is itself.
fn reflexive(alloc: Global, equation: &Equation) -> Result<Term, TermStop>
    ensures { Makes result (within_limits (the_reflexive equation.now)) }
{
    let same = Term::constant(alloc, equation.same)?;
    let ty = equation.ty.share()?;
    let of_type = Term::app(alloc, same, ty)?;
    let left = equation.left.share()?;
    Term::app(alloc, of_type, left)
}
