//! Equations that goals are rewritten by.
ghost use Rattle.std.specs.Prelude.{◌≡◌, ◌+◌, ◌-◌, ◌≤◌, false, length, IfOk};
ghost use Rattle.base_core.specs.Answers.{Gives};
ghost use Rattle.core_term.specs.Tree.{depth_of};
ghost use Rattle.term_spine.specs.Spine.{count_products as products_of, end_of_products as the_end};
ghost use Rattle.cic_rules.specs.Steps.{answer_of};
ghost use Rattle.matching.specs.Scopes.{AreValues};
ghost use Rattle.move_rewrite.specs.Equations.{sides_of, equation_of as the_equation, pattern_of as the_pattern, other_of as the_other, has_variable_head as variable_heads, is_unsettled as unsettled, filled_equation as the_filled};
ghost use Rattle.move_rewrite.specs.Scopes.{IsEquationIn};

use base_core::{NoMem, Stop, Text};
use cic_rules::{Context, GlobalEnv};
use coq_syntax::Direction;
use core_term::{Node, Term};
use matching::{Values, has_unset};
use move_basic::filled;
use std::alloc::Global;

/// An equation: the places of `eq`, of its constructor and of its eliminator into `Prop`, the type of the sides,
/// and the sides.
#[derive(Drop)]
pub struct Equation {
    pub eq: u32,
    pub same: u32,
    pub by: u32,
    pub ty: Term,
    pub left: Term,
    pub right: Term,
}

/// The equation that a term is. None is one where the environment lacks `eq`, its constructor or its
/// eliminator into `Prop`.
pub(crate) fn equation_of(
    alloc: Global,
    env: &GlobalEnv,
    t: &Term,
) -> Result<Option<Equation>, NoMem>
    ensures { IfOk result (λ e. e ≡ the_equation env.now t.now) }
{
    let eq = env.place_of(&Text::copy(alloc, "eq")?);
    let same = env.place_of(&Text::copy(alloc, "eq_refl")?);
    let by = env.place_of(&Text::copy(alloc, "eq_ind")?);
    match (eq, same, by) {
        (Some(eq), Some(same), Some(by)) => sides_of(eq, same, by, t),
        _ => Ok(None),
    }
}

/// By the places of `eq`, of its constructor and of its eliminator.
fn sides_of(eq: u32, same: u32, by: u32, t: &Term) -> Result<Option<Equation>, NoMem>
    ensures { IfOk result (λ e. e ≡ sides_of eq same by t.now) }
{
    let Node::App {
        function,
        argument: right,
    } = t.node()
    else {
        return Ok(None);
    };
    let Node::App {
        function,
        argument: left,
    } = function.node()
    else {
        return Ok(None);
    };
    let Node::App {
        function,
        argument: ty,
    } = function.node()
    else {
        return Ok(None);
    };
    let Node::Constant(c) = function.node() else {
        return Ok(None);
    };
    if *c != eq {
        return Ok(None);
    }
    let ty = ty.share()?;
    let left = left.share()?;
    let right = right.share()?;
    Ok(Some(Equation {
        eq,
        same,
        by,
        ty,
        left,
        right,
    }))
}

/// The side that is looked for.
pub(crate) fn pattern_of(direction: Direction, equation: &Equation) -> &Term
    ensures { result.now ≡ the_pattern direction equation.now }
{
    match direction {
        Direction::Unmarked => &equation.left,
        Direction::Forward(_) => &equation.left,
        Direction::Backward(_) => &equation.right,
    }
}

/// The side that comes in its place.
pub(crate) fn other_of(direction: Direction, equation: &Equation) -> &Term
    ensures { result.now ≡ the_other direction equation.now }
{
    match direction {
        Direction::Unmarked => &equation.right,
        Direction::Forward(_) => &equation.right,
        Direction::Backward(_) => &equation.left,
    }
}

/// How many products stand in front of a term.
pub(crate) fn count_products(t: &Term) -> u32
    ensures counted { result ≡ products_of t.now }
    ensures few { result + 1 ≤ depth_of t.now }
{
    match t.node() {
        Node::Prod { codomain, .. } => 1 + count_products(codomain),
        Node::Var(_) => 0,
        Node::Sorted(_) => 0,
        Node::Constant(_) => 0,
        Node::Lam { .. } => 0,
        Node::LetIn { .. } => 0,
        Node::App { .. } => 0,
    }
}

/// What stands behind them.
pub(crate) fn end_of_products(t: &Term) -> &Term
    ensures { result.now ≡ the_end t.now }
{
    match t.node() {
        Node::Prod { codomain, .. } => end_of_products(codomain),
        Node::Var(_) => t,
        Node::Sorted(_) => t,
        Node::Constant(_) => t,
        Node::Lam { .. } => t,
        Node::LetIn { .. } => t,
        Node::App { .. } => t,
    }
}

/// Whether the head of a term is one of its newest variables, so many.
pub(crate) fn has_variable_head(count: u32, t: &Term) -> bool
    ensures { result ≡ variable_heads count t.now }
{
    match t.node() {
        Node::App { function, .. } => has_variable_head(count, function),
        Node::Var(i) => *i < count,
        Node::Sorted(_) => false,
        Node::Constant(_) => false,
        Node::Prod { .. } => false,
        Node::Lam { .. } => false,
        Node::LetIn { .. } => false,
    }
}

/// Whether a variable without a value stands in the equation.
pub(crate) fn is_unsettled(values: &Values, equation: &Equation) -> bool
    ensures { result ≡ unsettled values.now equation.now }
{
    let _ty = equation.ty.depth();
    let _left = equation.left.depth();
    let _right = equation.right.depth();
    has_unset(values, &equation.ty, 0)
        || (has_unset(values, &equation.left, 0) || has_unset(values, &equation.right, 0))
}

/// The equation at values of its variables: each that stands in it has one.
#[tactic(auto, using(crate::proofs::Sides::side_pattern, crate::proofs::Sides::settled_sides))]
pub(crate) fn filled_equation(
    alloc: Global,
    env: &GlobalEnv,
    ctx: &Context,
    values: &Values,
    equation: &Equation,
) -> Result<Equation, Stop>
    requires equation { IsEquationIn (length ctx.now + length values.now) (length env.now) equation.now }
    requires found { AreValues (length ctx.now - 0) (length env.now) values.now }
    requires settled { unsettled values.now equation.now ≡ false }
    ensures answer { Gives result (answer_of (the_filled values.now equation.now)) }
    ensures scoped { IfOk result (IsEquationIn (length ctx.now) (length env.now)) }
{
    let ty = filled(alloc, env, ctx, values, &equation.ty)?;
    let left = filled(alloc, env, ctx, values, &equation.left)?;
    let right = filled(alloc, env, ctx, values, &equation.right)?;
    Ok(Equation {
        eq: equation.eq,
        same: equation.same,
        by: equation.by,
        ty,
        left,
        right,
    })
}
