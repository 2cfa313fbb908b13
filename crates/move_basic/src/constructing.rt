//! A constructor for a goal whose type is inductive.
ghost use Rattle.std.specs.Prelude.{◌≡◌, ◌-◌, ◌≤◌, length, IfOk};
ghost use Rattle.base_core.specs.Answers.{Gives};
ghost use Rattle.core_term.specs.Answers.{within_limits, Gives as Makes};
ghost use Rattle.core_term.specs.Tree.{depth_of};
ghost use Rattle.term_spine.specs.Spine.{arguments_of};
ghost use Rattle.cic_rules.specs.Fuel.{left, IsSpentOf};
ghost use Rattle.cic_rules.specs.Judges.{MayJudge, IsTermIn, Meets};
ghost use Rattle.cic_rules.specs.Steps.{answer_of};
ghost use Rattle.move_basic.specs.Constructors.{at_params, constructor_term};
ghost use Rattle.proof_state.specs.Scopes.{IsSketchIn};
ghost use Rattle.move_basic.specs.Calls.{construct_with};

use crate::applying::apply_to_all;
use crate::refusals::refusal;
use base_core::Stop;
use cic_rules::{Context, Fuel, GlobalEnv, Judge};
use core_term::{Node, Term, TermStop};
use fresh_names::head_constant;
use proof_state::{Goal, Sketch};
use std::alloc::Global;

/// The constructor with an index, where the goal's inductive type has so many, applied with all of its arguments.
#[tactic(auto, using(crate::proofs::Constructed::constructor_scoped))]
pub(crate) fn construct<J: Judge>(
    judge: &J,
    alloc: Global,
    env: &GlobalEnv,
    ctx: &Context,
    ty: &Term,
    count: usize,
    index: usize,
    code: u16,
    fuel: &mut Fuel,
) -> Result<Sketch<Goal>, Stop>
    requires judged { MayJudge env.now ctx.now }
    requires goal { IsTermIn env.now ctx.now ty.now }
    ensures answer { Meets result (left fuel.new) (construct_with env.now ctx.now ty.now count index code fuel.old) }
    ensures sketch { IfOk result (IsSketchIn env.now ctx.now) }
    ensures kept { IsSpentOf fuel.old fuel.new }
{
    match judge.whnf(alloc, env, ctx, ty, fuel) {
        Ok(reduced) => match constructor_term(alloc, env, count, index, code, &reduced) {
            Ok(t) => apply_to_all(judge, alloc, env, ctx, ty, t, fuel),
            Err(stop) => Err(stop),
        },
        Err(stop) => Err(stop),
    }
}

/// The constructor at the parameters of the inductive type that a term is.
fn constructor_term(
    alloc: Global,
    env: &GlobalEnv,
    count: usize,
    index: usize,
    code: u16,
    t: &Term,
) -> Result<Term, Stop>
    ensures { Gives result (answer_of (constructor_term env.now count index code t.now)) }
{
    let Some(c) = head_constant(t) else {
        return Err(refusal(code));
    };
    let Some(decl) = env.inductive(c) else {
        return Err(refusal(code));
    };
    let ctors = decl.ctors.as_slice();
    if ctors.len() != count {
        return Err(refusal(code));
    }
    let Some(ctor) = ctors.get(index) else {
        return Err(refusal(code));
    };
    match env.place_of(&ctor.name) {
        Some(place) => Ok(at_params(alloc, decl.params.as_slice().len(), place, t)?),
        None => Err(refusal(code)),
    }
}

/// A global applied to the first of the term's arguments, so many.
#[tactic(auto, using(crate::proofs::Parameters::all_kept, crate::proofs::Parameters::last_dropped))]
fn at_params(alloc: Global, params: usize, place: u32, t: &Term) -> Result<Term, TermStop>
    ensures { Makes result (within_limits (at_params params place t.now)) }
{
    let count = count_arguments(t) as usize;
    if count <= params {
        return at_all_but(alloc, 0, place, t);
    }
    at_all_but(alloc, count - params, place, t)
}

/// A global applied to all but the last of the term's arguments, so many.
#[tactic(auto, using(crate::proofs::Parameters::without_last))]
fn at_all_but(alloc: Global, last: usize, place: u32, t: &Term) -> Result<Term, TermStop>
    ensures { Makes result (within_limits (at_params (length (arguments_of t.now) - last) place t.now)) }
{
    match t.node() {
        Node::App { function, argument } => {
            if last > 0 {
                return at_all_but(alloc, last - 1, place, function);
            }
            match at_all_but(alloc, 0, place, function) {
                Ok(applied) => {
                    let argument = argument.share()?;
                    Term::app(alloc, applied, argument)
                }
                Err(stop) => Err(stop),
            }
        }
        Node::Var(_) => Ok(Term::constant(alloc, place)?),
        Node::Sorted(_) => Ok(Term::constant(alloc, place)?),
        Node::Constant(_) => Ok(Term::constant(alloc, place)?),
        Node::Prod { .. } => Ok(Term::constant(alloc, place)?),
        Node::Lam { .. } => Ok(Term::constant(alloc, place)?),
        Node::LetIn { .. } => Ok(Term::constant(alloc, place)?),
    }
}

fn count_arguments(t: &Term) -> u32
    ensures count { result ≡ length (arguments_of t.now) }
    ensures few { result ≤ depth_of t.now }
{
    let _depth = t.depth();
    match t.node() {
        Node::App { function, .. } => count_arguments(function) + 1,
        Node::Var(_) => 0,
        Node::Sorted(_) => 0,
        Node::Constant(_) => 0,
        Node::Prod { .. } => 0,
        Node::Lam { .. } => 0,
        Node::LetIn { .. } => 0,
    }
}
