//! Constructors of an inductive type.
ghost use Rattle.std.specs.Prelude.{length, take};
ghost use Rattle.base_core.specs.Answers.{Gives};
ghost use Rattle.coq_syntax.specs.Nodes.{groups_of, annotation_of};
ghost use Rattle.cic_rules.specs.Fuel.{left, IsSpentOf};
ghost use Rattle.cic_rules.specs.Judges.{MayJudge, Meets};
ghost use Rattle.cic_rules.specs.Steps.{answer_of};
ghost use Rattle.term_spine.specs.Spine.{variables_of};
ghost use Rattle.elaborator.specs.Parts.{applied};
ghost use Rattle.elaborator.specs.Constructors.{applied_to_oldest};
ghost use Rattle.elaborator.specs.Written.{Does, result_row, constructor_row};

use crate::binders::{Binding, close};
use crate::elaborate::{elab_in, groups_in};
use crate::scope::Scope;
use base_core::Stop;
use cic_rules::{Context, Fuel, GlobalEnv, Judge};
use coq_syntax::{Annotation, Group};
use core_term::Term;
use std::alloc::Global;

/// The type of a constructor in the context of its type's parameters, in an environment that has the
/// type at a place. Where no type is written, its result is the type applied to the parameters.
/// Refused as `elab`.
pub fn elab_constructor<J: Judge>(
    judge: &J,
    alloc: Global,
    env: &GlobalEnv,
    params: &Context,
    place: u32,
    groups: &[Group],
    annotation: &Annotation,
    fuel: &mut Fuel,
) -> Result<Term, Stop>
    requires { MayJudge env.now params.now }
    ensures answer { Does result fuel.old fuel.new (constructor_row env.now params.now place groups.now annotation.now) }
    ensures kept { IsSpentOf fuel.old fuel.new }
{
    let scope = Scope::of(alloc, params)?;
    let inner = groups_in(judge, alloc, env, &scope, groups, fuel)?;
    let result = result_type(judge, alloc, env, &scope, place, annotation, &inner, fuel)?;
    let count = inner.len().saturating_sub(scope.len());
    close(alloc, Binding::Product, inner.context(), count, result)
}

/// What a constructor makes, under its groups.
fn result_type<J: Judge>(
    judge: &J,
    alloc: Global,
    env: &GlobalEnv,
    params: &Scope,
    place: u32,
    annotation: &Annotation,
    inner: &Scope,
    fuel: &mut Fuel,
) -> Result<Term, Stop>
    requires { MayJudge env.now inner.now }
    ensures answer { Does result fuel.old fuel.new (result_row env.now params.now place annotation.now inner.now) }
    ensures kept { IsSpentOf fuel.old fuel.new }
{
    match annotation {
        Annotation::Untyped => applied_to_oldest(alloc, place, params.len(), inner.len()),
        Annotation::Typed { ty, .. } => elab_in(judge, alloc, env, inner, ty, fuel),
    }
}

/// The type at a place applied to the oldest of so many variables.
fn applied_to_oldest(alloc: Global, place: u32, params: u32, variables: u32) -> Result<Term, Stop>
    ensures { Gives result (answer_of (applied_to_oldest place params variables)) }
{
    let f = Term::constant(alloc, place)?;
    apply_oldest(alloc, f, params, variables)
}

/// A function applied to the oldest of so many variables, which are as few as a term is deep.
#[tactic(auto, using(crate::proofs::ConstructorLaws::oldest_more, crate::proofs::ConstructorLaws::no_variable))]
fn apply_oldest(alloc: Global, f: Term, params: u32, variables: u32) -> Result<Term, Stop>
    ensures { Gives result (answer_of (applied f (take params (variables_of variables)))) }
{
    if params == 0 {
        return Ok(f);
    }
    if variables == 0 {
        return Ok(f);
    }
    let variable = Term::var(alloc, variables - 1)?;
    let f = Term::app(alloc, f, variable)?;
    apply_oldest(alloc, f, params - 1, variables - 1)
}
