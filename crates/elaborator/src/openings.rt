//! Scopes with the hypotheses that binders make.
ghost use Rattle.std.specs.Prelude.{◌≡◌, ◌+◌, ◌-◌, ◌^◌, ◌≤◌, length, IfOk};
ghost use Rattle.base_core.specs.Answers.{Gives};
ghost use Rattle.core_term.specs.Tree.{free_bound};
ghost use Rattle.core_term.specs.Places.{lift_of};
ghost use Rattle.cic_rules.specs.Contexts.{extended, plain_hyp, defined_hyp};
ghost use Rattle.cic_rules.specs.Judges.{MayJudge, IsTermIn};
ghost use Rattle.elaborator.specs.Names.{bound_name};
ghost use Rattle.elaborator.specs.Parts.{opened, lifted_hyp};

use crate::names::bound_name;
use crate::scope::Scope;
use base_core::{NoMem, Stop, Text};
use cic_rules::{GlobalEnv, Hyp};
use coq_syntax::BoundName;
use core_term::{Term, TermStop};
use std::alloc::Global;

/// The scope with a hypothesis without a definition.
#[tactic(auto, using(crate::proofs::OpeningLaws::under_judged, crate::proofs::OpeningLaws::plain_fits))]
pub(crate) fn under(
    alloc: Global,
    env: &GlobalEnv,
    scope: &Scope,
    name: &Text,
    ty: &Term,
) -> Result<Scope, Stop>
    requires judged { MayJudge env.now scope.now }
    requires ty { IsTermIn env.now scope.now ty.now }
    ensures answer { Gives result (extended scope.now (plain_hyp name.now ty.now)) }
    ensures judged { IfOk result (λ inner. MayJudge env.now inner) }
{
    let name = name.share()?;
    let ty = ty.share()?;
    let hyp = Hyp {
        name,
        ty,
        value: None,
    };
    scope.with(alloc, hyp)
}

/// The scope with a hypothesis that has a definition.
#[tactic(auto, using(crate::proofs::OpeningLaws::define_judged, crate::proofs::OpeningLaws::defined_fits))]
pub(crate) fn define(
    alloc: Global,
    env: &GlobalEnv,
    scope: &Scope,
    name: &Text,
    ty: &Term,
    value: &Term,
) -> Result<Scope, Stop>
    requires judged { MayJudge env.now scope.now }
    requires ty { IsTermIn env.now scope.now ty.now }
    requires value { IsTermIn env.now scope.now value.now }
    ensures answer { Gives result (extended scope.now (defined_hyp name.now ty.now value.now)) }
    ensures judged { IfOk result (λ inner. MayJudge env.now inner) }
{
    let name = name.share()?;
    let ty = ty.share()?;
    let value = value.share()?;
    let hyp = Hyp {
        name,
        ty,
        value: Some(value),
    };
    scope.with(alloc, hyp)
}

/// The scope with a hypothesis for each name, all of one type.
#[tactic(auto, using(crate::proofs::OpeningLaws::opened_judged, crate::proofs::OpeningLaws::scoped_bound))]
pub(crate) fn open_names(
    alloc: Global,
    env: &GlobalEnv,
    scope: &Scope,
    names: &[BoundName],
    ty: &Term,
) -> Result<Scope, Stop>
    requires judged { MayJudge env.now scope.now }
    requires ty { IsTermIn env.now scope.now ty.now }
    ensures answer { Gives result (opened scope.now ty.now 0 names.now) }
    ensures judged { IfOk result (λ inner. MayJudge env.now inner) }
{
    opened(alloc, scope, names, ty)
}

fn opened(alloc: Global, scope: &Scope, names: &[BoundName], ty: &Term) -> Result<Scope, Stop>
    requires { free_bound ty.now ≤ length scope.now }
    ensures { Gives result (opened scope.now ty.now 0 names.now) }
{
    let mut inner = scope.share()?;
    for name in names {
        inner = with_name(alloc, scope.len(), &inner, name, ty)?;
    }
    Ok(inner)
}

/// The scope with one more name of a type that stands in its oldest `outer` hypotheses.
fn with_name(
    alloc: Global,
    outer: u32,
    inner: &Scope,
    name: &BoundName,
    ty: &Term,
) -> Result<Scope, Stop>
    requires fits { free_bound ty.now ≤ outer }
    requires inner { outer ≤ length inner.now }
    ensures { Gives result (extended inner.now (lifted_hyp name.now ty.now (length inner.now - outer))) }
{
    let by = inner.len() - outer;
    let hyp = Hyp {
        name: bound_name(alloc, name)?,
        ty: lifted(alloc, ty, by)?,
        value: None,
    };
    inner.with(alloc, hyp)
}

/// A term under so many binders more.
#[tactic(auto, using(crate::proofs::OpeningLaws::lift_fits, crate::proofs::OpeningLaws::lift_numbered))]
fn lifted(alloc: Global, t: &Term, by: u32) -> Result<Term, NoMem>
    requires { free_bound t.now + by ≤ 2 ^ 31 }
    ensures { IfOk result (λ u. u ≡ lift_of t.now by 0) }
{
    let _depth = t.depth();
    match t.lift(alloc, by, 0) {
        Ok(t) => Ok(t),
        Err(TermStop::NoMem) => Err(NoMem),
        Err(TermStop::TooLarge) => unreachable!(),
    }
}
