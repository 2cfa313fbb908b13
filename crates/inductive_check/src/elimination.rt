//! The types of eliminators.
ghost use Rattle.std.specs.Prelude.{◌≡◌, ◌+◌, ◌-◌, ◌*◌, ◌^◌, ◌<◌, ◌≤◌, length};
ghost use Rattle.core_term.specs.Tree.{Prod, depth_of, free_bound};
ghost use Rattle.core_term.specs.Sorts.{IsSort};
ghost use Rattle.inductive_check.specs.Labels.{with_type};
ghost use Rattle.inductive_check.specs.Levels.{Makes, IsSite, MayPlace, AreCtorsPlaced};
ghost use Rattle.inductive_check.specs.Elimination.{IsMotive, motive_at, motive_type_at, motive_end_at, at_indices, hypothesis_at, hypothesis_end_at, hypothesis_over_at, conclusion_at, conclusion_over_at, conclusion_end_at, case_at, case_end_at, plain_case_at as plain_at, recursive_case_at as recursion_at, cases_at};

use crate::forms::mentions;
use crate::labels::{argument_name, case_name, hypothesis_name, value_name};
use crate::levels::{
    Site, applied_to_context, applied_to_indices, applied_to_row, level_variable, placed, within,
};
use base_core::Text;
use cic_rules::{CheckedInductive, Ctor, GlobalEnv};
use core_term::{Node, Sort, Term, TermStop};
use fresh_names::Names;
use std::alloc::Global;

/// The motive of an eliminator: the level of its binder, which is the number of parameters, and
/// whether it speaks of no value, as that of a proposition.
#[derive(Clone, Copy)]
pub(crate) struct Motive {
    pub(crate) level: u32,
    pub(crate) is_prop: bool,
}

/// The motive's variable below the binders of a site.
fn motive_variable(alloc: Global, m: Motive, site: &Site) -> Result<Term, TermStop>
    ensures { Makes result (motive_at m site.now) }
{
    level_variable(alloc, site, m.level)
}

/// The type of the motive: from the indices, and where the type is no proposition from the value,
/// to the sort. So many variables are about.
pub(crate) fn motive_type(
    alloc: Global,
    env: &GlobalEnv,
    i: &CheckedInductive,
    m: Motive,
    count: u32,
    sort: Sort,
    arity: &Term,
) -> Result<Term, TermStop>
    requires motive { IsMotive m i.now.decl }
    requires sort { IsSort sort }
    requires room { count + depth_of arity.now ≤ 2 ^ 31 }
    ensures { Makes result (motive_type_at (with_type env.now i.now) i.now count sort arity.now) }
{
    match arity.node() {
        Node::Prod {
            name,
            domain,
            codomain,
        } => {
            let name = name.share()?;
            let domain = domain.share()?;
            match motive_type(alloc, env, i, m, count + 1, sort, codomain) {
                Ok(rest) => Term::prod(alloc, name, domain, rest),
                Err(stop) => Err(stop),
            }
        }
        _ => motive_end(alloc, i, m, count, sort),
    }
}

fn motive_end(
    alloc: Global,
    i: &CheckedInductive,
    m: Motive,
    count: u32,
    sort: Sort,
) -> Result<Term, TermStop>
    requires motive { IsMotive m i.now.decl }
    requires sort { IsSort sort }
    requires room { count ≤ 2 ^ 31 }
    ensures { Makes result (motive_end_at i.now m count sort) }
{
    if m.is_prop {
        return Term::sort(alloc, sort);
    }
    let name = value_name(alloc, &i.decl)?;
    let end = Term::sort(alloc, sort)?;
    let family = Term::constant(alloc, i.place)?;
    match applied_to_row(alloc, family, 0, count) {
        Ok(family) => Term::prod(alloc, name, family, end),
        Err(stop) => Err(stop),
    }
}

/// What the hypothesis of a recursive argument says, below so many products of the argument's own.
#[cycle(hypotheses)]
fn hypothesis(
    alloc: Global,
    env: &GlobalEnv,
    i: &CheckedInductive,
    m: Motive,
    site: &Site,
    own: u32,
    ty: &Term,
) -> Result<Term, TermStop>
    requires motive { IsMotive m i.now.decl }
    requires place { MayPlace site.now ty.now }
    requires below { m.level < site.now.depth }
    requires room { site.now.depth + own + 2 * depth_of ty.now < 2 ^ 31 }
    ensures { Makes result (hypothesis_at (with_type env.now i.now) i.now m site.now own ty.now) }
{
    match ty.node() {
        Node::Prod {
            name,
            domain,
            codomain,
        } => hypothesis_over(alloc, env, i, m, site, own, name, domain, codomain),
        _ => hypothesis_end(alloc, i, m, site, own, ty),
    }
}

/// The same over one of the argument's products.
#[cycle(hypotheses)]
#[tactic(auto, using(crate::proofs::SizeLaws::domain_stop, crate::proofs::SizeLaws::rest_stop))]
fn hypothesis_over(
    alloc: Global,
    env: &GlobalEnv,
    i: &CheckedInductive,
    m: Motive,
    site: &Site,
    own: u32,
    name: &Text,
    a: &Term,
    b: &Term,
) -> Result<Term, TermStop>
    requires motive { IsMotive m i.now.decl }
    requires first { MayPlace site.now a.now }
    requires rest { free_bound b.now ≤ length site.now.levels + 1 }
    requires below { m.level < site.now.depth }
    requires room { site.now.depth + own + 2 * depth_of b.now + 2 < 2 ^ 31 }
    ensures { Makes result (hypothesis_over_at (with_type env.now i.now) i.now m site.now own name.now a.now b.now) }
{
    let name = name.share()?;
    let inner = site.with_variable(alloc)?;
    match placed(alloc, a, site) {
        Ok(domain) => match hypothesis(alloc, env, i, m, &inner, own + 1, b) {
            Ok(rest) => Term::prod(alloc, name, domain, rest),
            Err(stop) => Err(stop),
        },
        Err(stop) => Err(stop),
    }
}

/// The motive at the indices of the argument, and where it speaks of a value at the argument.
fn hypothesis_end(
    alloc: Global,
    i: &CheckedInductive,
    m: Motive,
    site: &Site,
    own: u32,
    ty: &Term,
) -> Result<Term, TermStop>
    requires motive { IsMotive m i.now.decl }
    requires place { MayPlace site.now ty.now }
    requires room { own ≤ 2 ^ 31 }
    ensures { Makes result (hypothesis_end_at i.now m site.now own ty.now) }
{
    let function = motive_variable(alloc, m, site)?;
    match applied_to_indices(alloc, function, m.level as usize, ty, site) {
        Ok(at_indices) => {
            if m.is_prop {
                return within(at_indices);
            }
            let argument = Term::var(alloc, own)?;
            match applied_to_row(alloc, argument, 0, own) {
                Ok(value) => Term::app(alloc, at_indices, value),
                Err(stop) => Err(stop),
            }
        }
        Err(stop) => Err(stop),
    }
}

/// The indices and the value, and then the motive at them, below so many indices.
#[cycle(conclusions)]
fn conclusion(
    alloc: Global,
    env: &GlobalEnv,
    i: &CheckedInductive,
    m: Motive,
    site: &Site,
    own: u32,
    arity: &Term,
) -> Result<Term, TermStop>
    requires motive { IsMotive m i.now.decl }
    requires place { MayPlace site.now arity.now }
    requires below { m.level < site.now.depth }
    requires room { site.now.depth + own + 2 * depth_of arity.now < 2 ^ 31 }
    ensures { Makes result (conclusion_at (with_type env.now i.now) i.now m site.now own arity.now) }
{
    match arity.node() {
        Node::Prod {
            name,
            domain,
            codomain,
        } => conclusion_over(alloc, env, i, m, site, own, name, domain, codomain),
        _ => conclusion_end(alloc, i, m, site, own),
    }
}

/// The same over an index.
#[cycle(conclusions)]
#[tactic(auto, using(crate::proofs::SizeLaws::domain_stop, crate::proofs::SizeLaws::rest_stop))]
fn conclusion_over(
    alloc: Global,
    env: &GlobalEnv,
    i: &CheckedInductive,
    m: Motive,
    site: &Site,
    own: u32,
    name: &Text,
    a: &Term,
    b: &Term,
) -> Result<Term, TermStop>
    requires motive { IsMotive m i.now.decl }
    requires first { MayPlace site.now a.now }
    requires rest { free_bound b.now ≤ length site.now.levels + 1 }
    requires below { m.level < site.now.depth }
    requires room { site.now.depth + own + 2 * depth_of b.now + 2 < 2 ^ 31 }
    ensures { Makes result (conclusion_over_at (with_type env.now i.now) i.now m site.now own name.now a.now b.now) }
{
    let name = name.share()?;
    let inner = site.with_variable(alloc)?;
    match placed(alloc, a, site) {
        Ok(domain) => match conclusion(alloc, env, i, m, &inner, own + 1, b) {
            Ok(rest) => Term::prod(alloc, name, domain, rest),
            Err(stop) => Err(stop),
        },
        Err(stop) => Err(stop),
    }
}

/// The value, and the motive at the indices and where it speaks of a value at that.
fn conclusion_end(
    alloc: Global,
    i: &CheckedInductive,
    m: Motive,
    site: &Site,
    own: u32,
) -> Result<Term, TermStop>
    requires motive { IsMotive m i.now.decl }
    requires place { IsSite site.now }
    requires below { m.level < site.now.depth }
    requires room { site.now.depth + own < 2 ^ 31 }
    ensures { Makes result (conclusion_end_at i.now m site.now own) }
{
    let name = value_name(alloc, &i.decl)?;
    let family = Term::constant(alloc, i.place)?;
    let under = site.with_binder()?;
    let function = motive_variable(alloc, m, &under)?;
    match applied_to_context(alloc, family, site) {
        Ok(family) => match motive_at_indices(alloc, m, function, own) {
            Ok(end) => Term::prod(alloc, name, family, end),
            Err(stop) => Err(stop),
        },
        Err(stop) => Err(stop),
    }
}

/// The motive at so many indices, which stand above the value, and where it speaks of a value at
/// that.
fn motive_at_indices(alloc: Global, m: Motive, function: Term, count: u32) -> Result<Term, TermStop>
    requires { count < 2 ^ 32 - 1 }
    ensures { Makes result (at_indices m function count) }
{
    if m.is_prop {
        applied_to_row(alloc, function, 1, count)
    } else {
        applied_to_row(alloc, function, 0, count + 1)
    }
}

/// The case of the constructor at a place, from an argument on.
#[cycle(case)]
fn case_type(
    alloc: Global,
    env: &GlobalEnv,
    i: &CheckedInductive,
    m: Motive,
    ctor: u32,
    site: &Site,
    names: &Names,
    ty: &Term,
) -> Result<Term, TermStop>
    requires motive { IsMotive m i.now.decl }
    requires env { i.now.place ≡ length env.now }
    requires place { MayPlace site.now ty.now }
    requires below { m.level < site.now.depth }
    requires room { site.now.depth + 2 * depth_of ty.now < 2 ^ 31 }
    ensures { Makes result (case_at (with_type env.now i.now) i.now m ctor site.now names.now ty.now) }
{
    match ty.node() {
        Node::Prod {
            name,
            domain,
            codomain,
        } => {
            let name = argument_name(alloc, env, i, names, name, domain)?;
            if mentions(domain, i.place) {
                recursive_case(alloc, env, i, m, ctor, site, names, name, domain, codomain)
            } else {
                plain_case(alloc, env, i, m, ctor, site, names, name, domain, codomain)
            }
        }
        _ => case_end(alloc, i, m, ctor, site, ty),
    }
}

/// A case from an argument on that is not recursive.
#[cycle(case)]
fn plain_case(
    alloc: Global,
    env: &GlobalEnv,
    i: &CheckedInductive,
    m: Motive,
    ctor: u32,
    site: &Site,
    names: &Names,
    name: Text,
    a: &Term,
    b: &Term,
) -> Result<Term, TermStop>
    requires motive { IsMotive m i.now.decl }
    requires env { i.now.place ≡ length env.now }
    requires first { MayPlace site.now a.now }
    requires rest { free_bound b.now ≤ length site.now.levels + 1 }
    requires below { m.level < site.now.depth }
    requires room { site.now.depth + 2 * depth_of b.now + 2 < 2 ^ 31 }
    ensures { Makes result (plain_at (with_type env.now i.now) i.now m ctor site.now names.now name a.now b.now) }
{
    let inner = site.with_variable(alloc)?;
    let within = names.with(alloc, &name)?;
    match placed(alloc, a, site) {
        Ok(domain) => match case_type(alloc, env, i, m, ctor, &inner, &within, b) {
            Ok(rest) => Term::prod(alloc, name, domain, rest),
            Err(stop) => Err(stop),
        },
        Err(stop) => Err(stop),
    }
}

/// A case from a recursive argument on: the argument, its hypothesis, and the rest.
#[cycle(case)]
fn recursive_case(
    alloc: Global,
    env: &GlobalEnv,
    i: &CheckedInductive,
    m: Motive,
    ctor: u32,
    site: &Site,
    names: &Names,
    name: Text,
    a: &Term,
    b: &Term,
) -> Result<Term, TermStop>
    requires motive { IsMotive m i.now.decl }
    requires env { i.now.place ≡ length env.now }
    requires first { MayPlace site.now a.now }
    requires rest { free_bound b.now ≤ length site.now.levels + 1 }
    requires below { m.level < site.now.depth }
    requires room { site.now.depth + 2 * depth_of b.now + 2 < 2 ^ 31 }
    requires own { site.now.depth + 2 * depth_of a.now + 2 < 2 ^ 31 }
    ensures { Makes result (recursion_at (with_type env.now i.now) i.now m ctor site.now names.now name a.now b.now) }
{
    let label = hypothesis_name(alloc, &name)?;
    let under = site.with_binder()?;
    let inner = site.with_variable(alloc)?;
    let behind = inner.with_binder()?;
    let seen = names.with(alloc, &name)?;
    let within = seen.with(alloc, &label)?;
    match placed(alloc, a, site) {
        Ok(domain) => match hypothesis(alloc, env, i, m, &under, 0, a) {
            Ok(says) => match case_type(alloc, env, i, m, ctor, &behind, &within, b) {
                Ok(rest) => two_products(alloc, name, domain, label, says, rest),
                Err(stop) => Err(stop),
            },
            Err(stop) => Err(stop),
        },
        Err(stop) => Err(stop),
    }
}

fn two_products(
    alloc: Global,
    name: Text,
    domain: Term,
    label: Text,
    says: Term,
    rest: Term,
) -> Result<Term, TermStop>
    ensures { Makes result (Prod name domain (Prod label says rest)) }
{
    match Term::prod(alloc, label, says, rest) {
        Ok(rest) => Term::prod(alloc, name, domain, rest),
        Err(stop) => Err(stop),
    }
}

/// The motive at the constructor's indices, and where it speaks of a value at the constructor.
fn case_end(
    alloc: Global,
    i: &CheckedInductive,
    m: Motive,
    ctor: u32,
    site: &Site,
    ty: &Term,
) -> Result<Term, TermStop>
    requires motive { IsMotive m i.now.decl }
    requires place { MayPlace site.now ty.now }
    ensures { Makes result (case_end_at i.now m ctor site.now ty.now) }
{
    let function = motive_variable(alloc, m, site)?;
    match applied_to_indices(alloc, function, m.level as usize, ty, site) {
        Ok(at_indices) => {
            if m.is_prop {
                return within(at_indices);
            }
            let head = Term::constant(alloc, ctor)?;
            match applied_to_context(alloc, head, site) {
                Ok(value) => Term::app(alloc, at_indices, value),
                Err(stop) => Err(stop),
            }
        }
        Err(stop) => Err(stop),
    }
}

/// The cases from a constructor on, and then the conclusion.
pub(crate) fn cases(
    alloc: Global,
    env: &GlobalEnv,
    i: &CheckedInductive,
    m: Motive,
    index: u32,
    ctors: &[Ctor],
    site: &Site,
    names: &Names,
) -> Result<Term, TermStop>
    requires motive { IsMotive m i.now.decl }
    requires env { i.now.place ≡ length env.now }
    requires arity { MayPlace site.now i.now.decl.arity }
    requires ctors { AreCtorsPlaced site.now ctors.now }
    requires below { m.level < site.now.depth }
    requires room { site.now.depth + length ctors.now + 4000 ≤ 2 ^ 31 }
    requires count { i.now.place + index + length ctors.now < 2 ^ 32 }
    ensures { Makes result (cases_at (with_type env.now i.now) i.now m index site.now names.now ctors.now) }
{
    match ctors {
        [] => {
            let _depth = i.decl.arity.depth();
            conclusion(alloc, env, i, m, site, 0, &i.decl.arity)
        }
        [ctor, later @ ..] => {
            let _depth = ctor.ty.depth();
            let name = case_name(alloc, ctor)?;
            let place = i.place + 1 + index;
            let inner = site.with_binder()?;
            let within = names.with(alloc, &name)?;
            match case_type(alloc, env, i, m, place, site, names, &ctor.ty) {
                Ok(case) => {
                    match cases(alloc, env, i, m, index + 1, later, &inner, &within) {
                        Ok(rest) => Term::prod(alloc, name, case, rest),
                        Err(stop) => Err(stop),
                    }
                }
                Err(stop) => Err(stop),
            }
        }
    }
}
