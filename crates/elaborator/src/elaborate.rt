//! Terms as they are written, row by row.
ghost use Rattle.std.specs.Prelude.{◌≡◌, [], IfOk};
ghost use Rattle.coq_syntax.specs.Nodes.{tree_of, binders_of, groups_of, annotation_of, arguments_of};
ghost use Rattle.coq_syntax.specs.Trees as tree;
ghost use Rattle.coq_syntax.specs.Counts.{argument_term};
ghost use Rattle.cic_rules.specs.Fuel.{left, IsSpentOf};
ghost use Rattle.cic_rules.specs.Judges.{MayJudge, IsTermIn, Meets};
ghost use Rattle.elaborator.specs.Names.{bound_name};
ghost use Rattle.elaborator.specs.Elab.{elab_with, groups_with, binders_with, arguments_with};
ghost use Rattle.elaborator.specs.Written.{Does, binding_row, let_row, typed_let_row, untyped_let_row, defined_row, apply_row, application_row, named_application_row};
ghost use Rattle.elaborator.specs.Calls.{arrow_with, binding_with, defined_with, typed_let_with, untyped_let_with, let_with, operation_with, negation_with, equation_with, named_application_with, application_with, bound_with};

use crate::arrangement::{has_named, order};
use crate::binders::{Binding, close};
use crate::names::{bound_name, name_term, prelude};
use crate::openings::{define, open_names, under};
use crate::scope::Scope;
use crate::spine::{
    TermList, apply_all, apply_one, apply_three, apply_two, numeral, picked, sort_term, type_at,
};
use base_core::{Stop, Text};
use cic_rules::{Fuel, GlobalEnv, Judge};
use coq_syntax::{Annotation, Argument, Binders, BoundName, Group, Node, SurfaceTerm, TokenPlace};
use core_term::{Sort, Term};
use std::alloc::Global;

/// The term of a tree.
#[cycle(elab)]
pub(crate) fn elab_in<J: Judge>(
    judge: &J,
    alloc: Global,
    env: &GlobalEnv,
    scope: &Scope,
    s: &SurfaceTerm,
    fuel: &mut Fuel,
) -> Result<Term, Stop>
    requires judged { MayJudge env.now scope.now }
    ensures answer { Meets result (left fuel.new) (elab_with env.now scope.now s.now fuel.old) }
    ensures inside { IfOk result (λ t. IsTermIn env.now scope.now t) }
    ensures kept { IsSpentOf fuel.old fuel.new }
{
    let _globals = env.len();
    row(judge, alloc, env, scope, s.node(), fuel)
}

/// The term of the tree of a node.
#[cycle(elab)]
#[tactic(auto, unfolding(crate::specs::Elab::elab))]
fn row<J: Judge>(
    judge: &J,
    alloc: Global,
    env: &GlobalEnv,
    scope: &Scope,
    node: &Node,
    fuel: &mut Fuel,
) -> Result<Term, Stop>
    requires judged { MayJudge env.now scope.now }
    ensures answer { Meets result (left fuel.new) (elab_with env.now scope.now (tree_of node.now) fuel.old) }
    ensures kept { IsSpentOf fuel.old fuel.new }
{
    match node {
        Node::Forall { binders, body, .. } => {
            binding(
                judge,
                alloc,
                env,
                scope,
                Binding::Product,
                binders,
                body,
                fuel,
            )
        }
        Node::Fun { binders, body, .. } => {
            binding(
                judge,
                alloc,
                env,
                scope,
                Binding::Function,
                binders,
                body,
                fuel,
            )
        }
        Node::Let {
            name,
            annotation,
            value,
            body,
            ..
        } => let_row(
            judge, alloc, env, scope, name, annotation, value, body, fuel,
        ),
        Node::Arrow { left, right, .. } => arrow(judge, alloc, env, scope, left, right, fuel),
        Node::Or { left, sign, right } => {
            operation(judge, alloc, env, scope, "or", left, *sign, right, fuel)
        }
        Node::And { left, sign, right } => {
            operation(judge, alloc, env, scope, "and", left, *sign, right, fuel)
        }
        Node::Not { sign, operand } => negation(judge, alloc, env, scope, *sign, operand, fuel),
        Node::Equal { left, sign, right } => {
            equation(judge, alloc, env, scope, left, *sign, right, fuel)
        }
        Node::Apply { head, arguments } => {
            application_row(judge, alloc, env, scope, head, arguments.as_slice(), fuel)
        }
        Node::Name(word) => name_term(alloc, env, scope, word),
        Node::PropSort(_) => sort_term(alloc, Sort::PropSort),
        Node::SetSort(_) => sort_term(alloc, Sort::SetSort),
        Node::TypeSort(_) => sort_term(alloc, Sort::TypeSort(1)),
        Node::TypeAt { level, .. } => type_at(alloc, level),
        Node::Numeral(word) => numeral(alloc, env, word),
        Node::Parenthesized { inner, .. } => elab_in(judge, alloc, env, scope, inner, fuel),
    }
}

/// `a -> b`.
#[cycle(elab)]
fn arrow<J: Judge>(
    judge: &J,
    alloc: Global,
    env: &GlobalEnv,
    scope: &Scope,
    a: &SurfaceTerm,
    b: &SurfaceTerm,
    fuel: &mut Fuel,
) -> Result<Term, Stop>
    requires judged { MayJudge env.now scope.now }
    ensures answer { Meets result (left fuel.new) (arrow_with env.now scope.now a.now b.now fuel.old) }
    ensures kept { IsSpentOf fuel.old fuel.new }
{
    let domain = elab_in(judge, alloc, env, scope, a, fuel)?;
    let name = Text::copy(alloc, "_")?;
    let inner = under(alloc, env, scope, &name, &domain)?;
    let codomain = elab_in(judge, alloc, env, &inner, b, fuel)?;
    Ok(Term::prod(alloc, name, domain, codomain)?)
}

/// Binders over a body.
#[cycle(elab)]
fn binding<J: Judge>(
    judge: &J,
    alloc: Global,
    env: &GlobalEnv,
    scope: &Scope,
    kind: Binding,
    binders: &Binders,
    body: &SurfaceTerm,
    fuel: &mut Fuel,
) -> Result<Term, Stop>
    requires judged { MayJudge env.now scope.now }
    ensures answer { Does result fuel.old fuel.new (binding_row env.now scope.now kind binders.now body.now) }
    ensures kept { IsSpentOf fuel.old fuel.new }
{
    let inner = open_binders(judge, alloc, env, scope, binders, fuel)?;
    let body = elab_in(judge, alloc, env, &inner, body, fuel)?;
    let count = inner.len().saturating_sub(scope.len());
    close(alloc, kind, inner.context(), count, body)
}

/// `let`.
#[cycle(elab)]
fn let_row<J: Judge>(
    judge: &J,
    alloc: Global,
    env: &GlobalEnv,
    scope: &Scope,
    name: &BoundName,
    annotation: &Annotation,
    value: &SurfaceTerm,
    body: &SurfaceTerm,
    fuel: &mut Fuel,
) -> Result<Term, Stop>
    requires judged { MayJudge env.now scope.now }
    ensures answer { Does result fuel.old fuel.new (let_row env.now scope.now name.now annotation.now value.now body.now) }
    ensures kept { IsSpentOf fuel.old fuel.new }
{
    match annotation {
        Annotation::Untyped => { untyped_let(judge, alloc, env, scope, name, value, body, fuel) }
        Annotation::Typed { ty, .. } => {
            typed_let(judge, alloc, env, scope, name, ty, value, body, fuel)
        }
    }
}

#[cycle(elab)]
fn typed_let<J: Judge>(
    judge: &J,
    alloc: Global,
    env: &GlobalEnv,
    scope: &Scope,
    name: &BoundName,
    ty: &SurfaceTerm,
    value: &SurfaceTerm,
    body: &SurfaceTerm,
    fuel: &mut Fuel,
) -> Result<Term, Stop>
    requires judged { MayJudge env.now scope.now }
    ensures answer { Does result fuel.old fuel.new (typed_let_row env.now scope.now name.now ty.now value.now body.now) }
    ensures kept { IsSpentOf fuel.old fuel.new }
{
    let ty = elab_in(judge, alloc, env, scope, ty, fuel)?;
    let value = elab_in(judge, alloc, env, scope, value, fuel)?;
    defined(judge, alloc, env, scope, name, ty, value, body, fuel)
}

#[cycle(elab)]
fn untyped_let<J: Judge>(
    judge: &J,
    alloc: Global,
    env: &GlobalEnv,
    scope: &Scope,
    name: &BoundName,
    value: &SurfaceTerm,
    body: &SurfaceTerm,
    fuel: &mut Fuel,
) -> Result<Term, Stop>
    requires judged { MayJudge env.now scope.now }
    ensures answer { Does result fuel.old fuel.new (untyped_let_row env.now scope.now name.now value.now body.now) }
    ensures kept { IsSpentOf fuel.old fuel.new }
{
    let value = elab_in(judge, alloc, env, scope, value, fuel)?;
    let found = judge.infer(alloc, env, scope.context(), &value, fuel)?;
    defined(judge, alloc, env, scope, name, found.ty, value, body, fuel)
}

/// A definition in front of a body.
#[cycle(elab)]
fn defined<J: Judge>(
    judge: &J,
    alloc: Global,
    env: &GlobalEnv,
    scope: &Scope,
    name: &BoundName,
    ty: Term,
    value: Term,
    body: &SurfaceTerm,
    fuel: &mut Fuel,
) -> Result<Term, Stop>
    requires judged { MayJudge env.now scope.now }
    requires ty { IsTermIn env.now scope.now ty }
    requires value { IsTermIn env.now scope.now value }
    ensures answer { Does result fuel.old fuel.new (defined_row env.now scope.now name.now ty value body.now) }
    ensures kept { IsSpentOf fuel.old fuel.new }
{
    let name = bound_name(alloc, name)?;
    let inner = define(alloc, env, scope, &name, &ty, &value)?;
    let body = elab_in(judge, alloc, env, &inner, body, fuel)?;
    Ok(Term::let_in(alloc, name, ty, value, body)?)
}

/// An operator between two terms.
#[cycle(elab)]
fn operation<J: Judge>(
    judge: &J,
    alloc: Global,
    env: &GlobalEnv,
    scope: &Scope,
    name: &str,
    a: &SurfaceTerm,
    sign: TokenPlace,
    b: &SurfaceTerm,
    fuel: &mut Fuel,
) -> Result<Term, Stop>
    requires judged { MayJudge env.now scope.now }
    ensures answer { Meets result (left fuel.new) (operation_with env.now scope.now name.now a.now sign b.now fuel.old) }
    ensures kept { IsSpentOf fuel.old fuel.new }
{
    let a = elab_in(judge, alloc, env, scope, a, fuel)?;
    let f = prelude(alloc, env, name, sign)?;
    let b = elab_in(judge, alloc, env, scope, b, fuel)?;
    apply_two(alloc, f, a, b)
}

/// `~ a`.
#[cycle(elab)]
fn negation<J: Judge>(
    judge: &J,
    alloc: Global,
    env: &GlobalEnv,
    scope: &Scope,
    sign: TokenPlace,
    a: &SurfaceTerm,
    fuel: &mut Fuel,
) -> Result<Term, Stop>
    requires judged { MayJudge env.now scope.now }
    ensures answer { Meets result (left fuel.new) (negation_with env.now scope.now sign a.now fuel.old) }
    ensures kept { IsSpentOf fuel.old fuel.new }
{
    let f = prelude(alloc, env, "not", sign)?;
    let a = elab_in(judge, alloc, env, scope, a, fuel)?;
    apply_one(alloc, f, a)
}

/// `a = b`.
#[cycle(elab)]
fn equation<J: Judge>(
    judge: &J,
    alloc: Global,
    env: &GlobalEnv,
    scope: &Scope,
    a: &SurfaceTerm,
    sign: TokenPlace,
    b: &SurfaceTerm,
    fuel: &mut Fuel,
) -> Result<Term, Stop>
    requires judged { MayJudge env.now scope.now }
    ensures answer { Meets result (left fuel.new) (equation_with env.now scope.now a.now sign b.now fuel.old) }
    ensures kept { IsSpentOf fuel.old fuel.new }
{
    let a = elab_in(judge, alloc, env, scope, a, fuel)?;
    let f = prelude(alloc, env, "eq", sign)?;
    let found = judge.infer(alloc, env, scope.context(), &a, fuel)?;
    let b = elab_in(judge, alloc, env, scope, b, fuel)?;
    apply_three(alloc, f, found.ty, a, b)
}

/// An application.
#[cycle(elab)]
#[tactic(auto, unfolding(crate::specs::Elab::elab))]
fn application_row<J: Judge>(
    judge: &J,
    alloc: Global,
    env: &GlobalEnv,
    scope: &Scope,
    head: &SurfaceTerm,
    arguments: &[Argument],
    fuel: &mut Fuel,
) -> Result<Term, Stop>
    requires judged { MayJudge env.now scope.now }
    ensures answer { Does result fuel.old fuel.new (apply_row env.now scope.now head.now arguments.now) }
    ensures kept { IsSpentOf fuel.old fuel.new }
{
    if has_named(arguments) {
        named_application(judge, alloc, env, scope, head, arguments, fuel)
    } else {
        application(judge, alloc, env, scope, head, arguments, fuel)
    }
}

#[cycle(elab)]
fn application<J: Judge>(
    judge: &J,
    alloc: Global,
    env: &GlobalEnv,
    scope: &Scope,
    head: &SurfaceTerm,
    arguments: &[Argument],
    fuel: &mut Fuel,
) -> Result<Term, Stop>
    requires judged { MayJudge env.now scope.now }
    ensures answer { Does result fuel.old fuel.new (application_row env.now scope.now head.now arguments.now) }
    ensures kept { IsSpentOf fuel.old fuel.new }
{
    let f = elab_in(judge, alloc, env, scope, head, fuel)?;
    let values = elab_arguments(judge, alloc, env, scope, arguments, fuel)?;
    apply_all(alloc, f, values.as_slice())
}

#[cycle(elab)]
fn named_application<J: Judge>(
    judge: &J,
    alloc: Global,
    env: &GlobalEnv,
    scope: &Scope,
    head: &SurfaceTerm,
    arguments: &[Argument],
    fuel: &mut Fuel,
) -> Result<Term, Stop>
    requires judged { MayJudge env.now scope.now }
    ensures answer { Does result fuel.old fuel.new (named_application_row env.now scope.now head.now arguments.now) }
    ensures kept { IsSpentOf fuel.old fuel.new }
{
    let f = elab_in(judge, alloc, env, scope, head, fuel)?;
    let order = order(alloc, env, scope, head, arguments)?;
    let values = elab_arguments(judge, alloc, env, scope, arguments, fuel)?;
    let arguments = picked(alloc, values.as_slice(), order.as_slice())?;
    apply_all(alloc, f, arguments.as_slice())
}

/// The term of an argument, with a name or without.
fn argument_term(argument: &Argument) -> &SurfaceTerm
    ensures { result.now ≡ argument_term argument.now }
{
    match argument {
        Argument::Positional(term) => term,
        Argument::Given { value, .. } => value,
    }
}

/// The terms of arguments, in the order in which they are written.
#[cycle(elab)]
fn elab_arguments<J: Judge>(
    judge: &J,
    alloc: Global,
    env: &GlobalEnv,
    scope: &Scope,
    arguments: &[Argument],
    fuel: &mut Fuel,
) -> Result<TermList, Stop>
    requires judged { MayJudge env.now scope.now }
    ensures answer { Meets result (left fuel.new) (arguments_with env.now scope.now (arguments_of arguments.now) fuel.old) }
    ensures kept { IsSpentOf fuel.old fuel.new }
{
    let mut values = TermList::new(alloc);
    for argument in arguments {
        match elab_in(judge, alloc, env, scope, argument_term(argument), fuel) {
            Ok(value) => values.push(value)?,
            Err(stop) => return Err(stop),
        }
    }
    Ok(values)
}

/// The scope with the names of binders.
#[cycle(elab)]
#[tactic(auto, unfolding(crate::specs::Elab::elab))]
fn open_binders<J: Judge>(
    judge: &J,
    alloc: Global,
    env: &GlobalEnv,
    scope: &Scope,
    binders: &Binders,
    fuel: &mut Fuel,
) -> Result<Scope, Stop>
    requires judged { MayJudge env.now scope.now }
    ensures answer { Meets result (left fuel.new) (binders_with env.now scope.now (binders_of binders.now) fuel.old) }
    ensures judged { IfOk result (λ inner. MayJudge env.now inner) }
    ensures kept { IsSpentOf fuel.old fuel.new }
{
    match binders {
        Binders::Names { names, ty, .. } => {
            bound(judge, alloc, env, scope, names.as_slice(), ty, fuel)
        }
        Binders::Groups(groups) => { groups_in(judge, alloc, env, scope, groups.as_slice(), fuel) }
    }
}

/// The scope with names of one type, which is elaborated once.
#[cycle(elab)]
fn bound<J: Judge>(
    judge: &J,
    alloc: Global,
    env: &GlobalEnv,
    scope: &Scope,
    names: &[BoundName],
    ty: &SurfaceTerm,
    fuel: &mut Fuel,
) -> Result<Scope, Stop>
    requires judged { MayJudge env.now scope.now }
    ensures answer { Meets result (left fuel.new) (bound_with env.now scope.now names.now ty.now fuel.old) }
    ensures judged { IfOk result (λ inner. MayJudge env.now inner) }
    ensures kept { IsSpentOf fuel.old fuel.new }
{
    let common = elab_in(judge, alloc, env, scope, ty, fuel)?;
    open_names(alloc, env, scope, names, &common)
}

/// The scope with the names of groups.
#[cycle(elab)]
pub(crate) fn groups_in<J: Judge>(
    judge: &J,
    alloc: Global,
    env: &GlobalEnv,
    scope: &Scope,
    groups: &[Group],
    fuel: &mut Fuel,
) -> Result<Scope, Stop>
    requires judged { MayJudge env.now scope.now }
    ensures answer { Meets result (left fuel.new) (groups_with env.now scope.now (groups_of groups.now) fuel.old) }
    ensures judged { IfOk result (λ inner. MayJudge env.now inner) }
    ensures kept { IsSpentOf fuel.old fuel.new }
{
    let mut inner = scope.share()?;
    for group in groups {
        match bound(
            judge,
            alloc,
            env,
            &inner,
            group.names.as_slice(),
            &group.ty,
            fuel,
        ) {
            Ok(next) => inner = next,
            Err(stop) => return Err(stop),
        }
    }
    Ok(inner)
}
