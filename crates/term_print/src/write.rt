//! What is written for a named term, part by part.
ghost use Rattle.std.specs.Prelude.{◌≡◌, OnOk, IfOk};
ghost use Rattle.term_spine.specs.Spine.{IsHead};
ghost use Rattle.term_print.specs.Pieces.{at_most, sort_text, group, binding, first_binder};
ghost use Rattle.term_print.specs.Show.{is_function, variable_name};
ghost use Rattle.term_print.specs.Named.{is_quantified, parameter};
ghost use Rattle.term_print.specs.Parts.{shown, shown_spine, shown_applied, shown_global, shown_arguments, arrow_at, quantified_at, quantified_in_run, function_at, function_in_run, let_text, behind_product, behind_parameter};
ghost use Rattle.term_print.specs.Operations.{plain, written, spine_level, applied_level, constant_level};
ghost use Rattle.term_print.specs.Pages.{added};

use crate::named::is_named;
use crate::operations::{Operation, global_name, operation_of};
use crate::page::Page;
use crate::scope::Scope;
use crate::spine::spine;
use base_core::{NoMem, Text};
use cic_rules::GlobalEnv;
use core_term::{Node, Sort, Term};
use itoa::Buffer;
use std::alloc::Global;
use term_spine::Arguments;

/// What is written for a sort.
#[tactic(auto, using(crate::proofs::PageLaws::added_append))]
fn write_sort(page: &mut Page, sort: Sort) -> Result<(), NoMem>
    ensures { OnOk result (page.new ≡ added page.old (sort_text sort)) }
{
    match sort {
        Sort::PropSort => page.put("Prop"),
        Sort::SetSort => page.put("Set"),
        Sort::TypeSort(level) => write_type(page, level),
    }
}

#[tactic(auto, using(crate::proofs::PageLaws::added_append))]
fn write_type(page: &mut Page, level: u16) -> Result<(), NoMem>
    ensures { OnOk result (page.new ≡ added page.old (sort_text (Sort.TypeSort level))) }
{
    if level == 1 {
        return page.put("Type");
    }
    let mut buffer = Buffer::new();
    page.put("Type@{")?;
    page.put(buffer.format(level))?;
    page.put("}")
}

/// The name of a variable.
fn variable_name(alloc: Global, scope: &Scope, i: u32) -> Result<Text, NoMem>
    ensures { IfOk result (λ name. name ≡ variable_name scope.now i) }
{
    match scope.get(i) {
        Some(name) => name.share(),
        None => Text::copy(alloc, ""),
    }
}

/// The name under which the binder of a function is written.
fn parameter(alloc: Global, scope: &Scope, name: &Text) -> Result<Text, NoMem>
    ensures { IfOk result (λ own. own ≡ parameter scope.now name.now) }
{
    if is_named(name) {
        scope.fresh(alloc, name)
    } else {
        Text::copy(alloc, "_")
    }
}

fn is_quantified(t: &Term) -> bool
    ensures { result ≡ is_quantified t.now }
{
    match t.node() {
        Node::Prod { name, .. } => is_named(name),
        _ => false,
    }
}

fn is_function(t: &Term) -> bool
    ensures { result ≡ is_function t.now }
{
    match t.node() {
        Node::Lam { .. } => true,
        _ => false,
    }
}

/// How loosely a head with its arguments holds together.
fn spine_level(alloc: Global, env: &GlobalEnv, head: &Term, args: &Arguments) -> Result<u32, NoMem>
    requires { IsHead head.now }
    ensures { IfOk result (λ level. level ≡ spine_level env.now head.now args.now) }
{
    match head.node() {
        Node::Var(_) => applied_level(0, args),
        Node::Sorted(_) => applied_level(0, args),
        Node::Constant(c) => constant_level(alloc, env, *c, args),
        Node::Prod { name, .. } => {
            if is_named(name) {
                applied_level(200, args)
            } else {
                applied_level(99, args)
            }
        }
        Node::Lam { .. } => applied_level(200, args),
        Node::LetIn { .. } => applied_level(200, args),
        Node::App { .. } => Ok(10),
    }
}

fn applied_level(level: u32, args: &Arguments) -> Result<u32, NoMem>
    ensures { IfOk result (λ found. found ≡ applied_level level args.now) }
{
    match args.split()? {
        None => Ok(level),
        Some(_) => Ok(10),
    }
}

fn constant_level(
    alloc: Global,
    env: &GlobalEnv,
    place: u32,
    args: &Arguments,
) -> Result<u32, NoMem>
    ensures { IfOk result (λ level. level ≡ constant_level env.now place args.now) }
{
    let name = global_name(alloc, env, place)?;
    match operation_of(&name, args)? {
        Operation::Plain => applied_level(0, args),
        Operation::Negation(_) => Ok(75),
        Operation::Conjunction(_, _) => Ok(80),
        Operation::Disjunction(_, _) => Ok(85),
        Operation::Equation(_, _) => Ok(70),
    }
}

// From here on terms are written, each in what is left of the page.

/// A term in a place that allows no level above this one.
#[cycle(write)]
#[tactic(auto, using(crate::proofs::WriteLaws::written_in_parentheses, crate::proofs::WriteLaws::written_without))]
pub fn write_at(
    page: &mut Page,
    alloc: Global,
    env: &GlobalEnv,
    most: u32,
    t: &Term,
    scope: &Scope,
) -> Result<(), NoMem>
    ensures { OnOk result (page.new ≡ added page.old (at_most most (shown env.now t.now scope.now))) }
{
    let spine = spine(alloc, t)?;
    let level = spine_level(alloc, env, &spine.head, &spine.args)?;
    if level > most {
        page.put("(")?;
        write_spine(page, alloc, env, &spine.head, &spine.args, scope)?;
        page.put(")")
    } else {
        write_spine(page, alloc, env, &spine.head, &spine.args, scope)
    }
}

/// A head with its arguments.
#[cycle(write)]
#[tactic(auto, unfolding(crate::specs::Named::show))]
fn write_spine(
    page: &mut Page,
    alloc: Global,
    env: &GlobalEnv,
    head: &Term,
    args: &Arguments,
    scope: &Scope,
) -> Result<(), NoMem>
    requires { IsHead head.now }
    ensures { OnOk result (page.new ≡ added page.old (shown_spine env.now head.now args.now scope.now).text) }
{
    match head.node() {
        Node::Constant(c) => write_constant(page, alloc, env, *c, args, scope),
        Node::App { .. } => unreachable!(),
        _ => write_applied(page, alloc, env, head, args, scope),
    }
}

/// A global with its arguments.
#[cycle(write)]
#[tactic(auto, using(crate::proofs::OperationLaws::operation_written, crate::proofs::OperationLaws::operands_small))]
fn write_constant(
    page: &mut Page,
    alloc: Global,
    env: &GlobalEnv,
    place: u32,
    args: &Arguments,
    scope: &Scope,
) -> Result<(), NoMem>
    ensures { OnOk result (page.new ≡ added page.old (shown_global env.now place args.now scope.now).text) }
{
    let name = global_name(alloc, env, place)?;
    let found = operation_of(&name, args)?;
    write_operation(page, alloc, env, &name, args, &found, scope)
}

/// An operation with its operands, or a global with its arguments.
#[cycle(write)]
#[tactic(auto, using(crate::proofs::PageLaws::added_append))]
fn write_operation(
    page: &mut Page,
    alloc: Global,
    env: &GlobalEnv,
    name: &Text,
    args: &Arguments,
    found: &Operation,
    scope: &Scope,
) -> Result<(), NoMem>
    ensures { OnOk result (page.new ≡ added page.old (written env.now name.now args.now scope.now found.now).text) }
{
    match found {
        Operation::Plain => write_plain(page, alloc, env, name, args, scope),
        Operation::Negation(a) => {
            page.put("~ ")?;
            write_at(page, alloc, env, 75, a, scope)
        }
        Operation::Conjunction(a, b) => {
            write_at(page, alloc, env, 79, a, scope)?;
            page.put(" /\\ ")?;
            write_at(page, alloc, env, 80, b, scope)
        }
        Operation::Disjunction(a, b) => {
            write_at(page, alloc, env, 84, a, scope)?;
            page.put(" \\/ ")?;
            write_at(page, alloc, env, 85, b, scope)
        }
        Operation::Equation(a, b) => {
            write_at(page, alloc, env, 69, a, scope)?;
            page.put(" = ")?;
            write_at(page, alloc, env, 69, b, scope)
        }
    }
}

/// A name with its arguments.
#[cycle(write)]
#[tactic(auto, using(crate::proofs::PageLaws::added_append))]
fn write_plain(
    page: &mut Page,
    alloc: Global,
    env: &GlobalEnv,
    name: &Text,
    args: &Arguments,
    scope: &Scope,
) -> Result<(), NoMem>
    ensures { OnOk result (page.new ≡ added page.old (plain env.now name.now args.now scope.now).text) }
{
    match args.split()? {
        None => page.put(name.as_str()),
        Some((first, rest)) => {
            page.put(name.as_str())?;
            write_arguments(page, alloc, env, &first, &rest, scope)
        }
    }
}

/// A head that is no global, with its arguments.
#[cycle(write)]
#[tactic(auto, using(crate::proofs::PageLaws::added_append))]
fn write_applied(
    page: &mut Page,
    alloc: Global,
    env: &GlobalEnv,
    head: &Term,
    args: &Arguments,
    scope: &Scope,
) -> Result<(), NoMem>
    requires { IsHead head.now }
    ensures { OnOk result (page.new ≡ added page.old (shown_applied env.now head.now args.now scope.now).text) }
{
    match args.split()? {
        None => write_head(page, alloc, env, head, scope),
        Some((first, rest)) => {
            write_at(page, alloc, env, 10, head, scope)?;
            write_arguments(page, alloc, env, &first, &rest, scope)
        }
    }
}

/// Arguments, each behind a blank.
#[cycle(write)]
#[tactic(auto, using(crate::proofs::PageLaws::added_append, crate::proofs::PageLaws::append_nothing))]
fn write_arguments(
    page: &mut Page,
    alloc: Global,
    env: &GlobalEnv,
    first: &Term,
    rest: &Arguments,
    scope: &Scope,
) -> Result<(), NoMem>
    ensures { OnOk result (page.new ≡ added page.old (shown_arguments env.now first.now rest.now scope.now)) }
{
    page.put(" ")?;
    write_at(page, alloc, env, 9, first, scope)?;
    match rest.split()? {
        None => Ok(()),
        Some((second, rest)) => write_arguments(page, alloc, env, &second, &rest, scope),
    }
}

/// A term that is not applied to anything, without parentheses.
#[cycle(write)]
#[tactic(auto, unfolding(crate::specs::Named::show))]
fn write_head(
    page: &mut Page,
    alloc: Global,
    env: &GlobalEnv,
    head: &Term,
    scope: &Scope,
) -> Result<(), NoMem>
    requires { IsHead head.now }
    ensures { OnOk result (page.new ≡ added page.old (shown env.now head.now scope.now).text) }
{
    match head.node() {
        Node::Var(i) => {
            let name = variable_name(alloc, scope, *i)?;
            page.put(name.as_str())
        }
        Node::Sorted(sort) => write_sort(page, *sort),
        Node::Constant(c) => {
            let name = global_name(alloc, env, *c)?;
            page.put(name.as_str())
        }
        Node::Prod {
            name,
            domain,
            codomain,
        } => {
            if is_named(name) {
                write_quantified(page, alloc, env, name, domain, codomain, scope)
            } else {
                write_arrow(page, alloc, env, domain, codomain, scope)
            }
        }
        Node::Lam { name, domain, body } => {
            write_function(page, alloc, env, name, domain, body, scope)
        }
        Node::LetIn {
            name,
            ty,
            value,
            body,
        } => write_let(page, alloc, env, name, ty, value, body, scope),
        Node::App { .. } => unreachable!(),
    }
}

/// A product whose variable is not used.
#[cycle(write)]
#[tactic(auto, using(crate::proofs::PageLaws::added_append))]
fn write_arrow(
    page: &mut Page,
    alloc: Global,
    env: &GlobalEnv,
    domain: &Term,
    codomain: &Term,
    scope: &Scope,
) -> Result<(), NoMem>
    ensures { OnOk result (page.new ≡ added page.old (arrow_at env.now domain.now codomain.now scope.now).text) }
{
    let inner = scope.with_first(alloc, Text::copy(alloc, "_")?)?;
    write_at(page, alloc, env, 98, domain, scope)?;
    page.put(" -> ")?;
    write_at(page, alloc, env, 200, codomain, &inner)
}

/// A product whose variable is used, with the run that it begins.
#[cycle(write)]
#[tactic(auto, using(crate::proofs::PageLaws::added_append))]
fn write_quantified(
    page: &mut Page,
    alloc: Global,
    env: &GlobalEnv,
    name: &Text,
    ty: &Term,
    body: &Term,
    scope: &Scope,
) -> Result<(), NoMem>
    ensures { OnOk result (page.new ≡ added page.old (quantified_at env.now name.now ty.now body.now scope.now).text) }
{
    let own = scope.fresh(alloc, name)?;
    page.put("forall ")?;
    write_first_binder(page, alloc, env, is_quantified(body), &own, ty, scope)?;
    let inner = scope.with_binder(alloc, name, own)?;
    write_products(page, alloc, env, body, &inner)
}

/// What follows a binder of a run of products.
#[cycle(write)]
#[tactic(auto, unfolding(crate::specs::Named::show), using(crate::proofs::PageLaws::added_append))]
fn write_products(
    page: &mut Page,
    alloc: Global,
    env: &GlobalEnv,
    body: &Term,
    scope: &Scope,
) -> Result<(), NoMem>
    ensures { OnOk result (page.new ≡ added page.old (behind_product env.now body.now scope.now)) }
{
    match body.node() {
        Node::Prod {
            name,
            domain,
            codomain,
        } if is_named(name) => {
            write_next_product(page, alloc, env, name, domain, codomain, scope)
        }
        _ => {
            page.put(", ")?;
            write_at(page, alloc, env, 200, body, scope)
        }
    }
}

#[cycle(write)]
#[tactic(auto, using(crate::proofs::PageLaws::added_append))]
fn write_next_product(
    page: &mut Page,
    alloc: Global,
    env: &GlobalEnv,
    name: &Text,
    ty: &Term,
    body: &Term,
    scope: &Scope,
) -> Result<(), NoMem>
    ensures { OnOk result (page.new ≡ added page.old (quantified_in_run env.now name.now ty.now body.now scope.now)) }
{
    let own = scope.fresh(alloc, name)?;
    page.put(" ")?;
    write_group(page, alloc, env, &own, ty, scope)?;
    let inner = scope.with_binder(alloc, name, own)?;
    write_products(page, alloc, env, body, &inner)
}

/// A function with the run that it begins.
#[cycle(write)]
#[tactic(auto, using(crate::proofs::PageLaws::added_append))]
fn write_function(
    page: &mut Page,
    alloc: Global,
    env: &GlobalEnv,
    name: &Text,
    ty: &Term,
    body: &Term,
    scope: &Scope,
) -> Result<(), NoMem>
    ensures { OnOk result (page.new ≡ added page.old (function_at env.now name.now ty.now body.now scope.now).text) }
{
    let own = parameter(alloc, scope, name)?;
    page.put("fun ")?;
    write_first_binder(page, alloc, env, is_function(body), &own, ty, scope)?;
    let inner = scope.with_binder(alloc, name, own)?;
    write_functions(page, alloc, env, body, &inner)
}

/// What follows a binder of a run of functions.
#[cycle(write)]
#[tactic(auto, unfolding(crate::specs::Named::show), using(crate::proofs::PageLaws::added_append))]
fn write_functions(
    page: &mut Page,
    alloc: Global,
    env: &GlobalEnv,
    body: &Term,
    scope: &Scope,
) -> Result<(), NoMem>
    ensures { OnOk result (page.new ≡ added page.old (behind_parameter env.now body.now scope.now)) }
{
    match body.node() {
        Node::Lam {
            name,
            domain,
            body: inside,
        } => write_next_function(page, alloc, env, name, domain, inside, scope),
        _ => {
            page.put(" => ")?;
            write_at(page, alloc, env, 200, body, scope)
        }
    }
}

#[cycle(write)]
#[tactic(auto, using(crate::proofs::PageLaws::added_append))]
fn write_next_function(
    page: &mut Page,
    alloc: Global,
    env: &GlobalEnv,
    name: &Text,
    ty: &Term,
    body: &Term,
    scope: &Scope,
) -> Result<(), NoMem>
    ensures { OnOk result (page.new ≡ added page.old (function_in_run env.now name.now ty.now body.now scope.now)) }
{
    let own = parameter(alloc, scope, name)?;
    page.put(" ")?;
    write_group(page, alloc, env, &own, ty, scope)?;
    let inner = scope.with_binder(alloc, name, own)?;
    write_functions(page, alloc, env, body, &inner)
}

#[cycle(write)]
#[tactic(auto, using(crate::proofs::PageLaws::added_append))]
fn write_let(
    page: &mut Page,
    alloc: Global,
    env: &GlobalEnv,
    name: &Text,
    ty: &Term,
    value: &Term,
    body: &Term,
    scope: &Scope,
) -> Result<(), NoMem>
    ensures { OnOk result (page.new ≡ added page.old (let_text env.now name.now ty.now value.now body.now scope.now)) }
{
    let own = scope.fresh(alloc, name)?;
    page.put("let ")?;
    write_binding(page, alloc, env, &own, ty, scope)?;
    page.put(" := ")?;
    write_at(page, alloc, env, 200, value, scope)?;
    page.put(" in ")?;
    let inner = scope.with_binder(alloc, name, own)?;
    write_at(page, alloc, env, 200, body, &inner)
}

/// The first binder of a run: in parentheses where others follow.
#[cycle(write)]
fn write_first_binder(
    page: &mut Page,
    alloc: Global,
    env: &GlobalEnv,
    goes_on: bool,
    name: &Text,
    ty: &Term,
    scope: &Scope,
) -> Result<(), NoMem>
    ensures { OnOk result (page.new ≡ added page.old (first_binder goes_on name.now (shown env.now ty.now scope.now))) }
{
    if goes_on {
        write_group(page, alloc, env, name, ty, scope)
    } else {
        write_binding(page, alloc, env, name, ty, scope)
    }
}

#[cycle(write)]
#[tactic(auto, using(crate::proofs::PageLaws::added_append))]
fn write_group(
    page: &mut Page,
    alloc: Global,
    env: &GlobalEnv,
    name: &Text,
    ty: &Term,
    scope: &Scope,
) -> Result<(), NoMem>
    ensures { OnOk result (page.new ≡ added page.old (group name.now (shown env.now ty.now scope.now))) }
{
    page.put("(")?;
    write_binding(page, alloc, env, name, ty, scope)?;
    page.put(")")
}

/// A name with its type.
#[cycle(write)]
#[tactic(auto, using(crate::proofs::PageLaws::added_append))]
fn write_binding(
    page: &mut Page,
    alloc: Global,
    env: &GlobalEnv,
    name: &Text,
    ty: &Term,
    scope: &Scope,
) -> Result<(), NoMem>
    ensures { OnOk result (page.new ≡ added page.old (binding name.now (shown env.now ty.now scope.now))) }
{
    page.put(name.as_str())?;
    page.put(" : ")?;
    write_at(page, alloc, env, 200, ty, scope)
}
