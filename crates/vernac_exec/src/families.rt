//! Inductive types as they are written: names first, then the parameters, the arity and the
//! constructors from left to right, then the kernel.
ghost use Rattle.std.specs.Prelude.{◌≡◌, [], reverse, IfOk};
ghost use Rattle.base_core.specs.Answers.{Gives};
ghost use Rattle.cic_rules.specs.Contexts.{AreParams};
ghost use Rattle.cic_rules.specs.Eliminators.{type_of_decl};
ghost use Rattle.cic_rules.specs.Environments.{entered, IsNew, MayEnter};
ghost use Rattle.cic_rules.specs.Fuel.{IsSpentOf};
ghost use Rattle.cic_rules.specs.Judges.{MayJudge, IsTermIn};
ghost use Rattle.inductive_check.specs.Steps.{assumption_of, sized};
ghost use Rattle.vernac_exec.specs.Families.{family};
ghost use Rattle.vernac_exec.specs.Standing.{IsDeedIn};
ghost use Rattle.vernac_exec.specs.Calls.{Does, params_with, ctor_with, constructors_with, assumed_in, rest_with, family_with, induct_with, induct_new_with};

use crate::deed::Deed;
use crate::entering::{close_over, declare_as, refusal};
use crate::names::{any_taken, has_twice, written_names};
use base_core::refusal_codes::{DUPLICATE_NAME, NAME_TAKEN};
use base_core::{List, NoMem, Stop, Text};
use cic_rules::{
    Context, ContextList, Ctor, CtorList, Decl, Declares, Entry, EntryKind, Fuel, GlobalEnv, Hyp,
    InductiveDecl, Judge,
};
use coq_syntax::{Constructor, Group, SurfaceTerm};
use core_term::Term;
use elaborator::{Binding, elab, elab_constructor, open_groups};
use prover_iface::ItemKind;
use std::alloc::Global;
use term_spine::globals;

/// `Inductive`. Its names are tested before any of its terms is elaborated.
pub(crate) fn induct<D: Declares>(
    judge: &D,
    alloc: Global,
    env: &GlobalEnv,
    name: &Text,
    groups: &[Group],
    arity: &SurfaceTerm,
    ctors: &[Constructor],
    fuel: &mut Fuel,
) -> Result<Deed, Stop>
    ensures answer { Does result fuel.old fuel.new (induct_with env.now name.now groups.now arity.now ctors.now) }
    ensures deed { IfOk result (IsDeedIn env.now) }
    ensures kept { IsSpentOf fuel.old fuel.new }
{
    let names = written_names(alloc, name, ctors)?;
    if has_twice(alloc, names.as_slice())? {
        return Err(refusal(DUPLICATE_NAME));
    }
    if any_taken(env, names.as_slice()) {
        return Err(refusal(NAME_TAKEN));
    }
    induct_new(judge, alloc, env, name, groups, arity, ctors, fuel)
}

/// The same of a type whose names are free.
fn induct_new<D: Declares>(
    judge: &D,
    alloc: Global,
    env: &GlobalEnv,
    name: &Text,
    groups: &[Group],
    arity: &SurfaceTerm,
    ctors: &[Constructor],
    fuel: &mut Fuel,
) -> Result<Deed, Stop>
    requires { IsNew env.now name.now }
    ensures answer { Does result fuel.old fuel.new (induct_new_with env.now name.now groups.now arity.now ctors.now) }
    ensures deed { IfOk result (IsDeedIn env.now) }
    ensures kept { IsSpentOf fuel.old fuel.new }
{
    let params = open_params(judge, alloc, env, groups, fuel)?;
    let arity = elab(judge, alloc, env, &params, arity, fuel)?;
    elab_family(judge, alloc, env, name, &params, arity, ctors, fuel)
}

/// The context of the parameters, none of which has a definition.
pub(crate) fn open_params<J: Judge>(
    judge: &J,
    alloc: Global,
    env: &GlobalEnv,
    groups: &[Group],
    fuel: &mut Fuel,
) -> Result<Context, Stop>
    ensures answer { Does result fuel.old fuel.new (params_with env.now groups.now) }
    ensures judged { IfOk result (λ params. MayJudge env.now params) }
    ensures plain { IfOk result AreParams }
    ensures kept { IsSpentOf fuel.old fuel.new }
{
    let ctx = Context::empty();
    open_groups(judge, alloc, env, &ctx, groups, fuel)
}

/// A type whose parameters and arity are elaborated. Its constructors are elaborated where it is an
/// assumption at the next place.
fn elab_family<D: Declares>(
    judge: &D,
    alloc: Global,
    env: &GlobalEnv,
    name: &Text,
    params: &Context,
    arity: Term,
    ctors: &[Constructor],
    fuel: &mut Fuel,
) -> Result<Deed, Stop>
    requires new { IsNew env.now name.now }
    requires judged { MayJudge env.now params.now }
    requires arity { IsTermIn env.now params.now arity }
    requires plain { AreParams params.now }
    ensures answer { Does result fuel.old fuel.new (family_with env.now name.now params.now arity ctors.now) }
    ensures deed { IfOk result (IsDeedIn env.now) }
    ensures kept { IsSpentOf fuel.old fuel.new }
{
    let inner = assumed(alloc, env, name, params, &arity)?;
    declare_family(judge, alloc, env, &inner, name, params, arity, ctors, fuel)
}

/// The environment with a type as an assumption.
fn assumed(
    alloc: Global,
    env: &GlobalEnv,
    name: &Text,
    params: &Context,
    arity: &Term,
) -> Result<GlobalEnv, Stop>
    requires new { IsNew env.now name.now }
    requires judged { MayJudge env.now params.now }
    requires arity { IsTermIn env.now params.now arity.now }
    ensures { Gives result (assumed_in env.now name.now params.now arity.now) }
{
    let ty = type_of_family(alloc, name, params, arity)?;
    with_assumed(alloc, env, name, ty)
}

/// The type of an inductive type: its arity over its parameters.
fn type_of_family(alloc: Global, name: &Text, params: &Context, arity: &Term) -> Result<Term, Stop>
    ensures { Gives result (sized (type_of_decl (family name.now params.now arity.now []))) }
{
    let _size = arity.size();
    let arity = arity.share()?;
    close_over(alloc, Binding::Product, params, arity)
}

/// The environment with an assumption that uses the globals of its type.
fn with_assumed(alloc: Global, env: &GlobalEnv, name: &Text, ty: Term) -> Result<GlobalEnv, Stop>
    requires { MayEnter env.now (assumption_of name.now ty) }
    ensures { Gives result (entered env.now (assumption_of name.now ty)) }
{
    let used = globals(alloc, &ty)?;
    let name = name.share()?;
    let entry = Entry {
        name,
        ty,
        kind: EntryKind::Assumed,
        used,
    };
    env.with_entry(alloc, entry)
}

/// A type that is assumed in an environment: its constructors are elaborated in that, and all is
/// declared.
fn declare_family<D: Declares>(
    judge: &D,
    alloc: Global,
    env: &GlobalEnv,
    inner: &GlobalEnv,
    name: &Text,
    params: &Context,
    arity: Term,
    ctors: &[Constructor],
    fuel: &mut Fuel,
) -> Result<Deed, Stop>
    requires judged { MayJudge inner.now params.now }
    requires plain { AreParams params.now }
    ensures answer { Does result fuel.old fuel.new (rest_with env.now inner.now name.now params.now arity ctors.now) }
    ensures deed { IfOk result (IsDeedIn env.now) }
    ensures kept { IsSpentOf fuel.old fuel.new }
{
    let place = env.len();
    let made = elab_constructors(judge, alloc, inner, params, place, ctors, fuel)?;
    let decl = family(alloc, name, params, arity, made)?;
    declare_as(judge, alloc, env, ItemKind::Inductive, &decl, fuel)
}

/// The constructors, from left to right, in an environment that has their type at a place.
fn elab_constructors<J: Judge>(
    judge: &J,
    alloc: Global,
    env: &GlobalEnv,
    params: &Context,
    place: u32,
    constructors: &[Constructor],
    fuel: &mut Fuel,
) -> Result<CtorList, Stop>
    requires { MayJudge env.now params.now }
    ensures answer { Does result fuel.old fuel.new (constructors_with env.now params.now place constructors.now) }
    ensures kept { IsSpentOf fuel.old fuel.new }
{
    let mut ctors = List::new(alloc);
    for constructor in constructors {
        match ctor_of(judge, alloc, env, params, place, constructor, fuel) {
            Ok(ctor) => ctors.push(ctor)?,
            Err(stop) => return Err(stop),
        }
    }
    Ok(ctors)
}

/// One constructor.
fn ctor_of<J: Judge>(
    judge: &J,
    alloc: Global,
    env: &GlobalEnv,
    params: &Context,
    place: u32,
    constructor: &Constructor,
    fuel: &mut Fuel,
) -> Result<Ctor, Stop>
    requires { MayJudge env.now params.now }
    ensures answer { Does result fuel.old fuel.new (ctor_with env.now params.now place constructor.now) }
    ensures kept { IsSpentOf fuel.old fuel.new }
{
    let name = constructor.name.text.share()?;
    let ty = elab_constructor(
        judge,
        alloc,
        env,
        params,
        place,
        constructor.groups.as_slice(),
        &constructor.annotation,
        fuel,
    )?;
    Ok(Ctor { name, ty })
}

/// The declaration of a type with its constructors.
fn family(
    alloc: Global,
    name: &Text,
    params: &Context,
    arity: Term,
    ctors: CtorList,
) -> Result<Decl, NoMem>
    requires { AreParams params.now }
    ensures { IfOk result (λ decl. decl ≡ Decl.Induct (family name.now params.now arity ctors)) }
{
    let name = name.share()?;
    let params = oldest_first(alloc, params)?;
    Ok(Decl::Induct(InductiveDecl {
        name,
        params,
        arity,
        ctors,
    }))
}

/// The parameters of a context.
fn oldest_first(alloc: Global, ctx: &Context) -> Result<ContextList, NoMem>
    requires { AreParams ctx.now }
    ensures { IfOk result (λ list. list ≡ reverse ctx.now) }
{
    let mut list = ContextList::new(alloc);
    let mut at = ctx.len();
    while at > 0 {
        at -= 1;
        let Some(hyp) = ctx.get(at) else {
            unreachable!()
        };
        let name = hyp.name.share()?;
        let ty = hyp.ty.share()?;
        list.push(Hyp {
            name,
            ty,
            value: None,
        })?;
    }
    Ok(list)
}
