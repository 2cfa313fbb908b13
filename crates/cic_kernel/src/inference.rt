//! Inference of types. The calls of this module stand for those of `cic_rules` that are over every
//! judge, since a judge can't be handed to what makes it.
ghost use Rattle.std.specs.Prelude.{◌≡◌, ◌+◌, ◌^◌, ◌≤◌, length, IfOk};
ghost use Rattle.base_core.specs.Answers.{Gives};
ghost use Rattle.core_term.specs.Places.{subst_of};
ghost use Rattle.core_term.specs.Sorts.{IsSort};
ghost use Rattle.core_term.specs.Tree.{Prod, Lam, LetIn, App, free_bound};
ghost use Rattle.cic_rules.specs.Contexts.{extended, defined_hyp, IsIn};
ghost use Rattle.cic_rules.specs.Calls.{as_sort_with};
ghost use Rattle.cic_rules.specs.Environments.{IsEnvironment};
ghost use Rattle.cic_rules.specs.Fuel.{left, IsSpentOf};
ghost use Rattle.cic_rules.specs.Judges.{MayJudge, IsTermIn, IsInferredIn, Meets, conv_with, infer_with, sort_of_with, check_with};
ghost use Rattle.cic_rules.specs.Scopes.{AreNames, IsJudged};
ghost use Rattle.cic_rules.specs.declared.judge.Mode.TheVariants.{Below};
ghost use Rattle.cic_kernel.specs.Inference.{Infers, table_of, begun_with, as_arrow_with, variable_run, sort_run, global_run, sized, Answers, IsArrowIn};

use base_core::refusal_codes::{
    NOT_A_FUNCTION, NOT_A_TYPE, TYPE_MISMATCH, UNBOUND, UNIVERSE_TOO_LARGE,
};
use base_core::{Limit, NumberList, Place, Refusal, Stop, Text};
use cic_rules::{
    Answer, Arrow, Context, Fuel, GlobalEnv, Hyp, Inferred, InferredSort, Mode, compare_cost,
    type_of_sort, unite,
};
use conversion::{conv, whnf};
use core_term::{Node, Sort, Term, product_sort};
use std::alloc::Global;

/// The type of a term, in a judgement of its own.
#[cycle(inference)]
pub(crate) fn infer(
    alloc: Global,
    env: &GlobalEnv,
    ctx: &Context,
    t: &Term,
    fuel: &mut Fuel,
) -> Result<Inferred, Stop>
    requires judged { MayJudge env.now ctx.now }
    ensures answer { Meets result (left fuel.new) (infer_with env.now ctx.now t.now fuel.old) }
    ensures judged { IfOk result (IsInferredIn env.now ctx.now t.now) }
    ensures kept { IsSpentOf fuel.old fuel.new }
{
    let _globals = env.len();
    if !fuel.enter() {
        return Err(Stop::Out(Limit::DepthLimit));
    }
    let found = infer_begun(alloc, env, ctx, t, fuel);
    fuel.leave();
    found
}

/// The type of a term, in the judgement that was begun for it.
#[cycle(inference)]
fn infer_begun(
    alloc: Global,
    env: &GlobalEnv,
    ctx: &Context,
    t: &Term,
    fuel: &mut Fuel,
) -> Result<Inferred, Stop>
    requires environment { IsEnvironment env.now }
    requires judged { MayJudge env.now ctx.now }
    ensures answer { Infers result fuel.old fuel.new (begun_with env.now ctx.now t.now) }
    ensures kept { IsSpentOf fuel.old fuel.new }
{
    if !fuel.spend(1) {
        return Err(Stop::Out(Limit::StepLimit));
    }
    infer_by_top(alloc, env, ctx, t, fuel)
}

/// The table of types, by the top of the term.
#[cycle(inference)]
fn infer_by_top(
    alloc: Global,
    env: &GlobalEnv,
    ctx: &Context,
    t: &Term,
    fuel: &mut Fuel,
) -> Result<Inferred, Stop>
    requires environment { IsEnvironment env.now }
    requires judged { MayJudge env.now ctx.now }
    ensures answer { Infers result fuel.old fuel.new (table_of env.now ctx.now t.now) }
    ensures kept { IsSpentOf fuel.old fuel.new }
{
    match t.node() {
        Node::Var(i) => infer_variable(alloc, ctx, *i),
        Node::Sorted(sort) => infer_sort(alloc, *sort),
        Node::Constant(place) => infer_global(alloc, env, *place),
        Node::Prod {
            name,
            domain,
            codomain,
        } => { infer_product(alloc, env, ctx, name, domain, codomain, fuel) }
        Node::Lam { name, domain, body } => {
            infer_function(alloc, env, ctx, name, domain, body, fuel)
        }
        Node::LetIn {
            name,
            ty,
            value,
            body,
        } => { infer_let(alloc, env, ctx, name, ty, value, body, fuel) }
        Node::App { function, argument } => {
            infer_application(alloc, env, ctx, function, argument, fuel)
        }
    }
}

fn infer_variable(alloc: Global, ctx: &Context, i: u32) -> Result<Inferred, Stop>
    ensures { Answers result (variable_run ctx.now i) }
{
    match ctx.type_of(alloc, i)? {
        Some(ty) => Ok(Inferred {
            ty,
            used: NumberList::new(alloc),
        }),
        None => Err(refusal(UNBOUND)),
    }
}

fn infer_sort(alloc: Global, sort: Sort) -> Result<Inferred, Stop>
    ensures { Answers result (sort_run sort) }
{
    match type_of_sort(sort) {
        Some(of) => {
            let ty = Term::sort(alloc, of)?;
            Ok(Inferred {
                ty,
                used: NumberList::new(alloc),
            })
        }
        None => Err(refusal(UNIVERSE_TOO_LARGE)),
    }
}

fn infer_global(alloc: Global, env: &GlobalEnv, place: u32) -> Result<Inferred, Stop>
    ensures { Answers result (global_run env.now place) }
{
    match env.get(place) {
        Some(entry) => {
            let ty = entry.ty.share()?;
            let mut used = NumberList::new(alloc);
            used.push(place)?;
            Ok(Inferred { ty, used })
        }
        None => Err(refusal(UNBOUND)),
    }
}

#[cycle(inference)]
fn infer_product(
    alloc: Global,
    env: &GlobalEnv,
    ctx: &Context,
    name: &Text,
    domain: &Term,
    codomain: &Term,
    fuel: &mut Fuel,
) -> Result<Inferred, Stop>
    requires environment { IsEnvironment env.now }
    requires judged { MayJudge env.now ctx.now }
    ensures answer { Infers result fuel.old fuel.new (table_of env.now ctx.now (Prod name.now domain.now codomain.now)) }
    ensures kept { IsSpentOf fuel.old fuel.new }
{
    let first = sort_of(alloc, env, ctx, domain, fuel)?;
    let inner = ctx.with_plain(alloc, name, domain)?;
    let second = sort_of(alloc, env, &inner, codomain, fuel)?;
    let ty = Term::sort(alloc, product_sort(first.sort, second.sort))?;
    let used = unite(alloc, first.used, second.used)?;
    Ok(Inferred { ty, used })
}

#[cycle(inference)]
fn infer_function(
    alloc: Global,
    env: &GlobalEnv,
    ctx: &Context,
    name: &Text,
    domain: &Term,
    body: &Term,
    fuel: &mut Fuel,
) -> Result<Inferred, Stop>
    requires environment { IsEnvironment env.now }
    requires judged { MayJudge env.now ctx.now }
    ensures answer { Infers result fuel.old fuel.new (table_of env.now ctx.now (Lam name.now domain.now body.now)) }
    ensures kept { IsSpentOf fuel.old fuel.new }
{
    let first = sort_of(alloc, env, ctx, domain, fuel)?;
    let inner = ctx.with_plain(alloc, name, domain)?;
    let found = infer(alloc, env, &inner, body, fuel)?;
    let sort = sort_of(alloc, env, &inner, &found.ty, fuel)?;
    let name = name.share()?;
    let domain = domain.share()?;
    let ty = Term::prod(alloc, name, domain, found.ty)?;
    let under = unite(alloc, found.used, sort.used)?;
    let used = unite(alloc, first.used, under)?;
    Ok(Inferred { ty, used })
}

#[cycle(inference)]
fn infer_let(
    alloc: Global,
    env: &GlobalEnv,
    ctx: &Context,
    name: &Text,
    ty: &Term,
    value: &Term,
    body: &Term,
    fuel: &mut Fuel,
) -> Result<Inferred, Stop>
    requires environment { IsEnvironment env.now }
    requires judged { MayJudge env.now ctx.now }
    ensures answer { Infers result fuel.old fuel.new (table_of env.now ctx.now (LetIn name.now ty.now value.now body.now)) }
    ensures kept { IsSpentOf fuel.old fuel.new }
{
    let _count = ctx.len();
    let sort = sort_of(alloc, env, ctx, ty, fuel)?;
    let checked = check(alloc, env, ctx, value, ty, fuel)?;
    let inner = with_definition(alloc, ctx, name, ty, value)?;
    let _inner_count = inner.len();
    let found = infer(alloc, env, &inner, body, fuel)?;
    let whole = put_in(alloc, &found.ty, value)?;
    let outer = unite(alloc, sort.used, checked)?;
    let used = unite(alloc, outer, found.used)?;
    Ok(Inferred { ty: whole, used })
}

#[cycle(inference)]
fn infer_application(
    alloc: Global,
    env: &GlobalEnv,
    ctx: &Context,
    function: &Term,
    argument: &Term,
    fuel: &mut Fuel,
) -> Result<Inferred, Stop>
    requires environment { IsEnvironment env.now }
    requires judged { MayJudge env.now ctx.now }
    ensures answer { Infers result fuel.old fuel.new (table_of env.now ctx.now (App function.now argument.now)) }
    ensures kept { IsSpentOf fuel.old fuel.new }
{
    let _count = ctx.len();
    let found = infer(alloc, env, ctx, function, fuel)?;
    let used = found.used;
    let arrow = as_arrow(alloc, env, ctx, &found.ty, used, fuel)?;
    let checked = check(alloc, env, ctx, argument, &arrow.domain, fuel)?;
    let ty = put_in(alloc, &arrow.codomain, argument)?;
    let used = unite(alloc, arrow.used, checked)?;
    Ok(Inferred { ty, used })
}

/// The two sides of a function's type, which is a product as it stands, or is reduced to one, whose
/// sort is then inferred.
#[cycle(inference)]
fn as_arrow(
    alloc: Global,
    env: &GlobalEnv,
    ctx: &Context,
    ty: &Term,
    used: NumberList,
    fuel: &mut Fuel,
) -> Result<Arrow, Stop>
    requires environment { IsEnvironment env.now }
    requires judged { MayJudge env.now ctx.now }
    requires term { IsTermIn env.now ctx.now ty.now }
    requires names { AreNames (length env.now) used }
    ensures answer { Meets result (left fuel.new) (as_arrow_with env.now ctx.now ty.now used fuel.old) }
    ensures sides { IfOk result (IsArrowIn env.now ctx.now) }
    ensures kept { IsSpentOf fuel.old fuel.new }
{
    if let Node::Prod {
        domain,
        codomain,
        ..
    } = ty.node()
    {
        let domain = domain.share()?;
        let codomain = codomain.share()?;
        return Ok(Arrow {
            domain,
            codomain,
            used,
        });
    }
    let reduced = whnf(alloc, env, ctx, ty, true, fuel)?;
    let Node::Prod {
        domain,
        codomain,
        ..
    } = reduced.node()
    else {
        return Err(refusal(NOT_A_FUNCTION));
    };
    let sort = sort_of(alloc, env, ctx, &reduced, fuel)?;
    let domain = domain.share()?;
    let codomain = codomain.share()?;
    let used = unite(alloc, used, sort.used)?;
    Ok(Arrow {
        domain,
        codomain,
        used,
    })
}

/// The sort of a type.
#[cycle(inference)]
pub(crate) fn sort_of(
    alloc: Global,
    env: &GlobalEnv,
    ctx: &Context,
    a: &Term,
    fuel: &mut Fuel,
) -> Result<InferredSort, Stop>
    requires environment { IsEnvironment env.now }
    requires judged { MayJudge env.now ctx.now }
    ensures answer { Meets result (left fuel.new) (sort_of_with env.now ctx.now a.now fuel.old) }
    ensures judged { IfOk result (λ s. IsJudged (length ctx.now) (length env.now) a.now s.used) }
    ensures level { IfOk result (λ s. IsSort s.sort) }
    ensures kept { IsSpentOf fuel.old fuel.new }
{
    let found = infer(alloc, env, ctx, a, fuel)?;
    let used = found.used;
    as_sort(alloc, env, ctx, &found.ty, used, fuel)
}

/// A term against a type: the names used.
#[cycle(inference)]
pub(crate) fn check(
    alloc: Global,
    env: &GlobalEnv,
    ctx: &Context,
    t: &Term,
    wanted: &Term,
    fuel: &mut Fuel,
) -> Result<NumberList, Stop>
    requires environment { IsEnvironment env.now }
    requires judged { MayJudge env.now ctx.now }
    requires wanted { IsTermIn env.now ctx.now wanted.now }
    ensures answer { Meets result (left fuel.new) (check_with env.now ctx.now t.now wanted.now fuel.old) }
    ensures judged { IfOk result (λ used. IsJudged (length ctx.now) (length env.now) t.now used) }
    ensures kept { IsSpentOf fuel.old fuel.new }
{
    let found = infer(alloc, env, ctx, t, fuel)?;
    if !fuel.spend(compare_cost(&found.ty, wanted)) {
        return Err(Stop::Out(Limit::StepLimit));
    }
    if found.ty.equal(wanted) {
        return Ok(found.used);
    }
    if !converts(alloc, env, ctx, &found.ty, wanted, fuel)? {
        return Err(refusal(TYPE_MISMATCH));
    }
    let sort = sort_of(alloc, env, ctx, wanted, fuel)?;
    let used = unite(alloc, found.used, sort.used)?;
    Ok(used)
}

/// The sort that a type is, as it stands or reduced. One that is found by reduction must have a
/// type of its own.
fn as_sort(
    alloc: Global,
    env: &GlobalEnv,
    ctx: &Context,
    ty: &Term,
    used: NumberList,
    fuel: &mut Fuel,
) -> Result<InferredSort, Stop>
    requires judged { MayJudge env.now ctx.now }
    requires term { IsTermIn env.now ctx.now ty.now }
    ensures answer { Meets result (left fuel.new) (as_sort_with env.now ctx.now ty.now used fuel.old) }
    ensures level { IfOk result (λ s. IsSort s.sort) }
    ensures kept { IsSpentOf fuel.old fuel.new }
{
    if let Node::Sorted(sort) = ty.node() {
        return Ok(InferredSort { sort: *sort, used });
    }
    let reduced = whnf(alloc, env, ctx, ty, true, fuel)?;
    let Node::Sorted(sort) = reduced.node() else {
        return Err(refusal(NOT_A_TYPE));
    };
    match type_of_sort(*sort) {
        Some(_) => Ok(InferredSort { sort: *sort, used }),
        None => Err(refusal(UNIVERSE_TOO_LARGE)),
    }
}

/// Whether the first type is below the second.
fn converts(
    alloc: Global,
    env: &GlobalEnv,
    ctx: &Context,
    t: &Term,
    u: &Term,
    fuel: &mut Fuel,
) -> Result<bool, Stop>
    requires judged { MayJudge env.now ctx.now }
    requires first { IsTermIn env.now ctx.now t.now }
    requires second { IsTermIn env.now ctx.now u.now }
    ensures answer { Meets result (left fuel.new) (conv_with env.now ctx.now Below t.now u.now fuel.old) }
    ensures kept { IsSpentOf fuel.old fuel.new }
{
    match conv(alloc, env, ctx, t, u, Mode::Below, fuel) {
        Ok(Answer::Yes) => Ok(true),
        Ok(Answer::No) => Ok(false),
        Ok(Answer::Out(limit)) => Err(Stop::Out(limit)),
        Err(_) => Err(Stop::NoMem),
    }
}

/// A value put in for the newest variable of a type.
#[tactic(auto, using(crate::proofs::CallLaws::put_numbered, crate::proofs::CallLaws::put_sized, crate::proofs::CallLaws::put_stop))]
fn put_in(alloc: Global, ty: &Term, value: &Term) -> Result<Term, Stop>
    requires ty { free_bound ty.now ≤ 2 ^ 31 + 1 }
    requires value { free_bound value.now ≤ 2 ^ 31 }
    ensures { Gives result (sized (subst_of ty.now value.now 0)) }
{
    let _ty = ty.depth();
    let _value = value.depth();
    match ty.subst(alloc, value, 0) {
        Ok(whole) => Ok(whole),
        Err(stop) => Err(Stop::from(stop)),
    }
}

/// The context with a newer hypothesis that has a definition.
fn with_definition(
    alloc: Global,
    ctx: &Context,
    name: &Text,
    ty: &Term,
    value: &Term,
) -> Result<Context, Stop>
    requires ty { IsIn (length ctx.now) ty.now }
    requires value { IsIn (length ctx.now) value.now }
    ensures { Gives result (extended ctx.now (defined_hyp name.now ty.now value.now)) }
{
    let name = name.share()?;
    let ty = ty.share()?;
    let value = value.share()?;
    let hyp = Hyp {
        name,
        ty,
        value: Some(value),
    };
    ctx.with(alloc, hyp)
}

/// A refusal at the whole sentence.
pub(crate) fn refusal(code: u16) -> Stop
    ensures { result ≡ Stop.Refused (record { code = code; place = Place.Whole }) }
{
    Stop::Refused(Refusal {
        code,
        place: Place::Whole,
    })
}
