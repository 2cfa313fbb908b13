//! The test of an inductive type, in the order of its refusals.
ghost use Rattle.std.specs.Prelude.{◌≡◌, ◌+◌, ◌^◌, ◌<◌, length, IfOk};
ghost use Rattle.base_core.specs.Answers.{Gives};
ghost use Rattle.cic_rules.specs.Fuel.{left, IsSpentOf};
ghost use Rattle.cic_rules.specs.Judges.{Meets, MayJudge, check_inductive_with};
ghost use Rattle.cic_rules.specs.Environments.{entered, IsNew, MayEnter};
ghost use Rattle.cic_rules.specs.Eliminators.{type_of_decl as type_of};
ghost use Rattle.cic_rules.specs.Declare.{IsChecked};
ghost use Rattle.inductive_check.specs.Steps.{MeetsOpened, IsTypeOver, params_opened, sized, MeetsRows, opened_with, open_with, ctor_with, rows_with, form_of as form_at, assumption_of, settled, behind_params_with, check_family_with};

use crate::forms::{Form, are_positive, count_products, is_constructor};
use crate::names::{any_taken, has_twice, names_of};
use crate::parts::{copied, products_over};
use crate::sorts::{permitted, rows_fit, rows_used, sort_at_end, without};
use base_core::refusal_codes::{
    ARGUMENT_UNIVERSE, DUPLICATE_NAME, NAME_TAKEN, NOT_AN_ARITY, NOT_POSITIVE, WRONG_RESULT,
};
use base_core::{List, NumberList, Place, Refusal, Stop, Text};
use cic_rules::{
    CheckedInductive, Context, Ctor, Entry, EntryKind, Fuel, GlobalEnv, Hyp, InductiveDecl, Judge,
    RowSorts, row_of, sort_of, union,
};
use core_term::{Sort, Term};
use std::alloc::Global;
use term_spine::globals;

/// Tests an inductive declaration, to stand at the next place. Refused with 34 where two of its
/// names are the same and 25 where one is taken, both with the names of all three eliminators; 30
/// where its arity ends in no sort; 31 where a constructor gives no term of the type; 32 where an
/// argument has the type at a place where it may not stand; 33 where an argument's sort is above
/// the type's; and with the refusals of `infer`.
pub fn check_inductive<J: Judge>(
    judge: &J,
    alloc: Global,
    env: &GlobalEnv,
    d: &InductiveDecl,
    fuel: &mut Fuel,
) -> Result<CheckedInductive, Stop>
    ensures answer { Meets result (left fuel.new) (check_inductive_with env.now d.now fuel.old) }
    ensures checked { IfOk result (λ c. IsChecked env.now c) }
    ensures decl { IfOk result (λ c. c.decl ≡ d.now) }
    ensures kept { IsSpentOf fuel.old fuel.new }
{
    check_named(judge, alloc, env, d, fuel)
}

fn check_named<J: Judge>(
    judge: &J,
    alloc: Global,
    env: &GlobalEnv,
    d: &InductiveDecl,
    fuel: &mut Fuel,
) -> Result<CheckedInductive, Stop>
    ensures answer { Meets result (left fuel.new) (check_inductive_with env.now d.now fuel.old) }
    ensures kept { IsSpentOf fuel.old fuel.new }
{
    let names = names_of(alloc, d)?;
    if has_twice(alloc, names.as_slice())? {
        return Err(refusal(DUPLICATE_NAME));
    }
    if any_taken(env, names.as_slice()) {
        return Err(refusal(NAME_TAKEN));
    }
    let Some(sort) = sort_at_end(&d.arity) else {
        return Err(refusal(NOT_AN_ARITY));
    };
    check_family(judge, alloc, env, d, sort, fuel)
}

/// The test of a declaration whose names are free and whose arity ends in this sort.
fn check_family<J: Judge>(
    judge: &J,
    alloc: Global,
    env: &GlobalEnv,
    d: &InductiveDecl,
    sort: Sort,
    fuel: &mut Fuel,
) -> Result<CheckedInductive, Stop>
    requires new { IsNew env.now d.now.name }
    ensures answer { Meets result (left fuel.new) (check_family_with d.now env.now sort fuel.old) }
    ensures kept { IsSpentOf fuel.old fuel.new }
{
    let place = env.len();
    let params = open_params(judge, alloc, env, d.params.as_slice(), fuel)?;
    let checked = check_behind(judge, alloc, env, place, d, sort, params, fuel)?;
    Ok(checked)
}

/// The context of the parameters, and the names used so far.
#[derive(Drop)]
struct Opened {
    ctx: Context,
    used: NumberList,
}

/// Opens the parameters, each of a type that has a sort in the context of those before it.
fn open_params<J: Judge>(
    judge: &J,
    alloc: Global,
    env: &GlobalEnv,
    params: &[Hyp],
    fuel: &mut Fuel,
) -> Result<Opened, Stop>
    ensures answer { MeetsOpened result (left fuel.new) (open_with env.now params.now fuel.old) }
    ensures judged { IfOk result (λ o. MayJudge env.now o.ctx) }
    ensures kept { IsSpentOf fuel.old fuel.new }
{
    let mut opened = Opened {
        ctx: Context::empty(),
        used: NumberList::new(alloc),
    };
    for param in params {
        opened = open_param(judge, alloc, env, &opened, param, fuel)?;
    }
    Ok(opened)
}

fn open_param<J: Judge>(
    judge: &J,
    alloc: Global,
    env: &GlobalEnv,
    opened: &Opened,
    param: &Hyp,
    fuel: &mut Fuel,
) -> Result<Opened, Stop>
    requires { MayJudge env.now opened.now.ctx }
    ensures answer { MeetsOpened result (left fuel.new) (opened_with env.now opened.now param.now fuel.old) }
    ensures judged { IfOk result (λ o. MayJudge env.now o.ctx) }
    ensures kept { IsSpentOf fuel.old fuel.new }
{
    let sort = sort_of(judge, alloc, env, &opened.ctx, &param.ty, fuel)?;
    let ctx = opened.ctx.with_plain(alloc, &param.name, &param.ty)?;
    let used = union(alloc, &opened.used, &sort.used)?;
    Ok(Opened { ctx, used })
}

/// The arity, then the constructors with the type assumed, and last what is asked of all of them.
fn check_behind<J: Judge>(
    judge: &J,
    alloc: Global,
    env: &GlobalEnv,
    place: u32,
    d: &InductiveDecl,
    sort: Sort,
    params: Opened,
    fuel: &mut Fuel,
) -> Result<CheckedInductive, Stop>
    requires new { IsNew env.now d.now.name }
    requires judged { MayJudge env.now params.ctx }
    requires place { place ≡ length env.now }
    requires over { IsTypeOver env.now d.now params.ctx }
    ensures answer { Meets result (left fuel.new) (behind_params_with d.now env.now sort (params_opened params) fuel.old) }
    ensures kept { IsSpentOf fuel.old fuel.new }
{
    let arity = sort_of(judge, alloc, env, &params.ctx, &d.arity, fuel)?;
    let ty = type_of_decl(alloc, d)?;
    let inner = with_assumed(alloc, env, &d.name, ty)?;
    let form = form_of(place, d);
    let rows = rows_of(judge, alloc, &inner, &params.ctx, d, form, fuel)?;
    let used = union(alloc, &params.used, &arity.used)?;
    let checked = settle(alloc, env, d, sort, form, rows, used)?;
    Ok(checked)
}

/// The type of an inductive type.
pub(crate) fn type_of_decl(alloc: Global, d: &InductiveDecl) -> Result<Term, Stop>
    ensures { Gives result (sized (type_of d.now)) }
{
    let arity = d.arity.share()?;
    let ty = products_over(alloc, d.params.as_slice(), arity)?;
    Ok(ty)
}

/// The environment with a type as an assumption.
fn with_assumed(alloc: Global, env: &GlobalEnv, name: &Text, ty: Term) -> Result<GlobalEnv, Stop>
    requires { MayEnter env.now (assumption_of name.now ty) }
    ensures { Gives result (entered env.now (assumption_of name.now ty)) }
{
    let used = globals(alloc, &ty)?;
    let name = name.share()?;
    let entry = Entry {
        name,
        ty,
        kind: EntryKind::Assumed,
        used,
    };
    env.with_entry(alloc, entry)
}

fn form_of(place: u32, d: &InductiveDecl) -> Form
    ensures { result ≡ form_at place d.now }
{
    Form {
        place,
        params: d.params.as_slice().len(),
        indices: count_products(&d.arity),
    }
}

/// The sorts of each constructor's arguments, the constructors in order.
fn rows_of<J: Judge>(
    judge: &J,
    alloc: Global,
    env: &GlobalEnv,
    ctx: &Context,
    d: &InductiveDecl,
    form: Form,
    fuel: &mut Fuel,
) -> Result<List<RowSorts>, Stop>
    requires judged { MayJudge env.now ctx.now }
    requires form { form ≡ form_at form.place d.now }
    requires room { form.params + form.indices + 1000 < 2 ^ 64 }
    ensures answer { MeetsRows result (left fuel.new) (rows_with env.now ctx.now d.now form.place d.now.ctors fuel.old) }
    ensures kept { IsSpentOf fuel.old fuel.new }
{
    let ctors = d.ctors.as_slice();
    let mut rows = List::new(alloc);
    for ctor in ctors {
        let row = ctor_row(judge, alloc, env, ctx, form, ctor, fuel)?;
        rows.push(row)?;
    }
    Ok(rows)
}

fn ctor_row<J: Judge>(
    judge: &J,
    alloc: Global,
    env: &GlobalEnv,
    ctx: &Context,
    form: Form,
    ctor: &Ctor,
    fuel: &mut Fuel,
) -> Result<RowSorts, Stop>
    requires judged { MayJudge env.now ctx.now }
    requires room { form.params + form.indices + 1000 < 2 ^ 64 }
    ensures answer { Meets result (left fuel.new) (ctor_with env.now ctx.now form ctor.now fuel.old) }
    ensures kept { IsSpentOf fuel.old fuel.new }
{
    let row = row_of(judge, alloc, env, ctx, &ctor.ty, fuel)?;
    let _depth = ctor.ty.depth();
    if !is_constructor(alloc, form, &ctor.ty, 0)? {
        return Err(refusal(WRONG_RESULT));
    }
    Ok(row)
}

/// What is asked of all constructors: positivity of each, then their universes.
#[tactic(auto, using(crate::proofs::FormLaws::positive_all))]
fn settle(
    alloc: Global,
    env: &GlobalEnv,
    d: &InductiveDecl,
    sort: Sort,
    form: Form,
    rows: List<RowSorts>,
    used: NumberList,
) -> Result<CheckedInductive, Stop>
    requires form { form ≡ form_at (length env.now) d.now }
    requires room { form.params + 1000 < 2 ^ 64 }
    ensures { Gives result (settled d.now env.now sort rows used) }
{
    if !are_positive(alloc, form, d.ctors.as_slice())? {
        return Err(refusal(NOT_POSITIVE));
    }
    if !rows_fit(sort, rows.as_slice()) {
        return Err(refusal(ARGUMENT_UNIVERSE));
    }
    let of_rows = rows_used(alloc, rows.as_slice())?;
    let all = union(alloc, &used, &of_rows)?;
    let used = without(alloc, form.place, &all)?;
    let sorts = permitted(alloc, sort, rows.as_slice())?;
    let decl = copied(alloc, d)?;
    Ok(CheckedInductive {
        decl,
        place: form.place,
        used,
        sorts,
    })
}

fn refusal(code: u16) -> Stop
    ensures { result ≡ Stop.Refused (record { code = code; place = Place.Whole }) }
{
    Stop::Refused(Refusal {
        code,
        place: Place::Whole,
    })
}
