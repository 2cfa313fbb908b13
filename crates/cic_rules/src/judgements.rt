//! What can be asked of every judge beside its three judgements: the sort of a type, a term against
//! a type, and conversion as plain yes or no.
ghost use Rattle.std.specs.Prelude.{◌≡◌, length, IfOk};
ghost use Rattle.cic_rules.specs.Fuel.{left, IsSpentOf};
ghost use Rattle.cic_rules.specs.Convert.{compare_cost};
ghost use Rattle.cic_rules.specs.Infer.{type_of_sort};
ghost use Rattle.cic_rules.specs.Scopes.{AreNames, UsesOnly};
ghost use Rattle.cic_rules.specs.Judges.{MayJudge, IsTermIn, Meets, conv_with, sort_of_with, check_with};
ghost use Rattle.cic_rules.specs.Calls.{as_sort_with};

use crate::context::Context;
use crate::env::GlobalEnv;
use crate::fuel::Fuel;
use crate::judge::{Answer, InferredSort, Judge, Mode};
use crate::unions::union;
use base_core::refusal_codes::{NOT_A_TYPE, TYPE_MISMATCH, UNIVERSE_TOO_LARGE};
use base_core::{LEVEL_LIMIT, Limit, NumberList, Place, Refusal, Stop};
use core_term::{Node, Sort, Term};
use std::alloc::Global;

/// The sort of a type, with the refusals of `infer`. What has a sort is in scope, and the names
/// used are told as `infer` tells them.
pub fn sort_of<J: Judge>(
    judge: &J,
    alloc: Global,
    env: &GlobalEnv,
    ctx: &Context,
    a: &Term,
    fuel: &mut Fuel,
) -> Result<InferredSort, Stop>
    requires { MayJudge env.now ctx.now }
    ensures answer { Meets result (left fuel.new) (sort_of_with env.now ctx.now a.now fuel.old) }
    ensures term { IfOk result (λ s. IsTermIn env.now ctx.now a.now) }
    ensures names { IfOk result (λ s. AreNames (length env.now) s.used) }
    ensures uses { IfOk result (λ s. UsesOnly s.used a.now) }
    ensures kept { IsSpentOf fuel.old fuel.new }
{
    let found = judge.infer(alloc, env, ctx, a, fuel)?;
    let used = found.used;
    as_sort(judge, alloc, env, ctx, &found.ty, used, fuel)
}

/// The sort that a type is, as it stands or reduced. One that is found by reduction must have a
/// type of its own.
fn as_sort<J: Judge>(
    judge: &J,
    alloc: Global,
    env: &GlobalEnv,
    ctx: &Context,
    ty: &Term,
    used: NumberList,
    fuel: &mut Fuel,
) -> Result<InferredSort, Stop>
    requires judged { MayJudge env.now ctx.now }
    requires term { IsTermIn env.now ctx.now ty.now }
    ensures answer { Meets result (left fuel.new) (as_sort_with env.now ctx.now ty.now used fuel.old) }
    ensures names { IfOk result (λ s. s.used ≡ used) }
    ensures kept { IsSpentOf fuel.old fuel.new }
{
    if let Node::Sorted(sort) = ty.node() {
        return Ok(InferredSort { sort: *sort, used });
    }
    let reduced = judge.whnf(alloc, env, ctx, ty, fuel)?;
    let Node::Sorted(sort) = reduced.node() else {
        return Err(refusal(NOT_A_TYPE));
    };
    match type_of_sort(*sort) {
        Some(_) => Ok(InferredSort { sort: *sort, used }),
        None => Err(refusal(UNIVERSE_TOO_LARGE)),
    }
}

/// Checks a term against a type, which must have a sort where it is not the one that is found: the
/// places of the globals that were used, ascending. Refused with 22 where the types differ, else as
/// `infer`.
#[tactic(auto, using(crate::proofs::UsedLaws::names_union, crate::proofs::UsedLaws::uses_first))]
pub fn check<J: Judge>(
    judge: &J,
    alloc: Global,
    env: &GlobalEnv,
    ctx: &Context,
    t: &Term,
    wanted: &Term,
    fuel: &mut Fuel,
) -> Result<NumberList, Stop>
    requires judged { MayJudge env.now ctx.now }
    requires wanted { IsTermIn env.now ctx.now wanted.now }
    ensures answer { Meets result (left fuel.new) (check_with env.now ctx.now t.now wanted.now fuel.old) }
    ensures term { IfOk result (λ used. IsTermIn env.now ctx.now t.now) }
    ensures names { IfOk result (λ used. AreNames (length env.now) used) }
    ensures uses { IfOk result (λ used. UsesOnly used t.now) }
    ensures kept { IsSpentOf fuel.old fuel.new }
{
    let found = judge.infer(alloc, env, ctx, t, fuel)?;
    if !fuel.spend(compare_cost(&found.ty, wanted)) {
        return Err(Stop::Out(Limit::StepLimit));
    }
    if found.ty.equal(wanted) {
        return Ok(found.used);
    }
    let fits = converts(judge, alloc, env, ctx, &found.ty, wanted, Mode::Below, fuel)?;
    if !fits {
        return Err(refusal(TYPE_MISMATCH));
    }
    let sort = sort_of(judge, alloc, env, ctx, wanted, fuel)?;
    let used = union(alloc, &found.used, &sort.used)?;
    Ok(used)
}

/// Whether conversion holds. It is never refused.
pub fn converts<J: Judge>(
    judge: &J,
    alloc: Global,
    env: &GlobalEnv,
    ctx: &Context,
    t: &Term,
    u: &Term,
    mode: Mode,
    fuel: &mut Fuel,
) -> Result<bool, Stop>
    requires judged { MayJudge env.now ctx.now }
    requires first { IsTermIn env.now ctx.now t.now }
    requires second { IsTermIn env.now ctx.now u.now }
    ensures answer { Meets result (left fuel.new) (conv_with env.now ctx.now mode t.now u.now fuel.old) }
    ensures kept { IsSpentOf fuel.old fuel.new }
{
    match judge.conv(alloc, env, ctx, t, u, mode, fuel) {
        Ok(Answer::Yes) => Ok(true),
        Ok(Answer::No) => Ok(false),
        Ok(Answer::Out(limit)) => Err(Stop::Out(limit)),
        Err(_) => Err(Stop::NoMem),
    }
}

/// What it costs to compare two terms: their size where they have one size, else 1.
pub fn compare_cost(t: &Term, u: &Term) -> u32
    ensures { result ≡ compare_cost t.now u.now }
{
    if t.size() == u.size() { t.size() } else { 1 }
}

/// The type of a sort, which the last level has not.
pub fn type_of_sort(sort: Sort) -> Option<Sort>
    ensures { result ≡ type_of_sort sort }
{
    match sort {
        Sort::PropSort => Some(Sort::TypeSort(1)),
        Sort::SetSort => Some(Sort::TypeSort(1)),
        Sort::TypeSort(level) => {
            if 1 <= level && level < LEVEL_LIMIT {
                Some(Sort::TypeSort(level + 1))
            } else {
                None
            }
        }
    }
}

fn refusal(code: u16) -> Stop
    ensures { result ≡ Stop.Refused (record { code = code; place = Place.Whole }) }
{
    Stop::Refused(Refusal {
        code,
        place: Place::Whole,
    })
}
