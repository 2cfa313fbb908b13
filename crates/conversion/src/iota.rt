//! Iota: an eliminator on a constructor.
ghost use Rattle.std.specs.Prelude.{◌≡◌, ◌+◌, ◌^◌, ◌==◌, ◌≤◌, Some, length, drop, slice_get};
ghost use Rattle.std.specs.Option.{option_copied};
ghost use Rattle.core_term.specs.Tree.{free_bound};
ghost use Rattle.term_spine.specs.Spine.{apply_all};
ghost use Rattle.term_spine.specs.Spines.{tree_of_spine, GivesSpine};
ghost use Rattle.term_spine.specs.SpineLaws.{AreOver};
ghost use Rattle.cic_rules.specs.Families.{eliminator_of};
ghost use Rattle.cic_rules.specs.Fuel.{IsSpentOf};
ghost use Rattle.cic_rules.specs.Judges.{MayJudge, IsTermIn};
ghost use Rattle.conversion.specs.Iota.{iota_of, IsSpineIfMade, MayBuild};
ghost use Rattle.conversion.specs.Lookups.{family_if_any};
ghost use Rattle.conversion.specs.Turns.{Pays, Takes, iota_turn, IsSpine};

use crate::cases::{applied_first, case_applied, skipped, values_of};
use crate::lookups::{argument_at, constructor_index};
use base_core::{Limit, List, Stop};
use cic_rules::{Context, Ctor, FamilyShape, Fuel, GlobalEnv, InductiveDecl};
use core_term::{Term, TermStop};
use shared_map::SharedList;
use std::alloc::Global;
use term_spine::{Arguments, Spine, spine_of};

/// The turn of an eliminator of the inductive type at a place, whose major premise is reduced to
/// this value.
pub(crate) fn fire(
    alloc: Global,
    env: &GlobalEnv,
    ctx: &Context,
    family: u32,
    spine: &Spine,
    value: &Term,
    fuel: &mut Fuel,
) -> Result<Option<Spine>, Stop>
    requires judged { MayJudge env.now ctx.now }
    requires term { IsTermIn env.now ctx.now (tree_of_spine spine.now) }
    requires spine { IsSpine spine.now }
    requires value { IsTermIn env.now ctx.now value.now }
    requires family { eliminator_of env.now spine.now.head ≡ family_if_any env.now (Some family) }
    ensures answer { Takes result fuel.old fuel.new spine.now (iota_turn env.now value.now) }
    ensures kept { IsSpentOf fuel.old fuel.new }
{
    let vars = ctx.len();
    let Some(decl) = env.inductive(family) else {
        return Ok(None);
    };
    let Some(shape) = env.shape(family) else {
        return Ok(None);
    };
    let made = spine_of_term(alloc, value)?;
    let Some(index) = constructor_index(env, family, &made.head) else {
        return Ok(None);
    };
    let Some(ctor) = ctor_at(decl, index) else {
        return Ok(None);
    };
    let Some(marks) = marks_at(shape, index) else {
        return Ok(None);
    };
    let Some(case) = case_at(&spine.args, shape.params, index) else {
        return Ok(None);
    };
    if !is_full(made.args.len(), shape.params, marks.as_slice().len()) {
        return Ok(None);
    }
    let next = contracted(
        alloc, shape, marks, spine, case, &ctor.ty, &made.args, vars, fuel,
    )?;
    Ok(Some(next))
}

/// A term as a head with arguments. It is never too large.
pub(crate) fn spine_of_term(alloc: Global, t: &Term) -> Result<Spine, Stop>
    ensures { IsSpineIfMade result t.now }
{
    let whole = t.share()?;
    match spine_of(alloc, whole, Arguments::empty()) {
        Ok(made) => Ok(made),
        Err(_) => Err(Stop::NoMem),
    }
}

/// The constructor with this index.
pub fn ctor_at(decl: &InductiveDecl, index: u32) -> Option<&Ctor>
    ensures { option_copied result ≡ slice_get decl.now.ctors index }
{
    decl.ctors.as_slice().get(index as usize)
}

/// Marks at the recursive arguments of the constructor with this index.
pub fn marks_at(shape: &FamilyShape, index: u32) -> Option<&List<bool>>
    ensures { option_copied result ≡ slice_get shape.now.recursive index }
{
    shape.recursive.as_slice().get(index as usize)
}

/// The case of the constructor with this index: it stands behind the parameters and the motive.
#[tactic(auto, using(crate::proofs::FireLaws::beyond))]
pub fn case_at(args: &Arguments, params: usize, index: u32) -> Option<&Term>
    ensures { option_copied result ≡ slice_get args.now (params + 1 + index) }
{
    let _count = args.len();
    match params.checked_add(1 + index as usize) {
        Some(at) => argument_at(args, at),
        None => None,
    }
}

/// There are as many arguments as parameters and products.
pub fn is_full(count: u32, params: usize, products: usize) -> bool
    ensures { result ≡ (count == params + products) }
{
    match (count as usize).checked_sub(params) {
        Some(rest) => rest == products,
        None => false,
    }
}

/// The contraction, for a unit.
#[tactic(auto, using(crate::proofs::TurnLaws::goes_on, crate::proofs::TurnLaws::stops, crate::proofs::TurnLaws::too_poor))]
fn contracted(
    alloc: Global,
    shape: &FamilyShape,
    marks: &List<bool>,
    spine: &Spine,
    case: &Term,
    ty: &Term,
    given: &Arguments,
    vars: u32,
    fuel: &mut Fuel,
) -> Result<Spine, Stop>
    requires built { MayBuild vars shape.now.params spine.now ty.now given.now }
    ensures paid { Pays result fuel.old fuel.new 1 (iota_of shape.now marks.now spine.now case.now ty.now given.now) }
    ensures kept { IsSpentOf fuel.old fuel.new }
{
    if !fuel.spend(1) {
        return Err(Stop::Out(Limit::StepLimit));
    }
    let case = case.share()?;
    match built(alloc, shape, marks, spine, case, ty, given, vars) {
        Ok(next) => Ok(next),
        Err(stop) => Err(Stop::from(stop)),
    }
}

fn built(
    alloc: Global,
    shape: &FamilyShape,
    marks: &List<bool>,
    spine: &Spine,
    case: Term,
    ty: &Term,
    value_args: &Arguments,
    vars: u32,
) -> Result<Spine, TermStop>
    requires { MayBuild vars shape.now.params spine.now ty.now value_args.now }
    ensures { GivesSpine result (iota_of shape.now marks.now spine.now case ty.now value_args.now) }
{
    let head = spine.head.share()?;
    let _depth = ty.depth();
    let values = values_of(alloc, &spine.args, shape.params, SharedList::empty())?;
    let arguments = skipped(value_args, shape.params)?;
    let behind = skipped(&spine.args, shape.major)?;
    let rest = skipped(&behind, 1)?;
    match applied_first(alloc, head, &spine.args, shape.fixed) {
        Ok(eliminator) => {
            match case_applied(
                alloc,
                shape.params,
                marks.as_slice(),
                &eliminator,
                case,
                values,
                ty,
                &arguments,
                vars,
            ) {
                Ok(whole) => spine_of(alloc, whole, rest),
                Err(stop) => Err(stop),
            }
        }
        Err(_) => Err(TermStop::NoMem),
    }
}
