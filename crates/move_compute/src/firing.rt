//! The case that a constructor chooses.
ghost use Rattle.std.specs.Prelude.{◌≡◌, IfOk};
ghost use Rattle.term_spine.specs.Spines.{GivesSpine};
ghost use Rattle.move_compute.specs.Firing.{chosen_by, chosen_full, fired};
ghost use Rattle.move_compute.specs.Scopes.{MayFire};

use crate::cases::{Call, case_on};
use base_core::{List, NoMem};
use cic_rules::{Ctor, FamilyShape, GlobalEnv};
use conversion::cases::{skipped, values_of};
use conversion::iota::{case_at, ctor_at, is_full, marks_at};
use conversion::lookups::constructor_index;
use core_term::{Term, TermStop};
use shared_map::SharedList;
use std::alloc::Global;
use term_spine::{Arguments, Spine, spine_of};

/// A case with the constructor's declared type, marks at its recursive arguments, and the arguments
/// that it has behind so many parameters.
#[derive(Drop)]
pub struct Chosen {
    pub params: usize,
    pub marks: List<bool>,
    pub ty: Term,
    pub case: Term,
    pub given: Arguments,
}

/// The case among an eliminator's arguments that a value chooses, where it is a constructor of the
/// inductive type at a place with all its arguments.
pub(crate) fn choose(
    alloc: Global,
    env: &GlobalEnv,
    family: u32,
    args: &Arguments,
    value: &Spine,
) -> Result<Option<Chosen>, NoMem>
    ensures { IfOk result (λ c. c ≡ chosen_by env.now family args.now value.now.head value.now.args) }
{
    let Some(decl) = env.inductive(family) else {
        return Ok(None);
    };
    let Some(shape) = env.shape(family) else {
        return Ok(None);
    };
    let Some(index) = constructor_index(env, family, &value.head) else {
        return Ok(None);
    };
    let Some(ctor) = ctor_at(decl, index) else {
        return Ok(None);
    };
    let Some(marks) = marks_at(shape, index) else {
        return Ok(None);
    };
    match case_at(args, shape.params, index) {
        None => Ok(None),
        Some(case) => choose_full(alloc, shape, ctor, marks, case, &value.args),
    }
}

/// The case, where all arguments are there.
fn choose_full(
    alloc: Global,
    shape: &FamilyShape,
    ctor: &Ctor,
    marks: &List<bool>,
    case: &Term,
    given: &Arguments,
) -> Result<Option<Chosen>, NoMem>
    ensures { IfOk result (λ c. c ≡ chosen_full shape.now given.now ctor.now marks.now case.now) }
{
    if !is_full(given.len(), shape.params, marks.as_slice().len()) {
        return Ok(None);
    }
    let marks = List::copy(alloc, marks.as_slice())?;
    let ty = ctor.ty.share()?;
    let case = case.share()?;
    let given = skipped(given, shape.params)?;
    Ok(Some(Chosen {
        params: shape.params,
        marks,
        ty,
        case,
        given,
    }))
}

/// What a case that was chosen becomes, where a call stands for the recursive results, the parameters
/// are the first of an eliminator's arguments, and the rest is applied to it. So many variables are about.
#[tactic(auto, using(crate::proofs::FiringLaws::fired_is, crate::proofs::FiringLaws::fired_stop))]
pub(crate) fn fire(
    alloc: Global,
    call: &Call,
    chosen: &Chosen,
    case: Term,
    args: &Arguments,
    rest: Arguments,
    vars: u32,
) -> Result<Spine, TermStop>
    requires { MayFire vars call.now args.now chosen.now }
    ensures { GivesSpine result (fired call.now chosen.now case args.now rest) }
{
    let _count = args.len();
    let _depth = chosen.ty.depth();
    let values = values_of(alloc, args, chosen.params, SharedList::empty())?;
    match case_on(
        alloc,
        chosen.params,
        chosen.marks.as_slice(),
        call,
        case,
        values,
        &chosen.ty,
        &chosen.given,
        vars,
    ) {
        Ok(whole) => spine_of(alloc, whole, rest),
        Err(stop) => Err(stop),
    }
}
