//! Iota: an eliminator on a constructor.
ghost use Rattle.std.specs.Prelude.{◌≡◌, Some};
ghost use Rattle.term_spine.specs.Spines.{GivesSpine};
ghost use Rattle.cic_rules.specs.Families.{eliminator_of};
ghost use Rattle.cic_rules.specs.Fuel.{IsSpentOf};
ghost use Rattle.cic_rules.specs.Shapes.{shape_at};
ghost use Rattle.conversion.specs.Lookups.{family_if_any};
ghost use Rattle.conversion.specs.Turns.{Pays, Takes, iota_turn};
ghost use Rattle.move_compute.specs.Scopes.{MayContract, IsSpineOver, IsTermOver};
ghost use Rattle.move_compute.specs.Turns.{iota_fired};

use crate::cases::Call;
use crate::firing::{Chosen, choose, fire};
use crate::lookups::spine_of_term;
use base_core::{Limit, Stop};
use cic_rules::{FamilyShape, Fuel, GlobalEnv};
use conversion::cases::{applied_first, skipped};
use core_term::{Term, TermStop};
use shared_map::SharedList;
use std::alloc::Global;
use term_spine::Spine;

/// The turn of an eliminator of the inductive type at a place, whose major premise is reduced to this
/// value.
pub(crate) fn eliminate(
    alloc: Global,
    env: &GlobalEnv,
    family: u32,
    shape: &FamilyShape,
    spine: &Spine,
    value: &Term,
    vars: u32,
    fuel: &mut Fuel,
) -> Result<Option<Spine>, Stop>
    requires spine { IsSpineOver env.now vars spine.now }
    requires value { IsTermOver env.now vars value.now }
    requires family { eliminator_of env.now spine.now.head ≡ family_if_any env.now (Some family) }
    requires shape { shape_at env.now family ≡ Some shape.now }
    ensures answer { Takes result fuel.old fuel.new spine.now (iota_turn env.now value.now) }
    ensures kept { IsSpentOf fuel.old fuel.new }
{
    let _globals = env.len();
    let made = spine_of_term(alloc, value)?;
    match choose(alloc, env, family, &spine.args, &made)? {
        None => Ok(None),
        Some(chosen) => match contract(alloc, shape, spine, &chosen, vars, fuel) {
            Ok(next) => Ok(Some(next)),
            Err(stop) => Err(stop),
        },
    }
}

/// The contraction, for a unit.
#[tactic(auto, using(conversion::proofs::TurnLaws::goes_on, conversion::proofs::TurnLaws::stops, conversion::proofs::TurnLaws::too_poor))]
fn contract(
    alloc: Global,
    shape: &FamilyShape,
    spine: &Spine,
    chosen: &Chosen,
    vars: u32,
    fuel: &mut Fuel,
) -> Result<Spine, Stop>
    requires { MayContract vars spine.now.head spine.now.args chosen.now }
    ensures paid { Pays result fuel.old fuel.new 1 (iota_fired shape.now spine.now.head spine.now.args chosen.now) }
    ensures kept { IsSpentOf fuel.old fuel.new }
{
    if !fuel.spend(1) {
        return Err(Stop::Out(Limit::StepLimit));
    }
    match contracted(alloc, shape, spine, chosen, vars) {
        Ok(next) => Ok(next),
        Err(stop) => Err(Stop::from(stop)),
    }
}

/// The eliminator itself stands for the recursive results.
fn contracted(
    alloc: Global,
    shape: &FamilyShape,
    spine: &Spine,
    chosen: &Chosen,
    vars: u32,
) -> Result<Spine, TermStop>
    requires { MayContract vars spine.now.head spine.now.args chosen.now }
    ensures { GivesSpine result (iota_fired shape.now spine.now.head spine.now.args chosen.now) }
{
    let head = spine.head.share()?;
    let case = chosen.case.share()?;
    let behind = skipped(&spine.args, shape.major)?;
    let rest = skipped(&behind, 1)?;
    match applied_first(alloc, head, &spine.args, shape.fixed) {
        Ok(front) => {
            let call = Call {
                front,
                behind: SharedList::empty(),
            };
            fire(alloc, &call, chosen, case, &spine.args, rest, vars)
        }
        Err(_) => Err(TermStop::NoMem),
    }
}
