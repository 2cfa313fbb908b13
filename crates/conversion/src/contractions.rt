//! Contractions, which are paid first and built then.
ghost use Rattle.std.specs.Prelude.{◌≡◌, ◌+◌, ◌^◌, ◌≤◌};
ghost use Rattle.core_term.specs.Tree.{size_of, free_bound};
ghost use Rattle.term_spine.specs.Spine.{apply_all};
ghost use Rattle.term_spine.specs.Spines.{GivesSpine};
ghost use Rattle.cic_rules.specs.Fuel.{IsSpentOf};
ghost use Rattle.conversion.specs.Turns.{Pays, put_all};

use base_core::{Limit, Stop};
use cic_rules::Fuel;
use core_term::{Term, TermStop};
use std::alloc::Global;
use term_spine::{Arguments, Spine, spine_of};

/// A function applied to its first argument, for a unit and one for each node of its body.
pub fn beta(
    alloc: Global,
    body: &Term,
    value: &Term,
    args: Arguments,
    fuel: &mut Fuel,
) -> Result<Spine, Stop>
    requires body { free_bound body.now ≤ 2 ^ 31 + 2001 }
    requires value { free_bound value.now ≤ 2 ^ 31 + 2000 }
    ensures contracted { Pays result fuel.old fuel.new (1 + size_of body.now) (put_all body.now value.now args) }
    ensures kept { IsSpentOf fuel.old fuel.new }
{
    let units = 1 + body.size();
    put_in(alloc, units, body, value, args, fuel)
}

/// A value put in for the newest variable of a body, for so many units.
#[tactic(auto, using(crate::proofs::TurnLaws::goes_on, crate::proofs::TurnLaws::stops, crate::proofs::TurnLaws::too_poor))]
pub fn put_in(
    alloc: Global,
    units: u32,
    body: &Term,
    value: &Term,
    args: Arguments,
    fuel: &mut Fuel,
) -> Result<Spine, Stop>
    requires body { free_bound body.now ≤ 2 ^ 31 + 2001 }
    requires value { free_bound value.now ≤ 2 ^ 31 + 2000 }
    ensures contracted { Pays result fuel.old fuel.new units (put_all body.now value.now args) }
    ensures kept { IsSpentOf fuel.old fuel.new }
{
    if !fuel.spend(units) {
        return Err(Stop::Out(Limit::StepLimit));
    }
    match substituted(alloc, body, value, args) {
        Ok(next) => Ok(next),
        Err(stop) => Err(Stop::from(stop)),
    }
}

#[tactic(auto, using(crate::proofs::TurnLaws::subst_numbered, crate::proofs::TurnLaws::part_stop))]
fn substituted(alloc: Global, body: &Term, value: &Term, args: Arguments) -> Result<Spine, TermStop>
    requires body { free_bound body.now ≤ 2 ^ 31 + 2001 }
    requires value { free_bound value.now ≤ 2 ^ 31 + 2000 }
    ensures { GivesSpine result (put_all body.now value.now args) }
{
    let _body = body.depth();
    let _value = value.depth();
    match body.subst(alloc, value, 0) {
        Ok(function) => spine_of(alloc, function, args),
        Err(stop) => Err(stop),
    }
}

/// A definition in the place of a head, for a unit.
#[tactic(auto, using(crate::proofs::TurnLaws::goes_on, crate::proofs::TurnLaws::stops, crate::proofs::TurnLaws::too_poor))]
pub fn unfold(
    alloc: Global,
    definition: Term,
    args: &Arguments,
    fuel: &mut Fuel,
) -> Result<Spine, Stop>
    ensures contracted { Pays result fuel.old fuel.new 1 (apply_all definition args.now) }
    ensures kept { IsSpentOf fuel.old fuel.new }
{
    if !fuel.spend(1) {
        return Err(Stop::Out(Limit::StepLimit));
    }
    let args = args.share()?;
    match spine_of(alloc, definition, args) {
        Ok(next) => Ok(next),
        Err(stop) => Err(Stop::from(stop)),
    }
}
