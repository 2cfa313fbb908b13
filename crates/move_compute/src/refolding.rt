//! A definition that goes on by one of its arguments, on a constructor.
ghost use Rattle.std.specs.Prelude.{◌≡◌, ◌≤◌, Some, take, length, IfOk};
ghost use Rattle.term_spine.specs.Spines.{GivesSpine};
ghost use Rattle.cic_rules.specs.Fuel.{IsSpentOf};
ghost use Rattle.conversion.specs.Turns.{Takes};
ghost use Rattle.move_compute.specs.Refold.{refold_of as is_refold_of, own_eliminator, own_call as is_own_call, refolded as is_refolded};
ghost use Rattle.move_compute.specs.Scopes.{MayRefold, IsSpineOver, IsTermOver};
ghost use Rattle.move_compute.specs.Turns.{AreOwnValues, Refolds, PaysRefold, refold_turn};

use crate::cases::Call;
use crate::firing::{Chosen, choose, fire};
use crate::lookups::spine_of_term;
use crate::refolds::Refold;
use base_core::{Limit, NoMem, Stop};
use cic_rules::{Fuel, GlobalEnv};
use conversion::cases::{applied_first, skipped, values_of};
use core_term::{Term, TermStop};
use shared_map::SharedList;
use std::alloc::Global;
use term_spine::{Arguments, Spine, instantiate};

/// The turn of such a definition with all its arguments, where the one by which it goes on is reduced
/// to this value.
pub(crate) fn go_on(
    alloc: Global,
    env: &GlobalEnv,
    refold: &Refold,
    spine: &Spine,
    value: &Term,
    vars: u32,
    fuel: &mut Fuel,
) -> Result<Option<Spine>, Stop>
    requires spine { IsSpineOver env.now vars spine.now }
    requires value { IsTermOver env.now vars value.now }
    requires refold { is_refold_of env.now spine.now.head ≡ Some refold.now }
    requires enough { refold.now.count ≤ length spine.now.args }
    ensures answer { Takes result fuel.old fuel.new spine.now (refold_turn env.now refold.now value.now) }
    ensures kept { IsSpentOf fuel.old fuel.new }
{
    let _globals = env.len();
    let inner = spine_of_term(alloc, &refold.eliminator)?;
    let made = spine_of_term(alloc, value)?;
    match choose(alloc, env, refold.family, &inner.args, &made)? {
        None => Ok(None),
        Some(chosen) => match contract(alloc, refold, spine, &chosen, vars, fuel) {
            Ok(next) => Ok(Some(next)),
            Err(stop) => Err(stop),
        },
    }
}

/// The contraction, for two units.
#[tactic(auto, using(crate::proofs::RefoldingLaws::goes_on, crate::proofs::RefoldingLaws::stops, crate::proofs::RefoldingLaws::too_poor))]
fn contract(
    alloc: Global,
    refold: &Refold,
    spine: &Spine,
    chosen: &Chosen,
    vars: u32,
    fuel: &mut Fuel,
) -> Result<Spine, Stop>
    requires { MayRefold vars refold.now spine.now.head spine.now.args chosen.now }
    ensures paid { PaysRefold result fuel.old fuel.new refold.now spine.now.head spine.now.args chosen.now }
    ensures kept { IsSpentOf fuel.old fuel.new }
{
    if !fuel.spend(2) {
        return Err(Stop::Out(Limit::StepLimit));
    }
    match contracted(alloc, refold, spine, chosen, vars) {
        Ok(next) => Ok(next),
        Err(stop) => Err(Stop::from(stop)),
    }
}

/// The eliminator of the definition's body with the arguments put in, and by way of it what the
/// definition becomes.
fn contracted(
    alloc: Global,
    refold: &Refold,
    spine: &Spine,
    chosen: &Chosen,
    vars: u32,
) -> Result<Spine, TermStop>
    requires { MayRefold vars refold.now spine.now.head spine.now.args chosen.now }
    ensures { Refolds result refold.now spine.now.head spine.now.args chosen.now }
{
    let _count = spine.args.len();
    let _depth = refold.eliminator.depth();
    let values = values_of(alloc, &spine.args, refold.count, SharedList::empty())?;
    match instantiate(alloc, &refold.eliminator, &values) {
        Ok(inner) => refolded(alloc, refold, spine, chosen, &values, &inner, vars),
        Err(stop) => Err(stop),
    }
}

/// The definition itself stands for the recursive results.
fn refolded(
    alloc: Global,
    refold: &Refold,
    spine: &Spine,
    chosen: &Chosen,
    values: &SharedList<Term>,
    inner: &Term,
    vars: u32,
) -> Result<Spine, TermStop>
    requires may { MayRefold vars refold.now spine.now.head spine.now.args chosen.now }
    requires values { AreOwnValues values.now refold.now spine.now.args }
    requires inner { inner.now ≡ own_eliminator refold.now spine.now.head spine.now.args }
    ensures { GivesSpine result (is_refolded refold.now spine.now.head spine.now.args chosen.now) }
{
    let _count = spine.args.len();
    let _depth = chosen.case.depth();
    let parts = spine_of_term(alloc, inner)?;
    let call = own_call(alloc, refold, spine)?;
    let rest = skipped(&spine.args, refold.count)?;
    match instantiate(alloc, &chosen.case, values) {
        Ok(case) => fire(alloc, &call, chosen, case, &parts.args, rest, vars),
        Err(stop) => Err(stop),
    }
}

/// The definition on another argument.
fn own_call(alloc: Global, refold: &Refold, spine: &Spine) -> Result<Call, NoMem>
    ensures { IfOk result (λ c. c ≡ is_own_call refold.now spine.now.head spine.now.args) }
{
    let head = spine.head.share()?;
    let from = skipped(&spine.args, refold.at)?;
    let later = skipped(&from, 1)?;
    let count = refold.count.saturating_sub(refold.at).saturating_sub(1);
    let behind = listed(alloc, &later, count)?;
    match applied_first(alloc, head, &spine.args, refold.at) {
        Ok(front) => Ok(Call { front, behind }),
        Err(_) => Err(NoMem),
    }
}

/// The first of some arguments, so many of them.
fn listed(alloc: Global, args: &Arguments, count: usize) -> Result<SharedList<Term>, NoMem>
    ensures { IfOk result (λ ts. ts ≡ take count args.now) }
{
    if count == 0 {
        return Ok(SharedList::empty());
    }
    match args.split()? {
        None => Ok(SharedList::empty()),
        Some((first, rest)) => {
            let later = listed(alloc, &rest, count - 1)?;
            later.with_first(alloc, first)
        }
    }
}
