//! The axioms of all globals.
ghost use Rattle.std.specs.Prelude.{◌≡◌, ◌≤◌, length, slice_get, IfOk};
ghost use Rattle.cic_rules.specs.Environments.{IsEnvironment};
ghost use Rattle.cic_rules.specs.Grounded.{used_at, is_assumption, axioms};
ghost use Rattle.axiom_lists.specs.Lists.{axioms_before, own_axioms, brought_by, brought};

use crate::axiom_list::AxiomList;
use base_core::NoMem;
use cic_rules::{EntryKind, GlobalEnv};
use std::alloc::Global;

/// The axioms that each global rests on, by place: the assumptions and admitted theorems that it reaches through
/// the names used. A global takes a time that grows with the axioms of the globals that it names.
pub fn axiom_lists(alloc: Global, env: &GlobalEnv) -> Result<Vec<AxiomList>, NoMem>
    ensures { IfOk result (λ lists. lists.items ≡ axioms_before env.now (length env.now)) }
{
    let mut lists = Vec::new(alloc);
    for place in 0..env.len() {
        let list = list_of(alloc, env, lists.as_slice(), place)?;
        lists.push(list)?;
    }
    Ok(lists)
}

/// The places of the axioms that the global at a place rests on, ascending, each once.
#[tactic(auto, using(crate::proofs::BroughtLaws::as_many_lists, crate::proofs::BroughtLaws::no_axioms))]
pub fn axioms_of<'a>(env: &GlobalEnv, lists: &'a [AxiomList], place: u32) -> &'a [u32]
    requires { lists.now ≡ axioms_before env.now (length env.now) }
    ensures places { result.now ≡ axioms env.now place }
    ensures environment { IsEnvironment env.now }
{
    if place >= env.len() {
        return &[];
    }
    lists[place as usize].as_slice()
}

/// The axioms of one global, by those of the globals before it.
#[tactic(auto, using(crate::proofs::BroughtLaws::axioms_are_brought))]
fn list_of(
    alloc: Global,
    env: &GlobalEnv,
    lists: &[AxiomList],
    place: u32,
) -> Result<AxiomList, NoMem>
    requires { lists.now ≡ axioms_before env.now place }
    ensures { IfOk result (λ list. list ≡ axioms env.now place) }
{
    brought_by_all(alloc, env, lists, used_at(env, place))
}

/// The names that a global uses.
fn used_at(env: &GlobalEnv, place: u32) -> &[u32]
    ensures names { result.now ≡ used_at env.now place }
    ensures environment { IsEnvironment env.now }
{
    match env.get(place) {
        Some(entry) => entry.used.as_slice(),
        None => &[],
    }
}

fn brought_by_all(
    alloc: Global,
    env: &GlobalEnv,
    lists: &[AxiomList],
    used: &[u32],
) -> Result<AxiomList, NoMem>
    ensures { IfOk result (λ list. list ≡ brought env.now lists.now used.now) }
{
    let mut list = AxiomList::empty(alloc)?;
    let mut at = used.len();
    while at > 0 {
        at -= 1;
        list = brought_by(alloc, env, lists, used[at])?.with(alloc, list)?;
    }
    Ok(list)
}

/// What a global brings to those that use it: its axioms, and itself where it is one.
fn brought_by(
    alloc: Global,
    env: &GlobalEnv,
    lists: &[AxiomList],
    place: u32,
) -> Result<AxiomList, NoMem>
    ensures { IfOk result (λ list. list ≡ brought_by env.now lists.now place) }
{
    let own = own_axioms(alloc, lists, place)?;
    if is_assumption(env, place) {
        return AxiomList::one(alloc, place)?.with(alloc, own);
    }
    Ok(own)
}

fn own_axioms(alloc: Global, lists: &[AxiomList], place: u32) -> Result<AxiomList, NoMem>
    ensures { IfOk result (λ list. list ≡ own_axioms (slice_get lists.now place)) }
{
    match lists.get(place as usize) {
        Some(list) => list.share(),
        None => AxiomList::empty(alloc),
    }
}

/// Whether an assumption or an admitted theorem stands at the place.
fn is_assumption(env: &GlobalEnv, place: u32) -> bool
    ensures { result ≡ is_assumption env.now place }
{
    match env.get(place) {
        Some(entry) => matches!(entry.kind, EntryKind::Assumed | EntryKind::Admitted),
        None => false,
    }
}
