//! The union of names used, as ascending lists of places.
ghost use Rattle.std.specs.Prelude.{◌≡◌, IsTrue, IfOk};
ghost use Rattle.term_spine.specs.Globals.{has, IsAscending};
ghost use Rattle.cic_rules.specs.Infer.{union};
ghost use Rattle.cic_rules.specs.Unions.{HasEach};

use base_core::{NoMem, NumberList};
use std::alloc::Global;

/// The places of both lists, ascending, each once, where each of the two ascends.
pub fn union(alloc: Global, us: &NumberList, vs: &NumberList) -> Result<NumberList, NoMem>
    ensures { IfOk result (λ all. all ≡ union us.now vs.now) }
{
    let us = us.as_slice();
    let vs = vs.as_slice();
    let mut all = Vec::new(alloc);
    let mut i = 0;
    let mut j = 0;
    while i < us.len() && j < vs.len() {
        let (u, v) = (us[i], vs[j]);
        all.push(u.min(v))?;
        i += usize::from(u <= v);
        j += usize::from(v <= u);
    }
    all.extend_from_slice(&us[i..])?;
    all.extend_from_slice(&vs[j..])?;
    Ok(NumberList::from_vec(all))
}

/// The places of both lists. Where the longer one has each place of the other, it is the answer as
/// it stands, for a search in it for each of them: so only new names cost a copy.
#[tactic(auto, using(crate::proofs::UniteLaws::union_is_second, crate::proofs::UniteLaws::union_is_first, crate::proofs::UniteLaws::ascending_union))]
pub fn unite(alloc: Global, us: NumberList, vs: NumberList) -> Result<NumberList, NoMem>
    requires first { IsAscending us }
    requires second { IsAscending vs }
    ensures all { IfOk result (λ all. all ≡ union us vs) }
    ensures ascending { IfOk result IsAscending }
{
    if us.len() <= vs.len() && has_all(&vs, &us) {
        return Ok(vs);
    }
    if vs.len() < us.len() && has_all(&us, &vs) {
        return Ok(us);
    }
    union(alloc, &us, &vs)
}

/// The first list has each place of the second. It may say no where it has, unless it ascends.
pub fn has_all(all: &NumberList, some: &NumberList) -> bool
    ensures { IsTrue result → HasEach all.now some.now }
{
    for place in some.as_slice() {
        if !has_place(all, *place) {
            return false;
        }
    }
    true
}

fn has_place(all: &NumberList, place: u32) -> bool
    ensures { IsTrue result → IsTrue (has all.now place) }
{
    match all.as_slice().binary_search(&place) {
        Ok(_) => true,
        Err(_) => false,
    }
}
