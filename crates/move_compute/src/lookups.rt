//! What terms and an environment tell of heads.
ghost use Rattle.std.specs.Prelude.{◌≡◌, IfOk};
ghost use Rattle.term_spine.specs.Spines.{IsSpineOf};
ghost use Rattle.cic_rules.specs.Families.{eliminator_of};
ghost use Rattle.conversion.specs.Lookups.{family_if_any};

use base_core::NoMem;
use cic_rules::GlobalEnv;
use conversion::lookups::eliminated_place;
use core_term::{Node, Term};
use std::alloc::Global;
use term_spine::{Arguments, Spine, spine_of};

/// A term as a head with arguments. It is never too large.
pub(crate) fn spine_of_term(alloc: Global, t: &Term) -> Result<Spine, NoMem>
    ensures { IfOk result (λ s. IsSpineOf s t.now) }
{
    let whole = t.share()?;
    match spine_of(alloc, whole, Arguments::empty()) {
        Ok(made) => Ok(made),
        Err(_) => Err(NoMem),
    }
}

/// The place of the inductive type whose eliminator a head is.
pub(crate) fn eliminated_family(env: &GlobalEnv, head: &Term) -> Option<u32>
    ensures { eliminator_of env.now head.now ≡ family_if_any env.now result }
{
    match head.node() {
        Node::Constant(place) => eliminated_place(env, *place),
        _ => None,
    }
}
