//! What a context and an environment tell reduction.
ghost use Rattle.std.specs.Prelude.{◌≡◌, ◌+◌, ◌^◌, ◌≤◌, None, length, slice_get, if◌then◌else◌, IfOk};
ghost use Rattle.std.specs.Option.{option_copied};
ghost use Rattle.core_term.specs.Tree.{Constant, free_bound};
ghost use Rattle.core_term.specs.Places.{lift_of};
ghost use Rattle.cic_rules.specs.Contexts.{value_of_variable as value_in, IsContext};
ghost use Rattle.cic_rules.specs.Environments.{transparent as body_of_kind, body_of_global};
ghost use Rattle.cic_rules.specs.Families.{eliminator_of, constructor_of};
ghost use Rattle.conversion.specs.Lookups.{family_if_any};

use base_core::NoMem;
use cic_rules::{Context, EntryKind, GlobalEnv};
use core_term::{Node, Term};
use std::alloc::Global;
use term_spine::Arguments;

/// What delta puts in the place of a global: the body of a transparent definition.
pub fn body_to_unfold(env: &GlobalEnv, place: u32, delta: bool) -> Option<&Term>
    ensures { option_copied result ≡ (if delta then body_of_global env.now place else None) }
{
    if !delta {
        return None;
    }
    match env.get(place) {
        Some(entry) => transparent(&entry.kind),
        None => None,
    }
}

fn transparent(kind: &EntryKind) -> Option<&Term>
    ensures { option_copied result ≡ body_of_kind kind.now }
{
    match kind {
        EntryKind::Defined { body, opaque } => { if *opaque { None } else { Some(body) } }
        _ => None,
    }
}

/// The place of the inductive type whose eliminator a global is.
pub fn eliminated_place(env: &GlobalEnv, place: u32) -> Option<u32>
    ensures { eliminator_of env.now (Constant place) ≡ family_if_any env.now result }
{
    match env.get(place) {
        Some(entry) => match &entry.kind {
            EntryKind::Eliminator { of, .. } => Some(*of),
            _ => None,
        },
        None => None,
    }
}

/// Which constructor of the inductive type at a place a head is.
pub fn constructor_index(env: &GlobalEnv, family: u32, head: &Term) -> Option<u32>
    ensures { result ≡ constructor_of env.now family head.now }
{
    match head.node() {
        Node::Constant(place) => match env.get(*place) {
            Some(entry) => match &entry.kind {
                EntryKind::Constructor { of, index } if *of == family => Some(*index),
                _ => None,
            },
            None => None,
        },
        _ => None,
    }
}

/// The argument with this index, from 0.
pub fn argument_at(args: &Arguments, i: usize) -> Option<&Term>
    ensures { option_copied result ≡ slice_get args.now i }
{
    if i >= args.len() as usize {
        return None;
    }
    args.get(i as u32)
}

/// The definition of a variable, where the context has one, as it stands in the whole context.
pub fn value_of_variable(alloc: Global, ctx: &Context, i: u32) -> Result<Option<Term>, NoMem>
    ensures { IfOk result (λ v. v ≡ value_in ctx.now i) }
{
    let Some(hyp) = ctx.get(i) else {
        return Ok(None);
    };
    let Some(value) = &hyp.value else {
        return Ok(None);
    };
    let value = lifted(alloc, value, i + 1)?;
    Ok(Some(value))
}

/// The term with room made for so many variables. It is no larger than before.
#[tactic(auto, using(crate::proofs::LookupLaws::lift_numbered, crate::proofs::LookupLaws::lift_fits))]
pub fn lifted(alloc: Global, t: &Term, by: u32) -> Result<Term, NoMem>
    requires { free_bound t.now + by ≤ 2 ^ 31 + 5000 }
    ensures { IfOk result (λ u. u ≡ lift_of t.now by 0) }
{
    let _depth = t.depth();
    match t.lift(alloc, by, 0) {
        Ok(lifted) => Ok(lifted),
        Err(_) => Err(NoMem),
    }
}
