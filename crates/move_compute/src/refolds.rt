//! Definitions that go on by one of their arguments.
ghost use Rattle.std.specs.Prelude.{◌≡◌, ◌+◌, ◌==◌, Some, slice_get, IfOk};
ghost use Rattle.core_term.specs.Tree.{Constant};
ghost use Rattle.move_compute.specs.Refold.{stripped as is_stripped, stands_once as is_standing_once, refold_on as refold_by_value, refold_with, refold_shaped, refold_of as is_refold_of};

use crate::lookups::{eliminated_family, spine_of_term};
use crate::unfold_move::body_at;
use base_core::NoMem;
use cic_rules::{FamilyShape, GlobalEnv};
use conversion::cases::applied_first;
use conversion::lookups::argument_at;
use core_term::{Node, Term};
use shared_map::SharedList;
use std::alloc::Global;
use term_spine::Spine;

/// A definition under so many abstractions whose body is an eliminator on a variable of one of
/// them, the first being 0. Kept are the place of the inductive type, and the eliminator with its
/// parameters, motive and cases.
#[derive(Drop)]
pub struct Refold {
    pub count: usize,
    pub at: usize,
    pub family: u32,
    pub eliminator: Term,
}

/// What stands under each abstraction in front of a term, the innermost first, and what stands
/// behind all of them.
#[derive(Drop)]
pub struct Stripped {
    pub under: SharedList<Term>,
    pub body: Term,
}

/// How the global at a place goes on, if it is such a transparent definition.
#[tactic(auto, using(crate::proofs::RefoldLaws::spine_refold))]
pub(crate) fn refold_of(alloc: Global, env: &GlobalEnv, place: u32) -> Result<Option<Refold>, NoMem>
    ensures { IfOk result (λ r. r ≡ is_refold_of env.now (Constant place)) }
{
    let Some(body) = body_at(env, place) else {
        return Ok(None);
    };
    let parts = strip(alloc, body, SharedList::empty())?;
    let spine = spine_of_term(alloc, &parts.body)?;
    refold_of_spine(alloc, env, &parts.under, &spine)
}

/// The abstractions in front of a term taken off, behind others.
fn strip(alloc: Global, t: &Term, under: SharedList<Term>) -> Result<Stripped, NoMem>
    ensures { IfOk result (λ s. s ≡ is_stripped under t.now) }
{
    match t.node() {
        Node::Lam { body, .. } => {
            let inner = body.share()?;
            let under = under.with_first(alloc, inner)?;
            strip(alloc, body, under)
        }
        _ => {
            let body = t.share()?;
            Ok(Stripped { under, body })
        }
    }
}

/// By the body's head and arguments.
#[tactic(auto, using(crate::proofs::RefoldLaws::no_family, crate::proofs::RefoldLaws::no_shape, crate::proofs::RefoldLaws::shaped))]
fn refold_of_spine(
    alloc: Global,
    env: &GlobalEnv,
    under: &SharedList<Term>,
    spine: &Spine,
) -> Result<Option<Refold>, NoMem>
    ensures { IfOk result (λ r. r ≡ refold_with env.now under.now spine.now.head spine.now.args) }
{
    let Some(family) = eliminated_family(env, &spine.head) else {
        return Ok(None);
    };
    let Some(shape) = env.shape(family) else {
        return Ok(None);
    };
    refold_by_shape(alloc, under, family, shape, spine)
}

fn refold_by_shape(
    alloc: Global,
    under: &SharedList<Term>,
    family: u32,
    shape: &FamilyShape,
    spine: &Spine,
) -> Result<Option<Refold>, NoMem>
    ensures { IfOk result (λ r. r ≡ refold_shaped under.now family shape.now spine.now.head spine.now.args) }
{
    if shape.major != shape.fixed {
        return Ok(None);
    }
    if !is_one_more(spine.args.len(), shape.fixed) {
        return Ok(None);
    }
    let head = spine.head.share()?;
    match applied_first(alloc, head, &spine.args, shape.fixed) {
        Ok(eliminator) => match argument_at(&spine.args, shape.fixed) {
            None => Ok(None),
            Some(value) => Ok(refold_on(under, family, eliminator, value)),
        },
        Err(_) => Err(NoMem),
    }
}

fn is_one_more(count: u32, fixed: usize) -> bool
    ensures { result ≡ (count == fixed + 1) }
{
    match fixed.checked_add(1) {
        Some(whole) => count as usize == whole,
        None => false,
    }
}

/// By the value that the eliminator is on.
fn refold_on(
    under: &SharedList<Term>,
    family: u32,
    eliminator: Term,
    value: &Term,
) -> Option<Refold>
    ensures { result ≡ refold_by_value under.now family eliminator (Some value.now) }
{
    match value.node() {
        Node::Var(i) => {
            if !stands_once(under, *i) {
                return None;
            }
            let count = under.len();
            let at = count.saturating_sub(*i as usize + 1);
            Some(Refold {
                count,
                at,
                family,
                eliminator,
            })
        }
        _ => None,
    }
}

/// Whether a variable stands once in what is under its abstraction.
fn stands_once(under: &SharedList<Term>, i: u32) -> bool
    ensures { result ≡ is_standing_once (slice_get under.now i) }
{
    match under.get(i as usize) {
        Some(body) => body.occurrences(0) == 1,
        None => false,
    }
}
