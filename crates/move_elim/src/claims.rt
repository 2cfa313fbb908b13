//! What is shown of each constructor.
ghost use Rattle.std.specs.Prelude.{◌≡◌, ◌+◌, ◌++◌, ◌^◌, ◌≤◌, ◌<◌, length, IfOk, OnOk};
ghost use Rattle.base_core.specs.Answers.{Gives as Answers};
ghost use Rattle.core_term.specs.Tree.{same_sort as is_one_sort};
ghost use Rattle.core_term.specs.Answers.{within_limits, Gives};
ghost use Rattle.cic_rules.specs.Eliminators.{is_in_prop as is_proposition, is_prop as is_prop_tree};
ghost use Rattle.term_spine.specs.Spine.{end_of_products};
ghost use Rattle.move_elim.specs.Claims.{claim_site as the_claim_site, claim_of as the_claim, sort_rank as rank_of, eliminates as eliminates_into, eliminator_into as the_eliminator};
ghost use Rattle.cic_rules.specs.Judges.{MayJudge, IsTermIn};
ghost use Rattle.cic_rules.specs.Scopes.{AreBefore};
ghost use Rattle.cic_rules.specs.Steps.{answer_of};
ghost use Rattle.move_elim.specs.Generalised.{under_value as value_under, generalised as the_generalised};
ghost use Rattle.move_elim.specs.Sites.{stand_for_all as all_standing};
ghost use Rattle.move_elim.specs.Steps.{sized};

use crate::generalised::generalised;
use crate::sites::{Site, own_site};
use crate::subjects::Subject;
use base_core::{Limit, NoMem, NumberList, Stop, Text};
use cic_rules::{Context, EntryKind, GlobalEnv, InductiveDecl};
use core_term::{Node, Sort, Term, TermStop};
use std::alloc::Global;

/// The goal as a function of the indices, and of the value where the type is no proposition.
#[derive(Drop)]
pub struct Claim {
    /// Below a binder for each index and for the value.
    pub body: Term,
    /// How many hypotheses are generalised.
    pub moved: usize,
    /// How many parameters the inductive type has.
    pub params: usize,
    /// The hypotheses that are the indices.
    pub indices: NumberList,
    /// How many hypotheses there are.
    pub below: u32,
    pub is_prop: bool,
}

/// Whether a type ends in `Prop`.
fn ends_in_prop(t: &Term) -> bool
    ensures { result ≡ is_prop_tree (end_of_products t.now) }
{
    match t.node() {
        Node::Prod { codomain, .. } => ends_in_prop(codomain),
        Node::Sorted(Sort::PropSort) => true,
        Node::Sorted(Sort::SetSort) => false,
        Node::Sorted(Sort::TypeSort(_)) => false,
        Node::Var(_) => false,
        Node::Constant(_) => false,
        Node::Lam { .. } => false,
        Node::LetIn { .. } => false,
        Node::App { .. } => false,
    }
}

/// Whether an inductive type is a proposition.
pub(crate) fn is_in_prop(d: &InductiveDecl) -> bool
    ensures { result ≡ is_proposition d.now }
{
    ends_in_prop(&d.arity)
}

/// A type under the binder of a hypothesis: a product, or a let for one that has a definition.
pub(crate) fn under_value(
    alloc: Global,
    name: &Text,
    ty: Term,
    value: Option<Term>,
    body: Term,
) -> Result<Term, TermStop>
    ensures { Gives result (within_limits (value_under name.now ty value body)) }
{
    let name = name.share()?;
    match value {
        None => Term::prod(alloc, name, ty, body),
        Some(value) => Term::let_in(alloc, name, ty, value, body),
    }
}

/// How many eliminators stand before the one into a sort.
fn sort_rank(sort: Sort) -> u64
    ensures rank { result ≡ rank_of sort }
    ensures few { result ≤ 2 }
{
    match sort {
        Sort::PropSort => 0,
        Sort::SetSort => 1,
        Sort::TypeSort(_) => 2,
    }
}

fn same_sort(a: Sort, b: Sort) -> bool
    ensures { result ≡ is_one_sort a b }
{
    match a {
        Sort::PropSort => match b {
            Sort::PropSort => true,
            Sort::SetSort => false,
            Sort::TypeSort(_) => false,
        },
        Sort::SetSort => match b {
            Sort::PropSort => false,
            Sort::SetSort => true,
            Sort::TypeSort(_) => false,
        },
        Sort::TypeSort(i) => match b {
            Sort::PropSort => false,
            Sort::SetSort => false,
            Sort::TypeSort(j) => i == j,
        },
    }
}

/// Whether a global is the eliminator of the inductive type at a place into a sort.
fn eliminates(place: u32, sort: Sort, kind: &EntryKind) -> bool
    ensures { result ≡ eliminates_into place sort kind.now }
{
    match kind {
        EntryKind::Eliminator { of, sort: into } => *of == place && same_sort(*into, sort),
        EntryKind::Assumed => false,
        EntryKind::Admitted => false,
        EntryKind::Defined { .. } => false,
        EntryKind::Inductive(_) => false,
        EntryKind::Constructor { .. } => false,
    }
}

/// The eliminator of an inductive type with so many constructors into a sort.
#[tactic(auto, using(crate::proofs::ContextLoops::no_eliminator))]
pub(crate) fn eliminator_into(env: &GlobalEnv, place: u32, count: usize, sort: Sort) -> Option<u32>
    ensures { result ≡ the_eliminator env.now place count sort }
{
    let length = u64::from(env.len());
    if count as u64 >= length {
        return None;
    }
    let at = u64::from(place) + 1 + count as u64 + sort_rank(sort);
    if at >= length {
        return None;
    }
    match env.get(at as u32) {
        None => None,
        Some(entry) => {
            if eliminates(place, sort, &entry.kind) {
                Some(at as u32)
            } else {
                None
            }
        }
    }
}

/// Below a binder for each of these variables.
#[tactic(auto, using(crate::proofs::Placements::levels_standing))]
fn stand_for_all(alloc: Global, site: Site, variables: &[u32]) -> Result<Site, NoMem>
    requires variables { AreBefore (length site.levels) variables.now }
    requires room { site.depth + length variables.now < 2 ^ 32 }
    ensures site { IfOk result (λ s. s ≡ all_standing variables.now site) }
    ensures levels { IfOk result (λ s. length s.levels ≡ length site.levels) }
    ensures depth { IfOk result (λ s. s.depth ≡ site.depth + length variables.now) }
{
    match variables.split_first() {
        None => Ok(site),
        Some((i, later)) => {
            let inner = site.stand_for(alloc, *i)?;
            stand_for_all(alloc, inner, later)
        }
    }
}

/// Where the claim stands: below the motive's binders.
#[tactic(auto, using(crate::proofs::ClaimLaws::own_levels, crate::proofs::ClaimLaws::site_of_prop, crate::proofs::ClaimLaws::site_of_value))]
fn claim_site(alloc: Global, below: u32, is_prop: bool, x: &Subject) -> Result<Site, NoMem>
    requires below { below ≤ 2 ^ 31 }
    requires variable { x.now.variable < below }
    requires indices { AreBefore below x.now.indices }
    requires few { length x.now.indices ≤ 1000 }
    ensures { IfOk result (λ s. s ≡ the_claim_site below is_prop x.now) }
{
    let site = own_site(alloc, below)?;
    let site = stand_for_all(alloc, site, x.indices.as_slice())?;
    if is_prop {
        return Ok(site);
    }
    site.stand_for(alloc, x.variable)
}

/// Adds numbers to a list.
pub(crate) fn push_all(numbers: &[u32], found: &mut NumberList) -> Result<(), NoMem>
    ensures { OnOk result (found.new ≡ found.old ++ numbers.now) }
{
    for n in numbers {
        found.push(*n)?;
    }
    Ok(())
}

/// The same numbers.
pub(crate) fn copied(alloc: Global, numbers: &[u32]) -> Result<NumberList, NoMem>
    ensures { IfOk result (λ copy. copy ≡ numbers.now) }
{
    let mut copy = NumberList::new(alloc);
    push_all(numbers, &mut copy)?;
    Ok(copy)
}

/// The goal at that site, under binders for the hypotheses at some places.
#[tactic(auto, using(crate::proofs::ClaimLaws::is_claim_site, crate::proofs::ClaimLaws::claim_levels, crate::proofs::ClaimLaws::claim_room))]
fn claim_body(
    alloc: Global,
    env: &GlobalEnv,
    ctx: &Context,
    goal: &Term,
    is_prop: bool,
    x: &Subject,
    moved: &[u32],
) -> Result<Term, Stop>
    requires judged { MayJudge env.now ctx.now }
    requires goal { IsTermIn env.now ctx.now goal.now }
    requires variable { x.now.variable < length ctx.now }
    requires indices { AreBefore (length ctx.now) x.now.indices }
    requires few { length x.now.indices ≤ 1000 }
    requires moved { AreBefore (length ctx.now) moved.now }
    requires short { length moved.now ≤ 1000 }
    ensures { let site = the_claim_site (length ctx.now) is_prop x.now in
        Answers result (answer_of (sized (the_generalised ctx.now site moved.now goal.now))) }
{
    let below = ctx.len();
    let site = claim_site(alloc, below, is_prop, x)?;
    Ok(generalised(alloc, env, ctx, &site, moved, goal)?)
}

/// The claim, under binders for the hypotheses at some places.
#[tactic(auto, using(crate::proofs::ClaimLaws::too_many_moved))]
pub(crate) fn claim_of(
    alloc: Global,
    env: &GlobalEnv,
    ctx: &Context,
    goal: &Term,
    d: &InductiveDecl,
    x: &Subject,
    moved: &[u32],
) -> Result<Claim, Stop>
    requires judged { MayJudge env.now ctx.now }
    requires goal { IsTermIn env.now ctx.now goal.now }
    requires variable { x.now.variable < length ctx.now }
    requires indices { AreBefore (length ctx.now) x.now.indices }
    requires few { length x.now.indices ≤ 1000 }
    requires moved { AreBefore (length ctx.now) moved.now }
    ensures { Answers result (answer_of (the_claim ctx.now goal.now d.now x.now moved.now)) }
{
    if moved.len() > 1000 {
        return Err(Stop::Out(Limit::SizeLimit));
    }
    let is_prop = is_in_prop(d);
    let body = claim_body(alloc, env, ctx, goal, is_prop, x, moved)?;
    let indices = copied(alloc, x.indices.as_slice())?;
    Ok(Claim {
        body,
        moved: moved.len(),
        params: d.params.as_slice().len(),
        indices,
        below: ctx.len(),
        is_prop,
    })
}
