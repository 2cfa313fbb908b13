//! The hypotheses that are generalised, and the goal under binders for them.
ghost use Rattle.std.specs.Prelude.{◌≡◌, ◌+◌, ◌^◌, ◌<◌, ◌≤◌, length, slice_get, IfOk};
ghost use Rattle.core_term.specs.Answers.{within_limits, Gives};
ghost use Rattle.core_term.specs.Tree.{depth_of};
ghost use Rattle.cic_rules.specs.Contexts.{type_of_variable, value_of_variable};
ghost use Rattle.cic_rules.specs.Judges.{MayJudge, IsTermIn};
ghost use Rattle.cic_rules.specs.Scopes.{AreBefore};
ghost use Rattle.move_elim.specs.Scopes.{IsSite};
ghost use Rattle.move_elim.specs.Sites.{placed as placed_term};
ghost use Rattle.term_spine.specs.Globals.{has as has_place};
ghost use Rattle.move_elim.specs.Generalised.{has_marked as is_marked_in, hyp_has_marked as has_marked_hyp, next_marked, marked_from, hyp_mentions as mentions_in, is_mentioned as mentioned_in, depends as depends_on, placed_if_any, under_hyp as the_binder, generalised as the_generalised};

use crate::claims::under_value;
use crate::sites::{Site, placed};
use base_core::{NoMem, NumberList};
use cic_rules::{Context, GlobalEnv, Hyp};
use core_term::{Node, Term, TermStop};
use shared_map::SharedList;
use std::alloc::Global;

/// Which hypotheses are taken or generalised, the newest first, and the places of those that are generalised, the
/// oldest first.
#[derive(Drop)]
pub struct Marked {
    pub marks: SharedList<bool>,
    pub places: NumberList,
}

/// Whether one of the marked variables stands in a term below so many binders.
fn has_marked(marks: &SharedList<bool>, t: &Term, binders: u32) -> bool
    requires { binders + depth_of t.now < 2 ^ 32 }
    ensures { result ≡ is_marked_in marks.now t.now binders }
{
    match t.node() {
        Node::Var(i) => {
            if *i < binders {
                return false;
            }
            match marks.get((*i - binders) as usize) {
                None => false,
                Some(mark) => *mark,
            }
        }
        Node::Sorted(_) => false,
        Node::Constant(_) => false,
        Node::Prod {
            domain,
            codomain,
            ..
        } => has_marked(marks, domain, binders) || has_marked(marks, codomain, binders + 1),
        Node::Lam { domain, body, .. } => {
            has_marked(marks, domain, binders) || has_marked(marks, body, binders + 1)
        }
        Node::LetIn {
            ty,
            value,
            body,
            ..
        } => {
            has_marked(marks, ty, binders)
                || has_marked(marks, value, binders)
                || has_marked(marks, body, binders + 1)
        }
        Node::App { function, argument } => {
            has_marked(marks, function, binders) || has_marked(marks, argument, binders)
        }
    }
}

/// Whether a hypothesis mentions one of the marked ones, which stand before it.
fn hyp_has_marked(marks: &SharedList<bool>, hyp: &Hyp) -> bool
    ensures { result ≡ has_marked_hyp marks.now hyp.now }
{
    let _depth = hyp.ty.depth();
    if has_marked(marks, &hyp.ty, 0) {
        return true;
    }
    match &hyp.value {
        None => false,
        Some(value) => {
            let _depth = value.depth();
            has_marked(marks, value, 0)
        }
    }
}

/// Whether a place is in a list.
fn has(places: &[u32], i: u32) -> bool
    ensures { result ≡ has_place places.now i }
{
    match places.split_first() {
        None => false,
        Some((place, later)) => {
            if *place == i {
                return true;
            }
            has(later, i)
        }
    }
}

impl Marked {
    /// With one more hypothesis at its place. What is known of the older ones is taken over.
    fn into_larger(self, alloc: Global, taken: &[u32], i: u32, hyp: &Hyp) -> Result<Marked, NoMem>
        ensures { IfOk result (λ m. m ≡ next_marked taken.now i hyp.now self) }
    {
        let Marked { marks, places } = self;
        let mentions = hyp_has_marked(&marks, hyp);
        let is_taken = has(taken, i);
        let marks = marks.with_first(alloc, is_taken || mentions)?;
        let mut places = places;
        if mentions && !is_taken {
            places.push(i)?;
        }
        Ok(Marked { marks, places })
    }
}

/// The hypotheses that mention a taken or a generalised one, by their places, the oldest first.
pub(crate) fn generalised_with(alloc: Global, taken: &[u32], ctx: &Context) -> Result<Marked, NoMem>
    ensures { IfOk result (λ m. m ≡ marked_from taken.now 0 ctx.now) }
{
    let mut marked = Marked {
        marks: SharedList::empty(),
        places: NumberList::new(alloc),
    };
    let mut at = ctx.len();
    while at > 0 {
        at -= 1;
        let Some(hyp) = ctx.get(at) else {
            unreachable!()
        };
        marked = marked.into_larger(alloc, taken, at, hyp)?;
    }
    Ok(marked)
}

/// Whether a hypothesis mentions a variable that stands behind it.
fn hyp_mentions(hyp: &Hyp, i: u32) -> bool
    ensures { result ≡ mentions_in hyp.now i }
{
    if 0 < hyp.ty.occurrences(u64::from(i)) {
        return true;
    }
    match &hyp.value {
        None => false,
        Some(value) => 0 < value.occurrences(u64::from(i)),
    }
}

/// Whether a newer hypothesis mentions the variable.
fn is_mentioned(ctx: &Context, i: u32) -> bool
    ensures { result ≡ mentioned_in ctx.now i }
{
    for at in 0..i {
        match ctx.get(at) {
            None => return false,
            Some(hyp) => {
                if hyp_mentions(hyp, i - at - 1) {
                    return true;
                }
            }
        }
    }
    false
}

/// Whether the goal or a generalised hypothesis mentions the variable.
pub(crate) fn depends(ctx: &Context, goal: &Term, i: u32) -> bool
    ensures { result ≡ depends_on ctx.now goal.now i }
{
    0 < goal.occurrences(u64::from(i)) || is_mentioned(ctx, i)
}

/// The definition of a hypothesis at a site.
#[tactic(auto, using(crate::proofs::Placements::value_placed))]
fn placed_value(
    alloc: Global,
    env: &GlobalEnv,
    ctx: &Context,
    site: &Site,
    i: u32,
) -> Result<Option<Term>, NoMem>
    requires judged { MayJudge env.now ctx.now }
    requires site { IsSite site.now }
    requires levels { length site.now.levels ≡ length ctx.now }
    ensures { IfOk result (λ v. v ≡ placed_if_any site.now (value_of_variable ctx.now i)) }
{
    match ctx.value_of(alloc, i)? {
        None => Ok(None),
        Some(value) => {
            let value = placed(alloc, &value, site, env.len())?;
            Ok(Some(value))
        }
    }
}

/// A term that was made passes no limit.
#[tactic(auto, using(crate::proofs::SiteLaws::term_is_within))]
fn within(t: Term) -> Result<Term, TermStop>
    ensures { Gives result (within_limits t) }
{
    let _depth = t.depth();
    Ok(t)
}

/// A type under the binder of the hypothesis at a place.
#[tactic(auto, using(crate::proofs::Placements::type_placed))]
fn under_hyp(
    alloc: Global,
    env: &GlobalEnv,
    ctx: &Context,
    site: &Site,
    i: u32,
    body: Term,
) -> Result<Term, TermStop>
    requires judged { MayJudge env.now ctx.now }
    requires site { IsSite site.now }
    requires levels { length site.now.levels ≡ length ctx.now }
    ensures { let binder = the_binder site.now (slice_get ctx.now i) (type_of_variable ctx.now i) in
        Gives result (within_limits (binder (value_of_variable ctx.now i) body)) }
{
    match ctx.get(i) {
        None => within(body),
        Some(hyp) => match ctx.type_of(alloc, i)? {
            None => within(body),
            Some(ty) => {
                let ty = placed(alloc, &ty, site, env.len())?;
                let value = placed_value(alloc, env, ctx, site, i)?;
                under_value(alloc, &hyp.name, ty, value, body)
            }
        },
    }
}

/// The goal where no more hypotheses are generalised.
#[tactic(auto, using(crate::proofs::Placements::goal_placed))]
fn placed_goal(
    alloc: Global,
    env: &GlobalEnv,
    ctx: &Context,
    site: &Site,
    goal: &Term,
) -> Result<Term, NoMem>
    requires goal { IsTermIn env.now ctx.now goal.now }
    requires site { IsSite site.now }
    requires levels { length site.now.levels ≡ length ctx.now }
    ensures { IfOk result (λ t. t ≡ placed_term site.now goal.now) }
{
    let globals = env.len();
    let placed = placed(alloc, goal, site, globals)?;
    Ok(placed)
}

/// The goal at a site, under binders for the hypotheses at some places.
#[tactic(auto, using(crate::proofs::Placements::under_stop, crate::proofs::SiteLaws::is_standing, crate::proofs::Placements::levels_standing))]
pub(crate) fn generalised(
    alloc: Global,
    env: &GlobalEnv,
    ctx: &Context,
    site: &Site,
    places: &[u32],
    goal: &Term,
) -> Result<Term, TermStop>
    requires judged { MayJudge env.now ctx.now }
    requires goal { IsTermIn env.now ctx.now goal.now }
    requires site { IsSite site.now }
    requires levels { length site.now.levels ≡ length ctx.now }
    requires places { AreBefore (length ctx.now) places.now }
    requires room { site.now.depth + length places.now ≤ 2 ^ 31 + 3000 }
    ensures { Gives result (within_limits (the_generalised ctx.now site.now places.now goal.now)) }
{
    match places.split_first() {
        None => {
            let goal = placed_goal(alloc, env, ctx, site, goal)?;
            within(goal)
        }
        Some((i, later)) => {
            let inner = site.stand_for(alloc, *i)?;
            match generalised(alloc, env, ctx, &inner, later, goal) {
                Ok(body) => under_hyp(alloc, env, ctx, site, *i, body),
                Err(stop) => Err(stop),
            }
        }
    }
}
