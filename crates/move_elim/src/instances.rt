//! The claim at a site, for indices and a value there.
ghost use Rattle.std.specs.Prelude.{◌≡◌, ◌+◌, ◌-◌, ◌^◌, ◌≤◌, ◌<◌, length, IfOk};
ghost use Rattle.base_core.specs.Answers.{Gives};
ghost use Rattle.core_term.specs.Tree.{Var, Prod, depth_of};
ghost use Rattle.cic_rules.specs.Families.{newest_first, indices};
ghost use Rattle.cic_rules.specs.Scopes.{AreScoped, AreBefore};
ghost use Rattle.cic_rules.specs.Steps.{answer_of};
ghost use Rattle.term_spine.specs.SpineLaws.{AreShallow};
ghost use Rattle.move_elim.specs.Cases.{hypothesis as the_hypothesis};
ghost use Rattle.move_elim.specs.Claims.{index_values as the_index_values, binder_values as the_values, count_binders as the_count, claim_at as the_claim_at};
ghost use Rattle.move_elim.specs.Scopes.{IsSite, IsClaimIn, IsClaimAt};
ghost use Rattle.move_elim.specs.Sites.{placed_all};
ghost use Rattle.move_elim.specs.Steps.{sized};

use crate::claims::Claim;
use crate::sites::{Site, placed};
use crate::subjects::{arguments, skipped};
use crate::terms::{eta_body, instantiated, lifted, product};
use base_core::{NoMem, Stop, Text};
use core_term::{Node, Term, TermStop};
use shared_map::SharedList;
use std::alloc::Global;
use term_spine::Arguments;

/// A variable behind so many more binders.
fn variable(alloc: Global, i: u32, by: u32) -> Result<Term, NoMem>
    requires { i + by < 2 ^ 32 }
    ensures { IfOk result (λ t. t ≡ Var (i + by)) }
{
    match Term::var(alloc, i + by) {
        Ok(t) => Ok(t),
        Err(TermStop::NoMem) => Err(NoMem),
        Err(TermStop::TooLarge) => unreachable!(),
    }
}

/// These values behind those of the indices, the newest first: the arguments at the site, and for an index that has
/// none the variable that it is.
#[tactic(auto, using(crate::proofs::InstanceLaws::first_placed, crate::proofs::InstanceLaws::rest_scoped, crate::proofs::InstanceLaws::index_numbered))]
fn index_values(
    alloc: Global,
    globals: u32,
    site: &Site,
    by: u32,
    places: &[u32],
    args: &Arguments,
    values: SharedList<Term>,
) -> Result<SharedList<Term>, NoMem>
    requires site { IsSite site.now }
    requires args { AreScoped (length site.now.levels) globals args.now }
    requires by { by ≤ site.now.depth }
    requires places { AreBefore (site.now.depth - by) places.now }
    requires shallow { AreShallow 1000 values }
    ensures values { let given = the_index_values by places.now (placed_all site.now args.now) in
        IfOk result (λ vs. vs ≡ newest_first given values) }
    ensures shallow { IfOk result (AreShallow 1000) }
{
    match places.split_first() {
        None => Ok(values),
        Some((i, later)) => match args.split()? {
            None => {
                let value = variable(alloc, *i, by)?;
                let _depth = value.depth();
                let values = values.with_first(alloc, value)?;
                index_values(alloc, globals, site, by, later, args, values)
            }
            Some((first, rest)) => {
                let value = placed(alloc, &first, site, globals)?;
                let _depth = value.depth();
                let values = values.with_first(alloc, value)?;
                index_values(alloc, globals, site, by, later, &rest, values)
            }
        },
    }
}

/// Values for the binders of the motive.
#[tactic(auto, using(crate::proofs::InstanceLaws::indices_scoped, crate::proofs::InstanceLaws::places_before))]
fn binder_values(
    alloc: Global,
    globals: u32,
    c: &Claim,
    site: &Site,
    t: &Term,
    value: Term,
) -> Result<SharedList<Term>, NoMem>
    requires site { IsSite site.now }
    requires claim { IsClaimAt globals c.now site.now value t.now }
    ensures values { let args = placed_all site.now (indices c.now.params t.now) in
        IfOk result (λ vs. vs ≡ the_values c.now (site.now.depth - c.now.below) args value) }
    ensures shallow { IfOk result (AreShallow 1000) }
{
    let args = arguments(alloc, t)?;
    let rest = skipped(&args, c.params)?;
    let by = site.depth - c.below;
    let places = c.indices.as_slice();
    let values = index_values(alloc, globals, site, by, places, &rest, SharedList::empty())?;
    if c.is_prop {
        return Ok(values);
    }
    let _depth = value.depth();
    values.with_first(alloc, value)
}

/// How many binders the motive has.
fn count_binders(c: &Claim) -> usize
    ensures { result ≡ the_count c.now }
{
    let count = c.indices.as_slice().len();
    if c.is_prop {
        return count;
    }
    count + 1
}

/// The claim at a site, for the indices at the end of a type and for a value.
#[tactic(auto, using(crate::proofs::InstanceLaws::body_few, crate::proofs::InstanceLaws::count_few, crate::proofs::InstanceLaws::claim_numbered))]
pub(crate) fn claim_at(
    alloc: Global,
    globals: u32,
    c: &Claim,
    site: &Site,
    t: &Term,
    value: Term,
) -> Result<Term, Stop>
    requires site { IsSite site.now }
    requires claim { IsClaimAt globals c.now site.now value t.now }
    requires few { length c.now.indices ≤ 1000 }
    ensures { let args = placed_all site.now (indices c.now.params t.now) in
        Gives result (answer_of (sized (the_claim_at c.now site.now.depth args value))) }
{
    let values = binder_values(alloc, globals, c, site, t, value)?;
    let _depth = c.body.depth();
    let count = count_binders(c);
    let body = lifted(alloc, &c.body, site.depth - c.below, count as u32)?;
    let _lifted = body.depth();
    instantiated(alloc, &body, &values)
}

/// What the hypothesis of a recursive argument says, under the argument's own products.
#[cycle(products)]
pub(crate) fn hypothesis(
    alloc: Global,
    globals: u32,
    c: &Claim,
    site: &Site,
    x: Term,
    t: &Term,
) -> Result<Term, Stop>
    requires site { IsSite site.now }
    requires claim { IsClaimAt globals c.now site.now x t.now }
    requires few { length c.now.indices ≤ 1000 }
    requires room { site.now.depth + depth_of t.now ≤ 2 ^ 31 + 3000 }
    ensures { Gives result (answer_of (the_hypothesis c.now site.now x t.now)) }
{
    match t.node() {
        Node::Prod {
            name,
            domain,
            codomain,
        } => over_product(alloc, globals, c, site, x, name, domain, codomain),
        Node::Var(_) => claim_at(alloc, globals, c, site, t, x),
        Node::Sorted(_) => claim_at(alloc, globals, c, site, t, x),
        Node::Constant(_) => claim_at(alloc, globals, c, site, t, x),
        Node::Lam { .. } => claim_at(alloc, globals, c, site, t, x),
        Node::LetIn { .. } => claim_at(alloc, globals, c, site, t, x),
        Node::App { .. } => claim_at(alloc, globals, c, site, t, x),
    }
}

/// The same under a product.
#[cycle(products)]
#[tactic(auto, using(crate::proofs::InstanceLaws::may_place, crate::proofs::InstanceLaws::site_deeper, crate::proofs::InstanceLaws::value_few, crate::proofs::InstanceLaws::claim_deeper))]
fn over_product(
    alloc: Global,
    globals: u32,
    c: &Claim,
    site: &Site,
    x: Term,
    name: &Text,
    domain: &Term,
    codomain: &Term,
) -> Result<Term, Stop>
    requires site { IsSite site.now }
    requires claim { IsClaimAt globals c.now site.now x (Prod name.now domain.now codomain.now) }
    requires few { length c.now.indices ≤ 1000 }
    requires room { site.now.depth + 1 + depth_of codomain.now ≤ 2 ^ 31 + 3000 }
    ensures { Gives result (answer_of (the_hypothesis c.now site.now x (Prod name.now domain.now codomain.now))) }
{
    let deeper = eta_body(alloc, &x)?;
    let inner = site.with_variable(alloc)?;
    let body = hypothesis(alloc, globals, c, &inner, deeper, codomain)?;
    let domain = placed(alloc, domain, site, globals)?;
    let name = name.share()?;
    product(alloc, name, domain, body)
}
