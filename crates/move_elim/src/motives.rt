//! The motive: the claim as a function of the indices, and of the value where the type is no proposition.
ghost use Rattle.std.specs.Prelude.{◌+◌, ◌^◌, ◌≤◌, length, IfSome};
ghost use Rattle.base_core.specs.Answers.{Gives};
ghost use Rattle.core_term.specs.Tree.{free_bound, depth_of};
ghost use Rattle.cic_rules.specs.Environments.{IsScopedDecl};
ghost use Rattle.cic_rules.specs.Steps.{answer_of};
ghost use Rattle.move_elim.specs.Claims.{at_index as the_family_at, over_value as value_over, motive_over as the_motive_over, family_of as the_family, motive_of as the_motive};
ghost use Rattle.move_elim.specs.Scopes.{IsSubjectIn, IsSmallSubject};

use crate::claims::is_in_prop;
use crate::subjects::Subject;
use crate::terms::{at_params, eta_body, instantiated, lambda};
use base_core::Stop;
use cic_rules::{Context, GlobalEnv, InductiveDecl};
use core_term::{Node, Term};
use fresh_names::initial;
use std::alloc::Global;

/// The family at one more index.
fn at_index(alloc: Global, family: Option<Term>) -> Result<Option<Term>, Stop>
    requires { IfSome family (λ t. free_bound t + 1 ≤ 2 ^ 31 + 5000) }
    ensures { Gives result (answer_of (the_family_at family)) }
{
    match family {
        None => Ok(None),
        Some(family) => match eta_body(alloc, &family) {
            Ok(family) => Ok(Some(family)),
            Err(stop) => Err(stop),
        },
    }
}

/// The motive over the value, whose type is the family.
fn over_value(
    alloc: Global,
    d: &InductiveDecl,
    family: Option<Term>,
    body: Term,
) -> Result<Term, Stop>
    ensures { Gives result (answer_of (value_over d.now family body)) }
{
    match family {
        None => Ok(body),
        Some(family) => {
            let name = initial(alloc, &d.name, 120)?;
            lambda(alloc, name, family, body)
        }
    }
}

/// The motive over so many indices, whose types are those of the arity at the parameters.
#[tactic(auto, using(crate::proofs::MotiveLaws::may_deepen, crate::proofs::MotiveLaws::room_below))]
fn motive_over(
    alloc: Global,
    d: &InductiveDecl,
    family: Option<Term>,
    count: usize,
    arity: &Term,
    body: Term,
) -> Result<Term, Stop>
    requires { IfSome family (λ t. free_bound t + depth_of arity.now ≤ 2 ^ 31 + 4000) }
    ensures { Gives result (answer_of (the_motive_over d.now family count arity.now body)) }
{
    match arity.node() {
        Node::Prod {
            name,
            domain,
            codomain,
        } => {
            if count == 0 {
                return over_value(alloc, d, family, body);
            }
            let family = at_index(alloc, family)?;
            let body = motive_over(alloc, d, family, count - 1, codomain, body)?;
            let name = name.share()?;
            let domain = domain.share()?;
            lambda(alloc, name, domain, body)
        }
        Node::Var(_) => over_value(alloc, d, family, body),
        Node::Sorted(_) => over_value(alloc, d, family, body),
        Node::Constant(_) => over_value(alloc, d, family, body),
        Node::Lam { .. } => over_value(alloc, d, family, body),
        Node::LetIn { .. } => over_value(alloc, d, family, body),
        Node::App { .. } => over_value(alloc, d, family, body),
    }
}

/// The inductive type at the parameters, where the motive is over a value.
fn family_of(alloc: Global, d: &InductiveDecl, x: &Subject) -> Result<Option<Term>, Stop>
    ensures { Gives result (answer_of (the_family d.now x.now)) }
{
    if is_in_prop(d) {
        return Ok(None);
    }
    match at_params(alloc, x.place, &x.params) {
        Ok(family) => Ok(Some(family)),
        Err(stop) => Err(stop),
    }
}

/// The motive of the claim with this body.
#[tactic(auto, using(crate::proofs::MotiveLaws::arity_numbered, crate::proofs::MotiveLaws::family_few))]
pub(crate) fn motive_of(
    alloc: Global,
    env: &GlobalEnv,
    ctx: &Context,
    d: &InductiveDecl,
    x: &Subject,
    body: Term,
) -> Result<Term, Stop>
    requires subject { IsSubjectIn env.now ctx.now d.now x.now }
    requires small { IsSmallSubject x.now }
    requires decl { IsScopedDecl (length env.now) d.now }
    ensures { Gives result (answer_of (the_motive d.now x.now body)) }
{
    let _count = ctx.len();
    let _arity = d.arity.depth();
    let arity = instantiated(alloc, &d.arity, &x.params)?;
    let family = family_of(alloc, d, x)?;
    let _depth = arity.depth();
    let count = x.indices.as_slice().len();
    motive_over(alloc, d, family, count, &arity, body)
}
