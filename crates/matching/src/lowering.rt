//! Terms taken out of binders.
ghost use Rattle.std.specs.Prelude.{◌≡◌, ◌+◌, ◌^◌, ◌<◌, false, IfOk};
ghost use Rattle.core_term.specs.Tree.{depth_of};
ghost use Rattle.core_term.specs.Answers.{within_limits, Gives};
ghost use Rattle.matching.specs.Lowering.{has_bound, lower_of, without_binders};

use base_core::NoMem;
use core_term::{Node, Term, TermStop};
use std::alloc::Global;

/// Whether one of `count` variables stands in a term: the first of them is `from`.
#[tactic(auto, using(crate::proofs::Lowerings::free_above))]
fn has_bound(t: &Term, count: u32, from: u32) -> bool
    requires { from + count + depth_of t.now < 2 ^ 32 }
    ensures { result ≡ has_bound t.now count from }
{
    if t.free_bound() <= u64::from(from) {
        return false;
    }
    match t.node() {
        Node::Var(i) => from <= *i && *i < from + count,
        Node::Sorted(_) => false,
        Node::Constant(_) => false,
        Node::Prod {
            domain,
            codomain,
            ..
        } => has_bound(domain, count, from) || has_bound(codomain, count, from + 1),
        Node::Lam { domain, body, .. } => {
            has_bound(domain, count, from) || has_bound(body, count, from + 1)
        }
        Node::LetIn {
            ty,
            value,
            body,
            ..
        } => {
            has_bound(ty, count, from)
                || (has_bound(value, count, from) || has_bound(body, count, from + 1))
        }
        Node::App { function, argument } => {
            has_bound(function, count, from) || has_bound(argument, count, from)
        }
    }
}

/// The term without the room for `by` variables at `from`. A part with no variable from there on is
/// shared.
#[tactic(auto, using(crate::proofs::Lowerings::limits_above))]
fn lower(alloc: Global, t: &Term, by: u32, from: u32) -> Result<Term, TermStop>
    requires { from + depth_of t.now < 2 ^ 32 }
    ensures { Gives result (within_limits (lower_of t.now by from)) }
{
    if t.free_bound() <= u64::from(from) {
        return Ok(t.share()?);
    }
    let node = match t.node() {
        Node::Var(i) if from <= *i => Node::Var(i.saturating_sub(by)),
        Node::Var(i) => Node::Var(*i),
        Node::Sorted(s) => Node::Sorted(*s),
        Node::Constant(c) => Node::Constant(*c),
        Node::Prod {
            name,
            domain,
            codomain,
        } => Node::Prod {
            name: name.share()?,
            domain: lower(alloc, domain, by, from)?,
            codomain: lower(alloc, codomain, by, from + 1)?,
        },
        Node::Lam { name, domain, body } => Node::Lam {
            name: name.share()?,
            domain: lower(alloc, domain, by, from)?,
            body: lower(alloc, body, by, from + 1)?,
        },
        Node::LetIn {
            name,
            ty,
            value,
            body,
        } => Node::LetIn {
            name: name.share()?,
            ty: lower(alloc, ty, by, from)?,
            value: lower(alloc, value, by, from)?,
            body: lower(alloc, body, by, from + 1)?,
        },
        Node::App { function, argument } => Node::App {
            function: lower(alloc, function, by, from)?,
            argument: lower(alloc, argument, by, from)?,
        },
    };
    Term::of_node(alloc, node)
}

/// A term that stands under so many binders, outside of them; none where a variable that they bind
/// stands in it.
#[tactic(auto, using(crate::proofs::Lowerings::lower_fits))]
pub fn without_binders(alloc: Global, t: &Term, binders: u32) -> Result<Option<Term>, NoMem>
    requires { binders + depth_of t.now < 2 ^ 32 }
    ensures { IfOk result (λ found. found ≡ without_binders t.now binders) }
{
    let _depth = t.depth();
    if has_bound(t, binders, 0) {
        return Ok(None);
    }
    match lower(alloc, t, binders, 0) {
        Ok(lowered) => Ok(Some(lowered)),
        Err(TermStop::NoMem) => Err(NoMem),
        Err(TermStop::TooLarge) => unreachable!(),
    }
}
