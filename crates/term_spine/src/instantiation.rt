//! Values for all variables of a context, the newest first, put into a term.
ghost use Rattle.std.specs.Prelude.{◌≡◌, ◌+◌, ◌*◌, ◌^◌, ◌<◌, ◌≤◌};
ghost use Rattle.core_term.specs.Tree.{IsNumbered, size_of, depth_of};
ghost use Rattle.core_term.specs.Answers.{within_limits, Gives};
ghost use Rattle.term_spine.specs.Instantiate.{instantiate, instantiate_under};

use base_core::TERM_SIZE_LIMIT;
use core_term::{Node, Term, TermStop};
use shared_map::SharedList;
use std::alloc::Global;

/// The term with a value put in for each variable of its context; the values stand in a context of
/// their own. Variables past the values come down. A part without variables of the context is
/// shared. The size of the answer is counted before anything is built, so that no memory goes into
/// a term that is refused.
pub fn instantiate(alloc: Global, t: &Term, values: &SharedList<Term>) -> Result<Term, TermStop>
    requires { IsNumbered (instantiate values.now t.now) }
    ensures { Gives result (within_limits (instantiate values.now t.now)) }
{
    let _depth = t.depth();
    if size_with(t, values, 0) > u64::from(TERM_SIZE_LIMIT) {
        return Err(TermStop::TooLarge);
    }
    instantiate_under(alloc, t, values, 0)
}

/// How many nodes the term has once the values are put in, where it stands under so many binders.
#[tactic(auto, using(crate::proofs::Instantiations::instantiate_above, crate::proofs::Instantiations::size_lifted))]
fn size_with(t: &Term, values: &SharedList<Term>, binders: u32) -> u64
    requires { binders + depth_of t.now < 2 ^ 32 }
    ensures counted { result ≡ size_of (instantiate_under values.now t.now binders) }
    ensures most { result ≤ size_of t.now * 2 ^ 20 }
{
    if t.free_bound() <= u64::from(binders) {
        return u64::from(t.size());
    }
    match t.node() {
        Node::Var(i) => match values.get((*i - binders) as usize) {
            Some(value) => u64::from(value.size()),
            None => 1,
        },
        Node::Sorted(_) | Node::Constant(_) => 1,
        Node::Prod {
            domain,
            codomain,
            ..
        } => 1 + size_with(domain, values, binders) + size_with(codomain, values, binders + 1),
        Node::Lam { domain, body, .. } => {
            1 + size_with(domain, values, binders) + size_with(body, values, binders + 1)
        }
        Node::LetIn {
            ty,
            value,
            body,
            ..
        } => {
            1 + size_with(ty, values, binders)
                + size_with(value, values, binders)
                + size_with(body, values, binders + 1)
        }
        Node::App { function, argument } => {
            1 + size_with(function, values, binders) + size_with(argument, values, binders)
        }
    }
}

/// The same below so many binders, which a value is lifted over where it is put in.
#[tactic(auto, using(crate::proofs::Instantiations::limits_above))]
fn instantiate_under(
    alloc: Global,
    t: &Term,
    values: &SharedList<Term>,
    binders: u32,
) -> Result<Term, TermStop>
    requires room { binders + depth_of t.now < 2 ^ 32 }
    requires numbered { IsNumbered (instantiate_under values.now t.now binders) }
    ensures { Gives result (within_limits (instantiate_under values.now t.now binders)) }
{
    if u64::from(binders) >= t.free_bound() {
        return Ok(t.share()?);
    }
    let node = match t.node() {
        Node::Var(i) => match values.get((*i - binders) as usize) {
            Some(value) => return value.lift(alloc, binders, 0),
            None => Node::Var((*i as usize).saturating_sub(values.len()) as u32),
        },
        Node::Sorted(s) => Node::Sorted(*s),
        Node::Constant(c) => Node::Constant(*c),
        Node::Prod {
            name,
            domain,
            codomain,
        } => Node::Prod {
            name: name.share()?,
            domain: instantiate_under(alloc, domain, values, binders)?,
            codomain: instantiate_under(alloc, codomain, values, binders + 1)?,
        },
        Node::Lam { name, domain, body } => Node::Lam {
            name: name.share()?,
            domain: instantiate_under(alloc, domain, values, binders)?,
            body: instantiate_under(alloc, body, values, binders + 1)?,
        },
        Node::LetIn {
            name,
            ty,
            value,
            body,
        } => Node::LetIn {
            name: name.share()?,
            ty: instantiate_under(alloc, ty, values, binders)?,
            value: instantiate_under(alloc, value, values, binders)?,
            body: instantiate_under(alloc, body, values, binders + 1)?,
        },
        Node::App { function, argument } => Node::App {
            function: instantiate_under(alloc, function, values, binders)?,
            argument: instantiate_under(alloc, argument, values, binders)?,
        },
    };
    Term::of_node(alloc, node)
}
