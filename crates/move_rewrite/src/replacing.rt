//! A new variable in place of a subterm.
ghost use Rattle.std.specs.Prelude.{◌≡◌, ◌+◌, ◌^◌, ◌≤◌, IfOk};
ghost use Rattle.core_term.specs.Answers.{within_limits, Gives};
ghost use Rattle.core_term.specs.Places.{lift_of};
ghost use Rattle.core_term.specs.Tree.{free_bound, depth_of, same_tree};
ghost use Rattle.move_rewrite.specs.Replacement.{abstracted as the_abstracted, abstracted_parts as the_abstracted_parts};

use base_core::NoMem;
use core_term::{Node, Term, TermStop};
use move_basic::lifted;
use std::alloc::Global;

/// A term with a new variable, the newest, in place of each subterm that is u. It is no larger.
#[tactic(auto, using(crate::proofs::Replacements::abstracted_fits))]
pub(crate) fn with_new_variable(alloc: Global, u: &Term, t: &Term) -> Result<Term, NoMem>
    requires subterm { free_bound u.now ≤ 2 ^ 31 }
    requires term { free_bound t.now ≤ 2 ^ 31 }
    ensures { IfOk result (λ body. body ≡ the_abstracted u.now t.now 0) }
{
    let _depth = t.depth();
    match abstracted(alloc, u, t, 0) {
        Ok(body) => Ok(body),
        Err(TermStop::NoMem) => Err(NoMem),
        Err(TermStop::TooLarge) => unreachable!(),
    }
}

/// A term under so many binders with a new variable, the newest outside of them, in place of each subterm that is u,
/// which stands outside of the binders too.
#[cycle(new_variables)]
fn abstracted(alloc: Global, u: &Term, t: &Term, binders: u32) -> Result<Term, TermStop>
    requires room { binders + depth_of t.now ≤ 1000 }
    requires subterm { free_bound u.now ≤ 2 ^ 31 }
    requires term { free_bound t.now ≤ 2 ^ 31 + binders }
    ensures { Gives result (within_limits (the_abstracted u.now t.now binders)) }
{
    if is_here(alloc, u, t, binders)? {
        return Term::var(alloc, binders);
    }
    abstracted_parts(alloc, u, t, binders)
}

/// The same of a term that is not u itself.
#[cycle(new_variables)]
fn abstracted_parts(alloc: Global, u: &Term, t: &Term, binders: u32) -> Result<Term, TermStop>
    requires room { binders + depth_of t.now ≤ 1000 }
    requires subterm { free_bound u.now ≤ 2 ^ 31 }
    requires term { free_bound t.now ≤ 2 ^ 31 + binders }
    ensures { Gives result (within_limits (the_abstracted_parts u.now t.now binders)) }
{
    let node = match t.node() {
        Node::Var(i) => Node::Var(if binders <= *i { *i + 1 } else { *i }),
        Node::Sorted(s) => Node::Sorted(*s),
        Node::Constant(c) => Node::Constant(*c),
        Node::Prod {
            name,
            domain,
            codomain,
        } => Node::Prod {
            name: name.share()?,
            domain: abstracted(alloc, u, domain, binders)?,
            codomain: abstracted(alloc, u, codomain, binders + 1)?,
        },
        Node::Lam { name, domain, body } => Node::Lam {
            name: name.share()?,
            domain: abstracted(alloc, u, domain, binders)?,
            body: abstracted(alloc, u, body, binders + 1)?,
        },
        Node::LetIn {
            name,
            ty,
            value,
            body,
        } => Node::LetIn {
            name: name.share()?,
            ty: abstracted(alloc, u, ty, binders)?,
            value: abstracted(alloc, u, value, binders)?,
            body: abstracted(alloc, u, body, binders + 1)?,
        },
        Node::App { function, argument } => Node::App {
            function: abstracted(alloc, u, function, binders)?,
            argument: abstracted(alloc, u, argument, binders)?,
        },
    };
    Term::of_node(alloc, node)
}

/// Whether a term under so many binders is u. Only one of u's size is compared: such terms don't stand in one another, so
/// all comparisons together take no more steps than the goal has nodes.
#[tactic(auto, using(crate::proofs::Replacements::sizes_apart))]
fn is_here(alloc: Global, u: &Term, t: &Term, binders: u32) -> Result<bool, NoMem>
    requires room { free_bound u.now + binders + 1000 ≤ 2 ^ 32 }
    ensures { IfOk result (λ here. here ≡ same_tree t.now (lift_of u.now binders 0)) }
{
    if t.size() != u.size() {
        return Ok(false);
    }
    let u = lifted(alloc, u, binders)?;
    Ok(t.equal(&u))
}
