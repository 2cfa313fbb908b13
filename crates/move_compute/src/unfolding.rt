//! `unfold`: a definition's body in its place everywhere.
ghost use Rattle.std.specs.Prelude.{◌≡◌, ◌+◌, ◌^◌, ◌≤◌, max, false, Ok, IfOk};
ghost use Rattle.core_term.specs.Tree.{depth_of, free_bound};
ghost use Rattle.core_term.specs.Answers.{Gives};
ghost use Rattle.move_compute.specs.Unfolding.{marked, applied as is_applied, unfolded as is_unfolded};

use core_term::{Node, Term, TermStop};
use std::alloc::Global;

/// A term, and whether it stands for the definition with all arguments so far.
#[derive(Drop)]
pub struct Unfolded {
    pub term: Term,
    pub stands: bool,
}

/// The body in the place of a definition, in each part of a term.
pub(crate) fn unfold_all(
    alloc: Global,
    place: u32,
    body: &Term,
    t: &Term,
) -> Result<Unfolded, TermStop>
    requires body { free_bound body.now ≡ 0 }
    requires room { free_bound t.now + depth_of t.now ≤ 2 ^ 31 + 2000 }
    ensures unfolded { Gives result (is_unfolded place body.now t.now) }
    ensures free { IfOk result (λ u. free_bound u.term ≤ free_bound t.now) }
{
    match t.node() {
        Node::Var(_) => same(t),
        Node::Sorted(_) => same(t),
        Node::Constant(c) => {
            if *c != place {
                return same(t);
            }
            let term = body.share()?;
            Ok(Unfolded { term, stands: true })
        }
        Node::Prod {
            name,
            domain,
            codomain,
        } => {
            let name = name.share()?;
            let domain = unfold_all(alloc, place, body, domain)?;
            let codomain = unfold_all(alloc, place, body, codomain)?;
            let term = Term::prod(alloc, name, domain.term, codomain.term)?;
            Ok(Unfolded {
                term,
                stands: false,
            })
        }
        Node::Lam {
            name,
            domain,
            body: inner,
        } => {
            let name = name.share()?;
            let domain = unfold_all(alloc, place, body, domain)?;
            let inner = unfold_all(alloc, place, body, inner)?;
            let term = Term::lam(alloc, name, domain.term, inner.term)?;
            Ok(Unfolded {
                term,
                stands: false,
            })
        }
        Node::LetIn {
            name,
            ty,
            value,
            body: inner,
        } => {
            let name = name.share()?;
            let ty = unfold_all(alloc, place, body, ty)?;
            let value = unfold_all(alloc, place, body, value)?;
            let inner = unfold_all(alloc, place, body, inner)?;
            let term = Term::let_in(alloc, name, ty.term, value.term, inner.term)?;
            Ok(Unfolded {
                term,
                stands: false,
            })
        }
        Node::App { function, argument } => {
            let function = unfold_all(alloc, place, body, function)?;
            let argument = unfold_all(alloc, place, body, argument)?;
            applied(alloc, function, argument.term)
        }
    }
}

/// A part that stays as it is.
fn same(t: &Term) -> Result<Unfolded, TermStop>
    ensures same { Gives result (Ok (marked false t.now)) }
    ensures free { IfOk result (λ u. free_bound u.term ≤ free_bound t.now) }
{
    let term = t.share()?;
    Ok(Unfolded {
        term,
        stands: false,
    })
}

/// What stands for the definition takes an argument by beta where it is an abstraction.
#[tactic(auto, using(crate::proofs::UnfoldLaws::argument_numbered, crate::proofs::UnfoldLaws::argument_free))]
fn applied(alloc: Global, function: Unfolded, argument: Term) -> Result<Unfolded, TermStop>
    requires function { free_bound function.term ≤ 2 ^ 31 + 2000 }
    requires argument { free_bound argument ≤ 2 ^ 31 + 2000 }
    ensures applied { Gives result (is_applied function.stands function.term argument) }
    ensures free { IfOk result (λ u. free_bound u.term ≤ max (free_bound function.term) (free_bound argument)) }
{
    if function.stands {
        if let Node::Lam { body, .. } = function.term.node() {
            let _body = body.depth();
            let _argument = argument.depth();
            let term = body.subst(alloc, &argument, 0)?;
            return Ok(Unfolded { term, stands: true });
        }
    }
    let term = Term::app(alloc, function.term, argument)?;
    Ok(Unfolded {
        term,
        stands: false,
    })
}
