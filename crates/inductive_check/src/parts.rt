//! The parts of an inductive declaration: its type, and a copy of it.
ghost use Rattle.std.specs.Prelude.{◌≡◌, IfOk};
ghost use Rattle.core_term.specs.Tree.{Prod};
ghost use Rattle.core_term.specs.Answers.{within_limits, Gives};
ghost use Rattle.cic_rules.specs.Contexts.{products_over, AreParams};

use base_core::{List, NoMem};
use cic_rules::{ContextList, Ctor, CtorList, Hyp, InductiveDecl};
use core_term::{Term, TermStop};
use std::alloc::Global;

/// The products over hypotheses, oldest first.
pub(crate) fn products_over(alloc: Global, params: &[Hyp], end: Term) -> Result<Term, TermStop>
    ensures { Gives result (within_limits (products_over params.now end)) }
{
    let mut whole = end;
    let mut at = params.len();
    while at > 0 {
        at -= 1;
        whole = product_over(alloc, &params[at], whole)?;
    }
    let _depth = whole.depth();
    Ok(whole)
}

fn product_over(alloc: Global, param: &Hyp, end: Term) -> Result<Term, TermStop>
    ensures { Gives result (within_limits (Prod param.now.name param.now.ty end)) }
{
    let name = param.name.share()?;
    let ty = param.ty.share()?;
    Term::prod(alloc, name, ty, end)
}

/// The same declaration once more. Its terms are shared.
pub(crate) fn copied(alloc: Global, d: &InductiveDecl) -> Result<InductiveDecl, NoMem>
    ensures { IfOk result (λ copy. copy ≡ d.now) }
{
    let name = d.name.share()?;
    let params = copied_params(alloc, d.params.as_slice())?;
    let arity = d.arity.share()?;
    let ctors = copied_ctors(alloc, d.ctors.as_slice())?;
    Ok(InductiveDecl {
        name,
        params,
        arity,
        ctors,
    })
}

fn copied_params(alloc: Global, params: &[Hyp]) -> Result<ContextList, NoMem>
    requires { AreParams params.now }
    ensures { IfOk result (λ list. list ≡ params.now) }
{
    let mut list = ContextList::new(alloc);
    for param in params {
        let name = param.name.share()?;
        let ty = param.ty.share()?;
        list.push(Hyp {
            name,
            ty,
            value: None,
        })?;
    }
    Ok(list)
}

fn copied_ctors(alloc: Global, ctors: &[Ctor]) -> Result<CtorList, NoMem>
    ensures { IfOk result (λ list. list ≡ ctors.now) }
{
    let mut list = List::new(alloc);
    for ctor in ctors {
        let name = ctor.name.share()?;
        let ty = ctor.ty.share()?;
        list.push(Ctor { name, ty })?;
    }
    Ok(list)
}
