//! Binders around a term, and the contexts that they open.
ghost use Rattle.std.specs.Prelude.{◌≡◌, ◌+◌, ◌-◌, ◌^◌, ◌≤◌, length, take};
ghost use Rattle.base_core.specs.Answers.{Gives};
ghost use Rattle.core_term.specs.Tree.{Prod, LetIn, free_bound};
ghost use Rattle.cic_rules.specs.Steps.{answer_of};
ghost use Rattle.elaborator.specs.Parts.{sized, bind, closed};

use base_core::Stop;
use cic_rules::{Context, Hyp};
use core_term::Term;
use std::alloc::Global;

/// What binds the variable of a hypothesis in a term.
#[derive(Clone, Copy, Debug, PartialEq, Eq)]
pub enum Binding {
    Product,
    Function,
}

/// A term under the newest hypotheses of a context, so many of them, with its products or functions
/// over these; out of size where it grows too large.
#[tactic(auto, using(crate::proofs::LoopLaws::close_stop))]
pub fn close(
    alloc: Global,
    binding: Binding,
    inner: &Context,
    count: u32,
    body: Term,
) -> Result<Term, Stop>
    ensures { Gives result (answer_of (closed binding (take count inner.now) body)) }
{
    let mut body = body;
    for i in 0..count {
        let Some(hyp) = inner.get(i) else {
            return Ok(body);
        };
        match bind(alloc, binding, hyp, body) {
            Ok(next) => body = next,
            Err(stop) => return Err(stop),
        }
    }
    Ok(body)
}

/// The product or the function over a hypothesis.
fn bind(alloc: Global, binding: Binding, hyp: &Hyp, body: Term) -> Result<Term, Stop>
    ensures { Gives result (answer_of (sized (bind binding hyp.now body))) }
{
    let name = hyp.name.share()?;
    let ty = hyp.ty.share()?;
    match binding {
        Binding::Product => Ok(Term::prod(alloc, name, ty, body)?),
        Binding::Function => Ok(Term::lam(alloc, name, ty, body)?),
    }
}
