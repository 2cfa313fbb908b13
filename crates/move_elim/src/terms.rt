//! Terms that are made, each of which must not be too large.
ghost use Rattle.std.specs.Prelude.{◌≡◌, ◌+◌, ◌^◌, ◌≤◌, drop, length, IfOk};
ghost use Rattle.base_core.specs.Answers.{Gives};
ghost use Rattle.core_term.specs.Places.{lift_of};
ghost use Rattle.core_term.specs.Tree.{Constant, App, Lam, Prod, IsNumbered, free_bound};
ghost use Rattle.cic_rules.specs.Steps.{answer_of};
ghost use Rattle.term_spine.specs.Instantiate.{instantiate as with_values};
ghost use Rattle.term_spine.specs.Spine.{eta_body as body_of_eta};
ghost use Rattle.move_elim.specs.Claims.{applied_to};
ghost use Rattle.move_elim.specs.Steps.{sized};

use base_core::{NoMem, Stop, Text};
use core_term::{Term, TermStop};
use shared_map::SharedList;
use std::alloc::Global;
use term_spine::instantiate;

/// A function applied to an argument.
pub(crate) fn apply(alloc: Global, f: Term, a: Term) -> Result<Term, Stop>
    ensures { Gives result (answer_of (sized (App f a))) }
{
    Ok(Term::app(alloc, f, a)?)
}

/// A function.
pub(crate) fn lambda(alloc: Global, name: Text, a: Term, b: Term) -> Result<Term, Stop>
    ensures { Gives result (answer_of (sized (Lam name a b))) }
{
    Ok(Term::lam(alloc, name, a, b)?)
}

/// A product.
pub(crate) fn product(alloc: Global, name: Text, a: Term, b: Term) -> Result<Term, Stop>
    ensures { Gives result (answer_of (sized (Prod name a b))) }
{
    Ok(Term::prod(alloc, name, a, b)?)
}

/// A term with room for so many variables, as large as it was.
#[tactic(auto, using(crate::proofs::TermLaws::lift_numbered, crate::proofs::TermLaws::lift_fits))]
pub(crate) fn lifted(alloc: Global, t: &Term, by: u32, from: u32) -> Result<Term, NoMem>
    requires { free_bound t.now + by ≤ 2 ^ 31 + 5000 }
    ensures { IfOk result (λ u. u ≡ lift_of t.now by from) }
{
    let _depth = t.depth();
    match t.lift(alloc, by, from) {
        Ok(t) => Ok(t),
        Err(TermStop::NoMem) => Err(NoMem),
        Err(TermStop::TooLarge) => unreachable!(),
    }
}

/// A function one binder deeper, applied to the variable of that binder.
pub(crate) fn eta_body(alloc: Global, f: &Term) -> Result<Term, Stop>
    requires { free_bound f.now + 1 ≤ 2 ^ 31 + 5000 }
    ensures { Gives result (answer_of (sized (body_of_eta f.now))) }
{
    let shifted = lifted(alloc, f, 1, 0)?;
    let newest = Term::var(alloc, 0)?;
    apply(alloc, shifted, newest)
}

/// A term with values for its variables.
pub(crate) fn instantiated(alloc: Global, t: &Term, values: &SharedList<Term>) -> Result<Term, Stop>
    requires { IsNumbered (with_values values.now t.now) }
    ensures { Gives result (answer_of (sized (with_values values.now t.now))) }
{
    Ok(instantiate(alloc, t, values)?)
}

/// A global at arguments, the newest first, from a place among them on.
#[tactic(auto, using(crate::proofs::Lists::from_place, crate::proofs::TermLaws::applied_end, crate::proofs::TermLaws::applied_none))]
fn applied_from(alloc: Global, place: u32, args: &SharedList<Term>, at: usize) -> Result<Term, Stop>
    requires { at ≤ length args.now }
    ensures { Gives result (answer_of (applied_to (Constant place) (drop at args.now))) }
{
    if at >= args.len() {
        return Ok(Term::constant(alloc, place)?);
    }
    match args.get(at) {
        None => Ok(Term::constant(alloc, place)?),
        Some(arg) => {
            let f = applied_from(alloc, place, args, at + 1)?;
            let arg = arg.share()?;
            apply(alloc, f, arg)
        }
    }
}

/// A global at parameters, the newest first.
pub(crate) fn at_params(alloc: Global, place: u32, params: &SharedList<Term>) -> Result<Term, Stop>
    ensures { Gives result (answer_of (applied_to (Constant place) params.now)) }
{
    applied_from(alloc, place, params, 0)
}
