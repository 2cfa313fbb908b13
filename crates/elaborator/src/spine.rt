//! Terms that are put together from others.
ghost use Rattle.std.specs.Prelude.{◌≡◌, [], ◌∷◌, ◌++◌, Ok, IfOk, slice_get};
ghost use Rattle.std.specs.Option.{option_copied};
ghost use Rattle.base_core.specs.Answers.{Gives};
ghost use Rattle.core_term.specs.Sorts.{IsSort};
ghost use Rattle.core_term.specs.Tree.{Sorted};
ghost use Rattle.cic_rules.specs.Steps.{answer_of};
ghost use Rattle.elaborator.specs.Parts.{applied, times, successors, numeral, number_of, type_at};
ghost use Rattle.elaborator.specs.Arrangement.{picked};

use crate::names::{prelude, refusal};
use base_core::refusal_codes::NO_LEVEL;
use base_core::{LEVEL_LIMIT, List, NoMem, Stop};
use cic_rules::GlobalEnv;
use coq_syntax::{TokenPlace, Word};
use core_term::{Sort, Term};
use std::alloc::Global;

/// Terms in order.
pub(crate) type TermList = List<Term>;

/// A function applied to arguments, from the left.
pub(crate) fn apply_all(alloc: Global, f: Term, arguments: &[Term]) -> Result<Term, Stop>
    ensures { Gives result (answer_of (applied f arguments.now)) }
{
    let mut f = f;
    for argument in arguments {
        f = Term::app(alloc, f, argument.share()?)?;
    }
    Ok(f)
}

/// Those of the terms that have these numbers.
pub(crate) fn picked(alloc: Global, values: &[Term], order: &[usize]) -> Result<TermList, NoMem>
    ensures { IfOk result (λ terms. terms ≡ picked values.now order.now) }
{
    let mut terms = TermList::new(alloc);
    for k in order {
        terms = with_picked(terms, values, *k)?;
    }
    Ok(terms)
}

/// The term of a number, if there is one.
fn value_at(values: &[Term], k: usize) -> Option<&Term>
    ensures { option_copied result ≡ slice_get values.now k }
{
    values.get(k)
}

/// The terms with the one of a number behind them, if there is one.
#[tactic(auto, using(crate::proofs::LoopLaws::picked_none))]
fn with_picked(terms: TermList, values: &[Term], k: usize) -> Result<TermList, NoMem>
    ensures { IfOk result (λ all. all ≡ terms ++ picked values.now (k ∷ [])) }
{
    match value_at(values, k) {
        Some(value) => {
            let mut terms = terms;
            terms.push(value.share()?)?;
            Ok(terms)
        }
        None => Ok(terms),
    }
}

/// A function applied to one argument, to two, and to three.
pub(crate) fn apply_one(alloc: Global, f: Term, a: Term) -> Result<Term, Stop>
    ensures { Gives result (answer_of (applied f (a ∷ []))) }
{
    Ok(Term::app(alloc, f, a)?)
}

pub(crate) fn apply_two(alloc: Global, f: Term, a: Term, b: Term) -> Result<Term, Stop>
    ensures { Gives result (answer_of (applied f (a ∷ b ∷ []))) }
{
    let f = Term::app(alloc, f, a)?;
    Ok(Term::app(alloc, f, b)?)
}

pub(crate) fn apply_three(alloc: Global, f: Term, a: Term, b: Term, c: Term) -> Result<Term, Stop>
    ensures { Gives result (answer_of (applied f (a ∷ b ∷ c ∷ []))) }
{
    let f = Term::app(alloc, f, a)?;
    let f = Term::app(alloc, f, b)?;
    Ok(Term::app(alloc, f, c)?)
}

/// A sort as a term.
pub(crate) fn sort_term(alloc: Global, sort: Sort) -> Result<Term, Stop>
    requires { IsSort sort }
    ensures { Gives result (Ok (Sorted sort)) }
{
    Ok(Term::sort(alloc, sort)?)
}

/// A function so many times on a term.
fn times(alloc: Global, n: u32, f: &Term, t: Term) -> Result<Term, Stop>
    ensures { Gives result (answer_of (times n f.now t)) }
{
    if n == 0 {
        return Ok(t);
    }
    let u = Term::app(alloc, f.share()?, t)?;
    times(alloc, n - 1, f, u)
}

/// A numeral: so many times `S` on `O`.
pub(crate) fn numeral(alloc: Global, env: &GlobalEnv, word: &Word) -> Result<Term, Stop>
    ensures { Gives result (answer_of (numeral env.now word.now)) }
{
    let t = prelude(alloc, env, "O", word.place)?;
    successors(alloc, env, word.place, word.value(), t)
}

fn successors(
    alloc: Global,
    env: &GlobalEnv,
    place: TokenPlace,
    n: u32,
    t: Term,
) -> Result<Term, Stop>
    ensures { Gives result (answer_of (successors env.now place n t)) }
{
    if n == 0 {
        return Ok(t);
    }
    let f = prelude(alloc, env, "S", place)?;
    times(alloc, n, &f, t)
}

/// `Type@{n}`; refused with 13 where `n` is no level, which a parser's tree never has.
pub(crate) fn type_at(alloc: Global, word: &Word) -> Result<Term, Stop>
    ensures { Gives result (answer_of (type_at word.now)) }
{
    let level = word.value();
    if level < 1 || level > u32::from(LEVEL_LIMIT) {
        return Err(refusal(NO_LEVEL, word.place));
    }
    Ok(Term::sort(alloc, Sort::TypeSort(level as u16))?)
}
