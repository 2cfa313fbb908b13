//! What an eliminator gives for a constructor: its case, applied to the constructor's arguments and
//! to what the eliminator gives for the recursive ones.
ghost use Rattle.std.specs.Prelude.{◌≡◌, ◌+◌, ◌^◌, ◌≤◌, ◌<◌, length, take, drop, IfOk};
ghost use Rattle.core_term.specs.Tree.{free_bound, IsNumbered};
ghost use Rattle.core_term.specs.Answers.{within_limits, Gives};
ghost use Rattle.term_spine.specs.Spine.{apply_all, eta_body as body_of_eta, shift_all};
ghost use Rattle.term_spine.specs.SpineLaws.{AreOver, AreShallow};
ghost use Rattle.term_spine.specs.Instantiate.{values_under as under_binder, instantiate_all};
ghost use Rattle.cic_rules.specs.Families.{newest_first, indices, recursive_call as call_of, case_applied_to as applied_to};
ghost use Rattle.conversion.specs.Iota.{Makes, case_by, MayPutIn, MayPutInAll};

use crate::lookups::lifted;
use base_core::NoMem;
use core_term::{Node, Term, TermStop};
use shared_map::SharedList;
use std::alloc::Global;
use term_spine::{Arguments, instantiate, spine_of};

/// A term applied to the first of some arguments, so many of them.
#[tactic(auto, using(crate::proofs::CaseLaws::app_stop))]
pub fn applied_first(
    alloc: Global,
    function: Term,
    args: &Arguments,
    count: usize,
) -> Result<Term, TermStop>
    ensures { Gives result (within_limits (apply_all function (take count args.now))) }
{
    if count == 0 {
        return within(function);
    }
    match args.split()? {
        None => within(function),
        Some((first, rest)) => match Term::app(alloc, function, first) {
            Ok(next) => applied_first(alloc, next, &rest, count - 1),
            Err(stop) => Err(stop),
        },
    }
}

/// A term passes no limit.
#[tactic(auto, using(crate::proofs::CaseLaws::term_within))]
pub fn within(t: Term) -> Result<Term, TermStop>
    ensures { Gives result (within_limits t) }
{
    let _depth = t.depth();
    Ok(t)
}

/// The arguments behind so many.
pub fn skipped(args: &Arguments, count: usize) -> Result<Arguments, NoMem>
    ensures { IfOk result (λ rest. rest ≡ drop count args.now) }
{
    if count == 0 {
        return args.share();
    }
    match args.split()? {
        None => args.share(),
        Some((_, rest)) => skipped(&rest, count - 1),
    }
}

/// The first of some arguments, so many of them, as values: each before those that are there.
pub fn values_of(
    alloc: Global,
    args: &Arguments,
    count: usize,
    values: SharedList<Term>,
) -> Result<SharedList<Term>, NoMem>
    ensures { IfOk result (λ vs. vs ≡ newest_first (take count args.now) values) }
{
    if count == 0 {
        return Ok(values);
    }
    match args.split()? {
        None => Ok(values),
        Some((first, rest)) => {
            let values = values.with_first(alloc, first)?;
            values_of(alloc, &rest, count - 1, values)
        }
    }
}

/// The values from a place on, each one binder deeper.
#[tactic(auto, using(crate::proofs::CaseLaws::drop_found, crate::proofs::CaseLaws::drop_none, crate::proofs::CaseLaws::drop_beyond, crate::proofs::CaseLaws::found_over))]
pub fn shifted_from(
    alloc: Global,
    values: &SharedList<Term>,
    at: usize,
) -> Result<SharedList<Term>, NoMem>
    requires { AreOver (2 ^ 31 + 4000) values.now }
    ensures { IfOk result (λ vs. vs ≡ shift_all (drop at values.now)) }
{
    if at >= values.len() {
        return Ok(SharedList::empty());
    }
    match values.get(at) {
        None => Ok(SharedList::empty()),
        Some(value) => {
            let shifted = lifted(alloc, value, 1)?;
            let rest = shifted_from(alloc, values, at + 1)?;
            rest.with_first(alloc, shifted)
        }
    }
}

/// Values for one more variable, which stands for itself.
pub fn values_under(alloc: Global, values: &SharedList<Term>) -> Result<SharedList<Term>, NoMem>
    requires { AreOver (2 ^ 31 + 4000) values.now }
    ensures { IfOk result (λ vs. vs ≡ under_binder values.now) }
{
    let Ok(newest) = Term::var(alloc, 0) else {
        return Err(NoMem);
    };
    let shifted = shifted_from(alloc, values, 0)?;
    let values = shifted.with_first(alloc, newest)?;
    Ok(values)
}

/// A function one binder deeper, applied to the variable of that binder.
pub fn eta_body(alloc: Global, function: &Term) -> Result<Term, TermStop>
    requires { free_bound function.now ≤ 2 ^ 31 + 4000 }
    ensures { Gives result (within_limits (body_of_eta function.now)) }
{
    let shifted = lifted(alloc, function, 1)?;
    let newest = Term::var(alloc, 0)?;
    Term::app(alloc, shifted, newest)
}

/// A term applied to arguments into which values are put.
#[tactic(auto, using(crate::proofs::CaseLaws::may_number, crate::proofs::CaseLaws::app_stop, crate::proofs::CaseLaws::argument_stop))]
fn applied_with(
    alloc: Global,
    function: Term,
    values: &SharedList<Term>,
    args: &Arguments,
    vars: u32,
) -> Result<Term, TermStop>
    requires { MayPutInAll vars values.now args.now }
    ensures { Gives result (within_limits (apply_all function (instantiate_all values.now args.now))) }
{
    match args.split()? {
        None => within(function),
        Some((first, rest)) => {
            let _depth = first.depth();
            match instantiate(alloc, &first, values) {
                Ok(argument) => match Term::app(alloc, function, argument) {
                    Ok(next) => applied_with(alloc, next, values, &rest, vars),
                    Err(stop) => Err(stop),
                },
                Err(stop) => Err(stop),
            }
        }
    }
}

/// An eliminator with its parameters, motive and cases, on a recursive argument whose declared
/// type is given, under the argument's own products. So many variables are about.
fn recursive_call(
    alloc: Global,
    params: usize,
    eliminator: &Term,
    argument: &Term,
    values: &SharedList<Term>,
    ty: &Term,
    vars: u32,
) -> Result<Term, TermStop>
    requires eliminator { free_bound eliminator.now ≤ vars }
    requires argument { free_bound argument.now ≤ vars }
    requires values { MayPutIn vars values.now ty.now }
    ensures { Gives result (within_limits (call_of params eliminator.now argument.now values.now ty.now)) }
{
    match ty.node() {
        Node::Prod {
            name,
            domain,
            codomain,
        } => {
            let _depth = domain.depth();
            let name = name.share()?;
            let deeper = lifted(alloc, eliminator, 1)?;
            let under = values_under(alloc, values)?;
            match instantiate(alloc, domain, values) {
                Ok(domain) => match eta_body(alloc, argument) {
                    Ok(applied) => {
                        match recursive_call(
                            alloc,
                            params,
                            &deeper,
                            &applied,
                            &under,
                            codomain,
                            vars + 1,
                        ) {
                            Ok(body) => Term::lam(alloc, name, domain, body),
                            Err(stop) => Err(stop),
                        }
                    }
                    Err(stop) => Err(stop),
                },
                Err(stop) => Err(stop),
            }
        }
        _ => {
            let eliminator = eliminator.share()?;
            let argument = argument.share()?;
            let ty = ty.share()?;
            match called_with(alloc, params, eliminator, values, ty, vars) {
                Ok(function) => Term::app(alloc, function, argument),
                Err(stop) => Err(stop),
            }
        }
    }
}

/// An eliminator applied to the indices of a recursive argument's type.
#[tactic(auto, using(crate::proofs::CaseLaws::indices_may))]
pub fn called_with(
    alloc: Global,
    params: usize,
    eliminator: Term,
    values: &SharedList<Term>,
    ty: Term,
    vars: u32,
) -> Result<Term, TermStop>
    requires { MayPutIn vars values.now ty }
    ensures { Gives result (within_limits (apply_all eliminator (instantiate_all values.now (indices params ty)))) }
{
    match spine_of(alloc, ty, Arguments::empty()) {
        Ok(spine) => {
            let indices = skipped(&spine.args, params)?;
            applied_with(alloc, eliminator, values, &indices, vars)
        }
        Err(_) => Err(TermStop::NoMem),
    }
}

/// A case applied to one argument of its constructor, and where that is recursive to what the
/// eliminator gives for it.
fn applied_case(
    alloc: Global,
    params: usize,
    is_recursive: bool,
    eliminator: &Term,
    case: Term,
    argument: &Term,
    values: &SharedList<Term>,
    ty: &Term,
    vars: u32,
) -> Result<Term, TermStop>
    requires eliminator { free_bound eliminator.now ≤ vars }
    requires argument { free_bound argument.now ≤ vars }
    requires values { MayPutIn vars values.now ty.now }
    ensures { Makes result (applied_to params is_recursive eliminator.now case argument.now values.now ty.now) }
{
    let value = argument.share()?;
    match Term::app(alloc, case, value) {
        Ok(applied) => {
            if !is_recursive {
                return within(applied);
            }
            match recursive_call(alloc, params, eliminator, argument, values, ty, vars) {
                Ok(call) => Term::app(alloc, applied, call),
                Err(stop) => Err(stop),
            }
        }
        Err(stop) => Err(stop),
    }
}

/// A case applied to all arguments of its constructor, whose declared type is given with marks at
/// the recursive arguments. Values stand for the parameters and for the arguments so far, and so
/// many variables are about.
pub fn case_applied(
    alloc: Global,
    params: usize,
    marks: &[bool],
    eliminator: &Term,
    case: Term,
    values: SharedList<Term>,
    ty: &Term,
    args: &Arguments,
    vars: u32,
) -> Result<Term, TermStop>
    requires eliminator { free_bound eliminator.now ≤ vars }
    requires args { AreOver vars args.now }
    requires values { MayPutIn vars values ty.now }
    ensures { Gives result (within_limits (case_by params marks.now eliminator.now case values ty.now args.now)) }
{
    let Some((mark, later)) = marks.split_first() else {
        return within(case);
    };
    let Node::Prod {
        domain,
        codomain,
        ..
    } = ty.node()
    else {
        return within(case);
    };
    match args.split()? {
        None => within(case),
        Some((first, rest)) => {
            match applied_case(
                alloc, params, *mark, eliminator, case, &first, &values, domain, vars,
            ) {
                Ok(next) => {
                    let values = values.with_first(alloc, first)?;
                    case_applied(
                        alloc, params, later, eliminator, next, values, codomain, &rest, vars,
                    )
                }
                Err(stop) => Err(stop),
            }
        }
    }
}
