//! What a case gives for a constructor: the case applied to the constructor's arguments, and to a call
//! on each recursive one.
ghost use Rattle.std.specs.Prelude.{◌≡◌, ◌+◌, ◌^◌, ◌≤◌, drop, IfOk};
ghost use Rattle.core_term.specs.Tree.{free_bound};
ghost use Rattle.core_term.specs.Answers.{within_limits, Gives};
ghost use Rattle.term_spine.specs.Spine.{apply_all};
ghost use Rattle.term_spine.specs.SpineLaws.{AreOver};
ghost use Rattle.conversion.specs.Iota.{Makes, MayPutIn};
ghost use Rattle.move_compute.specs.Cases.{called, call_under as deeper_call, call_on as is_call_on, argument_on as is_argument_on, case_on as is_case_on, IsCallOver};

use base_core::NoMem;
use conversion::cases::{called_with, eta_body, shifted_from, values_under, within};
use conversion::lookups::lifted;
use core_term::{Node, Term, TermStop};
use shared_map::SharedList;
use std::alloc::Global;
use term_spine::{Arguments, instantiate};

/// What stands for a recursive result: all that stands in front of the argument, and the arguments
/// behind it.
#[derive(Drop)]
pub struct Call {
    pub front: Term,
    pub behind: SharedList<Term>,
}

/// A term applied to values from a place on.
#[tactic(auto, using(conversion::proofs::CaseLaws::app_stop, conversion::proofs::CaseLaws::drop_found, conversion::proofs::CaseLaws::drop_none, conversion::proofs::CaseLaws::drop_beyond, conversion::proofs::CaseLaws::same_term))]
fn applied_from(
    alloc: Global,
    function: Term,
    values: &SharedList<Term>,
    at: usize,
) -> Result<Term, TermStop>
    ensures { Gives result (within_limits (apply_all function (drop at values.now))) }
{
    if at >= values.len() {
        return within(function);
    }
    match values.get(at) {
        None => within(function),
        Some(value) => {
            let value = value.share()?;
            match Term::app(alloc, function, value) {
                Ok(next) => applied_from(alloc, next, values, at + 1),
                Err(stop) => Err(stop),
            }
        }
    }
}

/// A call one binder deeper.
fn call_under(alloc: Global, call: &Call) -> Result<Call, NoMem>
    requires front { free_bound call.now.front ≤ 2 ^ 31 + 4000 }
    requires behind { AreOver (2 ^ 31 + 4000) call.now.behind }
    ensures { IfOk result (λ c. c ≡ deeper_call call.now) }
{
    let front = lifted(alloc, &call.front, 1)?;
    let behind = shifted_from(alloc, &call.behind, 0)?;
    Ok(Call { front, behind })
}

/// A call on a recursive argument whose declared type is given, under the argument's own products.
/// So many variables are about.
fn call_on(
    alloc: Global,
    params: usize,
    call: &Call,
    argument: &Term,
    values: &SharedList<Term>,
    ty: &Term,
    vars: u32,
) -> Result<Term, TermStop>
    requires call { IsCallOver vars call.now }
    requires argument { free_bound argument.now ≤ vars }
    requires values { MayPutIn vars values.now ty.now }
    ensures { Gives result (within_limits (is_call_on params call.now argument.now values.now ty.now)) }
{
    match ty.node() {
        Node::Prod {
            name,
            domain,
            codomain,
        } => {
            let _depth = domain.depth();
            let name = name.share()?;
            let deeper = call_under(alloc, call)?;
            let under = values_under(alloc, values)?;
            match instantiate(alloc, domain, values) {
                Ok(domain) => match eta_body(alloc, argument) {
                    Ok(applied) => {
                        match call_on(
                            alloc,
                            params,
                            &deeper,
                            &applied,
                            &under,
                            codomain,
                            vars + 1,
                        ) {
                            Ok(body) => Term::lam(alloc, name, domain, body),
                            Err(stop) => Err(stop),
                        }
                    }
                    Err(stop) => Err(stop),
                },
                Err(stop) => Err(stop),
            }
        }
        _ => called_on(alloc, params, call, argument, values, ty, vars),
    }
}

/// A call on a recursive argument whose type has no products in front.
#[tactic(auto, using(crate::proofs::CallLaws::front_stop, crate::proofs::CallLaws::called_stop, crate::proofs::CallLaws::called_is))]
fn called_on(
    alloc: Global,
    params: usize,
    call: &Call,
    argument: &Term,
    values: &SharedList<Term>,
    ty: &Term,
    vars: u32,
) -> Result<Term, TermStop>
    requires { MayPutIn vars values.now ty.now }
    ensures { Gives result (within_limits (called params call.now argument.now values.now ty.now)) }
{
    let front = call.front.share()?;
    let argument = argument.share()?;
    let ty = ty.share()?;
    match called_with(alloc, params, front, values, ty, vars) {
        Ok(function) => match Term::app(alloc, function, argument) {
            Ok(called) => applied_from(alloc, called, &call.behind, 0),
            Err(stop) => Err(stop),
        },
        Err(stop) => Err(stop),
    }
}

/// A case applied to one argument of its constructor, and where that is recursive to the call on it.
fn argument_on(
    alloc: Global,
    params: usize,
    is_recursive: bool,
    call: &Call,
    case: Term,
    argument: &Term,
    values: &SharedList<Term>,
    ty: &Term,
    vars: u32,
) -> Result<Term, TermStop>
    requires call { IsCallOver vars call.now }
    requires argument { free_bound argument.now ≤ vars }
    requires values { MayPutIn vars values.now ty.now }
    ensures { Makes result (is_argument_on params is_recursive call.now case argument.now values.now ty.now) }
{
    let value = argument.share()?;
    match Term::app(alloc, case, value) {
        Ok(applied) => {
            if !is_recursive {
                return within(applied);
            }
            match call_on(alloc, params, call, argument, values, ty, vars) {
                Ok(called) => Term::app(alloc, applied, called),
                Err(stop) => Err(stop),
            }
        }
        Err(stop) => Err(stop),
    }
}

/// A case applied to all arguments of its constructor, whose declared type is given with marks at
/// the recursive arguments. Values stand for the parameters and for the arguments so far, and so
/// many variables are about.
pub(crate) fn case_on(
    alloc: Global,
    params: usize,
    marks: &[bool],
    call: &Call,
    case: Term,
    values: SharedList<Term>,
    ty: &Term,
    args: &Arguments,
    vars: u32,
) -> Result<Term, TermStop>
    requires call { IsCallOver vars call.now }
    requires args { AreOver vars args.now }
    requires values { MayPutIn vars values ty.now }
    ensures { Gives result (within_limits (is_case_on params marks.now call.now case values ty.now args.now)) }
{
    let Some((mark, later)) = marks.split_first() else {
        return within(case);
    };
    let Node::Prod {
        domain,
        codomain,
        ..
    } = ty.node()
    else {
        return within(case);
    };
    match args.split()? {
        None => within(case),
        Some((first, rest)) => {
            let _depth = first.depth();
            match argument_on(
                alloc, params, *mark, call, case, &first, &values, domain, vars,
            ) {
                Ok(next) => {
                    let values = values.with_first(alloc, first)?;
                    case_on(
                        alloc, params, later, call, next, values, codomain, &rest, vars,
                    )
                }
                Err(stop) => Err(stop),
            }
        }
    }
}
