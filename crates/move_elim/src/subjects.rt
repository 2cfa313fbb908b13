//! What is eliminated: a hypothesis whose type is inductive.
ghost use Rattle.std.specs.Prelude.{◌≡◌, ◌+◌, ◌==◌, ◌≤◌, [], take, drop, length, slice_get, IfOk};
ghost use Rattle.base_core.specs.Answers.{Gives};
ghost use Rattle.core_term.specs.Tree.{depth_of};
ghost use Rattle.cic_rules.specs.Families.{newest_first};
ghost use Rattle.cic_rules.specs.Steps.{answer_of};
ghost use Rattle.term_spine.specs.Spine.{head_of, arguments_of, count_products as products_of};
ghost use Rattle.move_elim.specs.Subjects.{named_from, is_plain as is_plain_hyp, stands_in as stands_in_any, index_of as the_index, index_variables as the_indices, subject_by as the_subject_by, subject_of as the_subject};

use crate::refusals::refusal;
use base_core::refusal_codes::{INDICES_NOT_VARIABLES, NOT_INDUCTIVE};
use base_core::{NoMem, NumberList, Stop, Text};
use cic_rules::{Context, GlobalEnv};
use core_term::{Node, Term};
use fresh_names::head_constant;
use shared_map::SharedList;
use std::alloc::Global;
use term_spine::{Arguments, Spine, spine_of};

/// A hypothesis whose type is inductive.
#[derive(Drop)]
pub struct Subject {
    pub variable: u32,
    /// The place of the inductive type.
    pub place: u32,
    /// Its parameters, the newest first.
    pub params: SharedList<Term>,
    /// The hypotheses that are its indices.
    pub indices: NumberList,
}

/// The newest hypothesis of a name, where it has no definition.
pub(crate) fn variable_named(ctx: &Context, name: &Text) -> Option<u32>
    ensures { result ≡ named_from 0 ctx.now name.now }
{
    let count = ctx.len();
    for i in 0..count {
        let Some(hyp) = ctx.get(i) else {
            unreachable!()
        };
        if hyp.name.as_str() == name.as_str() {
            return match &hyp.value {
                None => Some(i),
                Some(_) => None,
            };
        }
    }
    None
}

/// Whether there is a hypothesis, and it has no definition.
pub(crate) fn is_plain(ctx: &Context, i: u32) -> bool
    ensures { result ≡ is_plain_hyp (slice_get ctx.now i) }
{
    match ctx.get(i) {
        None => false,
        Some(hyp) => match &hyp.value {
            None => true,
            Some(_) => false,
        },
    }
}

/// Whether the variable stands in one of the terms from a place on.
#[tactic(auto, using(crate::proofs::Lists::from_place, crate::proofs::ContextLoops::none_stand, crate::proofs::ContextLoops::none_got))]
fn stands_in(terms: &SharedList<Term>, at: usize, i: u32) -> bool
    requires { at ≤ length terms.now }
    ensures { result ≡ stands_in_any (drop at terms.now) i }
{
    if at >= terms.len() {
        return false;
    }
    match terms.get(at) {
        None => false,
        Some(term) => 0 < term.occurrences(u64::from(i)) || stands_in(terms, at + 1, i),
    }
}

/// The hypothesis without a definition that a term is, where it stands in none of the terms before.
fn index_of(ctx: &Context, before: &SharedList<Term>, t: &Term) -> Option<u32>
    ensures { result ≡ the_index ctx.now before.now t.now }
{
    match t.node() {
        Node::Var(i) => {
            if is_plain(ctx, *i) && !stands_in(before, 0, *i) {
                Some(*i)
            } else {
                None
            }
        }
        Node::Sorted(_) => None,
        Node::Constant(_) => None,
        Node::Prod { .. } => None,
        Node::Lam { .. } => None,
        Node::LetIn { .. } => None,
        Node::App { .. } => None,
    }
}

/// The indices that were found so far and those that are left: distinct, and not in the terms before.
fn index_variables(
    alloc: Global,
    ctx: &Context,
    before: SharedList<Term>,
    found: NumberList,
    args: &Arguments,
) -> Result<Option<NumberList>, NoMem>
    ensures { IfOk result (λ is. is ≡ the_indices ctx.now before found args.now) }
{
    match args.split()? {
        None => Ok(Some(found)),
        Some((first, rest)) => match index_of(ctx, &before, &first) {
            None => Ok(None),
            Some(i) => {
                let mut found = found;
                found.push(i)?;
                let before = before.with_first(alloc, first)?;
                index_variables(alloc, ctx, before, found, &rest)
            }
        },
    }
}

/// How many products stand in front.
fn count_products(t: &Term) -> usize
    ensures count { result ≡ products_of t.now }
    ensures few { result ≤ depth_of t.now }
{
    let _depth = t.depth();
    match t.node() {
        Node::Prod { codomain, .. } => 1 + count_products(codomain),
        _ => 0,
    }
}

/// Whether a number is the sum of two.
#[tactic(auto, using(crate::proofs::ContextLoops::is_sum, crate::proofs::ContextLoops::is_no_sum))]
fn is_sum(number: usize, first: usize, second: usize) -> bool
    ensures { result ≡ (number == first + second) }
{
    if number < first {
        return false;
    }
    number - first == second
}

/// What a term applies, and to which arguments.
fn spine(alloc: Global, t: &Term) -> Result<Spine, NoMem>
    ensures head { IfOk result (λ s. s.head ≡ head_of t.now) }
    ensures args { IfOk result (λ s. s.args ≡ arguments_of t.now) }
{
    let _depth = t.depth();
    let t = t.share()?;
    match spine_of(alloc, t, Arguments::empty()) {
        Ok(spine) => Ok(spine),
        Err(_) => Err(NoMem),
    }
}

/// The arguments of a term.
pub(crate) fn arguments(alloc: Global, t: &Term) -> Result<Arguments, NoMem>
    ensures { IfOk result (λ args. args ≡ arguments_of t.now) }
{
    let spine = spine(alloc, t)?;
    Ok(spine.args)
}

/// The first of some arguments, so many of them, each before the values that are there.
fn values_of(
    alloc: Global,
    args: &Arguments,
    count: usize,
    values: SharedList<Term>,
) -> Result<SharedList<Term>, NoMem>
    ensures { IfOk result (λ vs. vs ≡ newest_first (take count args.now) values) }
{
    if count == 0 {
        return Ok(values);
    }
    match args.split()? {
        None => Ok(values),
        Some((first, rest)) => {
            let values = values.with_first(alloc, first)?;
            values_of(alloc, &rest, count - 1, values)
        }
    }
}

/// The arguments behind so many.
pub(crate) fn skipped(args: &Arguments, count: usize) -> Result<Arguments, NoMem>
    ensures { IfOk result (λ rest. rest ≡ drop count args.now) }
{
    if count == 0 {
        return args.share();
    }
    match args.split()? {
        None => args.share(),
        Some((_, rest)) => skipped(&rest, count - 1),
    }
}

/// A hypothesis by its reduced type.
pub(crate) fn subject_of(
    alloc: Global,
    env: &GlobalEnv,
    ctx: &Context,
    x: u32,
    t: &Term,
) -> Result<Subject, Stop>
    ensures { Gives result (answer_of (the_subject env.now ctx.now x t.now)) }
{
    match head_constant(t) {
        Some(place) => subject_by(alloc, env, ctx, x, t, place),
        None => Err(refusal(NOT_INDUCTIVE)),
    }
}

/// The same of a type whose head is a global.
fn subject_by(
    alloc: Global,
    env: &GlobalEnv,
    ctx: &Context,
    x: u32,
    t: &Term,
    place: u32,
) -> Result<Subject, Stop>
    ensures { Gives result (answer_of (the_subject_by env.now ctx.now x t.now place)) }
{
    let Some(decl) = env.inductive(place) else {
        return Err(refusal(NOT_INDUCTIVE));
    };
    let args = arguments(alloc, t)?;
    let count = decl.params.as_slice().len();
    if !is_sum(args.len() as usize, count, count_products(&decl.arity)) {
        return Err(refusal(NOT_INDUCTIVE));
    }
    let params = values_of(alloc, &args, count, SharedList::empty())?;
    let before = params.share()?;
    let rest = skipped(&args, count)?;
    match index_variables(alloc, ctx, before, NumberList::new(alloc), &rest)? {
        Some(indices) => Ok(Subject {
            variable: x,
            place,
            params,
            indices,
        }),
        None => Err(refusal(INDICES_NOT_VARIABLES)),
    }
}
