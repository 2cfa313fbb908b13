//! The branches of a pattern, and the names that they give.
ghost use Rattle.std.specs.Prelude.{◌≡◌, ◌++◌, IfOk, OnOk};
ghost use Rattle.coq_syntax.specs.Forms.{pattern_of, cases_of};
ghost use Rattle.move_elim.specs.Branches.{names_given, case_names as names_of_cases, without_names as no_names, branches_of as the_branches, is_empty as is_empty_pattern, given_or as name_or, next_name as name_next, behind_next as names_behind, behind_argument as behind, names_left, is_there, have_too_many as too_many, clash as clashes, any_clash as some_clash, with_given as names_with};

use base_core::{List, NoMem, Text};
use cic_rules::Ctor;
use coq_syntax::{BoundName, Pattern, PatternCase};
use fresh_names::Names;
use std::alloc::Global;

/// The names of a branch, none where `_` is written.
pub(crate) type GivenNames = List<Option<Text>>;

/// The names that are given in each branch.
pub(crate) fn branches_of(
    alloc: Global,
    ctors: &[Ctor],
    pattern: &Option<Pattern>,
) -> Result<List<GivenNames>, NoMem>
    ensures { IfOk result (λ branches. branches ≡ the_branches ctors.now (pattern_of pattern.now)) }
{
    match pattern {
        None => without_names(alloc, ctors),
        Some(pattern) => {
            let mut branches = List::new(alloc);
            if is_empty(ctors, pattern) {
                return Ok(branches);
            }
            let first = names_of(alloc, pattern.first.as_slice())?;
            branches.push(first)?;
            push_cases(alloc, pattern.others.as_slice(), &mut branches)?;
            Ok(branches)
        }
    }
}

/// Whether there is no constructor, and `[]` is written.
#[tactic(auto, using(crate::proofs::ContextLoops::count_cases))]
fn is_empty(ctors: &[Ctor], pattern: &Pattern) -> bool
    ensures { result ≡ is_empty_pattern ctors.now pattern.now.first.items (cases_of pattern.now.others.items) }
{
    ctors.len() == 0 && pattern.first.len() == 0 && pattern.others.len() == 0
}

fn without_names(alloc: Global, ctors: &[Ctor]) -> Result<List<GivenNames>, NoMem>
    ensures { IfOk result (λ branches. branches ≡ no_names ctors.now) }
{
    let mut branches = List::new(alloc);
    for _ in ctors {
        branches.push(List::new(alloc))?;
    }
    Ok(branches)
}

fn push_cases(
    alloc: Global,
    cases: &[PatternCase],
    branches: &mut List<GivenNames>,
) -> Result<(), NoMem>
    ensures { OnOk result (branches.new ≡ branches.old ++ names_of_cases (cases_of cases.now)) }
{
    for case in cases {
        let names = names_of(alloc, case.names.as_slice())?;
        branches.push(names)?;
    }
    Ok(())
}

fn names_of(alloc: Global, names: &[BoundName]) -> Result<GivenNames, NoMem>
    ensures { IfOk result (λ given. given ≡ names_given names.now) }
{
    let mut given = List::new(alloc);
    for name in names {
        match name {
            BoundName::Named(word) => {
                let text = word.text.share()?;
                given.push(Some(text))?;
            }
            BoundName::Unnamed(_) => given.push(None)?,
        }
    }
    Ok(given)
}

/// The next name of a branch, or another where none is given.
pub(crate) fn next_name(given: &[Option<Text>], other: Text) -> Result<Text, NoMem>
    ensures { IfOk result (λ name. name ≡ name_next given.now other) }
{
    match given.split_first() {
        None => Ok(other),
        Some((first, _)) => given_or(first, other),
    }
}

fn given_or(given: &Option<Text>, other: Text) -> Result<Text, NoMem>
    ensures { IfOk result (λ name. name ≡ name_or given.now other) }
{
    match given {
        None => Ok(other),
        Some(name) => name.share(),
    }
}

pub(crate) fn behind_next(given: &[Option<Text>]) -> &[Option<Text>]
    ensures { result.now ≡ names_behind given.now }
{
    match given.split_first() {
        None => given,
        Some((_, later)) => later,
    }
}

/// The names behind that of an argument, and in an induction behind that of its hypothesis, where it is recursive.
pub(crate) fn behind_argument(
    induction: bool,
    recursive: bool,
    given: &[Option<Text>],
) -> &[Option<Text>]
    ensures { result.now ≡ behind induction recursive given.now }
{
    if induction && recursive {
        behind_next(behind_next(given))
    } else {
        behind_next(given)
    }
}

/// Whether a branch has a name behind those of all arguments.
fn has_too_many(induction: bool, flags: &[bool], given: &[Option<Text>]) -> bool
    ensures { result ≡ is_there (names_left induction flags.now given.now) }
{
    match flags.split_first() {
        None => given.split_first().is_some(),
        Some((recursive, later)) => {
            has_too_many(
                induction,
                later,
                behind_argument(induction, *recursive, given),
            )
        }
    }
}

/// Whether one of the branches has too many names.
pub(crate) fn have_too_many(induction: bool, flags: &[List<bool>], branches: &[GivenNames]) -> bool
    ensures { result ≡ too_many induction flags.now branches.now }
{
    let Some((flag, others)) = flags.split_first() else {
        return false;
    };
    let Some((branch, more)) = branches.split_first() else {
        return false;
    };
    has_too_many(induction, flag.as_slice(), branch.as_slice())
        || have_too_many(induction, others, more)
}

/// Whether a name of a branch is one of these, or is given twice.
fn clash(alloc: Global, names: &Names, given: &[Option<Text>]) -> Result<bool, NoMem>
    ensures { IfOk result (λ is. is ≡ clashes names.now given.now) }
{
    match given.split_first() {
        None => Ok(false),
        Some((None, later)) => clash(alloc, names, later),
        Some((Some(name), later)) => {
            if names.has(name) {
                return Ok(true);
            }
            let names = names.with(alloc, name)?;
            clash(alloc, &names, later)
        }
    }
}

pub(crate) fn any_clash(
    alloc: Global,
    names: &Names,
    branches: &[GivenNames],
) -> Result<bool, NoMem>
    ensures { IfOk result (λ is. is ≡ some_clash names.now branches.now) }
{
    match branches.split_first() {
        None => Ok(false),
        Some((branch, more)) => {
            if clash(alloc, names, branch.as_slice())? {
                return Ok(true);
            }
            any_clash(alloc, names, more)
        }
    }
}

/// These names with those of a branch.
pub(crate) fn with_given(
    alloc: Global,
    names: &Names,
    given: &[Option<Text>],
) -> Result<Names, NoMem>
    ensures { IfOk result (λ all. all ≡ names_with names.now given.now) }
{
    match given.split_first() {
        None => names.share(),
        Some((None, later)) => with_given(alloc, names, later),
        Some((Some(name), later)) => {
            let names = names.with(alloc, name)?;
            with_given(alloc, &names, later)
        }
    }
}
