//! A term as what it applies with the arguments.
ghost use Rattle.std.specs.Prelude.{◌≡◌};
ghost use Rattle.core_term.specs.Answers.{within_limits, Gives};
ghost use Rattle.term_spine.specs.Spine.{apply_all};
ghost use Rattle.term_spine.specs.Spines.{IsTooLarge, GivesSpine};

use crate::Arguments;
use base_core::{TERM_DEPTH_LIMIT, TERM_SIZE_LIMIT};
use core_term::{Node, Term, TermStop};
use std::alloc::Global;

/// What a term applies, which applies nothing itself, and to which arguments.
#[derive(Drop)]
pub struct Spine {
    pub head: Term,
    pub args: Arguments,
}

/// The spine of a term that is applied to arguments. Whether the whole is too large is told in one
/// step, before anything is built; then each argument of the term takes a step.
pub fn spine_of(alloc: Global, function: Term, args: Arguments) -> Result<Spine, TermStop>
    ensures { GivesSpine result (apply_all function args) }
{
    if is_too_large(&function, &args) {
        return Err(TermStop::TooLarge);
    }
    let mut head = function;
    let mut args = args;
    while let Node::App { function, argument } = head.node() {
        let first = argument.share()?;
        let next = function.share()?;
        args = args.with_first(alloc, first)?;
        head = next;
    }
    Ok(Spine { head, args })
}

fn is_too_large(function: &Term, args: &Arguments) -> bool
    ensures { IsTooLarge result (apply_all function.now args.now) }
{
    let size = function.size() + args.size();
    let depth = args.depth().max(function.depth() + args.len());
    size > TERM_SIZE_LIMIT || depth > TERM_DEPTH_LIMIT
}

impl Spine {
    /// The term once more, as an application.
    pub fn whole(&self, alloc: Global) -> Result<Term, TermStop>
        ensures { Gives result (within_limits (apply_all self.now.head self.now.args)) }
    {
        if is_too_large(&self.head, &self.args) {
            return Err(TermStop::TooLarge);
        }
        let mut whole = self.head.share()?;
        let mut args = self.args.share()?;
        while let Some((first, rest)) = args.split()? {
            whole = Term::app(alloc, whole, first)?;
            args = rest;
        }
        Ok(whole)
    }
}
