//! Arguments in a row, which keep their measures.
ghost use Rattle.std.specs.Prelude.{◌≡◌, true, [], ◌∷◌, length, slice_get, IfOk};
ghost use Rattle.std.specs.Option.{option_copied};
ghost use Rattle.core_term.specs.Answers.{Gives};
ghost use Rattle.term_spine.specs.Spine.{arguments_size, arguments_depth, are_small};
ghost use Rattle.term_spine.specs.Arguments.{within_limits, IsSplit};

use base_core::{NoMem, TERM_DEPTH_LIMIT, TERM_SIZE_LIMIT};
use core_term::{Term, TermStop};
use std::alloc::Global;
use std::marker::Model;
use std::rc::Rc;

/// The arguments of an application, which contracts see as a list, the first first. They share
/// their nodes, keep their number, size and depth, and are never so many or so large that each
/// application of them would be too large.
#[derive(Drop)]
#[cycle(arguments)]
pub struct Arguments {
    link: Link,
}

#[derive(Drop)]
#[cycle(arguments)]
enum Link {
    End,
    More(Rc<Argument>),
}

#[derive(Drop)]
#[cycle(arguments)]
struct Argument {
    count: u32,
    size: u32,
    depth: u32,
    first: Term,
    rest: Arguments,
}

impl Model for Arguments {
    ghost use Rattle.std.specs.Prelude.{List, length};
    ghost use Rattle.core_term.specs.Tree.{Tree};
    ghost use Rattle.core_term.specs.TreeCode.{tree_code};
    ghost use Rattle.std.specs.Coded.{coded_list};

    ghost Value = { List Tree };

    ghost coded = { coded_list tree_code };

    ghost use Rattle.term_spine.specs.Arguments.{items_of, IsMeasured};
    ghost use Rattle.std.proofs.Common.{arith};

    ghost view = { λ a. items_of a.link };

    ghost invariant = { λ a. IsMeasured a.link };

    ghost size = { length };

    ghost size_decreases = { λ a h. Prim.grind (arith) };
}

impl Arguments {
    pub fn empty() -> Arguments
        ensures { result ≡ [] }
    {
        Arguments { link: Link::End }
    }

    /// How many there are, in one step.
    pub fn len(&self) -> u32
        ensures count { result ≡ length self.now }
        ensures small { are_small self.now ≡ true }
    {
        match &self.link {
            Link::End => 0,
            Link::More(argument) => argument.count,
        }
    }

    /// How many nodes they add to what they are applied to, in one step.
    pub fn size(&self) -> u32
        ensures count { result ≡ arguments_size self.now }
        ensures small { are_small self.now ≡ true }
    {
        match &self.link {
            Link::End => 0,
            Link::More(argument) => argument.size,
        }
    }

    /// How deep they stand in the whole, in one step.
    pub fn depth(&self) -> u32
        ensures count { result ≡ arguments_depth self.now }
        ensures small { are_small self.now ≡ true }
    {
        match &self.link {
            Link::End => 0,
            Link::More(argument) => argument.depth,
        }
    }

    /// The argument with this index, from 0.
    pub fn get(&self, i: u32) -> Option<&Term>
        ensures { option_copied result ≡ slice_get self.now i }
    {
        match &self.link {
            Link::End => None,
            Link::More(argument) => {
                if i == 0 {
                    Some(&argument.first)
                } else {
                    argument.rest.get(i - 1)
                }
            }
        }
    }

    /// The same arguments once more, in one step.
    pub fn share(&self) -> Result<Arguments, NoMem>
        ensures { IfOk result (λ args. args ≡ self.now) }
    {
        match &self.link {
            Link::End => Ok(Arguments::empty()),
            Link::More(argument) => {
                let argument = argument.clone()?;
                Ok(Arguments {
                    link: Link::More(argument),
                })
            }
        }
    }

    /// The arguments behind one more.
    pub fn with_first(self, alloc: Global, first: Term) -> Result<Arguments, TermStop>
        ensures { Gives result (within_limits (first ∷ self)) }
    {
        let count = self.len() + 1;
        let size = self.size() + 1 + first.size();
        let depth = self.depth().max(first.depth() + count);
        if size > TERM_SIZE_LIMIT || depth > TERM_DEPTH_LIMIT {
            return Err(TermStop::TooLarge);
        }
        let argument = Argument {
            count,
            size,
            depth,
            first,
            rest: self,
        };
        let argument = Rc::new(alloc, argument)?;
        Ok(Arguments {
            link: Link::More(argument),
        })
    }

    /// The first argument and those behind it.
    pub fn split(&self) -> Result<Option<(Term, Arguments)>, NoMem>
        ensures { IfOk result (λ found. IsSplit found self.now) }
    {
        match &self.link {
            Link::End => Ok(None),
            Link::More(argument) => {
                let first = argument.first.share()?;
                let rest = argument.rest.share()?;
                Ok(Some((first, rest)))
            }
        }
    }
}
