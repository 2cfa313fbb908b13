//! What is kept of each number of a proof.
ghost use Rattle.std.specs.Prelude.{◌≡◌, ◌↔◌, IsTrue};
ghost use Rattle.std.specs.Option.{option_copied};
ghost use Rattle.proof_state.specs.Steps.{goal_of, unsolved_of};
ghost use Rattle.proof_state.specs.Table.{status_of};
ghost use Rattle.proof_state.specs.Closing.{IsSolved, AreSolved};
ghost use Rattle.proof_state.specs.declared.parts.Part.TheVariants.{Filled};

use crate::{Goal, Sketch};
use shared_map::SharedList;

/// A goal, or the sketch that solves it, with the numbers of its goals at the holes.
#[derive(Drop)]
pub(crate) enum Part {
    Open(Goal),
    GivenUp(Goal),
    Filled(Sketch<u32>),
}

impl Part {
    /// The goal, where it isn't solved.
    pub(crate) fn goal(&self) -> Option<&Goal>
        ensures { option_copied result ≡ goal_of (status_of self.now) }
    {
        match self {
            Part::Open(goal) => Some(goal),
            Part::GivenUp(goal) => Some(goal),
            Part::Filled(_) => None,
        }
    }

    /// The goal, where it is neither solved nor given up.
    pub(crate) fn unsolved(&self) -> Option<&Goal>
        ensures { option_copied result ≡ unsolved_of (status_of self.now) }
    {
        match self {
            Part::Open(goal) => Some(goal),
            Part::GivenUp(_) => None,
            Part::Filled(_) => None,
        }
    }

    fn is_solved(&self) -> bool
        ensures { IsTrue result ↔ IsSolved self.now }
    {
        match self {
            Part::Filled(_) => true,
            Part::Open(_) => false,
            Part::GivenUp(_) => false,
        }
    }

    /// The sketch, where it is solved.
    pub(crate) fn sketch(&self) -> &Sketch<u32>
        requires { IsSolved self.now }
        ensures { self.now ≡ Filled result.now }
    {
        match self {
            Part::Filled(sketch) => sketch,
            Part::Open(_) => unreachable!(),
            Part::GivenUp(_) => unreachable!(),
        }
    }
}

/// Whether each is solved.
pub(crate) fn are_solved(parts: &SharedList<Part>) -> bool
    ensures { IsTrue result ↔ AreSolved parts.now }
{
    for n in 0..parts.len() {
        let Some(part) = parts.get(n) else {
            unreachable!()
        };
        if !part.is_solved() {
            return false;
        }
    }
    true
}
