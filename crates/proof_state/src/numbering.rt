//! The goals of a sketch get their numbers.
ghost use Rattle.std.specs.Prelude.{◌≡◌, ◌≤◌, length};
ghost use Rattle.base_core.specs.Answers.{Gives};
ghost use Rattle.proof_state.specs.declared.goals.TheConstants.{GOAL_LIMIT};
ghost use Rattle.proof_state.specs.Numbering.{numbering};
ghost use Rattle.proof_state.specs.Partial.{Hole};

use crate::parts::Part;
use crate::{GOAL_LIMIT, Goal, Sketch, SketchNode};
use base_core::{Limit, Stop};
use shared_map::SharedList;
use std::alloc::Global;

/// A sketch with numbers at its holes, and the parts with its goals behind the others.
#[derive(Drop)]
pub(crate) struct Numbered {
    pub(crate) sketch: Sketch<u32>,
    pub(crate) parts: SharedList<Part>,
}

/// Numbers the goals of a sketch from the left, each by its place behind the parts.
pub(crate) fn number(
    alloc: Global,
    sketch: Sketch<Goal>,
    parts: SharedList<Part>,
) -> Result<Numbered, Stop>
    requires { length parts ≤ GOAL_LIMIT }
    ensures { Gives result (numbering sketch parts) }
{
    match sketch.into_node() {
        SketchNode::Ready(term) => Ok(Numbered {
            sketch: Sketch::ready(term),
            parts,
        }),
        SketchNode::Hole(goal) => number_goal(alloc, goal, parts),
        SketchNode::Lam { name, domain, body } => {
            let inner = number(alloc, Box::into_inner(body), parts)?;
            let sketch = Sketch::lam(alloc, name, domain, inner.sketch)?;
            Ok(Numbered {
                sketch,
                parts: inner.parts,
            })
        }
        SketchNode::LetIn {
            name,
            ty,
            value,
            body,
        } => {
            let inner = number(alloc, Box::into_inner(body), parts)?;
            let sketch = Sketch::let_in(alloc, name, ty, value, inner.sketch)?;
            Ok(Numbered {
                sketch,
                parts: inner.parts,
            })
        }
        SketchNode::App { function, argument } => {
            let first = number(alloc, Box::into_inner(function), parts)?;
            let second = number(alloc, Box::into_inner(argument), first.parts)?;
            let sketch = Sketch::app(alloc, first.sketch, second.sketch)?;
            Ok(Numbered {
                sketch,
                parts: second.parts,
            })
        }
    }
}

fn number_goal(alloc: Global, goal: Goal, parts: SharedList<Part>) -> Result<Numbered, Stop>
    requires { length parts ≤ GOAL_LIMIT }
    ensures { Gives result (numbering (Hole goal) parts) }
{
    let number = parts.len();
    if number >= GOAL_LIMIT {
        return Err(Stop::Out(Limit::SizeLimit));
    }
    let parts = parts.with_last(alloc, Part::Open(goal))?;
    Ok(Numbered {
        sketch: Sketch::hole(number as u32),
        parts,
    })
}
