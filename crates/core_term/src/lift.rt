//! Lifting: the free variables of a term moved over binders.
ghost use Rattle.std.specs.Prelude.{◌≡◌};
ghost use Rattle.core_term.specs.Tree.{IsNumbered, free_bound};
ghost use Rattle.core_term.specs.Places.{lift_of};
ghost use Rattle.core_term.specs.Answers.{within_limits, Gives};

use crate::{Node, Term, TermStop};
use std::alloc::Global;

impl Term {
    /// The term with room for `by` variables made at `from`. A part with no variable from there on
    /// is shared.
    pub fn lift(&self, alloc: Global, by: u32, from: u32) -> Result<Term, TermStop>
        requires { IsNumbered (lift_of self.now by from) }
        ensures { Gives result (within_limits (lift_of self.now by from)) }
    {
        self.lift_from(alloc, u64::from(by), u64::from(from))
    }

    pub(crate) fn lift_from(&self, alloc: Global, by: u64, from: u64) -> Result<Term, TermStop>
        requires { IsNumbered (lift_of self.now by from) }
        ensures { Gives result (within_limits (lift_of self.now by from)) }
    {
        if self.free_bound() <= from || by == 0 {
            return Ok(self.share()?);
        }
        let node = match self.node() {
            Node::Var(i) => Node::Var((u64::from(*i) + by) as u32),
            Node::Sorted(s) => Node::Sorted(*s),
            Node::Constant(c) => Node::Constant(*c),
            Node::Prod {
                name,
                domain,
                codomain,
            } => Node::Prod {
                name: name.share()?,
                domain: domain.lift_from(alloc, by, from)?,
                codomain: codomain.lift_from(alloc, by, from + 1)?,
            },
            Node::Lam { name, domain, body } => Node::Lam {
                name: name.share()?,
                domain: domain.lift_from(alloc, by, from)?,
                body: body.lift_from(alloc, by, from + 1)?,
            },
            Node::LetIn {
                name,
                ty,
                value,
                body,
            } => Node::LetIn {
                name: name.share()?,
                ty: ty.lift_from(alloc, by, from)?,
                value: value.lift_from(alloc, by, from)?,
                body: body.lift_from(alloc, by, from + 1)?,
            },
            Node::App { function, argument } => Node::App {
                function: function.lift_from(alloc, by, from)?,
                argument: argument.lift_from(alloc, by, from)?,
            },
        };
        Term::of_node(alloc, node)
    }
}
