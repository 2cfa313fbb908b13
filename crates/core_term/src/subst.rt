//! Substitution of a value for a variable.
ghost use Rattle.std.specs.Prelude.{◌≡◌, ◌≤◌};
ghost use Rattle.core_term.specs.Tree.{IsNumbered, size_of};
ghost use Rattle.core_term.specs.Places.{lift_of, subst_of, occurrences};
ghost use Rattle.core_term.specs.Answers.{within_limits, Gives};

use crate::{Node, Term, TermStop};
use base_core::TERM_SIZE_LIMIT;
use std::alloc::Global;

impl Term {
    /// The term with a value put in for the variable at `at`, which is gone then: those above it
    /// come down. A part with no variable from there on is shared. The size of the answer is
    /// counted before anything is built, so that no memory goes into a term that is refused.
    pub fn subst(&self, alloc: Global, value: &Term, at: u32) -> Result<Term, TermStop>
        requires { IsNumbered (subst_of self.now value.now at) }
        ensures { Gives result (within_limits (subst_of self.now value.now at)) }
    {
        let at = u64::from(at);
        if self.size_with(value, at) > u64::from(TERM_SIZE_LIMIT) {
            return Err(TermStop::TooLarge);
        }
        self.subst_under(alloc, value, at, 0)
    }

    /// How many nodes the term has once the value is put in.
    fn size_with(&self, value: &Term, at: u64) -> u64
        ensures { result ≡ size_of (subst_of self.now value.now at) }
    {
        let places = u64::from(self.occurrences(at));
        u64::from(self.size()) + places * u64::from(value.size()) - places
    }

    /// How many times the variable at `at` stands in the term. A part with no variable from there
    /// on is not looked at.
    pub fn occurrences(&self, at: u64) -> u32
        ensures counted { result ≡ occurrences self.now at }
        ensures most { result ≤ size_of self.now }
    {
        if self.free_bound() <= at {
            return 0;
        }
        match self.node() {
            Node::Var(i) => u32::from(u64::from(*i) == at),
            Node::Sorted(_) | Node::Constant(_) => 0,
            Node::Prod {
                domain,
                codomain,
                ..
            } => domain.occurrences(at) + codomain.occurrences(at + 1),
            Node::Lam { domain, body, .. } => domain.occurrences(at) + body.occurrences(at + 1),
            Node::LetIn {
                ty,
                value,
                body,
                ..
            } => ty.occurrences(at) + value.occurrences(at) + body.occurrences(at + 1),
            Node::App { function, argument } => function.occurrences(at) + argument.occurrences(at),
        }
    }

    /// Below so many binders, which the value is lifted over where it is put in.
    #[tactic(auto, using(crate::proofs::Substitutions::lifted_binder))]
    fn subst_under(
        &self,
        alloc: Global,
        value: &Term,
        at: u64,
        binders: u64,
    ) -> Result<Term, TermStop>
        requires numbered { IsNumbered (subst_of self.now (lift_of value.now binders 0) at) }
        requires within { binders ≤ at }
        ensures { Gives result (within_limits (subst_of self.now (lift_of value.now binders 0) at)) }
    {
        if self.free_bound() <= at {
            return Ok(self.share()?);
        }
        let node = match self.node() {
            Node::Var(i) if u64::from(*i) == at => return value.lift_from(alloc, binders, 0),
            Node::Var(i) => Node::Var(*i - 1),
            Node::Sorted(s) => Node::Sorted(*s),
            Node::Constant(c) => Node::Constant(*c),
            Node::Prod {
                name,
                domain,
                codomain,
            } => Node::Prod {
                name: name.share()?,
                domain: domain.subst_under(alloc, value, at, binders)?,
                codomain: codomain.subst_under(alloc, value, at + 1, binders + 1)?,
            },
            Node::Lam { name, domain, body } => Node::Lam {
                name: name.share()?,
                domain: domain.subst_under(alloc, value, at, binders)?,
                body: body.subst_under(alloc, value, at + 1, binders + 1)?,
            },
            Node::LetIn {
                name,
                ty,
                value: given,
                body,
            } => Node::LetIn {
                name: name.share()?,
                ty: ty.subst_under(alloc, value, at, binders)?,
                value: given.subst_under(alloc, value, at, binders)?,
                body: body.subst_under(alloc, value, at + 1, binders + 1)?,
            },
            Node::App { function, argument } => Node::App {
                function: function.subst_under(alloc, value, at, binders)?,
                argument: argument.subst_under(alloc, value, at, binders)?,
            },
        };
        Term::of_node(alloc, node)
    }
}
