//! Atoms and applications.

ghost use Rattle.std.specs.Prelude.{◌≡◌};
ghost use Rattle.vernac_parser.specs.Parse as spec;
ghost use Rattle.vernac_parser.specs.Views.{with_limit, argument_of};
ghost use Rattle.vernac_parser.specs.Reads.{Reads, ReadsAs};
ghost use Rattle.vernac_parser.specs.Nests.{Nests};
ghost use Rattle.coq_syntax.specs.Nodes.{arguments_of};

use crate::cursor::{Halt, Tokens};
use crate::grammar::Grammar;
use crate::number::NumberUse;
use crate::rule::Rule;
use crate::sign::{Sign, begins_atom};
use coq_syntax::{Argument, Node, SurfaceTerm, TokenPlace};
use std::alloc::Global;

impl<F: Fn(Global, &mut Tokens<'_>, usize, Rule) -> Result<SurfaceTerm, Halt>> Grammar<F> {
    #[tactic(auto, unfolding(crate::specs::Parse::type_sort))]
    fn type_sort(&self, tokens: &mut Tokens<'_>) -> Result<SurfaceTerm, Halt>
        requires { Nests self.now.limit (F.pre self.now.nested) (F.post self.now.nested) }
        ensures { Reads (with_limit self.now.limit spec.type_sort tokens.old) result tokens.new }
    {
        let keyword = tokens.take(Sign::TypeSort)?;
        if !tokens.sees(Sign::At) {
            return Ok(SurfaceTerm::new(Node::TypeSort(keyword)));
        }
        let at = tokens.take(Sign::At)?;
        let opening = tokens.take(Sign::OpenBrace)?;
        let level = tokens.number(self.alloc, NumberUse::Level)?;
        let closing = tokens.take(Sign::CloseBrace)?;
        Ok(SurfaceTerm::new(Node::TypeAt {
            keyword,
            at,
            opening,
            level,
            closing,
        }))
    }

    /// Behind a `(`.
    #[tactic(auto, unfolding(crate::specs::Parse::parenthesized))]
    fn parenthesized(
        &self,
        tokens: &mut Tokens<'_>,
        opening: TokenPlace,
    ) -> Result<SurfaceTerm, Halt>
        requires { Nests self.now.limit (F.pre self.now.nested) (F.post self.now.nested) }
        ensures { Reads (with_limit self.now.limit spec.parenthesized opening tokens.old) result tokens.new }
    {
        let inner = Box::new(self.alloc, self.inner(tokens, Rule::Whole)?)?;
        let closing = tokens.take(Sign::Close)?;
        Ok(SurfaceTerm::new(Node::Parenthesized {
            opening,
            inner,
            closing,
        }))
    }

    /// An argument by its name, behind a `(`.
    #[tactic(auto, unfolding(crate::specs::Parse::given))]
    fn given(&self, tokens: &mut Tokens<'_>, opening: TokenPlace) -> Result<Argument, Halt>
        requires { Nests self.now.limit (F.pre self.now.nested) (F.post self.now.nested) }
        ensures { ReadsAs argument_of (with_limit self.now.limit spec.given opening tokens.old) result tokens.new }
    {
        let name = tokens.identifier(self.alloc)?;
        let assign = tokens.take(Sign::Assign)?;
        let value = Box::new(self.alloc, self.inner(tokens, Rule::Whole)?)?;
        let closing = tokens.take(Sign::Close)?;
        Ok(Argument::Given {
            opening,
            name,
            assign,
            value,
            closing,
        })
    }

    #[tactic(auto, unfolding(crate::specs::Parse::atom))]
    fn atom(&self, tokens: &mut Tokens<'_>) -> Result<SurfaceTerm, Halt>
        requires { Nests self.now.limit (F.pre self.now.nested) (F.post self.now.nested) }
        ensures { Reads (with_limit self.now.limit spec.atom tokens.old) result tokens.new }
    {
        match tokens.sign() {
            Sign::Identifier => {
                let word = tokens.identifier(self.alloc)?;
                Ok(SurfaceTerm::new(Node::Name(word)))
            }
            Sign::Open => {
                let opening = tokens.take(Sign::Open)?;
                self.parenthesized(tokens, opening)
            }
            Sign::Number => {
                let word = tokens.number(self.alloc, NumberUse::Numeral)?;
                Ok(SurfaceTerm::new(Node::Numeral(word)))
            }
            Sign::PropSort => {
                let place = tokens.take(Sign::PropSort)?;
                Ok(SurfaceTerm::new(Node::PropSort(place)))
            }
            Sign::SetSort => {
                let place = tokens.take(Sign::SetSort)?;
                Ok(SurfaceTerm::new(Node::SetSort(place)))
            }
            _ => self.type_sort(tokens),
        }
    }

    #[tactic(auto, unfolding(crate::specs::Parse::argument_behind))]
    fn argument_behind(
        &self,
        tokens: &mut Tokens<'_>,
        opening: TokenPlace,
    ) -> Result<Argument, Halt>
        requires { Nests self.now.limit (F.pre self.now.nested) (F.post self.now.nested) }
        ensures { ReadsAs argument_of (with_limit self.now.limit spec.argument_behind opening tokens.old) result tokens.new }
    {
        if tokens.assigns() {
            return self.given(tokens, opening);
        }
        let term = self.parenthesized(tokens, opening)?;
        Ok(Argument::Positional(Box::new(self.alloc, term)?))
    }

    #[tactic(auto, unfolding(crate::specs::Parse::argument))]
    fn argument(&self, tokens: &mut Tokens<'_>) -> Result<Argument, Halt>
        requires { Nests self.now.limit (F.pre self.now.nested) (F.post self.now.nested) }
        ensures { ReadsAs argument_of (with_limit self.now.limit spec.argument tokens.old) result tokens.new }
    {
        if tokens.sees(Sign::Open) {
            let opening = tokens.take(Sign::Open)?;
            return self.argument_behind(tokens, opening);
        }
        let term = self.atom(tokens)?;
        Ok(Argument::Positional(Box::new(self.alloc, term)?))
    }

    #[tactic(auto, unfolding(crate::specs::Parse::arguments))]
    fn arguments(&self, tokens: &mut Tokens<'_>) -> Result<Vec<Argument>, Halt>
        requires { Nests self.now.limit (F.pre self.now.nested) (F.post self.now.nested) }
        ensures { ReadsAs (λ v. arguments_of v.items) (with_limit self.now.limit spec.arguments tokens.old) result tokens.new }
    {
        let mut arguments = Vec::new(self.alloc);
        while begins_atom(tokens.sign()) {
            arguments.push(self.argument(tokens)?)?;
        }
        Ok(arguments)
    }

    #[tactic(auto, unfolding(crate::specs::Parse::application))]
    pub fn application(&self, tokens: &mut Tokens<'_>) -> Result<SurfaceTerm, Halt>
        requires { Nests self.now.limit (F.pre self.now.nested) (F.post self.now.nested) }
        ensures { Reads (with_limit self.now.limit spec.application tokens.old) result tokens.new }
    {
        let head = self.atom(tokens)?;
        let arguments = self.arguments(tokens)?;
        if arguments.is_empty() {
            return Ok(head);
        }
        Ok(SurfaceTerm::new(Node::Apply {
            head: Box::new(self.alloc, head)?,
            arguments,
        }))
    }
}
