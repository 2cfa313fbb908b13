//! Open forms, and the operators by their levels.

ghost use Rattle.std.specs.Prelude.{◌≡◌};
ghost use Rattle.vernac_parser.specs.Parse as spec;
ghost use Rattle.vernac_parser.specs.Views.{with_limit};
ghost use Rattle.vernac_parser.specs.Reads.{Reads};
ghost use Rattle.vernac_parser.specs.Nests.{Nests};

use crate::binders::binder_name;
use crate::cursor::{Halt, Tokens};
use crate::grammar::Grammar;
use crate::rule::Rule;
use crate::sign::{Sign, begins_open};
use coq_syntax::{Node, SurfaceTerm};
use std::alloc::Global;

impl<F: Fn(Global, &mut Tokens<'_>, usize, Rule) -> Result<SurfaceTerm, Halt>> Grammar<F> {
    #[tactic(auto, unfolding(crate::specs::Parse::forall_form))]
    fn forall_form(&self, tokens: &mut Tokens<'_>) -> Result<SurfaceTerm, Halt>
        requires { Nests self.now.limit (F.pre self.now.nested) (F.post self.now.nested) }
        ensures { Reads (with_limit self.now.limit spec.forall_form tokens.old) result tokens.new }
    {
        let keyword = tokens.take(Sign::Forall)?;
        let binders = self.binders(tokens)?;
        let comma = tokens.take(Sign::Comma)?;
        let body = Box::new(self.alloc, self.inner(tokens, Rule::Whole)?)?;
        Ok(SurfaceTerm::new(Node::Forall {
            keyword,
            binders,
            comma,
            body,
        }))
    }

    #[tactic(auto, unfolding(crate::specs::Parse::fun_form))]
    fn fun_form(&self, tokens: &mut Tokens<'_>) -> Result<SurfaceTerm, Halt>
        requires { Nests self.now.limit (F.pre self.now.nested) (F.post self.now.nested) }
        ensures { Reads (with_limit self.now.limit spec.fun_form tokens.old) result tokens.new }
    {
        let keyword = tokens.take(Sign::Fun)?;
        let binders = self.binders(tokens)?;
        let arrow = tokens.take(Sign::Yields)?;
        let body = Box::new(self.alloc, self.inner(tokens, Rule::Whole)?)?;
        Ok(SurfaceTerm::new(Node::Fun {
            keyword,
            binders,
            arrow,
            body,
        }))
    }

    #[tactic(auto, unfolding(crate::specs::Parse::let_form))]
    fn let_form(&self, tokens: &mut Tokens<'_>) -> Result<SurfaceTerm, Halt>
        requires { Nests self.now.limit (F.pre self.now.nested) (F.post self.now.nested) }
        ensures { Reads (with_limit self.now.limit spec.let_form tokens.old) result tokens.new }
    {
        let keyword = tokens.take(Sign::Let)?;
        let name = binder_name(self.alloc, tokens)?;
        let annotation = self.annotation(tokens)?;
        let assign = tokens.take(Sign::Assign)?;
        let value = Box::new(self.alloc, self.inner(tokens, Rule::Whole)?)?;
        let joint = tokens.take(Sign::In)?;
        let body = Box::new(self.alloc, self.inner(tokens, Rule::Whole)?)?;
        Ok(SurfaceTerm::new(Node::Let {
            keyword,
            name,
            annotation,
            assign,
            value,
            joint,
            body,
        }))
    }

    #[tactic(auto, unfolding(crate::specs::Parse::open_form))]
    fn open_form(&self, tokens: &mut Tokens<'_>) -> Result<SurfaceTerm, Halt>
        requires { Nests self.now.limit (F.pre self.now.nested) (F.post self.now.nested) }
        ensures { Reads (with_limit self.now.limit spec.open_form tokens.old) result tokens.new }
    {
        match tokens.sign() {
            Sign::Forall => self.forall_form(tokens),
            Sign::Fun => self.fun_form(tokens),
            _ => self.let_form(tokens),
        }
    }

    /// What stands behind an operator.
    #[tactic(auto, unfolding(crate::specs::Parse::operand))]
    fn operand(&self, tokens: &mut Tokens<'_>, rule: Rule) -> Result<SurfaceTerm, Halt>
        requires { Nests self.now.limit (F.pre self.now.nested) (F.post self.now.nested) }
        ensures { Reads (with_limit self.now.limit spec.operand rule tokens.old) result tokens.new }
    {
        if begins_open(tokens.sign()) {
            self.open_form(tokens)
        } else {
            self.inner(tokens, rule)
        }
    }

    #[tactic(auto, unfolding(crate::specs::Parse::equal_behind))]
    fn equal_behind(&self, tokens: &mut Tokens<'_>, left: SurfaceTerm) -> Result<SurfaceTerm, Halt>
        requires { Nests self.now.limit (F.pre self.now.nested) (F.post self.now.nested) }
        ensures { Reads (with_limit self.now.limit spec.equal_behind left tokens.old) result tokens.new }
    {
        if !tokens.sees(Sign::Equal) {
            return Ok(left);
        }
        let sign = tokens.take(Sign::Equal)?;
        let right = self.application(tokens)?;
        Ok(SurfaceTerm::new(Node::Equal {
            left: Box::new(self.alloc, left)?,
            sign,
            right: Box::new(self.alloc, right)?,
        }))
    }

    #[tactic(auto, unfolding(crate::specs::Parse::t70))]
    fn t70(&self, tokens: &mut Tokens<'_>) -> Result<SurfaceTerm, Halt>
        requires { Nests self.now.limit (F.pre self.now.nested) (F.post self.now.nested) }
        ensures { Reads (with_limit self.now.limit spec.t70 tokens.old) result tokens.new }
    {
        let left = self.application(tokens)?;
        self.equal_behind(tokens, left)
    }

    #[tactic(auto, unfolding(crate::specs::Parse::t75))]
    pub fn t75(&self, tokens: &mut Tokens<'_>) -> Result<SurfaceTerm, Halt>
        requires { Nests self.now.limit (F.pre self.now.nested) (F.post self.now.nested) }
        ensures { Reads (with_limit self.now.limit spec.t75 tokens.old) result tokens.new }
    {
        if !tokens.sees(Sign::Not) {
            return self.t70(tokens);
        }
        let sign = tokens.take(Sign::Not)?;
        let operand = Box::new(self.alloc, self.operand(tokens, Rule::Right75)?)?;
        Ok(SurfaceTerm::new(Node::Not { sign, operand }))
    }

    #[tactic(auto, unfolding(crate::specs::Parse::and_behind))]
    fn and_behind(&self, tokens: &mut Tokens<'_>, left: SurfaceTerm) -> Result<SurfaceTerm, Halt>
        requires { Nests self.now.limit (F.pre self.now.nested) (F.post self.now.nested) }
        ensures { Reads (with_limit self.now.limit spec.and_behind left tokens.old) result tokens.new }
    {
        if !tokens.sees(Sign::And) {
            return Ok(left);
        }
        let sign = tokens.take(Sign::And)?;
        let right = self.operand(tokens, Rule::Right80)?;
        Ok(SurfaceTerm::new(Node::And {
            left: Box::new(self.alloc, left)?,
            sign,
            right: Box::new(self.alloc, right)?,
        }))
    }

    #[tactic(auto, unfolding(crate::specs::Parse::t80))]
    pub fn t80(&self, tokens: &mut Tokens<'_>) -> Result<SurfaceTerm, Halt>
        requires { Nests self.now.limit (F.pre self.now.nested) (F.post self.now.nested) }
        ensures { Reads (with_limit self.now.limit spec.t80 tokens.old) result tokens.new }
    {
        let left = self.t75(tokens)?;
        self.and_behind(tokens, left)
    }

    #[tactic(auto, unfolding(crate::specs::Parse::or_behind))]
    fn or_behind(&self, tokens: &mut Tokens<'_>, left: SurfaceTerm) -> Result<SurfaceTerm, Halt>
        requires { Nests self.now.limit (F.pre self.now.nested) (F.post self.now.nested) }
        ensures { Reads (with_limit self.now.limit spec.or_behind left tokens.old) result tokens.new }
    {
        if !tokens.sees(Sign::Or) {
            return Ok(left);
        }
        let sign = tokens.take(Sign::Or)?;
        let right = self.operand(tokens, Rule::Right85)?;
        Ok(SurfaceTerm::new(Node::Or {
            left: Box::new(self.alloc, left)?,
            sign,
            right: Box::new(self.alloc, right)?,
        }))
    }

    #[tactic(auto, unfolding(crate::specs::Parse::t85))]
    pub fn t85(&self, tokens: &mut Tokens<'_>) -> Result<SurfaceTerm, Halt>
        requires { Nests self.now.limit (F.pre self.now.nested) (F.post self.now.nested) }
        ensures { Reads (with_limit self.now.limit spec.t85 tokens.old) result tokens.new }
    {
        let left = self.t80(tokens)?;
        self.or_behind(tokens, left)
    }

    #[tactic(auto, unfolding(crate::specs::Parse::arrow_behind))]
    fn arrow_behind(&self, tokens: &mut Tokens<'_>, left: SurfaceTerm) -> Result<SurfaceTerm, Halt>
        requires { Nests self.now.limit (F.pre self.now.nested) (F.post self.now.nested) }
        ensures { Reads (with_limit self.now.limit spec.arrow_behind left tokens.old) result tokens.new }
    {
        if !tokens.sees(Sign::Arrow) {
            return Ok(left);
        }
        let sign = tokens.take(Sign::Arrow)?;
        let right = self.inner(tokens, Rule::Whole)?;
        Ok(SurfaceTerm::new(Node::Arrow {
            left: Box::new(self.alloc, left)?,
            sign,
            right: Box::new(self.alloc, right)?,
        }))
    }

    #[tactic(auto, unfolding(crate::specs::Parse::t99))]
    fn t99(&self, tokens: &mut Tokens<'_>) -> Result<SurfaceTerm, Halt>
        requires { Nests self.now.limit (F.pre self.now.nested) (F.post self.now.nested) }
        ensures { Reads (with_limit self.now.limit spec.t99 tokens.old) result tokens.new }
    {
        let left = self.t85(tokens)?;
        self.arrow_behind(tokens, left)
    }

    #[tactic(auto, unfolding(crate::specs::Parse::term))]
    pub fn term(&self, tokens: &mut Tokens<'_>) -> Result<SurfaceTerm, Halt>
        requires { Nests self.now.limit (F.pre self.now.nested) (F.post self.now.nested) }
        ensures { Reads (with_limit self.now.limit spec.term tokens.old) result tokens.new }
    {
        if begins_open(tokens.sign()) {
            self.open_form(tokens)
        } else {
            self.t99(tokens)
        }
    }
}
