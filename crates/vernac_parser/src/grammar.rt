//! The rules that hold nested ones read them through a function that the grammar is given, so that each is proved by
//! itself.

ghost use Rattle.vernac_parser.specs.Parse as spec;
ghost use Rattle.vernac_parser.specs.Views.{with_limit, within};
ghost use Rattle.vernac_parser.specs.Reads.{Reads};
ghost use Rattle.vernac_parser.specs.Nests.{Nests};

use crate::cursor::{Halt, Tokens};
use crate::rule::Rule;
use crate::sign::begins_term;
use base_core::SYNTAX_NESTING_LIMIT;
use base_core::refusal_codes::NESTED_TOO_DEEP;
use coq_syntax::SurfaceTerm;
use std::alloc::Global;

/// So many rules may nest.
pub const MOST_NESTED: usize = SYNTAX_NESTING_LIMIT as usize;

#[derive(Clone, Copy)]
pub struct Grammar<F> {
    pub alloc: Global,
    /// How many rules may still nest.
    pub limit: usize,
    pub nested: F,
}

impl<F: Fn(Global, &mut Tokens<'_>, usize, Rule) -> Result<SurfaceTerm, Halt>> Grammar<F> {
    pub fn inner(&self, tokens: &mut Tokens<'_>, rule: Rule) -> Result<SurfaceTerm, Halt>
        requires { Nests self.now.limit (F.pre self.now.nested) (F.post self.now.nested) }
        ensures { Reads (within self.now.limit rule tokens.old) result tokens.new }
    {
        (self.nested)(self.alloc, tokens, self.limit, rule)
    }

    #[tactic(auto, unfolding(crate::specs::Parse::by_rule))]
    fn by_rule(&self, tokens: &mut Tokens<'_>, rule: Rule) -> Result<SurfaceTerm, Halt>
        requires { Nests self.now.limit (F.pre self.now.nested) (F.post self.now.nested) }
        ensures { Reads (with_limit self.now.limit spec.by_rule rule tokens.old) result tokens.new }
    {
        match rule {
            Rule::Whole => self.term(tokens),
            Rule::Right85 => self.t85(tokens),
            Rule::Right80 => self.t80(tokens),
            Rule::Right75 => self.t75(tokens),
        }
    }
}

/// A rule that counts as nested, where so many more may nest.
#[tactic(auto, unfolding(crate::specs::Parse::nested))]
pub fn nested(
    alloc: Global,
    tokens: &mut Tokens<'_>,
    limit: usize,
    rule: Rule,
) -> Result<SurfaceTerm, Halt>
    ensures { Reads (within limit rule tokens.old) result tokens.new }
{
    if limit == 0 {
        return Err(too_deep(tokens, rule));
    }
    Grammar {
        alloc,
        limit: limit - 1,
        nested,
    }
    .by_rule(tokens, rule)
}

/// The refusal of a nested rule where no more may nest.
#[tactic(auto, unfolding(crate::specs::Parse::nested))]
fn too_deep(tokens: &Tokens<'_>, rule: Rule) -> Halt
    ensures { Reads (within 0 rule tokens.now) (Err result) tokens.now }
{
    if begins_term(tokens.sign()) {
        return tokens.refuse_as(NESTED_TOO_DEEP);
    }
    tokens.refuse()
}
