//! Names, binders and annotations.

ghost use Rattle.std.specs.Prelude.{◌≡◌};
ghost use Rattle.vernac_parser.specs.Parse as spec;
ghost use Rattle.vernac_parser.specs.Views.{with_limit, group_of};
ghost use Rattle.vernac_parser.specs.Reads.{Reads, ReadsAs};
ghost use Rattle.vernac_parser.specs.Nests.{Nests};
ghost use Rattle.coq_syntax.specs.Nodes.{groups_of, binders_of, annotation_of};

use crate::cursor::{Halt, Tokens};
use crate::grammar::Grammar;
use crate::rule::Rule;
use crate::sign::Sign;
use coq_syntax::{Annotation, Binders, BoundName, Group, SurfaceTerm};
use std::alloc::Global;

fn is_name(sign: Sign) -> bool
    ensures { result ≡ spec.is_name sign }
{
    matches!(sign, Sign::Identifier | Sign::Wildcard)
}

#[tactic(auto, unfolding(crate::specs::Parse::binder_name))]
pub fn binder_name(alloc: Global, tokens: &mut Tokens<'_>) -> Result<BoundName, Halt>
    ensures { Reads (spec.binder_name tokens.old) result tokens.new }
{
    if tokens.sees(Sign::Wildcard) {
        Ok(BoundName::Unnamed(tokens.take(Sign::Wildcard)?))
    } else {
        Ok(BoundName::Named(tokens.identifier(alloc)?))
    }
}

/// One name or more.
#[tactic(auto, unfolding(crate::specs::Parse::names))]
fn names(alloc: Global, tokens: &mut Tokens<'_>) -> Result<Vec<BoundName>, Halt>
    ensures { ReadsAs (λ v. v.items) (spec.names tokens.old) result tokens.new }
{
    let mut names = Vec::new(alloc);
    names.push(binder_name(alloc, tokens)?)?;
    while is_name(tokens.sign()) {
        names.push(binder_name(alloc, tokens)?)?;
    }
    Ok(names)
}

impl<F: Fn(Global, &mut Tokens<'_>, usize, Rule) -> Result<SurfaceTerm, Halt>> Grammar<F> {
    #[tactic(auto, unfolding(crate::specs::Parse::group))]
    fn group(&self, tokens: &mut Tokens<'_>) -> Result<Group, Halt>
        requires { Nests self.now.limit (F.pre self.now.nested) (F.post self.now.nested) }
        ensures { ReadsAs group_of (with_limit self.now.limit spec.group tokens.old) result tokens.new }
    {
        let opening = tokens.take(Sign::Open)?;
        let names = names(self.alloc, tokens)?;
        let colon = tokens.take(Sign::Colon)?;
        let ty = Box::new(self.alloc, self.inner(tokens, Rule::Whole)?)?;
        let closing = tokens.take(Sign::Close)?;
        Ok(Group {
            opening,
            names,
            colon,
            ty,
            closing,
        })
    }

    /// Groups, as many as stand next.
    #[tactic(auto, unfolding(crate::specs::Parse::groups))]
    pub fn groups(&self, tokens: &mut Tokens<'_>) -> Result<Vec<Group>, Halt>
        requires { Nests self.now.limit (F.pre self.now.nested) (F.post self.now.nested) }
        ensures { ReadsAs (λ v. groups_of v.items) (with_limit self.now.limit spec.groups tokens.old) result tokens.new }
    {
        let mut groups = Vec::new(self.alloc);
        while tokens.sees(Sign::Open) {
            groups.push(self.group(tokens)?)?;
        }
        Ok(groups)
    }

    #[tactic(auto, unfolding(crate::specs::Parse::binders))]
    pub fn binders(&self, tokens: &mut Tokens<'_>) -> Result<Binders, Halt>
        requires { Nests self.now.limit (F.pre self.now.nested) (F.post self.now.nested) }
        ensures { ReadsAs binders_of (with_limit self.now.limit spec.binders tokens.old) result tokens.new }
    {
        if tokens.sees(Sign::Open) {
            return Ok(Binders::Groups(self.groups(tokens)?));
        }
        let names = names(self.alloc, tokens)?;
        let colon = tokens.take(Sign::Colon)?;
        let ty = Box::new(self.alloc, self.inner(tokens, Rule::Whole)?)?;
        Ok(Binders::Names { names, colon, ty })
    }

    /// A type behind a `:`, where one stands next.
    #[tactic(auto, unfolding(crate::specs::Parse::annotation))]
    pub fn annotation(&self, tokens: &mut Tokens<'_>) -> Result<Annotation, Halt>
        requires { Nests self.now.limit (F.pre self.now.nested) (F.post self.now.nested) }
        ensures { ReadsAs annotation_of (with_limit self.now.limit spec.annotation tokens.old) result tokens.new }
    {
        if !tokens.sees(Sign::Colon) {
            return Ok(Annotation::Untyped);
        }
        let colon = tokens.take(Sign::Colon)?;
        let ty = Box::new(self.alloc, self.inner(tokens, Rule::Whole)?)?;
        Ok(Annotation::Typed { colon, ty })
    }
}
