//! A context whose names are found by an index.
ghost use Rattle.std.specs.Prelude.{◌≡◌, ◌^◌, ◌≤◌, length, IfOk};
ghost use Rattle.base_core.specs.Answers.{Gives};
ghost use Rattle.cic_rules.specs.Contexts.{extended, IsHypAt};
ghost use Rattle.elaborator.specs.Names.{index_of};
ghost use Rattle.elaborator.specs.Index.{IsIndex};

use base_core::{NoMem, Stop, Text};
use cic_rules::{Context, Hyp};
use shared_map::SharedMap;
use std::alloc::Global;
use std::marker::Model;

/// A context, which contracts see as its hypotheses, with an index of their names. A change gives a
/// new scope, and the old one stays.
#[derive(Drop)]
pub(crate) struct Scope {
    ctx: Context,
    /// For each name, how many hypotheses stand before the newest of that name.
    places: SharedMap<Text, u32>,
}

impl Model for Scope {
    ghost use Rattle.std.specs.Prelude.{List};
    ghost use Rattle.cic_rules.specs.declared.context.Hyp.{Hyp};
    ghost use Rattle.std.specs.Coded.{coded_list};
    ghost use Rattle.cic_rules.specs.contracts.context.Hyp as hyp;

    ghost Value = { List Hyp };

    ghost coded = { coded_list hyp.the_row.coded };

    ghost view = { λ s. s.ctx };

    ghost use Rattle.elaborator.specs.Index.{IsIndex};

    ghost invariant = { λ s. IsIndex s.places s.ctx };
}

impl Scope {
    /// A context with its index, in a time that grows as its length and little more.
    #[tactic(auto, using(crate::proofs::IndexLaws::index_more, crate::proofs::IndexLaws::index_none))]
    pub(crate) fn of(alloc: Global, ctx: &Context) -> Result<Scope, NoMem>
        ensures { IfOk result (λ s. s ≡ ctx.now) }
    {
        let places = index(alloc, ctx)?;
        let ctx = ctx.share()?;
        Ok(Scope { ctx, places })
    }

    pub(crate) fn len(&self) -> u32
        ensures count { result ≡ length self.now }
        ensures short { length self.now ≤ 2 ^ 31 }
    {
        self.ctx.len()
    }

    /// The same scope once more, in one step.
    pub(crate) fn share(&self) -> Result<Scope, NoMem>
        ensures { IfOk result (λ s. s ≡ self.now) }
    {
        let ctx = self.ctx.share()?;
        let places = self.places.share()?;
        Ok(Scope { ctx, places })
    }

    pub(crate) fn context(&self) -> &Context
        ensures { result.now ≡ self.now }
    {
        &self.ctx
    }

    /// The newest hypothesis of a name, counted from the newest of all, in a time that is
    /// logarithmic in their number.
    #[tactic(auto, using(crate::proofs::IndexLaws::found, crate::proofs::IndexLaws::not_found))]
    pub(crate) fn find(&self, name: &Text) -> Option<u32>
        ensures { result ≡ index_of self.now name.now }
    {
        match self.places.get(name) {
            Some(before) => Some(self.ctx.len() - 1 - *before),
            None => None,
        }
    }

    /// The scope with a newer hypothesis, unless it has 2^31 of them.
    #[tactic(auto, using(crate::proofs::IndexLaws::index_more))]
    pub(crate) fn with(&self, alloc: Global, h: Hyp) -> Result<Scope, Stop>
        requires { IsHypAt (length self.now) h }
        ensures { Gives result (extended self.now h) }
    {
        let name = h.name.share()?;
        let before = self.ctx.len();
        let ctx = self.ctx.with(alloc, h)?;
        let places = self.places.with(alloc, name, before)?;
        Ok(Scope { ctx, places })
    }
}

/// For each name, how many hypotheses stand before the newest of that name.
#[tactic(auto, using(crate::proofs::IndexLaws::index_more, crate::proofs::IndexLaws::index_none))]
fn index(alloc: Global, ctx: &Context) -> Result<SharedMap<Text, u32>, NoMem>
    ensures { IfOk result (λ places. IsIndex places ctx.now) }
{
    let count = ctx.len();
    let mut places = SharedMap::empty();
    for before in 0..count {
        let Some(hyp) = ctx.get(count - 1 - before) else {
            unreachable!()
        };
        places = places.with(alloc, hyp.name.share()?, before)?;
    }
    Ok(places)
}
