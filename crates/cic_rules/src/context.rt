//! Contexts: hypotheses, the newest first.
ghost use Rattle.std.specs.Prelude.{◌≡◌, ◌^◌, ◌≤◌, ◌<◌, [], length, slice_get, IfOk};
ghost use Rattle.std.specs.Option.{option_copied};
ghost use Rattle.base_core.specs.Answers.{Gives};
ghost use Rattle.cic_rules.specs.Contexts.{extended, renamed, IsContext, IsHypAt};

use base_core::{Limit, NoMem, Stop, Text};
use core_term::Term;
use shared_map::SharedList;
use std::alloc::Global;
use std::marker::Model;

/// A name with a type, and perhaps a definition.
#[derive(Drop)]
pub struct Hyp {
    pub name: Text,
    pub ty: Term,
    pub value: Option<Term>,
}

/// The hypotheses of a judgement, which contracts see as a list, the newest first. A change gives
/// a new context, and the old one stays.
#[derive(Drop)]
pub struct Context {
    hyps: SharedList<Hyp>,
}

/// The greatest number of hypotheses.
const LEN_LIMIT: usize = 1 << 31;

impl Model for Context {
    ghost use Rattle.std.specs.Prelude.{List};
    ghost use Rattle.cic_rules.specs.declared.context.Hyp.{Hyp};
    ghost use Rattle.std.specs.Coded.{coded_list};
    ghost use Rattle.cic_rules.specs.contracts.context.Hyp as hyp;

    ghost Value = { List Hyp };

    ghost coded = { coded_list hyp.the_row.coded };

    ghost view = { λ c. c.hyps };

    ghost use Rattle.cic_rules.specs.Contexts.{IsContext};

    ghost invariant = { λ c. IsContext c.hyps };
}

impl Context {
    pub fn empty() -> Context
        ensures { result ≡ [] }
    {
        Context {
            hyps: SharedList::empty(),
        }
    }

    pub fn len(&self) -> u32
        ensures count { result ≡ length self.now }
        ensures context { IsContext self.now }
    {
        let _hyps = &self.hyps;
        self.hyps.len() as u32
    }

    /// The hypothesis that the variable `i` means: 0 is the newest.
    pub fn get(&self, i: u32) -> Option<&Hyp>
        ensures hyp { option_copied result ≡ slice_get self.now i }
        ensures context { IsContext self.now }
    {
        self.hyps.get(i as usize)
    }

    /// The same context once more, in one step.
    pub fn share(&self) -> Result<Context, NoMem>
        ensures { IfOk result (λ c. c ≡ self.now) }
    {
        let hyps = self.hyps.share()?;
        Ok(Context { hyps })
    }

    /// The context with another name for the hypothesis `i`.
    #[tactic(auto, using(crate::proofs::ContextLaws::set_renamed, crate::proofs::ContextLaws::is_context_renamed))]
    pub fn rename(&self, alloc: Global, i: u32, name: Text) -> Result<Context, NoMem>
        requires { i < length self.now }
        ensures { IfOk result (λ c. c ≡ renamed self.now i name) }
    {
        let Some(hyp) = self.hyps.get(i as usize) else {
            unreachable!()
        };
        let value = share_value(&hyp.value)?;
        let ty = hyp.ty.share()?;
        let hyps = self
            .hyps
            .with_set(alloc, i as usize, Hyp { name, ty, value })?;
        Ok(Context { hyps })
    }

    /// The context with a newer hypothesis, unless it has 2^31 of them.
    pub fn with(&self, alloc: Global, h: Hyp) -> Result<Context, Stop>
        requires { IsHypAt (length self.now) h }
        ensures { Gives result (extended self.now h) }
    {
        if self.hyps.len() >= LEN_LIMIT {
            return Err(Stop::Out(Limit::SizeLimit));
        }
        let hyps = self.hyps.with_first(alloc, h)?;
        Ok(Context { hyps })
    }
}

fn share_value(value: &Option<Term>) -> Result<Option<Term>, NoMem>
    ensures { IfOk result (λ v. v ≡ value.now) }
{
    match value {
        Some(value) => Ok(Some(value.share()?)),
        None => Ok(None),
    }
}
