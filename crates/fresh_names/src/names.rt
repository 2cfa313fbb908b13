//! Names that are taken.
ghost use Rattle.std.specs.Prelude.{◌≡◌, [], ◌∷◌, length, IfOk};
ghost use Rattle.cic_rules.specs.Eliminators.{has_name};
ghost use Rattle.fresh_names.specs.Shown.{shown_names, with_shown};

use base_core::{NoMem, Text};
use cic_rules::Context;
use shared_map::{SharedList, SharedMap};
use std::alloc::Global;
use std::marker::Model;

/// Names that are taken, which contracts see as a list, the newest first. A change gives new ones, and the old
/// ones stay.
#[derive(Drop)]
pub struct Names {
    names: SharedList<Text>,
    index: SharedMap<Text, ()>,
}

impl Model for Names {
    ghost use Rattle.std.specs.Prelude.{ℕ, List};

    ghost Value = { List (List ℕ) };

    ghost view = { λ s. s.names };

    ghost use Rattle.fresh_names.specs.Index.{IsIndex};

    ghost invariant = { λ s. IsIndex s.index s.names };
}

impl Names {
    /// The names of a context's hypotheses.
    pub fn of(alloc: Global, ctx: &Context) -> Result<Names, NoMem>
        ensures { IfOk result (λ s. s ≡ shown_names ctx.now) }
    {
        let mut names = Names::empty();
        let mut at = ctx.len();
        while at > 0 {
            at -= 1;
            let Some(hyp) = ctx.get(at) else {
                unreachable!()
            };
            names = names.with_shown(alloc, &hyp.name)?;
        }
        Ok(names)
    }

    /// These names with that of one more hypothesis.
    pub fn with_shown(&self, alloc: Global, name: &Text) -> Result<Names, NoMem>
        ensures { IfOk result (λ s. s ≡ with_shown name.now self.now) }
    {
        if name.as_str() == "_" {
            return self.share();
        }
        self.with(alloc, name)
    }

    pub fn share(&self) -> Result<Names, NoMem>
        ensures { IfOk result (λ s. s ≡ self.now) }
    {
        let names = self.names.share()?;
        let index = self.index.share()?;
        Ok(Names { names, index })
    }

    pub fn empty() -> Names
        ensures { result ≡ [] }
    {
        Names {
            names: SharedList::empty(),
            index: SharedMap::empty(),
        }
    }

    /// These names with one more.
    pub fn with(&self, alloc: Global, name: &Text) -> Result<Names, NoMem>
        ensures { IfOk result (λ s. s ≡ name.now ∷ self.now) }
    {
        let index = self.index.with(alloc, name.share()?, ())?;
        let names = self.names.with_first(alloc, name.share()?)?;
        Ok(Names { names, index })
    }

    pub fn len(&self) -> usize
        ensures { result ≡ length self.now }
    {
        self.names.len()
    }

    /// Whether the name is taken, in a time that is logarithmic in the number of names.
    pub fn has(&self, name: &Text) -> bool
        ensures { result ≡ has_name self.now name.now }
    {
        self.index.get(name).is_some()
    }
}
