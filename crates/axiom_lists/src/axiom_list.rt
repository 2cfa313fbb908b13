//! The axioms of one global.
ghost use Rattle.std.specs.Prelude.{◌≡◌, [], ◌∷◌, IfOk};
ghost use Rattle.term_spine.specs.Globals.{IsAscending};
ghost use Rattle.cic_rules.specs.Infer.{union};

use base_core::{NoMem, NumberList};
use cic_rules::{has_all, union};
use std::alloc::Global;
use std::marker::Model;
use std::rc::Rc;

/// The places of assumptions and admitted theorems, ascending, each once. Globals that rest on the same ones
/// share one list.
#[derive(Drop)]
pub struct AxiomList {
    places: Rc<NumberList>,
}

impl Model for AxiomList {
    ghost use Rattle.std.specs.Prelude.{ℕ, List};
    ghost use Rattle.term_spine.specs.Globals.{IsAscending};

    ghost Value = { List ℕ };

    ghost view = { λ s. s.places.value };

    ghost invariant = { λ s. IsAscending s.places.value };
}

impl AxiomList {
    /// No axioms.
    pub(crate) fn empty(alloc: Global) -> Result<AxiomList, NoMem>
        ensures { IfOk result (λ s. s ≡ []) }
    {
        let places = Rc::new(alloc, NumberList::new(alloc))?;
        Ok(AxiomList { places })
    }

    /// One axiom.
    pub(crate) fn one(alloc: Global, place: u32) -> Result<AxiomList, NoMem>
        ensures { IfOk result (λ s. s ≡ place ∷ []) }
    {
        let places = Rc::new(alloc, NumberList::copy(alloc, &[place])?)?;
        Ok(AxiomList { places })
    }

    /// The same list once more, by one more count.
    pub(crate) fn share(&self) -> Result<AxiomList, NoMem>
        ensures { IfOk result (λ s. s ≡ self.now) }
    {
        let places = self.places.clone()?;
        Ok(AxiomList { places })
    }

    /// The axioms of both. Where one list has each place of the other, it is the answer, and nothing is copied.
    #[tactic(auto, using(cic_rules::proofs::UniteLaws::union_is_second, cic_rules::proofs::UniteLaws::union_is_first, cic_rules::proofs::UniteLaws::ascending_union))]
    pub(crate) fn with(self, alloc: Global, other: AxiomList) -> Result<AxiomList, NoMem>
        ensures { IfOk result (λ s. s ≡ union self other) }
    {
        if self.places.len() <= other.places.len() && has_all(&other.places, &self.places) {
            return Ok(other);
        }
        if other.places.len() < self.places.len() && has_all(&self.places, &other.places) {
            return Ok(self);
        }
        let places = Rc::new(alloc, union(alloc, &self.places, &other.places)?)?;
        Ok(AxiomList { places })
    }

    /// The places.
    pub fn as_slice(&self) -> &[u32]
        ensures places { result.now ≡ self.now }
        ensures ascending { IsAscending self.now }
    {
        self.places.as_slice()
    }
}
