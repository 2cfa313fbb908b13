//! Sentences of documents are finished: where units are granted, or while nothing comes.
ghost use Rattle.std.specs.Prelude.{◌≡◌, ◌<◌, length};
ghost use Rattle.prover_iface.specs.Exec.{Worked};
ghost use Rattle.doc_check.specs.Check.{views};
ghost use Rattle.sched_core.specs.Step.{Makes};
ghost use Rattle.sched_core.specs.Work.{grant, grant_at, run_at, idle};

use crate::Written;
use crate::lookup::{first_unended, place_of};
use crate::replies::{refuse, silent, written};
use crate::sched::Sched;
use base_core::{NoMem, Steps};
use prover_iface::Prover;
use std::alloc::Global;
use std::sync::ledger::Ledger;

impl<P: Prover> Sched<P> {
    /// Units for the document at a place.
    fn grant_at<C: Ledger>(
        &mut self,
        alloc: Global,
        place: usize,
        units: u32,
        steps: &mut Steps<C>,
    ) -> Result<Written, NoMem>
        requires { place < length self.old.documents }
        ensures made { Makes (grant_at (views P.means) units place self.old) result self.new }
        ensures work { Worked (grant_at (views P.means) units place self.old).work steps.old steps.new result }
    {
        if self.document(place).is_ended() {
            return Ok(silent(alloc));
        }
        let before = self.document(place).done();
        self.spend_at(alloc, place, units, steps)?;
        let mut bodies = self.progress_at(alloc, place, before)?;
        self.answer_ready(alloc, place, &mut bodies)?;
        Ok(written(bodies))
    }

    /// Units for a document.
    pub(crate) fn grant<C: Ledger>(
        &mut self,
        alloc: Global,
        uri: &str,
        units: u32,
        steps: &mut Steps<C>,
    ) -> Result<Written, NoMem>
        ensures made { Makes (grant (views P.means) uri.now units self.old) result self.new }
        ensures work { Worked (grant (views P.means) uri.now units self.old).work steps.old steps.new result }
    {
        match place_of(self.documents(), uri) {
            Some(place) => self.grant_at(alloc, place, units, steps),
            None => refuse(alloc, "unknown document"),
        }
    }

    /// The document at a place takes the sentences that are kept. Then its next sentence is finished, if there is one.
    fn run_at<C: Ledger>(
        &mut self,
        alloc: Global,
        place: usize,
        steps: &mut Steps<C>,
    ) -> Result<Written, NoMem>
        requires { place < length self.old.documents }
        ensures made { Makes (run_at (views P.means) place self.old) result self.new }
        ensures work { Worked (run_at (views P.means) place self.old).work steps.old steps.new result }
    {
        self.run_next_at(alloc, place, steps)?;
        let mut bodies = self.pair_at(alloc, place)?;
        self.answer_ready(alloc, place, &mut bodies)?;
        Ok(written(bodies))
    }

    /// The step where nothing came.
    pub(crate) fn idle<C: Ledger>(
        &mut self,
        alloc: Global,
        steps: &mut Steps<C>,
    ) -> Result<Written, NoMem>
        ensures made { Makes (idle (views P.means) self.old) result self.new }
        ensures work { Worked (idle (views P.means) self.old).work steps.old steps.new result }
    {
        if self.is_paced() || self.all_ended() {
            return Ok(silent(alloc));
        }
        match first_unended(self.documents()) {
            Some(place) => self.run_at(alloc, place, steps),
            None => Ok(silent(alloc)),
        }
    }
}
