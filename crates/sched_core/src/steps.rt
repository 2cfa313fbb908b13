//! One step of a session.
ghost use Rattle.std.specs.Prelude.{◌≡◌, OnOk};
ghost use Rattle.prover_iface.specs.Exec.{Worked};
ghost use Rattle.doc_check.specs.Check.{views};
ghost use Rattle.sched_core.specs.Step.{Makes};
ghost use Rattle.sched_core.specs.Plain.{step, IdlesLeft};

use crate::sched::Sched;
use crate::{Event, Written};
use base_core::{NoMem, Steps};
use prover_iface::Prover;
use std::alloc::Global;
use std::sync::ledger::Ledger;

impl<P: Prover> Sched<P> {
    /// The step of an event: that of the plain session.
    fn take<C: Ledger>(
        &mut self,
        alloc: Global,
        event: Event,
        steps: &mut Steps<C>,
    ) -> Result<Written, NoMem>
        ensures made { Makes (step (views P.means) self.old event) result self.new }
        ensures work { Worked (step (views P.means) self.old event).work steps.old steps.new result }
    {
        match event {
            Event::Message(message) => self.hear(alloc, message, steps),
            Event::Idle => self.idle(alloc, steps),
        }
    }

    /// The step of an event: that of the plain session. What is then due is to be written in order. Where it
    /// gives an exit it is the last. An idle step of a paced session, or where every open text is ended, gives
    /// no bodies and changes nothing.
    pub fn step<C: Ledger>(
        &mut self,
        alloc: Global,
        event: Event,
        steps: &mut Steps<C>,
    ) -> Result<Written, NoMem>
        ensures made { Makes (step (views P.means) self.old event) result self.new }
        ensures work { Worked (step (views P.means) self.old event).work steps.old steps.new result }
        ensures idles { OnOk result (IdlesLeft event self.old self.new) }
    {
        let _documents = self.documents();
        self.take(alloc, event, steps)
    }
}
