//! What a session drives.
ghost use Rattle.std.specs.Prelude.{◌≡◌, ℕ, OnOk};
ghost use Rattle.prover_iface.specs.Exec.{Worked};
ghost use Rattle.sched_core.specs.Step.{Makes};
ghost use Rattle.lsp_session.specs.Rules.{Rules};
ghost use Rattle.lsp_session.specs.Calls.{LeavesIdle};

use base_core::{NoMem, Steps};
use prover_iface::Prover;
use sched_core::{Event, Sched, Written};
use std::alloc::Global;
use std::sync::ledger::Ledger;

/// What a session drives: it takes a message or a while without one, and gives the bodies that are then due. The
/// rules of its steps name no value of it: they are the same for each.
pub(crate) trait Machine {
    /// What a machine is, for contracts.
    ghost Plain: { Type 0 };

    ghost plain: { Self → Plain };

    ghost rules: { Rules Plain };

    /// How many steps it can still take without a message.
    ghost left: { Self → ℕ };

    /// The step of an event.
    fn step<C: Ledger>(
        &mut self,
        alloc: Global,
        event: Event,
        steps: &mut Steps<C>,
    ) -> Result<Written, NoMem>
        ensures made { Makes (rules.step (plain self.old) event) result (plain self.new) }
        ensures work { Worked (rules.step (plain self.old) event).work steps.old steps.new result }
        ensures idles { OnOk result (LeavesIdle event (rules.waits (plain self.old)) (left self.old) (left self.new)) };

    /// Whether nothing is to be done until something comes.
    fn waits(&self) -> bool
        ensures { result ≡ rules.waits (plain self.now) };
}

/// The documents that are served.
#[derive(Drop)]
pub(crate) struct Server<P: Prover> {
    pub(crate) sched: Sched<P>,
}

impl<P: Prover> Machine for Server<P> {
    ghost use Rattle.doc_check.specs.Check.{views};
    ghost use Rattle.sched_core.specs.Session.{Session, idles};
    ghost use Rattle.lsp_session.specs.Served.{rules};

    ghost Plain = { Session };

    ghost plain = { λ s. s.sched };

    ghost rules = { rules (views P.means) };

    ghost left = { λ s. idles s.sched };

    fn step<C: Ledger>(
        &mut self,
        alloc: Global,
        event: Event,
        steps: &mut Steps<C>,
    ) -> Result<Written, NoMem> {
        self.sched.step(alloc, event, steps)
    }

    fn waits(&self) -> bool {
        self.sched.is_paced() || self.sched.all_ended()
    }
}
