//! The prover, as every prover is called.
ghost use Rattle.vernac_exec.specs.declared.state.State.{State};
ghost use Rattle.cic_prover.specs.Exec.{means};

use crate::first::first;
use base_core::{Kind, NoMem, Steps};
use prover_iface::{GoalsView, Outcome, OutlineList, Prover};
use std::alloc::Global;
use std::sync::ledger::Ledger;
use vernac_exec::{ProverState, exec_sentence};

/// The prover of documents in a fragment of the Rocq vernacular.
#[derive(Clone, Copy, Debug)]
pub struct CicProver;

impl CicProver {
    pub fn new() -> CicProver {
        CicProver
    }
}

impl Prover for CicProver {
    type State = ProverState;

    ghost use Rattle.cic_prover.specs.Laws.{costs_fit, told_within, opened_past, declared_past};

    ghost Meaning = { State };

    ghost meaning = { λ s. s };

    ghost means = { means };

    ghost bounded = { costs_fit };

    ghost placed = { told_within };

    ghost opened_before = { opened_past };

    ghost declared_before = { declared_past };

    fn initial<C: Ledger>(
        &self,
        alloc: Global,
        steps: &mut Steps<C>,
    ) -> Result<ProverState, NoMem> {
        first(alloc, steps)
    }

    fn share(&self, state: &ProverState) -> Result<ProverState, NoMem> {
        state.share()
    }

    fn exec<C: Ledger>(
        &self,
        alloc: Global,
        state: &ProverState,
        kind: Kind,
        text: &str,
        units: u32,
        steps: &mut Steps<C>,
    ) -> Result<Outcome<ProverState>, NoMem> {
        exec_sentence(alloc, state, kind, text, units, steps)
    }

    fn left_open(&self, state: &ProverState) -> Option<u32> {
        state.left_open()
    }

    fn goals(&self, alloc: Global, state: &ProverState) -> Result<Option<GoalsView>, NoMem> {
        state.goals(alloc)
    }

    fn outline(&self, alloc: Global, state: &ProverState) -> Result<OutlineList, NoMem> {
        state.outline(alloc)
    }
}
