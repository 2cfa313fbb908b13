//! The trait of provers: one sentence at a time.
ghost use Rattle.std.specs.Prelude.{◌≡◌, ℕ, ◌+◌, ◌^◌, ◌<◌, ◌≤◌, Option, List, All, length, IfOk, IfSome, MatchResult};
ghost use Rattle.base_core.specs.Fit.{IsFit};
ghost use Rattle.base_core.specs.declared.limits.TheConstants.{COST_LIMIT};
ghost use Rattle.prover_iface.specs.Sentences.{Sentence, sentence};
ghost use Rattle.prover_iface.specs.Meanings.{Meanings, state_behind};
ghost use Rattle.prover_iface.specs.Exec.{Answers, Works, Worked};
ghost use Rattle.prover_iface.specs.Laws.{TellsWithin, IsPast};

use crate::{DiagList, GoalsView, OutlineList};
use base_core::{Kind, NoMem, Steps};
use std::alloc::Global;
use std::sync::ledger::Ledger;

/// What became of a sentence.
#[derive(Debug, Drop)]
pub enum Outcome<S> {
    /// It ran to its end: the state behind it, what is told of it, and its cost in units.
    Done {
        state: S,
        diags: DiagList,
        cost: u32,
    },
    /// The units that were handed in didn't suffice, and nothing came of it.
    Interrupted,
}

/// A prover. Its meanings name no value of it: they are the same for each of its values.
pub trait Prover: Drop {
    /// What is kept from one sentence to the next. An old state stays as it was.
    type State: Drop;

    /// What a state is, for contracts.
    ghost Meaning: { Type 0 };

    ghost meaning: { Self.State → Meaning };

    /// The first state, and what comes of a sentence and of a state.
    ghost means: { Meanings Meaning };

    /// The state before any sentence.
    fn initial<C: Ledger>(&self, alloc: Global, steps: &mut Steps<C>) -> Result<Self::State, NoMem>
        ensures first { IfOk result (λ s. meaning s ≡ means.first) }
        ensures work { Worked means.first_cost steps.old steps.new result };

    /// The same state once more.
    fn share(&self, state: &Self::State) -> Result<Self::State, NoMem>
        ensures { IfOk result (λ s. meaning s ≡ meaning state.now) };

    /// Runs a sentence with so many units. It is done exactly where its cost is at most these.
    fn exec<C: Ledger>(
        &self,
        alloc: Global,
        state: &Self::State,
        kind: Kind,
        text: &str,
        units: u32,
        steps: &mut Steps<C>,
    ) -> Result<Outcome<Self::State>, NoMem>
        requires fit { IsFit kind text.now }
        requires short { length text.now < 2 ^ 32 }
        ensures answer { IfOk result (Answers meaning means (meaning state.now) (sentence kind text.now) units) }
        ensures work { Works (means.cost (meaning state.now) (sentence kind text.now)) units
            steps.old steps.new result };

    /// The number of the sentence that began the proof under way.
    fn left_open(&self, state: &Self::State) -> Option<u32>
        ensures { result ≡ means.opened (meaning state.now) };

    /// The goals of the proof under way.
    fn goals(&self, alloc: Global, state: &Self::State) -> Result<Option<GoalsView>, NoMem>
        ensures { IfOk result (λ goals. goals ≡ means.goals_of (meaning state.now)) };

    /// The declarations so far.
    fn outline(&self, alloc: Global, state: &Self::State) -> Result<OutlineList, NoMem>
        ensures { IfOk result (λ outline. outline ≡ means.outline_of (meaning state.now)) };

    /// No sentence costs more than that.
    ghost bounded: { (m : Meaning) (s : Sentence) → means.cost m s ≤ COST_LIMIT };

    /// What is told of a sentence stands at whole characters of it, where its offsets can be told.
    ghost placed: { TellsWithin means.diagnosed };

    /// The numbers that are answered are those of sentences before.
    ghost opened_before: { (ss : List Sentence) → IfSome (means.opened (state_behind means ss)) (λ n. n < length ss) };

    ghost declared_before: { (ss : List Sentence) → All (IsPast (length ss)) (means.outline_of (state_behind means ss)) };
}
