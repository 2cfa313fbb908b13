//! The state before any sentence, which the prelude leaves.
ghost use Rattle.std.specs.Prelude.{◌≡◌, ◌^◌, ◌<◌, All, length, IfOk};
ghost use Rattle.prover_iface.specs.Exec.{Worked};
ghost use Rattle.sentence_split.specs.Within.{IsSpanOf};
ghost use Rattle.vernac_exec.specs.Exec.{after, cost};
ghost use Rattle.cic_prover.specs.First.{sentence_at, sentences_at, after_all, cost_of, first, first_cost};

use crate::prelude::prelude;
use base_core::{COST_LIMIT, NoMem, Steps};
use cic_rules::GlobalEnv;
use prover_iface::Outcome;
use sentence_split::{Span, split};
use std::alloc::Global;
use std::sync::ledger::Ledger;
use vernac_exec::{ProverState, exec_sentence};

/// Runs the sentence at a place of a text, whatever it costs.
fn run_span<C: Ledger>(
    alloc: Global,
    state: &ProverState,
    text: &str,
    span: &Span,
    steps: &mut Steps<C>,
) -> Result<ProverState, NoMem>
    requires short { length text.now < 2 ^ 32 }
    requires span { IsSpanOf text.now span.now }
    ensures state { IfOk result (λ m. m ≡ after state.now (sentence_at text.now span.now)) }
    ensures work { Worked (cost state.now (sentence_at text.now span.now)) steps.old steps.new result }
{
    let sentence = &text[span.from as usize..span.to as usize];
    match exec_sentence(alloc, state, span.kind, sentence, COST_LIMIT, steps)? {
        Outcome::Done {
            state,
            diags: _,
            cost: _,
        } => Ok(state),
        Outcome::Interrupted => unreachable!(),
    }
}

/// Runs the sentences at these places of a text, one after another.
fn run_all<C: Ledger>(
    alloc: Global,
    state: ProverState,
    text: &str,
    spans: &[Span],
    steps: &mut Steps<C>,
) -> Result<ProverState, NoMem>
    requires short { length text.now < 2 ^ 32 }
    requires spans { All (IsSpanOf text.now) spans.now }
    ensures state { IfOk result (λ m. m ≡ after_all state (sentences_at text.now spans.now)) }
    ensures work { Worked (cost_of state (sentences_at text.now spans.now)) steps.old steps.new result }
{
    let mut state = state;
    for span in spans {
        match run_span(alloc, &state, text, span, steps) {
            Ok(next) => state = next,
            Err(error) => return Err(error),
        }
    }
    Ok(state)
}

/// The state before any sentence: what the prelude declares is in its environment alone.
#[tactic(auto, unfolding(crate::specs::First::first, crate::specs::First::first_cost, crate::specs::First::prelude_sentences))]
pub fn first<C: Ledger>(alloc: Global, steps: &mut Steps<C>) -> Result<ProverState, NoMem>
    ensures state { IfOk result (λ m. m ≡ first) }
    ensures work { Worked first_cost steps.old steps.new result }
{
    let text = prelude();
    let spans = split(alloc, text)?;
    let state = ProverState::over(GlobalEnv::empty());
    let state = run_all(alloc, state, text, spans.as_slice(), steps)?;
    Ok(ProverState::over(state.env().share()?))
}
