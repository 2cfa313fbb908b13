//! One sentence in a state, with so many units.
ghost use Rattle.std.specs.Prelude.{◌≡◌, ◌^◌, ◌<◌, ◌≤◌, length, IfOk};
ghost use Rattle.base_core.specs.Fit.{IsFit};
ghost use Rattle.prover_iface.specs.Exec.{Works};
ghost use Rattle.prover_iface.specs.Sentences.{sentence};
ghost use Rattle.vernac_exec.specs.Answers.{AnswersSentence, is_want, is_starved};
ghost use Rattle.vernac_exec.specs.Exec.{cost};
ghost use Rattle.vernac_exec.specs.Laws.{grant};

use crate::deed::Deed;
use crate::diagnostics::diagnostics_of;
use crate::reading::read;
use crate::sentences::run_read;
use crate::state::ProverState;
use base_core::{Kind, Limit, NoMem, Steps, Stop, UNIT_LIMIT};
use cic_kernel::Kernel;
use cic_rules::Fuel;
use prover_iface::Outcome;
use std::alloc::Global;
use std::sync::ledger::Ledger;

/// Runs a sentence with so many units. It is done exactly where its cost is at most these: one run,
/// with no more than them, tells it.
pub fn exec_sentence<C: Ledger>(
    alloc: Global,
    state: &ProverState,
    kind: Kind,
    text: &str,
    units: u32,
    steps: &mut Steps<C>,
) -> Result<Outcome<ProverState>, NoMem>
    requires fit { IsFit kind text.now }
    requires short { length text.now < 2 ^ 32 }
    ensures answer { IfOk result (AnswersSentence state.now (sentence kind text.now) units) }
    ensures work { Works (cost state.now (sentence kind text.now)) units steps.old steps.new result }
{
    if units == 0 {
        return Ok(Outcome::Interrupted);
    }
    let grant = grant_of(units);
    let mut fuel = Fuel::new(grant);
    let reading = read(alloc, kind, text);
    let inner = &state.state;
    let answer = run_read(
        &Kernel {},
        alloc,
        &inner.env,
        &inner.opened,
        &reading,
        &mut fuel,
    );
    let cost = fuel.spent() + 1;
    if is_want(&answer) {
        return Err(NoMem);
    }
    if is_starved(&answer, grant) {
        steps.rise(units as u64);
        return Ok(Outcome::Interrupted);
    }
    let diags = diagnostics_of(alloc, text, &answer)?;
    let state = state.behind(alloc, &reading, answer)?;
    steps.rise(cost as u64);
    Ok(Outcome::Done { state, diags, cost })
}

/// What a sentence may spend of some units: one is its own.
fn grant_of(units: u32) -> u32
    requires { 1 ≤ units }
    ensures { result ≡ grant units }
{
    (units - 1).min(UNIT_LIMIT)
}

/// Whether memory ran out.
fn is_want(answer: &Result<Deed, Stop>) -> bool
    ensures { result ≡ is_want answer.now }
{
    match answer {
        Err(Stop::NoMem) => true,
        _ => false,
    }
}

/// Whether it ended for want of units, with fewer than a sentence may have.
fn is_starved(answer: &Result<Deed, Stop>, grant: u32) -> bool
    ensures { result ≡ is_starved answer.now grant }
{
    match answer {
        Err(Stop::Out(Limit::StepLimit)) => grant < UNIT_LIMIT,
        _ => false,
    }
}
