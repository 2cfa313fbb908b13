//! Sentences: what they are read as is obeyed, where a proof is under way and where none is.
ghost use Rattle.std.specs.Prelude.{IfOk};
ghost use Rattle.cic_rules.specs.Fuel.{IsSpentOf};
ghost use Rattle.proof_state.specs.Scopes.{HaveGoalsIn};
ghost use Rattle.vernac_exec.specs.Standing.{HaveGoals, IsDeedIn};
ghost use Rattle.vernac_exec.specs.Calls.{Does, run_outside_with, run_inside_with, run_reading_with, run_read_with};

use crate::commands::obey;
use crate::deed::Deed;
use crate::entering::refusal;
use crate::proving::{obey_inside, prove, refocused};
use crate::reading::Reading;
use crate::state::OpenProof;
use base_core::Stop;
use base_core::refusal_codes::NO_PROOF;
use cic_rules::{Declares, Fuel, GlobalEnv};
use std::alloc::Global;

/// Where no proof is under way.
fn run_outside<D: Declares>(
    judge: &D,
    alloc: Global,
    env: &GlobalEnv,
    reading: &Reading,
    fuel: &mut Fuel,
) -> Result<Deed, Stop>
    ensures answer { Does result fuel.old fuel.new (run_outside_with env.now reading.now) }
    ensures deed { IfOk result (IsDeedIn env.now) }
    ensures kept { IsSpentOf fuel.old fuel.new }
{
    match reading {
        Reading::Command(command) => obey(judge, alloc, env, command, fuel),
        Reading::Move(_) => Err(refusal(NO_PROOF)),
        Reading::Bullet { .. } => Err(refusal(NO_PROOF)),
        Reading::OpenBrace => Err(refusal(NO_PROOF)),
        Reading::CloseBrace => Err(refusal(NO_PROOF)),
    }
}

/// In a proof under way.
#[tactic(auto, using(crate::proofs::ProvingLaws::after_bullet_small, crate::proofs::ProvingLaws::after_open_small, crate::proofs::ProvingLaws::after_close_small))]
fn run_inside<D: Declares>(
    judge: &D,
    alloc: Global,
    env: &GlobalEnv,
    open: &OpenProof,
    reading: &Reading,
    fuel: &mut Fuel,
) -> Result<Deed, Stop>
    requires { HaveGoalsIn env.now open.now.proof.goals }
    ensures answer { Does result fuel.old fuel.new (run_inside_with env.now open.now reading.now) }
    ensures deed { IfOk result (IsDeedIn env.now) }
    ensures kept { IsSpentOf fuel.old fuel.new }
{
    match reading {
        Reading::Command(command) => obey_inside(judge, alloc, env, open, command, fuel),
        Reading::Move(step) => prove(judge, alloc, env, open, step.form(), fuel),
        Reading::Bullet { mark, count } => {
            let step = open.focus.bullet(alloc, *mark, *count)?;
            refocused(alloc, env, open, step)
        }
        Reading::OpenBrace => {
            let step = open.focus.brace_open(alloc)?;
            refocused(alloc, env, open, step)
        }
        Reading::CloseBrace => {
            let step = open.focus.brace_close(alloc)?;
            refocused(alloc, env, open, step)
        }
    }
}

fn run_reading<D: Declares>(
    judge: &D,
    alloc: Global,
    env: &GlobalEnv,
    opened: &Option<OpenProof>,
    reading: &Reading,
    fuel: &mut Fuel,
) -> Result<Deed, Stop>
    requires { HaveGoals env.now opened.now }
    ensures answer { Does result fuel.old fuel.new (run_reading_with env.now opened.now reading.now) }
    ensures deed { IfOk result (IsDeedIn env.now) }
    ensures kept { IsSpentOf fuel.old fuel.new }
{
    match opened {
        Some(open) => run_inside(judge, alloc, env, open, reading, fuel),
        None => run_outside(judge, alloc, env, reading, fuel),
    }
}

/// A sentence that was read so, or refused.
pub(crate) fn run_read<D: Declares>(
    judge: &D,
    alloc: Global,
    env: &GlobalEnv,
    opened: &Option<OpenProof>,
    reading: &Result<Reading, Stop>,
    fuel: &mut Fuel,
) -> Result<Deed, Stop>
    requires { HaveGoals env.now opened.now }
    ensures answer { Does result fuel.old fuel.new (run_read_with env.now opened.now reading.now) }
    ensures deed { IfOk result (IsDeedIn env.now) }
    ensures kept { IsSpentOf fuel.old fuel.new }
{
    match reading {
        Ok(reading) => run_reading(judge, alloc, env, opened, reading, fuel),
        Err(stop) => Err(*stop),
    }
}
