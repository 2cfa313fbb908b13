//! Whole sessions.
ghost use Rattle.std.specs.Prelude.{◌≡◌, ◌≢◌, ◌⊎◌, ◌≤◌, ℕ, List, Some, Ok};
ghost use Rattle.std.specs.Result.{IsErrOf};
ghost use Rattle.base_core.specs.declared.limits.TheConstants.{SESSION_LIMIT};
ghost use Rattle.base_core.specs.Faults.{Rose};
ghost use Rattle.base_core.specs.Writes.{IsCalmWrite};
ghost use Rattle.lsp_session.specs.Rules.{counted, counting};
ghost use Rattle.lsp_session.specs.Calls.{IsCalmEnd};
ghost use Rattle.lsp_session.specs.Serves.{ServesFrom, ServesWhole, IsFront};
ghost use Rattle.lsp_session.specs.Served.{SessionServes};
ghost use Rattle.lsp_session.specs.Causes.{HasCauses};
ghost use Rattle.lsp_session.specs.Status.{IsStatus};

use crate::endings::{Ending, number};
use crate::machine::{Machine, Server};
use crate::turns::{Turn, most_asked, take_turn};
use base_core::{Halt, Link, POLL_LIMIT, SESSION_LIMIT, Sink, Status, Steps};
use prover_iface::Prover;
use rpc_frames::Frames;
use sched_core::Sched;
use std::alloc::Global;
use std::sync::ledger::Ledger;

/// One turn after another, until one ends the session or as many bytes came as it takes.
fn take_turns<L: Link, S: Sink, M: Machine, C: Ledger>(
    alloc: Global,
    link: &mut L,
    out: &mut S,
    machine: &mut M,
    limit: u64,
    steps: &mut Steps<C>,
) -> Result<Ending, Halt>
    ensures serves { ServesFrom (counting M.rules) limit (counted (M.plain machine.old) steps.old) result
        (counted (M.plain machine.new) steps.new)
        (S.written out.old) (S.written out.new) (L.polls link.old) (L.polls link.new) }
    ensures link { result ≡ Ok Ending.LinkFailed → Rose (L.faults link.old) (L.faults link.new) }
    ensures polled { IsCalmEnd result (L.faults link.old) (L.faults link.new) }
    ensures sink { IsErrOf result Halt.SinkFailed → Rose (S.faults out.old) (S.faults out.new) }
    ensures calm { IsCalmWrite result (S.faults out.old) (S.faults out.new) }
{
    let mut reader = Frames::new(alloc);
    let mut taken = 0;
    let mut piece = [0u8; POLL_LIMIT];
    while taken < limit {
        let buf = &mut piece[..most_asked(limit, taken)];
        match take_turn(
            alloc,
            link,
            out,
            machine,
            &mut reader,
            limit,
            &mut taken,
            buf,
            steps,
        ) {
            Ok(Turn::On) => {}
            Ok(Turn::Over(ending)) => return Ok(ending),
            Ok(Turn::Failed) => return Ok(Ending::LinkFailed),
            Err(halt) => return Err(halt),
        }
    }
    Ok(Ending::TakenLimit)
}

/// A session over a machine, to its exit status.
fn conduct<L: Link, S: Sink, M: Machine, C: Ledger>(
    alloc: Global,
    link: &mut L,
    out: &mut S,
    machine: &mut M,
    limit: u64,
    steps: &mut Steps<C>,
) -> u8
    ensures whole { result ≢ 4 → result ≢ 5 →
        ServesWhole (counting M.rules) limit (counted (M.plain machine.old) steps.old) result
        (counted (M.plain machine.new) steps.new)
        (S.written out.old) (S.written out.new) (L.polls link.old) (L.polls link.new) }
    ensures cut { (result ≡ 4) ⊎ (result ≡ 5) → (bytes : List ℕ) → S.written out.old ≡ Some bytes →
        IsFront (counting M.rules) limit (counted (M.plain machine.old) steps.old) steps.new
        (S.written out.old) (S.written out.new) (L.polls link.old) (L.polls link.new) }
    ensures link { result ≡ 3 → Rose (L.faults link.old) (L.faults link.new) }
    ensures polled { result ≢ 3 → L.faults link.new ≡ L.faults link.old }
    ensures sink { result ≡ 5 → Rose (S.faults out.old) (S.faults out.new) }
    ensures put { result ≢ 5 → S.faults out.new ≡ S.faults out.old }
    ensures known { IsStatus result }
{
    number(take_turns(alloc, link, out, machine, limit, steps))
}

/// Serves documents over a link and a sink until so many bytes came, and answers the exit status. A paced session
/// waits at each poll and runs sentences where units are granted; another waits only where every open text is ended,
/// and runs them while nothing comes.
pub fn serve_within<L: Link, S: Sink, P: Prover, C: Ledger>(
    alloc: Global,
    link: &mut L,
    out: &mut S,
    paced: bool,
    prover: P,
    limit: u64,
    steps: &mut Steps<C>,
) -> u8
    requires { limit ≤ SESSION_LIMIT }
    // What was written is what the plain session's run over the polls of this call writes, the status is its end, and
    // the work that was counted is that of the run. At 4 and 5 it is a first part of that, which holds all that the
    // run without the last poll writes, by no more work.
    ensures serves { SessionServes P.means paced limit result steps.old steps.new
        (S.written out.old) (S.written out.new) (L.polls link.old) (L.polls link.new) }

    // Each other status comes exactly where the polls of this call brought its cause.
    ensures causes { result ≢ 4 → result ≢ 5 → HasCauses limit result (L.polls link.old) (L.polls link.new) }

    // 3 and 5 come exactly where the link and the sink count a fault more.
    ensures link { result ≡ 3 → Rose (L.faults link.old) (L.faults link.new) }
    ensures polled { result ≢ 3 → L.faults link.new ≡ L.faults link.old }
    ensures sink { result ≡ 5 → Rose (S.faults out.old) (S.faults out.new) }
    ensures put { result ≢ 5 → S.faults out.new ≡ S.faults out.old }
    ensures known { IsStatus result }
{
    match Sched::new(alloc, prover, paced, steps) {
        Ok(sched) => {
            let mut server = Server { sched };
            conduct(alloc, link, out, &mut server, limit, steps)
        }
        Err(_) => Status::OutOfMemory.number(),
    }
}

/// The same, until as many bytes came as a session takes.
pub fn serve<L: Link, S: Sink, P: Prover, C: Ledger>(
    alloc: Global,
    link: &mut L,
    out: &mut S,
    paced: bool,
    prover: P,
    steps: &mut Steps<C>,
) -> u8
    ensures serves { SessionServes P.means paced SESSION_LIMIT result steps.old steps.new
        (S.written out.old) (S.written out.new) (L.polls link.old) (L.polls link.new) }
    ensures causes { result ≢ 4 → result ≢ 5 → HasCauses SESSION_LIMIT result (L.polls link.old) (L.polls link.new) }
    ensures link { result ≡ 3 → Rose (L.faults link.old) (L.faults link.new) }
    ensures polled { result ≢ 3 → L.faults link.new ≡ L.faults link.old }
    ensures sink { result ≡ 5 → Rose (S.faults out.old) (S.faults out.new) }
    ensures put { result ≢ 5 → S.faults out.new ≡ S.faults out.old }
    ensures known { IsStatus result }
{
    serve_within(alloc, link, out, paced, prover, SESSION_LIMIT, steps)
}
