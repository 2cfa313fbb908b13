//! One poll, and all that it brings.
ghost use Rattle.std.specs.Prelude.{◌≡◌, ◌≢◌, ◌+◌, ◌++◌, ◌<◌, ◌≤◌, false, Ok, length, OnOk};
ghost use Rattle.std.specs.Result.{IsErrOf};
ghost use Rattle.base_core.specs.Faults.{Rose};
ghost use Rattle.base_core.specs.Writes.{IsCalmWrite};
ghost use Rattle.sched_core.specs.declared.events.Event.TheVariants as event;
ghost use Rattle.lsp_session.specs.Rules.{counted, counting};
ghost use Rattle.lsp_session.specs.Run.{Going, most_asked};
ghost use Rattle.lsp_session.specs.Calls.{Does, HearsAll, Turns, IsCalmTurn, after_bytes, after_idle, weight, weight_held};

use crate::endings::Ending;
use crate::machine::Machine;
use crate::messages::{Drained, drain, emit};
use base_core::{Halt, Link, POLL_LIMIT, Sink, Steps, Taken};
use rpc_frames::Frames;
use sched_core::{Event, Exit};
use std::alloc::Global;
use std::sync::ledger::Ledger;

/// What became of a poll.
#[derive(Clone, Copy, Debug, PartialEq, Eq)]
pub enum Turn {
    /// The session goes on.
    On,
    Over(Ending),
    /// The link failed.
    Failed,
}

/// Takes the bytes of a poll, and hears each message that they complete.
fn take_in<S: Sink, M: Machine, C: Ledger>(
    alloc: Global,
    machine: &mut M,
    reader: &mut Frames,
    out: &mut S,
    piece: &[u8],
    steps: &mut Steps<C>,
) -> Result<Drained, Halt>
    ensures drains { HearsAll (counting M.rules) (reader.old.bytes ++ piece.now)
        (counted (M.plain machine.old) steps.old) result
        (counted (M.plain machine.new) steps.new) reader.new.bytes (S.written out.old) (S.written out.new) }
    ensures few { let before = weight_held (length reader.old.bytes + length piece.now) (M.left machine.old) in
        OnOk result (weight_held (length reader.new.bytes) (M.left machine.new) ≤ before) }
    ensures calm { IsCalmWrite result (S.faults out.old) (S.faults out.new) }
    ensures failed { IsErrOf result Halt.SinkFailed → Rose (S.faults out.old) (S.faults out.new) }
{
    match reader.feed(piece) {
        Ok(()) => drain(alloc, machine, reader, out, steps),
        Err(_) => Err(Halt::NoMem),
    }
}

/// The step where nothing came.
fn idle<S: Sink, M: Machine, C: Ledger>(
    alloc: Global,
    machine: &mut M,
    out: &mut S,
    steps: &mut Steps<C>,
) -> Result<Option<Exit>, Halt>
    requires { M.rules.waits (M.plain machine.old) ≡ false }
    ensures does { let step = (counting M.rules).step (counted (M.plain machine.old) steps.old) event.Idle in
        Does step result (counted (M.plain machine.new) steps.new) (S.written out.old) (S.written out.new) }
    ensures fewer { OnOk result (M.left machine.new < M.left machine.old) }
    ensures calm { IsCalmWrite result (S.faults out.old) (S.faults out.new) }
    ensures failed { IsErrOf result Halt.SinkFailed → Rose (S.faults out.old) (S.faults out.new) }
{
    match machine.step(alloc, Event::Idle, steps) {
        Ok(written) => emit(alloc, out, &written),
        Err(_) => Err(Halt::NoMem),
    }
}

/// How many bytes the next poll asks for.
pub fn most_asked(limit: u64, taken: u64) -> usize
    requires { taken < limit }
    ensures asked { result ≡ most_asked limit taken }
    ensures some { 0 < result }
    ensures within { result ≤ 4096 }
{
    (POLL_LIMIT as u64).min(limit - taken) as usize
}

fn after_bytes(drained: Drained) -> Turn
    ensures { result ≡ after_bytes drained }
{
    match drained {
        Drained::Rest => Turn::On,
        Drained::Exit(exit) => Turn::Over(Ending::Exit(exit)),
        Drained::Fault => Turn::Over(Ending::FrameFault),
    }
}

fn after_idle(exit: Option<Exit>) -> Turn
    ensures { result ≡ after_idle exit }
{
    match exit {
        None => Turn::On,
        Some(exit) => Turn::Over(Ending::Exit(exit)),
    }
}

/// One poll, and all that it brings: of what came each message, or else an idle step.
pub fn take_turn<L: Link, S: Sink, M: Machine, C: Ledger>(
    alloc: Global,
    link: &mut L,
    out: &mut S,
    machine: &mut M,
    reader: &mut Frames,
    limit: u64,
    taken: &mut u64,
    buf: &mut [u8],
    steps: &mut Steps<C>,
) -> Result<Turn, Halt>
    requires few { taken.old < limit }
    requires room { length buf.old ≡ most_asked limit taken.old }
    ensures turns { let start =
        Going (counted (M.plain machine.old) steps.old) reader.old.bytes taken.old (S.written out.old) in
        Turns (counting M.rules) limit start result (counted (M.plain machine.new) steps.new) reader.new.bytes taken.new
        (S.written out.old) (S.written out.new) (L.polls link.old) (L.polls link.new) }
    ensures lighter { let before = weight limit taken.old (length reader.old.bytes) (M.left machine.old) in
        result ≡ Ok Turn.On → weight limit taken.new (length reader.new.bytes) (M.left machine.new) < before }
    ensures within { taken.new ≤ limit }
    ensures calm { IsCalmWrite result (S.faults out.old) (S.faults out.new) }
    ensures failed { IsErrOf result Halt.SinkFailed → Rose (S.faults out.old) (S.faults out.new) }
    ensures polled { IsCalmTurn result (L.faults link.old) (L.faults link.new) }
    ensures lost { result ≡ Ok Turn.Failed → Rose (L.faults link.old) (L.faults link.new) }
    ensures kept { result ≢ Ok (Turn.Over Ending.LinkFailed) }
{
    let wait = machine.waits();
    match link.poll(wait, buf) {
        Taken::Got(count) => {
            *taken += count as u64;
            match take_in(alloc, machine, reader, out, &buf[..count], steps) {
                Ok(drained) => Ok(after_bytes(drained)),
                Err(halt) => Err(halt),
            }
        }
        Taken::Idle => match idle(alloc, machine, out, steps) {
            Ok(exit) => Ok(after_idle(exit)),
            Err(halt) => Err(halt),
        },
        Taken::End => Ok(Turn::Over(Ending::LinkEnded)),
        Taken::Failed => Ok(Turn::Failed),
    }
}
