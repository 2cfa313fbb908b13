//! The messages of the bytes that came, each one step.
ghost use Rattle.std.specs.Prelude.{◌≡◌, ◌+◌, ◌<◌, ◌≤◌, None, Ok, length, OnOk, IfOk};
ghost use Rattle.std.specs.Result.{IsErrOf};
ghost use Rattle.base_core.specs.declared.limits.TheConstants.{TEXT_LIMIT};
ghost use Rattle.base_core.specs.Faults.{Rose};
ghost use Rattle.base_core.specs.Writes.{Writes, IsCalmWrite};
ghost use Rattle.lsp_types.specs.Decoding.{decoded};
ghost use Rattle.sched_core.specs.declared.events.Event.TheVariants as event;
ghost use Rattle.lsp_session.specs.Rules.{counted, counting};
ghost use Rattle.lsp_session.specs.Run.{fault_bytes};
ghost use Rattle.lsp_session.specs.Calls.{Emits, Does, HearsAll, HearsOne, weight_held};

use crate::machine::Machine;
use crate::write::{write_bodies, write_body};
use base_core::{Halt, NoMem, Sink, Steps};
use lsp_types::{DecodeFault, ErrorCode, Id, Incoming, decode, encode_error};
use rpc_frames::{FrameStop, Frames};
use sched_core::{Event, Exit, Written};
use std::alloc::Global;
use std::sync::ledger::Ledger;

/// What became of the bytes that came.
#[derive(Clone, Copy, Debug, PartialEq, Eq)]
pub enum Drained {
    /// Less than a message is left.
    Rest,
    Exit(Exit),
    /// They are no frames, and that was answered.
    Fault,
}

/// The message of a body.
fn read_message(alloc: Global, body: &[u8]) -> Result<Result<Incoming, DecodeFault>, NoMem>
    ensures { IfOk result (λ message. message ≡ decoded body.now) }
{
    match decode(alloc, body) {
        Err(DecodeFault::NoMem) => Err(NoMem),
        message => Ok(message),
    }
}

/// Writes what a step gave.
pub fn emit<S: Sink>(alloc: Global, out: &mut S, written: &Written) -> Result<Option<Exit>, Halt>
    ensures written { Emits written.now result (S.written out.old) (S.written out.new) }
    ensures calm { IsCalmWrite result (S.faults out.old) (S.faults out.new) }
    ensures failed { IsErrOf result Halt.SinkFailed → Rose (S.faults out.old) (S.faults out.new) }
{
    match write_bodies(alloc, out, written.bodies.as_slice()) {
        Ok(()) => Ok(written.exit),
        Err(halt) => Err(halt),
    }
}

/// One message: its step, and what the step gave is written.
fn hear<S: Sink, M: Machine, C: Ledger>(
    alloc: Global,
    machine: &mut M,
    out: &mut S,
    body: &[u8],
    steps: &mut Steps<C>,
) -> Result<Option<Exit>, Halt>
    ensures does { let step =
        (counting M.rules).step (counted (M.plain machine.old) steps.old) (event.Message (decoded body.now)) in
        Does step result (counted (M.plain machine.new) steps.new) (S.written out.old) (S.written out.new) }
    ensures few { OnOk result (M.left machine.new ≤ M.left machine.old + TEXT_LIMIT) }
    ensures calm { IsCalmWrite result (S.faults out.old) (S.faults out.new) }
    ensures failed { IsErrOf result Halt.SinkFailed → Rose (S.faults out.old) (S.faults out.new) }
{
    let Ok(message) = read_message(alloc, body) else {
        return Err(Halt::NoMem);
    };
    let Ok(written) = machine.step(alloc, Event::Message(message), steps) else {
        return Err(Halt::NoMem);
    };
    emit(alloc, out, &written)
}

/// Answers bytes that are no frames.
fn refuse<S: Sink>(alloc: Global, out: &mut S) -> Result<(), Halt>
    ensures { Writes S.written S.faults out.old out.new result fault_bytes }
{
    let Ok(body) = encode_error(alloc, &Id::Null, ErrorCode::ParseError) else {
        return Err(Halt::NoMem);
    };
    write_body(alloc, out, body.as_slice())
}

/// The next message, or what is left where there is none.
fn next_message<S: Sink, M: Machine, C: Ledger>(
    alloc: Global,
    machine: &mut M,
    reader: &mut Frames,
    out: &mut S,
    steps: &mut Steps<C>,
) -> Result<Option<Drained>, Halt>
    ensures goes { HearsOne (counting M.rules) reader.old.bytes (counted (M.plain machine.old) steps.old) result
        (counted (M.plain machine.new) steps.new) reader.new.bytes (S.written out.old) (S.written out.new) }
    ensures shorter { result ≡ Ok None → length reader.new.bytes < length reader.old.bytes }
    ensures few { let before = weight_held (length reader.old.bytes) (M.left machine.old) in
        OnOk result (weight_held (length reader.new.bytes) (M.left machine.new) ≤ before) }
    ensures calm { IsCalmWrite result (S.faults out.old) (S.faults out.new) }
    ensures failed { IsErrOf result Halt.SinkFailed → Rose (S.faults out.old) (S.faults out.new) }
{
    match reader.next(alloc) {
        Ok(None) => Ok(Some(Drained::Rest)),
        Ok(Some(body)) => match hear(alloc, machine, out, body.as_slice(), steps) {
            Ok(None) => Ok(None),
            Ok(Some(exit)) => Ok(Some(Drained::Exit(exit))),
            Err(halt) => Err(halt),
        },
        Err(FrameStop::Fault(_)) => match refuse(alloc, out) {
            Ok(()) => Ok(Some(Drained::Fault)),
            Err(halt) => Err(halt),
        },
        Err(FrameStop::NoMem) => Err(Halt::NoMem),
    }
}

/// Each message of the bytes that came, in order.
pub fn drain<S: Sink, M: Machine, C: Ledger>(
    alloc: Global,
    machine: &mut M,
    reader: &mut Frames,
    out: &mut S,
    steps: &mut Steps<C>,
) -> Result<Drained, Halt>
    ensures drains { HearsAll (counting M.rules) reader.old.bytes (counted (M.plain machine.old) steps.old) result
        (counted (M.plain machine.new) steps.new) reader.new.bytes (S.written out.old) (S.written out.new) }
    ensures few { let before = weight_held (length reader.old.bytes) (M.left machine.old) in
        OnOk result (weight_held (length reader.new.bytes) (M.left machine.new) ≤ before) }
    ensures calm { IsCalmWrite result (S.faults out.old) (S.faults out.new) }
    ensures failed { IsErrOf result Halt.SinkFailed → Rose (S.faults out.old) (S.faults out.new) }
{
    loop {
        match next_message(alloc, machine, reader, out, steps) {
            Ok(None) => {}
            Ok(Some(last)) => return Ok(last),
            Err(halt) => return Err(halt),
        }
    }
}
