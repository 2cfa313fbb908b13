//! Frames out of bytes that come in pieces.
ghost use Rattle.std.specs.Prelude.{◌≡◌, ◌++◌, ◌<◌, ◌≤◌, [], None, ℕ, List, length, drop, OnOk, OnErr, IfOk, IfSome};
ghost use Rattle.rpc_frames.specs.Frames.{header, Whole};
ghost use Rattle.rpc_frames.specs.Stages.{IsStage, IsSettled, KeepsFault, stage_fault};
ghost use Rattle.rpc_frames.specs.Fed.{Fed, Answers, AnswersStream};

use crate::header::{Scan, Stage, read_header};
use crate::{FrameFault, FrameStop};
use base_core::{Bytes, NoMem};
use std::alloc::Global;
use std::marker::Model;

/// Takes a stream of bytes in pieces, and gives the bodies of its frames.
///
/// Each byte is looked at once, however the stream is cut, and the bytes of frames given are dropped
/// where `next` gives none, or once they are half of what is held. So the work grows as the bytes do,
/// and a caller who takes bodies until there is none holds less than a frame, and then the next piece.
#[derive(Drop)]
pub struct Frames {
    buffer: Vec<u8>,
    start: usize,
    stage: Stage,
}

impl Model for Frames {
    ghost use Rattle.std.specs.Prelude.{◌≤◌, drop, length};
    ghost use Rattle.rpc_frames.specs.Fed.{Fed};
    ghost use Rattle.rpc_frames.specs.Stages.{IsStage, stage_fault};

    ghost Value = { Fed };

    ghost view = { λ f. record { bytes = drop f.start f.buffer.items; fault = stage_fault f.stage } };

    ghost invariant = { λ f. (f.start ≤ length f.buffer.items) × IsStage f.stage (drop f.start f.buffer.items) };
}

fn first_stage() -> Stage
    ensures stage { (bytes : List ℕ) → IsStage result bytes }
    ensures fault { stage_fault result ≡ None }
{
    Stage::Header(Scan {
        line: 0,
        seen: 0,
        told: None,
    })
}

fn settle(bytes: &[u8], stage: Stage) -> Stage
    requires { IsStage stage bytes.now }
    ensures settled { IsSettled result bytes.now }
    ensures fault { KeepsFault (stage_fault stage) result }
{
    match stage {
        Stage::Header(scan) => read_header(bytes, scan),
        Stage::Body(from, told) => Stage::Body(from, told),
        Stage::Broken(fault) => Stage::Broken(fault),
    }
}

impl Frames {
    /// Nothing fed, in no memory.
    pub fn new(alloc: Global) -> Frames
        ensures { result ≡ record { bytes = []; fault = None } }
    {
        Frames {
            buffer: Vec::new(alloc),
            start: 0,
            stage: first_stage(),
        }
    }

    fn held(&self) -> &[u8]
        ensures { result.now ≡ self.now.bytes }
    {
        &self.buffer[self.start..]
    }

    fn drop_used(&mut self)
        ensures { self.new ≡ self.old }
    {
        if self.start > 0 {
            self.buffer.drain(..self.start);
            self.start = 0;
        }
    }

    // Moving the bytes still held then costs no more than was used up.
    fn drop_used_half(&mut self)
        ensures { self.new ≡ self.old }
    {
        if self.held().len() <= self.start {
            self.drop_used();
        }
    }

    /// Takes the next piece of the stream.
    pub fn feed(&mut self, piece: &[u8]) -> Result<(), NoMem>
        ensures ok { OnOk result (self.new ≡ record { bytes = self.old.bytes ++ piece.now; fault = self.old.fault }) }
        ensures err { OnErr result (self.new ≡ self.old) }
    {
        self.drop_used_half();
        self.buffer.extend_from_slice(piece)?;
        Ok(())
    }

    fn settled(&self) -> Stage
        ensures settled { IsSettled result self.now.bytes }
        ensures fault { KeepsFault self.now.fault result }
    {
        settle(&self.buffer[self.start..], self.stage)
    }

    fn set_stage(&mut self, stage: Stage)
        requires { IsStage stage self.old.bytes }
        ensures { self.new ≡ record { bytes = self.old.bytes; fault = stage_fault stage } }
    {
        self.stage = stage;
    }

    fn use_up(&mut self, count: usize)
        requires { count ≤ length self.old.bytes }
        ensures { self.new ≡ record { bytes = drop count self.old.bytes; fault = None } }
    {
        self.start += count;
        self.stage = first_stage();
    }

    fn take_body(
        &mut self,
        alloc: Global,
        from: usize,
        told: usize,
    ) -> Result<Option<Bytes>, FrameStop>
        requires within { from ≤ length self.old.bytes }
        requires whole { header self.old.bytes ≡ Whole told (drop from self.old.bytes) }
        requires fault { self.old.fault ≡ None }
        ensures { Answers result self.old self.new }
    {
        let held = self.held();
        if held.len() - from < told {
            self.drop_used();
            return Ok(None);
        }
        let body = Bytes::copy(alloc, &held[from..from + told])?;
        self.use_up(from + told);
        Ok(Some(body))
    }

    fn answer(&mut self, alloc: Global) -> Result<Option<Bytes>, FrameStop>
        ensures { Answers result self.old self.new }
    {
        let stage = self.settled();
        self.set_stage(stage);
        match stage {
            Stage::Header(_) => {
                self.drop_used();
                Ok(None)
            }
            Stage::Body(from, told) => self.take_body(alloc, from, told as usize),
            Stage::Broken(fault) => Err(FrameStop::Fault(fault)),
        }
    }
    /// The next body. After a fault each further call answers the same fault.
    pub fn next(&mut self, alloc: Global) -> Result<Option<Bytes>, FrameStop>
        ensures answers { Answers result self.old self.new }

        // The body and the stream still held are the stream that was held.
        ensures stream { AnswersStream result self.old.bytes self.new.bytes }
        ensures again { IfSome self.old.fault (λ fault. result ≡ Err (FrameStop.Fault fault)) }
        ensures shorter { IfOk result (λ found. IfSome found (λ _. length self.new.bytes < length self.old.bytes)) }
    {
        self.answer(alloc)
    }
}
