//! A sink in memory, which tells what it was given.
ghost use Rattle.std.specs.Prelude.{◌≡◌, ◌+◌, ◌-◌, ◌^◌, ◌<◌, ◌≤◌, [], length, vec_capacity, IfOk, Some};
ghost use Rattle.base_core.specs.Faults.{Rose};
ghost use Rattle.base_core.specs.Sink.{TakesFrom, IsCalmPut};

use crate::{NoMem, NumberList, Put, Sink};
use std::alloc::Global;

/// A sink in memory, which tells what it was given.
#[derive(Debug, Drop)]
pub struct MemSink {
    bytes: Vec<u8>,
    room: usize,
    most: usize,
    fails: NumberList,
    calls: u32,
    faults: u64,
    ghost reserved: { room ≤ vec_capacity bytes },
    ghost some: { 0 < most },
}

impl MemSink {
    ghost use Rattle.base_core.specs.MemSink.{sink_bytes, sink_room, sink_most, sink_fails, sink_calls, sink_faults, is_listed};

    /// Room for so many bytes. The sink fails at the listed calls, numbered from 1, and when the
    /// room is full.
    pub fn new(alloc: Global, room: usize, fails: NumberList) -> Result<MemSink, NoMem>
        ensures empty { IfOk result (λ s. (sink_bytes s ≡ []) × (sink_calls s ≡ 0) × (sink_faults s ≡ 0)) }
        ensures room { IfOk result (λ s. sink_room s ≡ room) }
        ensures most { IfOk result (λ s. sink_most s ≡ 2 ^ 64 - 1) }
        ensures fails { IfOk result (λ s. sink_fails s ≡ fails) }
    {
        MemSink::short(alloc, room, usize::MAX, fails)
    }

    /// The same of a sink that takes at most so many bytes at each call.
    pub fn short(
        alloc: Global,
        room: usize,
        most: usize,
        fails: NumberList,
    ) -> Result<MemSink, NoMem>
        requires { 0 < most }
        ensures empty { IfOk result (λ s. (sink_bytes s ≡ []) × (sink_calls s ≡ 0) × (sink_faults s ≡ 0)) }
        ensures room { IfOk result (λ s. sink_room s ≡ room) }
        ensures most { IfOk result (λ s. sink_most s ≡ most) }
        ensures fails { IfOk result (λ s. sink_fails s ≡ fails) }
    {
        let bytes = Vec::with_capacity(alloc, room)?;
        Ok(MemSink {
            bytes,
            room,
            most,
            fails,
            calls: 0,
            faults: 0,
        })
    }

    /// The bytes taken so far.
    pub fn written(&self) -> &[u8]
        ensures { result.now ≡ sink_bytes self.now }
    {
        self.bytes.as_slice()
    }

    /// How many puts have failed.
    pub fn faults(&self) -> u64
        ensures { result ≡ sink_faults self.now }
    {
        self.faults
    }

    fn is_listed(&self) -> bool
        ensures { result ≡ is_listed (sink_calls self.now) (sink_fails self.now) }
    {
        self.fails.as_slice().iter().any(|call| *call == self.calls)
    }
}

impl Sink for MemSink {
    ghost use Rattle.base_core.specs.MemSink.{sink_bytes, sink_faults, Puts};

    ghost written = { λ s. Some (sink_bytes s) };

    ghost faults = { λ s. sink_faults s };

    fn put(&mut self, piece: &[u8]) -> Put
        requires { 0 < length piece.now }
        ensures told { TakesFrom result piece.now (Some (sink_bytes self.old)) (Some (sink_bytes self.new)) }
        ensures later { sink_faults self.old ≤ sink_faults self.new }
        ensures failed { result ≡ Put.Failed → Rose (sink_faults self.old) (sink_faults self.new) }
        ensures calm { IsCalmPut result (sink_faults self.old) (sink_faults self.new) }

        // It fails exactly at a listed call and where the room is full, and else takes all that fits.
        ensures exact { Puts result (length piece.now) self.old self.new }
    {
        self.calls = self.calls.saturating_add(1);
        let room = self.room.saturating_sub(self.bytes.len());
        if room == 0 {
            self.faults = self.faults.saturating_add(1);
            return Put::Failed;
        }
        if self.is_listed() {
            self.faults = self.faults.saturating_add(1);
            return Put::Failed;
        }
        let taken = piece.len().min(room).min(self.most);
        match self.bytes.extend_from_slice(&piece[..taken]) {
            Ok(()) => Put::Took(taken),
            Err(_) => unreachable!(),
        }
    }
}
