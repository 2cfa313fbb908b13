//! Standard input.
ghost use Rattle.std.specs.Prelude.{◌≡◌, ◌≤◌, ◌<◌, None, length, vec_len, IfOk, IfSome};
ghost use Rattle.base_core.specs.Faults.{Rose};

use crate::{Link, NoMem, Taken};
use std::alloc::Global;
use std::io::Read;

/// How many bytes are read at a time.
const PIECE: usize = 65_536;

/// Standard input, through a buffer. It tells no content; each read that fails counts as a fault. A
/// poll that does not wait never reads: it gives what is left in the buffer.
#[derive(Drop)]
pub struct StdLink<R: Input> {
    reader: R::Reader,
    buffer: Vec<u8>,
    from: usize,
    to: usize,
    faults: u64,
    ghost ordered: { from ≤ to },
    ghost held: { to ≤ vec_len buffer },
}

impl<R: Input> StdLink<R> {
    pub fn new(rt: &R, alloc: Global) -> Result<StdLink<R>, NoMem>
        ensures { IfOk result (λ s. s.faults ≡ 0) }
    {
        let buffer = vec![in alloc; 0u8; PIECE]?;
        Ok(StdLink {
            reader: rt.reader(),
            buffer,
            from: 0,
            to: 0,
            faults: 0,
        })
    }

    fn fail(&mut self) -> Taken
        ensures failed { result ≡ Taken.Failed }
        ensures risen { Rose self.old.faults self.new.faults }
        ensures later { self.old.faults ≤ self.new.faults }
    {
        self.faults = self.faults.saturating_add(1);
        Taken::Failed
    }

    /// Moves what is left in the buffer to the front of this one, as much as fits.
    fn take_left(&mut self, buf: &mut [u8]) -> usize
        ensures within { result ≤ length buf.new }
        ensures some { self.old.from < self.old.to → 0 < length buf.old → 0 < result }
        ensures faults { self.new.faults ≡ self.old.faults }
    {
        let count = buf.len().min(self.to - self.from);
        let next = self.from + count;
        buf[..count].copy_from_slice(&self.buffer[self.from..next]);
        self.from = next;
        count
    }

    fn read(&mut self) -> Option<usize>
        ensures faults { self.new.faults ≡ self.old.faults }
        ensures some { IfSome result (λ n. 0 < n → self.new.from < self.new.to) }
    {
        match self.reader.read(&mut self.buffer) {
            Ok(count) => {
                self.from = 0;
                self.to = count;
                Some(count)
            }
            Err(_) => None,
        }
    }
}

impl<R: Input> Link for StdLink<R> {
    ghost polls = { λ _. None };

    ghost faults = { λ s. s.faults };

    fn poll(&mut self, wait: bool, buf: &mut [u8]) -> Taken {
        if self.from < self.to {
            return Taken::Got(self.take_left(buf));
        }
        if !wait {
            return Taken::Idle;
        }
        match self.read() {
            None => self.fail(),
            Some(0) => Taken::End,
            Some(_) => Taken::Got(self.take_left(buf)),
        }
    }
}
