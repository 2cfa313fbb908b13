//! Standard output.
ghost use Rattle.std.specs.Prelude.{◌≡◌, None};

use crate::{Put, Sink};

/// Standard output. It tells no content; each failed write, and each that takes nothing, counts as
/// a fault.
#[derive(Drop)]
pub struct StdSink<'a, R: Print> {
    rt: &'a R,
    faults: u64,
}

impl<'a, R: Print> StdSink<'a, R> {
    pub fn new(rt: &'a R) -> StdSink<'a, R>
        ensures { result.faults ≡ 0 }
    {
        StdSink { rt, faults: 0 }
    }
}

impl<'a, R: Print> Sink for StdSink<'a, R> {
    ghost written = { λ _. None };

    ghost faults = { λ s. s.faults };

    fn put(&mut self, piece: &[u8]) -> Put {
        match self.rt.write_some(piece) {
            Ok(taken) if taken > 0 => Put::Took(taken),
            _ => {
                self.faults = self.faults.saturating_add(1);
                Put::Failed
            }
        }
    }
}
