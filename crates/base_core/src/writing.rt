//! Writing a list of bytes whole, and why a run is broken off.
ghost use Rattle.std.specs.Prelude.{◌≡◌};
ghost use Rattle.base_core.specs.Status.{status_of_halt};
ghost use Rattle.base_core.specs.Writes.{Writes};

use crate::{NoMem, Put, Sink, Status};
use std::alloc::AllocError;
use thiserror::Error;

/// Why a run is broken off.
#[derive(Clone, Copy, Debug, PartialEq, Eq, Error)]
pub enum Halt {
    #[error("out of memory")]
    NoMem,
    /// A put failed.
    #[error("not written")]
    SinkFailed,
}

impl From<NoMem> for Halt {
    ghost use Rattle.std.specs.Prelude.{◌≡◌};
    ghost use Rattle.base_core.specs.declared.writing.Halt.TheVariants.{NoMem as OutOfMemory};

    ghost from_gives = { λ _ e. e ≡ OutOfMemory };

    fn from(_error: NoMem) -> Halt {
        Halt::NoMem
    }
}

impl From<AllocError> for Halt {
    ghost use Rattle.std.specs.Prelude.{◌≡◌};
    ghost use Rattle.base_core.specs.declared.writing.Halt.TheVariants.{NoMem as OutOfMemory};

    ghost from_gives = { λ _ e. e ≡ OutOfMemory };

    fn from(_error: AllocError) -> Halt {
        Halt::NoMem
    }
}

/// Offers bytes to a sink until all are taken. A put that fails is not tried again.
pub fn write_all<S: Sink>(out: &mut S, bytes: &[u8]) -> Result<(), Halt>
    ensures { Writes S.written S.faults out.old out.new result bytes.now }
{
    let mut at = 0;
    while at < bytes.len() {
        match out.put(&bytes[at..]) {
            Put::Took(taken) => at += taken,
            Put::Failed => return Err(Halt::SinkFailed),
        }
    }
    Ok(())
}

impl Halt {
    /// How a run ends that is broken off so.
    pub fn status(self) -> Status
        ensures { result ≡ status_of_halt self }
    {
        match self {
            Halt::NoMem => Status::OutOfMemory,
            Halt::SinkFailed => Status::NotWritten,
        }
    }
}
