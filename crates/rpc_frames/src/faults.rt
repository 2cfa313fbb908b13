//! What is wrong with bytes that are no frames.
use base_core::NoMem;
use thiserror::Error;

/// What is wrong with the bytes of a stream.
#[derive(Clone, Copy, Debug, PartialEq, Eq, Error)]
pub enum FrameFault {
    /// A header part ends before a line of it gave a length.
    #[error("no Content-Length before the empty line")]
    NoLength,
    /// A header line isn't a name, a colon and a value, holds a CR or LF out of place, or repeats
    /// the length or gives one that isn't digits; or the header part has over 4096 bytes.
    #[error("bad header line or header part")]
    BadHeader,
    /// A line gives a length of over 4,194,304 bytes.
    #[error("body too long")]
    TooLong,
}

/// Why there is no next body.
#[derive(Clone, Copy, Debug, PartialEq, Eq, Error)]
pub enum FrameStop {
    #[error("fault in the stream's frames")]
    Fault(FrameFault),
    #[error("out of memory")]
    NoMem,
}

impl From<NoMem> for FrameStop {
    ghost use Rattle.std.specs.Prelude.{◌≡◌};
    ghost use Rattle.rpc_frames.specs.declared.faults.FrameStop.TheVariants.{NoMem};

    ghost from_gives = { λ _ e. e ≡ NoMem };

    fn from(_error: base_core::NoMem) -> FrameStop {
        FrameStop::NoMem
    }
}
