//! Why a document is not made, or not changed.

use base_core::NoMem;
use std::alloc::AllocError;
use thiserror::Error;

/// Why a text is not taken, or not changed.
#[derive(Clone, Copy, Debug, PartialEq, Eq, Error)]
pub enum DocStop {
    /// A range ends before it starts.
    #[error("range reversed")]
    RangeReversed,
    /// The text would have over `TEXT_LIMIT` bytes.
    #[error("text too long")]
    TooLong,
    #[error("out of memory")]
    NoMem,
}

impl From<AllocError> for DocStop {
    ghost use Rattle.std.specs.Prelude.{◌≡◌};
    ghost use Rattle.utf16_doc.specs.declared.stops.DocStop.TheVariants.{NoMem};

    ghost from_gives = { λ _ e. e ≡ NoMem };

    fn from(_error: AllocError) -> DocStop {
        DocStop::NoMem
    }
}

impl From<NoMem> for DocStop {
    ghost use Rattle.std.specs.Prelude.{◌≡◌};
    ghost use Rattle.utf16_doc.specs.declared.stops.DocStop.TheVariants.{NoMem as OutOfMemory};

    ghost from_gives = { λ _ e. e ≡ OutOfMemory };

    fn from(_error: NoMem) -> DocStop {
        DocStop::NoMem
    }
}
