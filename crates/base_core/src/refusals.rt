//! Why a call on a sentence gives no value.
use crate::NoMem;
use std::alloc::AllocError;

/// Where in a sentence a refusal stands.
#[derive(Clone, Copy, Debug, PartialEq, Eq)]
pub enum Place {
    /// At the whole sentence.
    Whole,
    /// From one byte of the sentence up to another.
    Part { from: u32, to: u32 },
}

/// A refusal by its number, as users are shown it.
#[derive(Clone, Copy, Debug, PartialEq, Eq)]
pub struct Refusal {
    pub code: u16,
    pub place: Place,
}

/// Which budget of a sentence ended.
#[derive(Clone, Copy, Debug, PartialEq, Eq)]
pub enum Limit {
    /// No unit of fuel is left.
    StepLimit,
    /// Judgements stand too deep in one another.
    DepthLimit,
    /// A term or a table grew too large.
    SizeLimit,
}

/// Why a call on a sentence gives no value.
#[derive(Clone, Copy, Debug, PartialEq, Eq)]
pub enum Stop {
    Refused(Refusal),
    Out(Limit),
    NoMem,
}

impl From<NoMem> for Stop {
    ghost use Rattle.std.specs.Prelude.{◌≡◌};
    ghost use Rattle.base_core.specs.declared.refusals.Stop.TheVariants.{NoMem as OutOfMemory};

    ghost from_gives = { λ _ e. e ≡ OutOfMemory };

    fn from(_error: NoMem) -> Stop {
        Stop::NoMem
    }
}

impl From<AllocError> for Stop {
    ghost use Rattle.std.specs.Prelude.{◌≡◌};
    ghost use Rattle.base_core.specs.declared.refusals.Stop.TheVariants.{NoMem as OutOfMemory};

    ghost from_gives = { λ _ e. e ≡ OutOfMemory };

    fn from(_error: AllocError) -> Stop {
        Stop::NoMem
    }
}
