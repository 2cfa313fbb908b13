//! Why no term is made.
use base_core::{Limit, NoMem, Stop};
use std::alloc::{AllocError, AllocFailed};
use thiserror::Error;

/// Why a term was not made.
#[derive(Clone, Copy, Debug, PartialEq, Eq, Error)]
pub enum TermStop {
    /// It would have more than 1,048,576 nodes, or stand more than 1000 deep.
    #[error("term too large")]
    TooLarge,
    #[error("out of memory")]
    NoMem,
}

impl From<NoMem> for TermStop {
    ghost use Rattle.std.specs.Prelude.{◌≡◌};
    ghost use Rattle.core_term.specs.declared.stops.TermStop.TheVariants.{NoMem as StopNoMem};

    ghost from_gives = { λ _ stop. stop ≡ StopNoMem };

    fn from(_error: NoMem) -> TermStop {
        TermStop::NoMem
    }
}

impl From<AllocError> for TermStop {
    ghost use Rattle.std.specs.Prelude.{◌≡◌};
    ghost use Rattle.core_term.specs.declared.stops.TermStop.TheVariants.{NoMem as StopNoMem};

    ghost from_gives = { λ _ stop. stop ≡ StopNoMem };

    fn from(_error: AllocError) -> TermStop {
        TermStop::NoMem
    }
}

impl<T: Drop> From<AllocFailed<T>> for TermStop {
    ghost use Rattle.std.specs.Prelude.{◌≡◌};
    ghost use Rattle.core_term.specs.declared.stops.TermStop.TheVariants.{NoMem as StopNoMem};

    ghost from_gives = { λ _ stop. stop ≡ StopNoMem };

    fn from(_error: AllocFailed<T>) -> TermStop {
        TermStop::NoMem
    }
}

impl From<TermStop> for Stop {
    ghost use Rattle.std.specs.Prelude.{◌≡◌};
    ghost use Rattle.core_term.specs.Stops.{stop_of};

    ghost from_gives = { λ stop whole. whole ≡ stop_of stop };

    fn from(stop: TermStop) -> Stop {
        match stop {
            TermStop::TooLarge => Stop::Out(Limit::SizeLimit),
            TermStop::NoMem => Stop::NoMem,
        }
    }
}
