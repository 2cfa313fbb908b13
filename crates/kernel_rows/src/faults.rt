//! Why a row has no answer.
use base_core::NoMem;
use core_term::TermStop;
use std::alloc::{AllocError, AllocFailed};
use thiserror::Error;

/// Why a row has no answer.
#[derive(Clone, Copy, Debug, Error)]
pub enum Fault {
    /// Nothing is asked: a blank line, or a comment.
    #[error("nothing is asked")]
    Blank,
    #[error("no row")]
    NoRow,
    #[error("no term")]
    NoTerm,
    #[error("out of scope")]
    OutOfScope,
    #[error("out of memory")]
    NoMem,
}

impl From<NoMem> for Fault {
    fn from(_error: NoMem) -> Fault {
        Fault::NoMem
    }
}

impl<T: Drop> From<AllocFailed<T>> for Fault {
    fn from(_error: AllocFailed<T>) -> Fault {
        Fault::NoMem
    }
}

impl From<AllocError> for Fault {
    fn from(_error: AllocError) -> Fault {
        Fault::NoMem
    }
}

impl From<TermStop> for Fault {
    fn from(stop: TermStop) -> Fault {
        match stop {
            TermStop::TooLarge => Fault::NoTerm,
            TermStop::NoMem => Fault::NoMem,
        }
    }
}
