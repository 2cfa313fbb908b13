//! Why a row has no answer.
use base_core::NoMem;
use std::alloc::{AllocError, AllocFailed};
use thiserror::Error;

/// Why a row has no answer.
#[derive(Clone, Copy, Debug, Error)]
pub enum Fault {
    /// Nothing is asked: a blank line, a comment, or a line that says what a session is like.
    #[error("nothing is asked")]
    Blank,
    #[error("no row")]
    NoRow,
    #[error("out of memory")]
    NoMem,
}

impl From<NoMem> for Fault {
    fn from(_error: NoMem) -> Fault {
        Fault::NoMem
    }
}

impl<T: Drop> From<AllocFailed<T>> for Fault {
    fn from(_error: AllocFailed<T>) -> Fault {
        Fault::NoMem
    }
}

impl From<AllocError> for Fault {
    fn from(_error: AllocError) -> Fault {
        Fault::NoMem
    }
}
