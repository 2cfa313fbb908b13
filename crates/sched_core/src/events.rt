//! What comes to a session, and what it gives.
use base_core::{Bytes, List};
use lsp_types::{DecodeFault, Incoming};

/// What comes to a session.
#[derive(Debug, Drop)]
pub enum Event {
    /// A body, as it was decoded.
    Message(Result<Incoming, DecodeFault>),
    /// Nothing came.
    Idle,
}

/// How a client ends a session.
#[derive(Clone, Copy, Debug, PartialEq, Eq)]
pub enum Exit {
    /// It asked for the end before.
    Clean,
    Early,
}

/// Bodies of messages, in order.
pub type BytesList = List<Bytes>;

/// What a step gives.
#[derive(Debug, Drop)]
pub struct Written {
    /// Bodies of messages, to be written in order.
    pub bodies: BytesList,
    /// Where it is there, the step is the last.
    pub exit: Option<Exit>,
}
