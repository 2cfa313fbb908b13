//! Messages, as they are decoded.
use base_core::{ChangeList, NoMem, Position, Text};
use thiserror::Error;

/// The id of a request, which its answer repeats (JSON-RPC 2.0, "Request object").
#[derive(Debug, Drop)]
pub enum Id {
    /// A whole number.
    Number(i32),
    Word(Text),
    /// Only in answers to what has no good id.
    Null,
}

/// What a request asks for.
#[derive(Debug, Drop)]
pub enum Call {
    /// A session, in which characters are counted in bytes of UTF-8, or else in units of UTF-16.
    Initialize {
        utf8: bool,
    },
    Shutdown,
    /// The outline of a document.
    Symbols {
        uri: Text,
    },
    /// The goals at a position: in the state after the sentence there, or in the one before it.
    Goals {
        uri: Text,
        at: Position,
        after: bool,
    },
}

/// What a notification tells.
#[derive(Debug, Drop)]
pub enum Note {
    Initialized,
    Exit,
    /// The request of this id is not wanted any more.
    Cancel {
        id: Id,
    },
    DidOpen {
        uri: Text,
        version: i32,
        text: Text,
    },
    DidChange {
        uri: Text,
        version: i32,
        changes: ChangeList,
    },
    DidClose {
        uri: Text,
    },
    /// Units of work that a document may use.
    Grant {
        uri: Text,
        units: u32,
    },
    /// Forget what no open document uses.
    Trim,
    /// A method that is not known.
    Other,
    /// A known method with a member that is missing or ill typed.
    BadNote,
}

/// One message that came in.
#[derive(Debug, Drop)]
pub enum Incoming {
    Request { id: Id, call: Call },
    Note(Note),
    /// A response. Nothing was asked, so it is dropped.
    Reply,
}

/// Why a body is no message that can be obeyed.
#[derive(Debug, Drop, Error)]
pub enum DecodeFault {
    /// The body is no JSON text that nests at most 127 deep.
    #[error("parse error")]
    NotJson,
    /// The body is no JSON-RPC message. The id is the one to answer with.
    #[error("invalid request")]
    NotRequest(Id),
    /// A request with a member that is missing or ill typed.
    #[error("invalid params")]
    BadParams {
        id: Id,
        /// Whether the request is `initialize`.
        initialize: bool,
    },
    #[error("method not found")]
    UnknownMethod(Id),
    #[error("out of memory")]
    NoMem,
}

impl From<NoMem> for DecodeFault {
    ghost use Rattle.std.specs.Prelude.{◌≡◌};
    ghost use Rattle.lsp_types.specs.declared.messages.DecodeFault.TheVariants.{NoMem as OutOfMemory};

    ghost from_gives = { λ _ e. e ≡ OutOfMemory };

    fn from(_error: NoMem) -> DecodeFault {
        DecodeFault::NoMem
    }
}
