//! Messages of the Language Server Protocol over JSON: a body's bytes to a request or a
//! notification, and results, errors and notifications to bytes.
#![tactic(auto)]

mod changes;
mod decoding;
mod encoding;
mod encodings;
mod envelope;
mod error_codes;
mod members;
mod messages;
mod notifications;
mod requests;

pub use decoding::decode;
pub use encoding::{encode_error, encode_note, encode_result};
pub use error_codes::ErrorCode;
pub use messages::{Call, DecodeFault, Id, Incoming, Note};
