//! From the bytes of a body to the message that it is.
ghost use Rattle.std.specs.Prelude.{◌≡◌, Some, IfOk, option_map};
ghost use Rattle.serde_json.specs.View.{view};
ghost use Rattle.lsp_types.specs.Decoding.{decoded, value_of, message_of, classified, Answers};

use crate::envelope::{has_form, is_good_or_absent, message_id, method_of};
use crate::notifications::note;
use crate::requests::request;
use crate::{DecodeFault, Id, Incoming};
use base_core::NoMem;
use serde_json::Value;
use std::alloc::Global;

/// A request or a notification. A message that has a method and an id is a request.
fn call_or_note(
    alloc: Global,
    name: &str,
    id: Option<Id>,
    message: &Value,
) -> Result<Incoming, DecodeFault>
    ensures { Answers (classified (Some name.now) id (view message.now)) result }
{
    match id {
        Some(id) => request(alloc, name, id, message),
        None => Ok(Incoming::Note(note(alloc, name, message)?)),
    }
}

fn message_of(alloc: Global, value: &Value) -> Result<Incoming, DecodeFault>
    ensures { Answers (message_of (view value.now)) result }
{
    let id = message_id(alloc, value)?;
    if !has_form(value) || !is_good_or_absent(value, &id) {
        return Err(DecodeFault::NotRequest(id.unwrap_or(Id::Null)));
    }
    match method_of(value) {
        Some(name) => call_or_note(alloc, name, id, value),
        None => Ok(Incoming::Reply),
    }
}

/// The JSON value of a body, where it has one that nests at most 127 deep.
fn value_of(alloc: Global, body: &[u8]) -> Result<Option<Value>, NoMem>
    ensures { IfOk result (λ found. option_map (λ v. view v) found ≡ value_of body.now) }
{
    match Value::from_slice(alloc, body) {
        Ok(value) => Ok(Some(value)),
        Err(error) => {
            if error.is_memory() {
                Err(NoMem)
            } else {
                Ok(None)
            }
        }
    }
}

/// The message that a body is. Members that no known method states are not looked at. Where the
/// message has a text, that text is copied once from the body's JSON value.
pub fn decode(alloc: Global, body: &[u8]) -> Result<Incoming, DecodeFault>
    ensures { Answers (decoded body.now) result }
{
    match value_of(alloc, body)? {
        Some(value) => message_of(alloc, &value),
        None => Err(DecodeFault::NotJson),
    }
}
