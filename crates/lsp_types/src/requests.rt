//! The requests that are known, with their members.
ghost use Rattle.std.specs.Prelude.{◌≡◌, option_and_then, codes, IfOk};
ghost use Rattle.serde_json.specs.View.{view};
ghost use Rattle.lsp_types.specs.Members.{param, position_of};
ghost use Rattle.lsp_types.specs.Requests.{symbols, after_named, after_of, goals, asked, begun, request};
ghost use Rattle.lsp_types.specs.Decoding.{Answers};

use crate::encodings::asks_utf8;
use crate::members::{document_text, param, position_of};
use crate::{Call, DecodeFault, Id, Incoming};
use base_core::{NoMem, Position};
use serde_json::Value;
use std::alloc::Global;

fn symbols(alloc: Global, message: &Value) -> Result<Option<Call>, NoMem>
    ensures { IfOk result (λ call. call ≡ symbols (view message.now)) }
{
    match document_text(alloc, message, "uri")? {
        Some(uri) => Ok(Some(Call::Symbols { uri })),
        None => Ok(None),
    }
}

fn after_named(mode: &str) -> Option<bool>
    ensures { result ≡ after_named mode.now }
{
    if mode == "After" {
        Some(true)
    } else if mode == "Prev" {
        Some(false)
    } else {
        None
    }
}

/// Whether the state after the sentence is wanted.
fn stated_after(message: &Value) -> Option<bool>
    ensures { result ≡ after_of (param (codes "mode") (view message.now)) }
{
    match param(message, "mode") {
        Some(mode) => mode.as_str().and_then(after_named),
        None => Some(true),
    }
}

fn stated_position(message: &Value) -> Option<Position>
    ensures { result ≡ option_and_then position_of (param (codes "position") (view message.now)) }
{
    param(message, "position").and_then(position_of)
}

fn goals(alloc: Global, message: &Value) -> Result<Option<Call>, NoMem>
    ensures { IfOk result (λ call. call ≡ goals (view message.now)) }
{
    let Some(uri) = document_text(alloc, message, "uri")? else {
        return Ok(None);
    };
    let Some(at) = stated_position(message) else {
        return Ok(None);
    };
    let Some(after) = stated_after(message) else {
        return Ok(None);
    };
    Ok(Some(Call::Goals { uri, at, after }))
}

fn asked(id: Id, call: Option<Call>) -> Result<Incoming, DecodeFault>
    ensures { result ≡ asked id call }
{
    match call {
        Some(call) => Ok(Incoming::Request { id, call }),
        None => Err(DecodeFault::BadParams {
            id,
            initialize: false,
        }),
    }
}

fn begun(id: Id, utf8: Option<bool>) -> Result<Incoming, DecodeFault>
    ensures { result ≡ begun id utf8 }
{
    match utf8 {
        Some(utf8) => Ok(Incoming::Request {
            id,
            call: Call::Initialize { utf8 },
        }),
        None => Err(DecodeFault::BadParams {
            id,
            initialize: true,
        }),
    }
}

/// The request of this method.
pub(crate) fn request(
    alloc: Global,
    name: &str,
    id: Id,
    message: &Value,
) -> Result<Incoming, DecodeFault>
    ensures { Answers (request name.now id (view message.now)) result }
{
    if name == "initialize" {
        return begun(id, asks_utf8(message));
    }
    if name == "shutdown" {
        return asked(id, Some(Call::Shutdown));
    }
    if name == "textDocument/documentSymbol" {
        let call = symbols(alloc, message)?;
        return asked(id, call);
    }
    if name == "proof/goals" {
        let call = goals(alloc, message)?;
        return asked(id, call);
    }
    Err(DecodeFault::UnknownMethod(id))
}
