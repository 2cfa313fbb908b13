//! The notifications that are known, with their members.
ghost use Rattle.std.specs.Prelude.{◌≡◌, option_and_then, codes, IfOk};
ghost use Rattle.serde_json.specs.View.{view};
ghost use Rattle.lsp_types.specs.Members.{param, uinteger_of};
ghost use Rattle.lsp_types.specs.Envelope.{id_of};
ghost use Rattle.lsp_types.specs.Notifications.{did_open, did_change, did_close, cancel, grant, told, document_note, note};

use crate::changes::stated_changes;
use crate::envelope::id_of;
use crate::members::{document_text, document_version, param, uinteger_of};
use crate::{Id, Note};
use base_core::NoMem;
use serde_json::Value;
use std::alloc::Global;

fn did_open(alloc: Global, message: &Value) -> Result<Option<Note>, NoMem>
    ensures { IfOk result (λ note. note ≡ did_open (view message.now)) }
{
    let Some(uri) = document_text(alloc, message, "uri")? else {
        return Ok(None);
    };
    let Some(version) = document_version(message) else {
        return Ok(None);
    };
    let Some(text) = document_text(alloc, message, "text")? else {
        return Ok(None);
    };
    Ok(Some(Note::DidOpen { uri, version, text }))
}

fn did_change(alloc: Global, message: &Value) -> Result<Option<Note>, NoMem>
    ensures { IfOk result (λ note. note ≡ did_change (view message.now)) }
{
    let Some(uri) = document_text(alloc, message, "uri")? else {
        return Ok(None);
    };
    let Some(version) = document_version(message) else {
        return Ok(None);
    };
    let Some(changes) = stated_changes(alloc, message)? else {
        return Ok(None);
    };
    Ok(Some(Note::DidChange {
        uri,
        version,
        changes,
    }))
}

fn did_close(alloc: Global, message: &Value) -> Result<Option<Note>, NoMem>
    ensures { IfOk result (λ note. note ≡ did_close (view message.now)) }
{
    match document_text(alloc, message, "uri")? {
        Some(uri) => Ok(Some(Note::DidClose { uri })),
        None => Ok(None),
    }
}

fn cancelled_id(alloc: Global, message: &Value) -> Result<Option<Id>, NoMem>
    ensures { IfOk result
        (λ id. id ≡ option_and_then id_of (param (codes "id") (view message.now))) }
{
    match param(message, "id") {
        Some(id) => id_of(alloc, id),
        None => Ok(None),
    }
}

fn cancel(alloc: Global, message: &Value) -> Result<Option<Note>, NoMem>
    ensures { IfOk result (λ note. note ≡ cancel (view message.now)) }
{
    match cancelled_id(alloc, message)? {
        Some(id) => Ok(Some(Note::Cancel { id })),
        None => Ok(None),
    }
}

fn granted_units(message: &Value) -> Option<u32>
    ensures { result ≡ option_and_then uinteger_of (param (codes "units") (view message.now)) }
{
    param(message, "units").and_then(uinteger_of)
}

fn grant(alloc: Global, message: &Value) -> Result<Option<Note>, NoMem>
    ensures { IfOk result (λ note. note ≡ grant (view message.now)) }
{
    let Some(uri) = document_text(alloc, message, "uri")? else {
        return Ok(None);
    };
    let Some(units) = granted_units(message) else {
        return Ok(None);
    };
    Ok(Some(Note::Grant { uri, units }))
}

fn told(found: Option<Note>) -> Note
    ensures { result ≡ told found }
{
    found.unwrap_or(Note::BadNote)
}

fn document_note(alloc: Global, name: &str, message: &Value) -> Result<Note, NoMem>
    ensures { IfOk result (λ note. note ≡ document_note name.now (view message.now)) }
{
    if name == "textDocument/didOpen" {
        return Ok(told(did_open(alloc, message)?));
    }
    if name == "textDocument/didChange" {
        return Ok(told(did_change(alloc, message)?));
    }
    if name == "textDocument/didClose" {
        return Ok(told(did_close(alloc, message)?));
    }
    if name == "fleche/grant" {
        return Ok(told(grant(alloc, message)?));
    }
    Ok(Note::Other)
}

/// The notification of this method.
pub(crate) fn note(alloc: Global, name: &str, message: &Value) -> Result<Note, NoMem>
    ensures { IfOk result (λ given. given ≡ note name.now (view message.now)) }
{
    if name == "initialized" {
        return Ok(Note::Initialized);
    }
    if name == "exit" {
        return Ok(Note::Exit);
    }
    if name == "fleche/trim" {
        return Ok(Note::Trim);
    }
    if name == "$/cancelRequest" {
        return Ok(told(cancel(alloc, message)?));
    }
    document_note(alloc, name, message)
}
