//! The notifications of a session, and its answer to `initialize`, as bytes.
ghost use Rattle.std.specs.Prelude.{◌≡◌, ◌≤◌, All, [], ◌∷◌, map, length, IfOk, OnOk};
ghost use Rattle.serde_json.specs.Data.{string};
ghost use Rattle.serde_json.specs.View.{view};
ghost use Rattle.doc_check.specs.Check.{IsPlaced};
ghost use Rattle.lsp_types.specs.Bodies.{result_body};
ghost use Rattle.utf16_doc.specs.Indexed.{position_in};
ghost use Rattle.goals_query.specs.Places.{range_data};
ghost use Rattle.sched_core.specs.Bodies.{progress_data, processing_data};
ghost use Rattle.sched_core.specs.Bodies.{progress_body, ended_body, diag_data, diags_data, diags_body, log_data, log_body};
ghost use Rattle.sched_core.specs.Bodies.{encoding_name, sync_data, capabilities_data, server_data, initialize_result};

use base_core::{Bytes, NoMem};
use doc_check::AbsDiag;
use goals_query::{document_value, range_value};
use lsp_types::{Id, encode_note, encode_result};
use serde_json::{Map, Value, json, put};
use std::alloc::Global;
use utf16_doc::{Doc, Encoding};

/// The parameters of progress where these ranges are left.
fn progress_value(
    alloc: Global,
    uri: &str,
    version: i32,
    ranges: Vec<Value>,
) -> Result<Value, NoMem>
    ensures { IfOk result (λ v. view v ≡ progress_data (map view ranges.items) uri.now version) }
{
    let document = document_value(alloc, uri, version)?;
    let processing = Value::Array(ranges);
    Ok(json!(in alloc; {"processing": processing, "textDocument": document})?)
}

fn processing_value(alloc: Global, range: Value) -> Result<Value, NoMem>
    ensures { IfOk result (λ v. view v ≡ processing_data (view range)) }
{
    Ok(json!(in alloc; {"kind": 1u32, "range": range})?)
}

/// The text from an offset on, as what is left.
fn ranges_left(alloc: Global, doc: &Doc, from: usize) -> Result<Vec<Value>, NoMem>
    requires { from ≤ length doc.now.text }
    ensures { let range = range_data (position_in doc.now) from (length doc.now.text) in
        IfOk result (λ ranges. map view ranges.items ≡ processing_data range ∷ []) }
{
    let range = range_value(alloc, doc, from, doc.text().len())?;
    let mut ranges = Vec::new(alloc);
    ranges.push(processing_value(alloc, range)?)?;
    Ok(ranges)
}

/// Progress: the text is still to be checked from an offset on.
pub(crate) fn progress_body(
    alloc: Global,
    uri: &str,
    version: i32,
    doc: &Doc,
    from: usize,
) -> Result<Bytes, NoMem>
    requires { from ≤ length doc.now.text }
    ensures { IfOk result (λ b. b ≡ progress_body (position_in doc.now) uri.now version from (length doc.now.text)) }
{
    let ranges = ranges_left(alloc, doc, from)?;
    let params = progress_value(alloc, uri, version, ranges)?;
    encode_note(alloc, "$/coq/fileProgress", params)
}

/// Progress: nothing is left to be checked.
pub(crate) fn ended_body(alloc: Global, uri: &str, version: i32) -> Result<Bytes, NoMem>
    ensures { IfOk result (λ b. b ≡ ended_body uri.now version) }
{
    let params = progress_value(alloc, uri, version, Vec::new(alloc))?;
    encode_note(alloc, "$/coq/fileProgress", params)
}

fn text_value(alloc: Global, text: &str) -> Result<Value, NoMem>
    ensures { IfOk result (λ v. view v ≡ string text.now) }
{
    Ok(Value::try_from_str(alloc, text)?)
}

fn diag_value(alloc: Global, doc: &Doc, diag: &AbsDiag) -> Result<Value, NoMem>
    requires { IsPlaced (length doc.now.text) diag.now }
    ensures { IfOk result (λ v. view v ≡ diag_data (position_in doc.now) diag.now) }
{
    let range = range_value(alloc, doc, diag.from as usize, diag.to as usize)?;
    let mut members = Map::new(alloc);
    put(&mut members, alloc, "code", Value::from(diag.code))?;
    put(
        &mut members,
        alloc,
        "message",
        text_value(alloc, diag.text.as_str())?,
    )?;
    put(&mut members, alloc, "range", range)?;
    put(&mut members, alloc, "severity", Value::from(diag.severity))?;
    put(&mut members, alloc, "source", text_value(alloc, "fleche")?)?;
    Ok(Value::Object(members))
}

fn diag_values(alloc: Global, doc: &Doc, diags: &[AbsDiag]) -> Result<Vec<Value>, NoMem>
    requires { All (IsPlaced (length doc.now.text)) diags.now }
    ensures { IfOk result (λ vs. map view vs.items ≡ map (diag_data (position_in doc.now)) diags.now) }
{
    let mut values = Vec::new(alloc);
    for diag in diags {
        values.push(diag_value(alloc, doc, diag)?)?;
    }
    Ok(values)
}

fn diags_value(
    alloc: Global,
    uri: &str,
    version: i32,
    doc: &Doc,
    diags: &[AbsDiag],
) -> Result<Value, NoMem>
    requires { All (IsPlaced (length doc.now.text)) diags.now }
    ensures { IfOk result (λ v. view v ≡ diags_data (position_in doc.now) uri.now version diags.now) }
{
    let values = Value::Array(diag_values(alloc, doc, diags)?);
    Ok(json!(in alloc; {"diagnostics": values, "uri": uri, "version": version})?)
}

/// The diagnostics of a version of a document.
pub(crate) fn diags_body(
    alloc: Global,
    uri: &str,
    version: i32,
    doc: &Doc,
    diags: &[AbsDiag],
) -> Result<Bytes, NoMem>
    requires { All (IsPlaced (length doc.now.text)) diags.now }
    ensures { IfOk result (λ b. b ≡ diags_body (position_in doc.now) uri.now version diags.now) }
{
    let params = diags_value(alloc, uri, version, doc, diags)?;
    encode_note(alloc, "textDocument/publishDiagnostics", params)
}

fn log_value(alloc: Global, text: &str) -> Result<Value, NoMem>
    ensures { IfOk result (λ v. view v ≡ log_data text.now) }
{
    Ok(json!(in alloc; {"message": text, "type": 1u32})?)
}

/// An error for the client's log.
pub(crate) fn log_body(alloc: Global, text: &str) -> Result<Bytes, NoMem>
    ensures { IfOk result (λ b. b ≡ log_body text.now) }
{
    let params = log_value(alloc, text)?;
    encode_note(alloc, "window/logMessage", params)
}

fn sync_value(alloc: Global) -> Result<Value, NoMem>
    ensures { IfOk result (λ v. view v ≡ sync_data) }
{
    Ok(json!(in alloc; {"change": 2u32, "openClose": true})?)
}

fn encoding_name(encoding: Encoding) -> &'static str
    ensures { result.now ≡ encoding_name encoding }
{
    match encoding {
        Encoding::Utf8 => "utf-8",
        Encoding::Utf16 => "utf-16",
    }
}

fn capabilities_value(alloc: Global, encoding: Encoding) -> Result<Value, NoMem>
    ensures { IfOk result (λ v. view v ≡ capabilities_data encoding) }
{
    let name = encoding_name(encoding);
    let sync = sync_value(alloc)?;
    Ok(json!(in alloc; {
        "documentSymbolProvider": true,
        "positionEncoding": name,
        "textDocumentSync": sync
    })?)
}

fn server_value(alloc: Global) -> Result<Value, NoMem>
    ensures { IfOk result (λ v. view v ≡ server_data) }
{
    Ok(json!(in alloc; {"name": "fleche", "version": "1"})?)
}

fn initialize_value(alloc: Global, encoding: Encoding) -> Result<Value, NoMem>
    ensures { IfOk result (λ v. view v ≡ initialize_result encoding) }
{
    let capabilities = capabilities_value(alloc, encoding)?;
    let server = server_value(alloc)?;
    Ok(json!(in alloc; {"capabilities": capabilities, "serverInfo": server})?)
}

/// The answer to `initialize`: what the server offers, and what it counts characters in.
pub(crate) fn initialize_body(alloc: Global, id: &Id, encoding: Encoding) -> Result<Bytes, NoMem>
    ensures { IfOk result (λ b. b ≡ result_body id.now (initialize_result encoding)) }
{
    encode_result(alloc, id, initialize_value(alloc, encoding)?)
}
