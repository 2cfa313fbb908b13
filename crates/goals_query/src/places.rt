//! Positions, ranges and documents, as they stand in messages.
ghost use Rattle.std.specs.Prelude.{◌≡◌, ◌≤◌, length, IfOk};
ghost use Rattle.serde_json.specs.View.{view};
ghost use Rattle.utf16_doc.specs.Indexed.{position_in};
ghost use Rattle.goals_query.specs.Places.{position_data, range_data, document_data};

use base_core::{NoMem, Position};
use serde_json::{Value, json};
use std::alloc::Global;
use utf16_doc::Doc;

/// A position.
pub fn position_value(alloc: Global, at: Position) -> Result<Value, NoMem>
    ensures { IfOk result (λ v. view v ≡ position_data at) }
{
    Ok(json!(in alloc; {"character": at.character, "line": at.line})?)
}

/// The range between two offsets of a text, in bytes from its start.
pub fn range_value(alloc: Global, doc: &Doc, from: usize, to: usize) -> Result<Value, NoMem>
    requires from { from ≤ length doc.now.text }
    requires to { to ≤ length doc.now.text }
    ensures { IfOk result (λ v. view v ≡ range_data (position_in doc.now) from to) }
{
    let start = position_value(alloc, doc.position_of(from))?;
    let end = position_value(alloc, doc.position_of(to))?;
    Ok(json!(in alloc; {"end": end, "start": start})?)
}

/// A document's name and version.
pub fn document_value(alloc: Global, uri: &str, version: i32) -> Result<Value, NoMem>
    ensures { IfOk result (λ v. view v ≡ document_data uri.now version) }
{
    Ok(json!(in alloc; {"uri": uri, "version": version})?)
}
