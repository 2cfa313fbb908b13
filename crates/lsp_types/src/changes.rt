//! The edits of a `textDocument/didChange`.
ghost use Rattle.std.specs.Prelude.{◌≡◌, option_map, codes, Some, IfOk};
ghost use Rattle.serde_json.specs.Find.{get};
ghost use Rattle.serde_json.specs.View.{view, items_view};
ghost use Rattle.lsp_types.specs.Changes.{stated_range, change_of, changes_of, stated_changes};

use crate::members::{param, range_of, text_at};
use base_core::{Change, ChangeList, NoMem, Range};
use serde_json::Value;
use std::alloc::Global;

/// The range of an edit, where one is stated.
fn stated_range(edit: &Value) -> Option<Option<Range>>
    ensures { result ≡ stated_range (get (codes "range") (view edit.now)) }
{
    match edit.get("range") {
        Some(range) => match range_of(range) {
            Some(range) => Some(Some(range)),
            None => None,
        },
        None => Some(None),
    }
}

fn change_of(alloc: Global, edit: &Value) -> Result<Option<Change>, NoMem>
    ensures { IfOk result (λ c. c ≡ change_of (view edit.now)) }
{
    let Some(range) = stated_range(edit) else {
        return Ok(None);
    };
    match text_at(alloc, edit, "text")? {
        Some(text) => Ok(Some(Change { range, text })),
        None => Ok(None),
    }
}

fn changes_of(alloc: Global, edits: &Vec<Value>) -> Result<Option<ChangeList>, NoMem>
    ensures { IfOk result (λ c. c ≡ changes_of (items_view edits.now.items)) }
{
    let mut changes = ChangeList::new(alloc);
    for edit in edits {
        match change_of(alloc, edit)? {
            Some(change) => changes.push(change)?,
            None => return Ok(None),
        }
    }
    Ok(Some(changes))
}

/// The edits, where there is a list of them and each is well typed.
pub(crate) fn stated_changes(alloc: Global, message: &Value) -> Result<Option<ChangeList>, NoMem>
    ensures { IfOk result (λ c. c ≡ stated_changes (view message.now)) }
{
    match param(message, "contentChanges").and_then(Value::as_array) {
        Some(edits) => changes_of(alloc, edits),
        None => Ok(None),
    }
}
