//! Members of a message, looked up by name and type. A body that repeats a name has its last
//! value there.
ghost use Rattle.std.specs.Prelude.{◌≡◌, option_map, option_and_then, codes, IfOk};
ghost use Rattle.serde_json.specs.Find.{get, as_str};
ghost use Rattle.serde_json.specs.View.{view};
ghost use Rattle.lsp_types.specs.Members.{as_integer, as_uinteger, integer_of, uinteger_of, integer_at, uinteger_at, text_at, position_of, position_at, range_of, param, document_text, document_version};

use base_core::{NoMem, Position, Range, Text};
use serde_json::Value;
use std::alloc::Global;

/// The greatest line, character and number of units: LSP's `uinteger` ends there.
const UINTEGER_MAX: u64 = 2_147_483_647;

fn as_integer(n: i64) -> Option<i32>
    ensures { result ≡ as_integer n }
{
    if n >= -2_147_483_648 && n <= 2_147_483_647 {
        Some(n as i32)
    } else {
        None
    }
}

fn as_uinteger(n: u64) -> Option<u32>
    ensures { result ≡ as_uinteger n }
{
    if n <= UINTEGER_MAX {
        Some(n as u32)
    } else {
        None
    }
}

/// LSP's `integer`, written without a point or an exponent.
pub(crate) fn integer_of(value: &Value) -> Option<i32>
    ensures { result ≡ integer_of (view value.now) }
{
    value.as_i64().and_then(as_integer)
}

/// LSP's `uinteger`, written without a point or an exponent.
pub(crate) fn uinteger_of(value: &Value) -> Option<u32>
    ensures { result ≡ uinteger_of (view value.now) }
{
    value.as_u64().and_then(as_uinteger)
}

fn integer_at(value: &Value, name: &str) -> Option<i32>
    ensures { result ≡ integer_at name.now (view value.now) }
{
    value.get(name).and_then(integer_of)
}

fn uinteger_at(value: &Value, name: &str) -> Option<u32>
    ensures { result ≡ uinteger_at name.now (view value.now) }
{
    value.get(name).and_then(uinteger_of)
}

/// A text, which is copied.
pub(crate) fn text_at(alloc: Global, value: &Value, name: &str) -> Result<Option<Text>, NoMem>
    ensures { IfOk result (λ t. t ≡ text_at name.now (view value.now)) }
{
    match value.get(name).and_then(Value::as_str) {
        Some(text) => Ok(Some(Text::copy(alloc, text)?)),
        None => Ok(None),
    }
}

pub(crate) fn position_of(value: &Value) -> Option<Position>
    ensures { result ≡ position_of (view value.now) }
{
    let line = uinteger_at(value, "line")?;
    let character = uinteger_at(value, "character")?;
    Some(Position { line, character })
}

fn position_at(value: &Value, name: &str) -> Option<Position>
    ensures { result ≡ position_at name.now (view value.now) }
{
    value.get(name).and_then(position_of)
}

pub(crate) fn range_of(value: &Value) -> Option<Range>
    ensures { result ≡ range_of (view value.now) }
{
    let from_pos = position_at(value, "start")?;
    let to_pos = position_at(value, "end")?;
    Some(Range { from_pos, to_pos })
}

/// A member of `params`.
pub(crate) fn param<'v>(message: &'v Value, name: &str) -> Option<&'v Value>
    ensures { option_map (λ v. view v.now) result ≡ param name.now (view message.now) }
{
    let params = message.get("params")?;
    params.get(name)
}

/// A text of the document that the message speaks of.
pub(crate) fn document_text(
    alloc: Global,
    message: &Value,
    name: &str,
) -> Result<Option<Text>, NoMem>
    ensures { IfOk result (λ t. t ≡ document_text name.now (view message.now)) }
{
    match param(message, "textDocument") {
        Some(document) => text_at(alloc, document, name),
        None => Ok(None),
    }
}

/// The version of the document that the message speaks of.
pub(crate) fn document_version(message: &Value) -> Option<i32>
    ensures { result ≡ document_version (view message.now) }
{
    let document = param(message, "textDocument")?;
    integer_at(document, "version")
}
