//! What makes a value a message, and which id it has.
ghost use Rattle.std.specs.Prelude.{◌≡◌, option_map, codes, IfOk};
ghost use Rattle.serde_json.specs.View.{view};
ghost use Rattle.lsp_types.specs.Envelope.{has, is_text, id_of, good_id, message_id, method_of, has_version, has_purpose, has_good_method, has_form, is_good_or_absent};

use crate::Id;
use crate::members::integer_of;
use base_core::{NoMem, Text};
use serde_json::Value;
use std::alloc::Global;

fn has(value: &Value, name: &str) -> bool
    ensures { result ≡ has name.now (view value.now) }
{
    value.get(name).is_some()
}

fn has_version(value: &Value) -> bool
    ensures { result ≡ has_version (view value.now) }
{
    match value.get("jsonrpc").and_then(Value::as_str) {
        Some(version) => version == "2.0",
        None => false,
    }
}

fn has_purpose(value: &Value) -> bool
    ensures { result ≡ has_purpose (view value.now) }
{
    has(value, "method") || has(value, "result") || has(value, "error")
}

/// The method that a message names.
pub(crate) fn method_of(value: &Value) -> Option<&str>
    ensures { option_map (λ s. s.now) result ≡ method_of (view value.now) }
{
    value.get("method").and_then(Value::as_str)
}

fn has_good_method(value: &Value) -> bool
    ensures { result ≡ has_good_method (view value.now) }
{
    !has(value, "method") || method_of(value).is_some()
}

/// Whether the value is a message, its id aside.
pub(crate) fn has_form(value: &Value) -> bool
    ensures { result ≡ has_form (view value.now) }
{
    value.is_object() && has_version(value) && has_purpose(value) && has_good_method(value)
}

/// Whether the id is good, where there is one, by what `message_id` found.
pub(crate) fn is_good_or_absent(value: &Value, id: &Option<Id>) -> bool
    ensures { result ≡ is_good_or_absent (view value.now) id.now }
{
    !has(value, "id") || id.is_some()
}

/// An id as a request may have it: a text, which is copied, or an integer.
pub(crate) fn id_of(alloc: Global, value: &Value) -> Result<Option<Id>, NoMem>
    ensures { IfOk result (λ id. id ≡ id_of (view value.now)) }
{
    if let Some(word) = value.as_str() {
        return Ok(Some(Id::Word(Text::copy(alloc, word)?)));
    }
    match integer_of(value) {
        Some(number) => Ok(Some(Id::Number(number))),
        None => Ok(None),
    }
}

fn good_id(alloc: Global, with_method: bool, value: &Value) -> Result<Option<Id>, NoMem>
    ensures { IfOk result (λ id. id ≡ good_id with_method (view value.now)) }
{
    if !with_method && value.is_null() {
        return Ok(Some(Id::Null));
    }
    id_of(alloc, value)
}

/// The id of a message, where it has one that is good.
pub(crate) fn message_id(alloc: Global, message: &Value) -> Result<Option<Id>, NoMem>
    ensures { IfOk result (λ id. id ≡ message_id (view message.now)) }
{
    match message.get("id") {
        Some(id) => good_id(alloc, has(message, "method"), id),
        None => Ok(None),
    }
}
