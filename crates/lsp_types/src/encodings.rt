//! In which units a client wants characters to be counted.
ghost use Rattle.std.specs.Prelude.{◌≡◌, option_map};
ghost use Rattle.serde_json.specs.View.{view, items_view};
ghost use Rattle.lsp_types.specs.Encodings.{is_utf8_named, or_named, is_utf8_of, stated_encodings, is_utf8_stated, asks_utf8};

use crate::members::param;
use serde_json::Value;

/// Whether a name decides for UTF-8, where it is known.
fn is_utf8_named(name: &str) -> Option<bool>
    ensures { result ≡ is_utf8_named name.now }
{
    if name == "utf-8" {
        Some(true)
    } else if name == "utf-16" {
        Some(false)
    } else {
        None
    }
}

/// What was found, or else what a name decides.
fn or_named(found: Option<bool>, name: &str) -> Option<bool>
    ensures { result ≡ or_named found name.now }
{
    match found {
        Some(utf8) => Some(utf8),
        None => is_utf8_named(name),
    }
}

/// Whether the first known name is UTF-8, where all are texts.
fn is_utf8_of(names: &Vec<Value>) -> Option<bool>
    ensures { result ≡ is_utf8_of (items_view names.now.items) }
{
    let mut found = None;
    for name in names {
        let Some(text) = name.as_str() else {
            return None;
        };
        found = or_named(found, text);
    }
    Some(found.unwrap_or(false))
}

fn stated_encodings(message: &Value) -> Option<&Value>
    ensures { option_map (λ v. view v.now) result ≡ stated_encodings (view message.now) }
{
    let capabilities = param(message, "capabilities")?;
    let general = capabilities.get("general")?;
    general.get("positionEncodings")
}

fn is_utf8_stated(names: Option<&Value>) -> Option<bool>
    ensures { result ≡ is_utf8_stated (option_map (λ v. view v.now) names.entry) }
{
    match names {
        Some(names) => names.as_array().and_then(is_utf8_of),
        None => Some(false),
    }
}

/// Whether a client asks for UTF-8, by the first name that it states and that is known. None where it states what is
/// no list of names.
pub(crate) fn asks_utf8(message: &Value) -> Option<bool>
    ensures { result ≡ asks_utf8 (view message.now) }
{
    is_utf8_stated(stated_encodings(message))
}
