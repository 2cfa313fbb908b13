//! Answers and notifications as bytes: JSON with no blank, members in ascending order of their
//! names.
ghost use Rattle.std.specs.Prelude.{◌≡◌, ◌≤◌, false, Some, IfOk};
ghost use Rattle.serde_json.specs.Data.{depth};
ghost use Rattle.serde_json.specs.Read.{read, max_depth};
ghost use Rattle.serde_json.specs.View.{view};
ghost use Rattle.serde_json.specs.Written.{has_float, compact_text};
ghost use Rattle.lsp_types.specs.Bodies.{id_data, result_data, error_object, error_data, note_data, result_body, error_body, note_body};

use crate::{ErrorCode, Id};
use base_core::{Bytes, NoMem};
use serde_json::{Value, json};
use std::alloc::Global;

fn id_value(alloc: Global, id: &Id) -> Result<Value, NoMem>
    ensures { IfOk result (λ v. view v ≡ id_data id.now) }
{
    match id {
        Id::Number(number) => Ok(Value::from(*number)),
        Id::Word(word) => Ok(Value::try_from_str(alloc, word.as_str())?),
        Id::Null => Ok(Value::Null),
    }
}

fn result_value(alloc: Global, id: &Id, x: Value) -> Result<Value, NoMem>
    ensures { IfOk result (λ v. view v ≡ result_data id.now (view x)) }
{
    let id = id_value(alloc, id)?;
    Ok(json!(in alloc; {"id": id, "jsonrpc": "2.0", "result": x})?)
}

fn error_object(alloc: Global, error: ErrorCode) -> Result<Value, NoMem>
    ensures { IfOk result (λ v. view v ≡ error_object error) }
{
    let number = error.number();
    let message = error.message();
    Ok(json!(in alloc; {"code": number, "message": message})?)
}

fn error_value(alloc: Global, id: &Id, error: ErrorCode) -> Result<Value, NoMem>
    ensures { IfOk result (λ v. view v ≡ error_data id.now error) }
{
    let id = id_value(alloc, id)?;
    let object = error_object(alloc, error)?;
    Ok(json!(in alloc; {"error": object, "id": id, "jsonrpc": "2.0"})?)
}

fn note_value(alloc: Global, method: &str, params: Value) -> Result<Value, NoMem>
    ensures { IfOk result (λ v. view v ≡ note_data method.now (view params)) }
{
    Ok(json!(in alloc; {"jsonrpc": "2.0", "method": method, "params": params})?)
}

fn write(alloc: Global, body: &Value) -> Result<Bytes, NoMem>
    ensures text { IfOk result
        (λ b. has_float (view body.now) ≡ false → b ≡ compact_text (view body.now)) }
    ensures reads { IfOk result
        (λ b. depth (view body.now) ≤ max_depth → read b ≡ Some (view body.now)) }
{
    Ok(Bytes::from_vec(body.to_vec(alloc)?))
}

/// The answer to a request. The digits of a number with a point or an exponent are not told.
pub fn encode_result(alloc: Global, id: &Id, x: Value) -> Result<Bytes, NoMem>
    ensures text { IfOk result
        (λ b. has_float (view x) ≡ false → b ≡ result_body id.now (view x)) }
    ensures reads { let message = result_data id.now (view x) in
        IfOk result (λ b. depth message ≤ max_depth → read b ≡ Some message) }
{
    let body = result_value(alloc, id, x)?;
    write(alloc, &body)
}

/// The refusal of a request, or of a body that is none.
pub fn encode_error(alloc: Global, id: &Id, error: ErrorCode) -> Result<Bytes, NoMem>
    ensures text { IfOk result (λ b. b ≡ error_body id.now error) }
    ensures reads { IfOk result (λ b. read b ≡ Some (error_data id.now error)) }
{
    let body = error_value(alloc, id, error)?;
    write(alloc, &body)
}

/// A notification. The digits of a number with a point or an exponent are not told.
pub fn encode_note(alloc: Global, method: &str, params: Value) -> Result<Bytes, NoMem>
    ensures text { IfOk result
        (λ b. has_float (view params) ≡ false → b ≡ note_body method.now (view params)) }
    ensures reads { let message = note_data method.now (view params) in
        IfOk result (λ b. depth message ≤ max_depth → read b ≡ Some message) }
{
    let body = note_value(alloc, method, params)?;
    write(alloc, &body)
}
