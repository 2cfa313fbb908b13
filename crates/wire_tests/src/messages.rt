//! Bodies and their messages.
use base_core::{NoMem, Text};
use lsp_types::{DecodeFault, ErrorCode, Id, decode, encode_error, encode_note, encode_result};
use serde_json::{Value, json};
use std::alloc::Global;
use std::process::Abort;
use std::test::Fail;

/// Bodies as they stand.
const WHOLE: [(&str, &str); 27] = [
    ("", "NotJson"),
    ("[]", "NotRequest(Null)"),
    ("3", "NotRequest(Null)"),
    ("\"x\"", "NotRequest(Null)"),
    ("null", "NotRequest(Null)"),
    ("{}", "NotRequest(Null)"),
    ("{} {}", "NotJson"),
    ("{}x", "NotJson"),
    (
        "{\"id\":1,\"jsonrpc\":\"2.0\",\"method\":\"\\ud800\"}",
        "NotJson",
    ),
    ("{\"id\":1e999}", "NotJson"),
    (
        " \t\r\n{\"jsonrpc\":\"2.0\",\"id\":1,\"method\":\"shutdown\"} \n",
        "Request { id: Number(1), call: Shutdown }",
    ),
    (
        "{\"id\":1,\"method\":\"shutdown\"}",
        "NotRequest(Number(1))",
    ),
    (
        "{\"jsonrpc\":\"2.00\",\"id\":1,\"method\":\"shutdown\"}",
        "NotRequest(Number(1))",
    ),
    (
        "{\"jsonrpc\":2,\"id\":\"a\",\"method\":\"shutdown\"}",
        "NotRequest(Word(Text { text: \"a\" }))",
    ),
    (
        "{\"jsonrpc\":2,\"id\":null,\"method\":\"shutdown\"}",
        "NotRequest(Null)",
    ),
    (
        "{\"jsonrpc\":\"2.0\",\"jsonrpc\":\"1.0\",\"id\":1,\"method\":\"exit\"}",
        "NotRequest(Number(1))",
    ),
    (
        "{\"jsonrpc\":\"1.0\",\"jsonrpc\":\"2.0\",\"id\":1,\"id\":2,\"method\":\"shutdown\"}",
        "Request { id: Number(2), call: Shutdown }",
    ),
    ("{\"jsonrpc\":\"2.0\"}", "NotRequest(Null)"),
    ("{\"jsonrpc\":\"2.0\",\"id\":7}", "NotRequest(Number(7))"),
    ("{\"jsonrpc\":\"2.0\",\"id\":null}", "NotRequest(Null)"),
    ("{\"jsonrpc\":\"2.0\",\"method\":5}", "NotRequest(Null)"),
    (
        "{\"jsonrpc\":\"2.0\",\"id\":7,\"method\":5}",
        "NotRequest(Number(7))",
    ),
    ("{\"jsonrpc\":\"2.0\",\"result\":1}", "Reply"),
    ("{\"jsonrpc\":\"2.0\",\"error\":null,\"id\":null}", "Reply"),
    ("{\"jsonrpc\":\"2.0\",\"result\":1,\"id\":\"a\"}", "Reply"),
    (
        "{\"jsonrpc\":\"2.0\",\"result\":1,\"id\":true}",
        "NotRequest(Null)",
    ),
    (
        "{\"jsonrpc\":\"2.0\",\"result\":1,\"error\":2,\"id\":3,\"method\":\"shutdown\"}",
        "Request { id: Number(3), call: Shutdown }",
    ),
];

/// The id of a request for `shutdown`.
const IDS: [(&str, &str); 13] = [
    (
        "-2147483648",
        "Request { id: Number(-2147483648), call: Shutdown }",
    ),
    (
        "2147483647",
        "Request { id: Number(2147483647), call: Shutdown }",
    ),
    ("-2147483649", "NotRequest(Null)"),
    ("2147483648", "NotRequest(Null)"),
    ("18446744073709551616", "NotRequest(Null)"),
    ("0", "Request { id: Number(0), call: Shutdown }"),
    ("-0", "NotRequest(Null)"),
    ("1.0", "NotRequest(Null)"),
    ("1e0", "NotRequest(Null)"),
    ("null", "NotRequest(Null)"),
    ("true", "NotRequest(Null)"),
    ("[1]", "NotRequest(Null)"),
    (
        "\"1\"",
        "Request { id: Word(Text { text: \"1\" }), call: Shutdown }",
    ),
];

/// Requests of id 1: the method and its members.
const REQUESTS: [(&str, &str, &str); 30] = [
    (
        "initialize",
        "[]",
        "Request { id: Number(1), call: Initialize { utf8: false } }",
    ),
    (
        "initialize",
        "{\"capabilities\":{\"general\":[\"utf-8\"]}}",
        "Request { id: Number(1), call: Initialize { utf8: false } }",
    ),
    (
        "initialize",
        "{\"capabilities\":{\"general\":{\"positionEncodings\":[]}}}",
        "Request { id: Number(1), call: Initialize { utf8: false } }",
    ),
    (
        "initialize",
        "{\"capabilities\":{\"general\":{\"positionEncodings\":[\"utf-32\",\"utf-8\",\"utf-16\"]}}}",
        "Request { id: Number(1), call: Initialize { utf8: true } }",
    ),
    (
        "initialize",
        "{\"capabilities\":{\"general\":{\"positionEncodings\":[\"utf-16\",\"utf-8\"]}}}",
        "Request { id: Number(1), call: Initialize { utf8: false } }",
    ),
    (
        "initialize",
        "{\"capabilities\":{\"general\":{\"positionEncodings\":[\"UTF-8\"]}}}",
        "Request { id: Number(1), call: Initialize { utf8: false } }",
    ),
    (
        "initialize",
        "{\"capabilities\":{\"general\":{\"positionEncodings\":\"utf-8\"}}}",
        "BadParams { id: Number(1), initialize: true }",
    ),
    (
        "initialize",
        "{\"capabilities\":{\"general\":{\"positionEncodings\":null}}}",
        "BadParams { id: Number(1), initialize: true }",
    ),
    (
        "initialize",
        "{\"capabilities\":{\"general\":{\"positionEncodings\":[\"utf-8\",8]}}}",
        "BadParams { id: Number(1), initialize: true }",
    ),
    ("shutdown", "3", "Request { id: Number(1), call: Shutdown }"),
    ("exit", "{}", "UnknownMethod(Number(1))"),
    ("textDocument/didOpen", "{}", "UnknownMethod(Number(1))"),
    ("textDocument/hover", "{}", "UnknownMethod(Number(1))"),
    (
        "textDocument/documentSymbol",
        "{\"textDocument\":{\"uri\":\"u\",\"x\":1}}",
        "Request { id: Number(1), call: Symbols { uri: Text { text: \"u\" } } }",
    ),
    (
        "textDocument/documentSymbol",
        "{\"textDocument\":{\"uri\":1}}",
        "BadParams { id: Number(1), initialize: false }",
    ),
    (
        "textDocument/documentSymbol",
        "{\"uri\":\"u\"}",
        "BadParams { id: Number(1), initialize: false }",
    ),
    (
        "textDocument/documentSymbol",
        "null",
        "BadParams { id: Number(1), initialize: false }",
    ),
    (
        "proof/goals",
        "{\"textDocument\":{\"uri\":\"u\"},\"position\":{\"line\":0,\"character\":2147483647}}",
        "Request { id: Number(1), call: Goals { uri: Text { text: \"u\" }, at: Position { line: 0, character: 2147483647 }, after: true } }",
    ),
    (
        "proof/goals",
        "{\"textDocument\":{\"uri\":\"u\"},\"position\":{\"line\":2147483647,\"character\":0},\"mode\":\"After\"}",
        "Request { id: Number(1), call: Goals { uri: Text { text: \"u\" }, at: Position { line: 2147483647, character: 0 }, after: true } }",
    ),
    (
        "proof/goals",
        "{\"textDocument\":{\"uri\":\"u\"},\"position\":{\"line\":1,\"character\":2},\"mode\":\"Prev\"}",
        "Request { id: Number(1), call: Goals { uri: Text { text: \"u\" }, at: Position { line: 1, character: 2 }, after: false } }",
    ),
    (
        "proof/goals",
        "{\"textDocument\":{\"uri\":\"u\"},\"position\":{\"line\":1,\"character\":2},\"mode\":null}",
        "BadParams { id: Number(1), initialize: false }",
    ),
    (
        "proof/goals",
        "{\"textDocument\":{\"uri\":\"u\"},\"position\":{\"line\":1,\"character\":2},\"mode\":\"prev\"}",
        "BadParams { id: Number(1), initialize: false }",
    ),
    (
        "proof/goals",
        "{\"textDocument\":{\"uri\":\"u\"},\"position\":{\"line\":2147483648,\"character\":0}}",
        "BadParams { id: Number(1), initialize: false }",
    ),
    (
        "proof/goals",
        "{\"textDocument\":{\"uri\":\"u\"},\"position\":{\"line\":0,\"character\":2147483648}}",
        "BadParams { id: Number(1), initialize: false }",
    ),
    (
        "proof/goals",
        "{\"textDocument\":{\"uri\":\"u\"},\"position\":{\"line\":-1,\"character\":0}}",
        "BadParams { id: Number(1), initialize: false }",
    ),
    (
        "proof/goals",
        "{\"textDocument\":{\"uri\":\"u\"},\"position\":{\"line\":1.0,\"character\":0}}",
        "BadParams { id: Number(1), initialize: false }",
    ),
    (
        "proof/goals",
        "{\"textDocument\":{\"uri\":\"u\"},\"position\":{\"line\":1}}",
        "BadParams { id: Number(1), initialize: false }",
    ),
    (
        "proof/goals",
        "{\"textDocument\":{\"uri\":\"u\"}}",
        "BadParams { id: Number(1), initialize: false }",
    ),
    (
        "proof/goals",
        "{\"position\":{\"line\":1,\"character\":2}}",
        "BadParams { id: Number(1), initialize: false }",
    ),
    (
        "proof/goals",
        "[]",
        "BadParams { id: Number(1), initialize: false }",
    ),
];

/// Notifications: the method and its members.
const NOTES: [(&str, &str, &str); 34] = [
    ("initialized", "7", "Note(Initialized)"),
    ("exit", "null", "Note(Exit)"),
    ("fleche/trim", "[]", "Note(Trim)"),
    ("shutdown", "{}", "Note(Other)"),
    ("initialize", "{}", "Note(Other)"),
    ("proof/goals", "{}", "Note(Other)"),
    ("textDocument/didSave", "{}", "Note(Other)"),
    (
        "$/cancelRequest",
        "{\"id\":-5}",
        "Note(Cancel { id: Number(-5) })",
    ),
    (
        "$/cancelRequest",
        "{\"id\":\"-5\"}",
        "Note(Cancel { id: Word(Text { text: \"-5\" }) })",
    ),
    ("$/cancelRequest", "{\"id\":null}", "Note(BadNote)"),
    ("$/cancelRequest", "{\"id\":2147483648}", "Note(BadNote)"),
    ("$/cancelRequest", "{\"id\":1.5}", "Note(BadNote)"),
    ("$/cancelRequest", "{}", "Note(BadNote)"),
    (
        "textDocument/didOpen",
        "{\"textDocument\":{\"uri\":\"u\",\"version\":-2147483648,\"text\":\"a\\n\",\"languageId\":3}}",
        "Note(DidOpen { uri: Text { text: \"u\" }, version: -2147483648, text: Text { text: \"a\\n\" } })",
    ),
    (
        "textDocument/didOpen",
        "{\"textDocument\":{\"uri\":\"u\",\"version\":2147483648,\"text\":\"\"}}",
        "Note(BadNote)",
    ),
    (
        "textDocument/didOpen",
        "{\"textDocument\":{\"uri\":\"u\",\"version\":1,\"text\":null}}",
        "Note(BadNote)",
    ),
    (
        "textDocument/didOpen",
        "{\"textDocument\":{\"uri\":\"u\",\"text\":\"\"}}",
        "Note(BadNote)",
    ),
    (
        "textDocument/didOpen",
        "{\"textDocument\":[]}",
        "Note(BadNote)",
    ),
    (
        "textDocument/didChange",
        "{\"textDocument\":{\"uri\":\"u\",\"version\":2147483647},\"contentChanges\":[]}",
        "Note(DidChange { uri: Text { text: \"u\" }, version: 2147483647, changes: List { items: [] } })",
    ),
    (
        "textDocument/didChange",
        "{\"textDocument\":{\"uri\":\"u\",\"version\":2},\"contentChanges\":[{\"text\":\"b\"},{\"range\":{\"start\":{\"line\":1,\"character\":2},\"end\":{\"line\":3,\"character\":4}},\"text\":\"\",\"rangeLength\":9}]}",
        "Note(DidChange { uri: Text { text: \"u\" }, version: 2, changes: List { items: [Change { range: None, text: Text { text: \"b\" } }, Change { range: Some(Range { from_pos: Position { line: 1, character: 2 }, to_pos: Position { line: 3, character: 4 } }), text: Text { text: \"\" } }] } })",
    ),
    (
        "textDocument/didChange",
        "{\"textDocument\":{\"uri\":\"u\",\"version\":2},\"contentChanges\":[{\"text\":\"b\"},{\"range\":{\"start\":{\"line\":1,\"character\":2}},\"text\":\"\"}]}",
        "Note(BadNote)",
    ),
    (
        "textDocument/didChange",
        "{\"textDocument\":{\"uri\":\"u\",\"version\":2},\"contentChanges\":[{\"range\":null,\"text\":\"\"}]}",
        "Note(BadNote)",
    ),
    (
        "textDocument/didChange",
        "{\"textDocument\":{\"uri\":\"u\",\"version\":2},\"contentChanges\":[{}]}",
        "Note(BadNote)",
    ),
    (
        "textDocument/didChange",
        "{\"textDocument\":{\"uri\":\"u\",\"version\":2},\"contentChanges\":{\"text\":\"b\"}}",
        "Note(BadNote)",
    ),
    (
        "textDocument/didChange",
        "{\"textDocument\":{\"uri\":\"u\",\"version\":2.0},\"contentChanges\":[]}",
        "Note(BadNote)",
    ),
    (
        "textDocument/didChange",
        "{\"textDocument\":{\"uri\":\"u\",\"version\":2}}",
        "Note(BadNote)",
    ),
    (
        "textDocument/didClose",
        "{\"textDocument\":{\"uri\":\"\\u00e9\"}}",
        "Note(DidClose { uri: Text { text: \"é\" } })",
    ),
    ("textDocument/didClose", "{}", "Note(BadNote)"),
    (
        "fleche/grant",
        "{\"textDocument\":{\"uri\":\"u\"},\"units\":0}",
        "Note(Grant { uri: Text { text: \"u\" }, units: 0 })",
    ),
    (
        "fleche/grant",
        "{\"textDocument\":{\"uri\":\"u\"},\"units\":2147483647}",
        "Note(Grant { uri: Text { text: \"u\" }, units: 2147483647 })",
    ),
    (
        "fleche/grant",
        "{\"textDocument\":{\"uri\":\"u\"},\"units\":4294967295}",
        "Note(BadNote)",
    ),
    (
        "fleche/grant",
        "{\"textDocument\":{\"uri\":\"u\"},\"units\":2147483648}",
        "Note(BadNote)",
    ),
    (
        "fleche/grant",
        "{\"textDocument\":{\"uri\":\"u\"},\"units\":-1}",
        "Note(BadNote)",
    ),
    ("fleche/grant", "{\"units\":1}", "Note(BadNote)"),
];

const ERRORS: [(ErrorCode, &str); 8] = [
    (
        ErrorCode::ParseError,
        "\"code\":-32700,\"message\":\"parse error\"",
    ),
    (
        ErrorCode::InvalidRequest,
        "\"code\":-32600,\"message\":\"invalid request\"",
    ),
    (
        ErrorCode::MethodNotFound,
        "\"code\":-32601,\"message\":\"method not found\"",
    ),
    (
        ErrorCode::InvalidParams,
        "\"code\":-32602,\"message\":\"invalid params\"",
    ),
    (
        ErrorCode::ServerNotInitialized,
        "\"code\":-32002,\"message\":\"server not initialized\"",
    ),
    (
        ErrorCode::RequestCancelled,
        "\"code\":-32800,\"message\":\"request cancelled\"",
    ),
    (
        ErrorCode::ContentModified,
        "\"code\":-32801,\"message\":\"content modified\"",
    ),
    (
        ErrorCode::TooManyWaiting,
        "\"code\":-32803,\"message\":\"too many waiting requests\"",
    ),
];

fn shown(alloc: Global, body: &[u8]) -> Result<String, Fail> {
    match decode(alloc, body) {
        Ok(message) => Ok(format!(in alloc; "{message:?}")?),
        Err(DecodeFault::NoMem) => Err(Fail::from(NoMem)),
        Err(fault) => Ok(format!(in alloc; "{fault:?}")?),
    }
}

/// A body that is this many arrays in one another.
fn nested(alloc: Global, depth: usize) -> Result<String, Fail> {
    let mut body = String::new(alloc);
    for _ in 0..depth {
        body.push_str("[")?;
    }
    for _ in 0..depth {
        body.push_str("]")?;
    }
    Ok(body)
}

fn expect<R: Abort>(rt: &R, alloc: Global, body: &[u8], want: &str) -> Result<(), Fail> {
    let got = shown(alloc, body)?;
    assert_eq!(rt; got.as_str(), want, "at {body:?}");
    Ok(())
}

fn expect_whole<R: Abort>(rt: &R, alloc: Global) -> Result<(), Fail> {
    for (body, want) in &WHOLE {
        expect(rt, alloc, body.as_bytes(), *want)?;
    }
    expect(rt, alloc, b"\"\xff\"", "NotJson")?;
    expect(
        rt,
        alloc,
        nested(alloc, 127)?.as_bytes(),
        "NotRequest(Null)",
    )?;
    expect(rt, alloc, nested(alloc, 128)?.as_bytes(), "NotJson")
}

fn expect_ids<R: Abort>(rt: &R, alloc: Global) -> Result<(), Fail> {
    for (id, want) in &IDS {
        let body = format!(in alloc;
            "{{\"jsonrpc\":\"2.0\",\"method\":\"shutdown\",\"id\":{id}}}"
        )?;
        expect(rt, alloc, body.as_bytes(), *want)?;
    }
    Ok(())
}

fn expect_requests<R: Abort>(rt: &R, alloc: Global) -> Result<(), Fail> {
    for (method, params, want) in &REQUESTS {
        let body = format!(in alloc;
            "{{\"jsonrpc\":\"2.0\",\"id\":1,\"method\":\"{method}\",\"params\":{params}}}"
        )?;
        expect(rt, alloc, body.as_bytes(), *want)?;
    }
    Ok(())
}

fn expect_notes<R: Abort>(rt: &R, alloc: Global) -> Result<(), Fail> {
    for (method, params, want) in &NOTES {
        let body = format!(in alloc;
            "{{\"jsonrpc\":\"2.0\",\"method\":\"{method}\",\"params\":{params}}}"
        )?;
        expect(rt, alloc, body.as_bytes(), *want)?;
    }
    Ok(())
}

fn expect_errors<R: Abort>(rt: &R, alloc: Global) -> Result<(), Fail> {
    let word = Id::Word(Text::copy(alloc, "a\"\n")?);
    for (error, part) in &ERRORS {
        let got = encode_error(alloc, &word, *error)?;
        let want = format!(in alloc;
            "{{\"error\":{{{part}}},\"id\":\"a\\\"\\n\",\"jsonrpc\":\"2.0\"}}"
        )?;
        assert_eq!(rt; got.as_slice(), want.as_bytes(), "at {part}");
    }
    Ok(())
}

fn expect_encoded<R: Abort>(rt: &R, alloc: Global) -> Result<(), Fail> {
    let x = json!(in alloc; {"b": [1, null], "a": "é"})?;
    let got = encode_result(alloc, &Id::Number(-5), x)?;
    let want = "{\"id\":-5,\"jsonrpc\":\"2.0\",\"result\":{\"a\":\"é\",\"b\":[1,null]}}";
    assert_eq!(rt; got.as_slice(), want.as_bytes());
    let got = encode_result(alloc, &Id::Null, Value::Null)?;
    let want = "{\"id\":null,\"jsonrpc\":\"2.0\",\"result\":null}";
    assert_eq!(rt; got.as_slice(), want.as_bytes());
    let params = json!(in alloc; {"type": 1, "message": "m"})?;
    let got = encode_note(alloc, "window/logMessage", params)?;
    let want =
        "{\"jsonrpc\":\"2.0\",\"method\":\"window/logMessage\",\"params\":{\"message\":\"m\",\"type\":1}}";
    assert_eq!(rt; got.as_slice(), want.as_bytes());
    Ok(())
}

#[test]
fn messages_are_read_and_written(rt: HostRuntime) -> Result<(), Fail> {
    let alloc = rt.alloc();
    expect_whole(&rt, alloc)?;
    expect_ids(&rt, alloc)?;
    expect_requests(&rt, alloc)?;
    expect_notes(&rt, alloc)?;
    expect_errors(&rt, alloc)?;
    expect_encoded(&rt, alloc)
}
