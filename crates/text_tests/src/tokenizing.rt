//! Tokens: each by its kind, its text and its bytes, and the byte of the period.

use crate::reading::tokens_of;
use base_core::NoMem;
use coq_syntax::TokenKind;
use std::alloc::Global;

fn name(kind: TokenKind) -> &'static str {
    match kind {
        TokenKind::Identifier => "identifier",
        TokenKind::Wildcard => "wildcard",
        TokenKind::Reserved => "reserved",
        TokenKind::Number => "number",
        TokenKind::Symbol => "symbol",
        TokenKind::Quoted => "quoted",
        TokenKind::Other => "other",
    }
}

fn shown(alloc: Global, body: &str) -> Result<String, NoMem> {
    let list = tokens_of(alloc, body)?;
    let mut text = String::new(alloc);
    for token in list.as_slice() {
        let kind = name(token.kind);
        let word = token.text.as_str();
        let from = token.from;
        let to = token.to;
        let line = format!(in alloc; "{kind} {word} {from} {to}|")?;
        text.push_str(line.as_str())?;
    }
    let period = list.period();
    let line = format!(in alloc; "{period}")?;
    text.push_str(line.as_str())?;
    Ok(text)
}

const CASES: [(&str, &str); 16] = [
    ("", "0"),
    ("_x'", "identifier _x' 0 3|3"),
    ("_'", "identifier _' 0 2|2"),
    ("x\u{a0}", "identifier x 0 1|other \u{a0} 1 3|3"),
    ("_", "wildcard _ 0 1|1"),
    ("x1 1x", "identifier x1 0 2|number 1 3 4|identifier x 4 5|5"),
    (
        "Type@{12}",
        "reserved Type 0 4|symbol @ 4 5|symbol { 5 6|number 12 6 8|symbol } 8 9|9",
    ),
    (
        "-><-:==>/\\\\/",
        "symbol -> 0 2|symbol <- 2 4|symbol := 4 6|symbol => 6 8|symbol /\\ 8 10|symbol \\/ 10 12|12",
    ),
    ("- < ;", "other - 0 1|other < 2 3|other ; 4 5|5"),
    ("\"a\"\"b\"", "quoted \"a\" 0 3|quoted \"b\" 3 6|6"),
    (
        "a(* (* \"*)\" *) *)b",
        "identifier a 0 1|identifier b 17 18|18",
    ),
    ("é→x", "identifier é 0 2|other → 2 5|identifier x 5 6|6"),
    (
        "(*\u{e9}*)\u{e9} \u{e9}",
        "identifier \u{e9} 6 8|identifier \u{e9} 9 11|11",
    ),
    ("(* (* *) \"", "symbol ( 0 1|other * 1 2|other \" 9 10|10"),
    (
        "foralls forall",
        "identifier foralls 0 7|reserved forall 8 14|14",
    ),
    ("a.b", "identifier a 0 1|symbol . 1 2|identifier b 2 3|3"),
];

#[test]
fn sentences_give_their_tokens(rt: HostRuntime) {
    for (body, wanted) in &CASES {
        let found = shown(rt.alloc(), body).expect(&rt, "memory");
        assert_eq!(rt; found.as_str(), *wanted);
    }
}
