//! Bytes as they stand in rows: a letter behind `\` stands for a sign that no row can hold.
use crate::faults::Fault;
use base_core::NoMem;
use std::alloc::{AllocError, Global};

/// What a letter behind `\` stands for: `z` is a byte that no text has.
fn escaped(letter: u8) -> Result<u8, Fault> {
    match letter {
        b'r' => Ok(b'\r'),
        b'n' => Ok(b'\n'),
        b's' => Ok(b' '),
        b'z' => Ok(0xff),
        b'\\' => Ok(b'\\'),
        _ => Err(Fault::NoRow),
    }
}

/// The bytes that a text stands for.
pub fn read_bytes(alloc: Global, text: &str) -> Result<Vec<u8>, Fault> {
    let mut bytes = Vec::new(alloc);
    let mut behind = false;
    for sign in text.as_bytes() {
        if behind {
            bytes.push(escaped(*sign)?)?;
            behind = false;
        } else if *sign == b'\\' {
            behind = true;
        } else {
            bytes.push(*sign)?;
        }
    }
    Ok(bytes)
}

/// Adds a byte as a row shows it: one of another alphabet is a `?`.
fn add_byte(told: &mut String, byte: u8) -> Result<(), AllocError> {
    match byte {
        b'\r' => told.push_str("\\r"),
        b'\n' => told.push_str("\\n"),
        b' '..=b'~' => told.push(char::from(byte)),
        _ => told.push('?'),
    }
}

/// Bytes as a row shows them, each frame in a line of its own.
pub fn shown(alloc: Global, bytes: &[u8]) -> Result<String, NoMem> {
    let mut told = String::new(alloc);
    for (at, byte) in bytes.iter().enumerate() {
        if bytes[at..].starts_with(b"Content-Length: ") {
            told.push('\n')?;
        }
        add_byte(&mut told, *byte)?;
    }
    Ok(told)
}
