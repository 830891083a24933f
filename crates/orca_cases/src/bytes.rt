//! Bytes as a case writes them.

use crate::answer::Form;
use anyhow::{Context, Result, bail, ensure};
use std::alloc::Global;

const ESCAPE: u8 = 0x1b;
/// What stands in a text after a backslash, and the byte that both stand for.
const SIGNS: [(u8, u8); 6] = [
    (b'n', b'\n'),
    (b'r', b'\r'),
    (b't', b'\t'),
    (b'e', ESCAPE),
    (b'"', b'"'),
    (b'\\', b'\\'),
];

/// The bytes of a word of a case.
pub(crate) fn read_bytes(alloc: Global, word: &str) -> Result<Vec<u8>> {
    if word == "-" {
        return Ok(Vec::new(alloc));
    }
    match word.strip_prefix('"') {
        Some(text) => read_text(alloc, text),
        None => Ok(hex::decode(alloc, word)?),
    }
}

/// The bytes of a text, from behind its first quote on.
fn read_text(alloc: Global, text: &str) -> Result<Vec<u8>> {
    let text = text.strip_suffix('"').context("a text has no end")?;
    let mut bytes = Vec::new(alloc);
    let mut is_sign = false;
    for byte in text.as_bytes() {
        if is_sign {
            bytes.push(byte_of(*byte)?)?;
            is_sign = false;
        } else if *byte == b'\\' {
            is_sign = true;
        } else {
            ensure!(is_plain(*byte), "a text has a byte that needs a sign");
            bytes.push(*byte)?;
        }
    }
    ensure!(!is_sign, "a text has no end");
    Ok(bytes)
}

/// Bytes as a word of a case. In a text each row begins in a new line.
pub(crate) fn write_bytes(alloc: Global, form: Form, bytes: &[u8]) -> Result<String> {
    if bytes.is_empty() {
        return Ok(String::from_str(alloc, "-")?);
    }
    match form {
        Form::Text if is_text(bytes) => write_text(alloc, bytes),
        _ => Ok(hex::encode(alloc, bytes)?),
    }
}

/// Whether bytes are written as text.
fn is_text(bytes: &[u8]) -> bool {
    for byte in bytes {
        if !is_plain(*byte) && sign_of(*byte).is_none() {
            return false;
        }
    }
    true
}

/// Bytes as text.
fn write_text(alloc: Global, bytes: &[u8]) -> Result<String> {
    let mut text = String::from_str(alloc, "\"")?;
    for n in 0..bytes.len() {
        let (before, rest) = bytes.split_at(n);
        if begins_row(before, rest) {
            text.push_str("\"\n  \"")?;
        }
        push_byte(&mut text, bytes[n])?;
    }
    text.push('"')?;
    Ok(text)
}

/// Adds a byte of a text.
fn push_byte(text: &mut String, byte: u8) -> Result<()> {
    match sign_of(byte) {
        Some(sign) => {
            text.push('\\')?;
            text.push(char::from(sign))?;
        }
        None => text.push(char::from(byte))?,
    }
    Ok(())
}

/// Whether a row begins between these: after the end of a line, and where a picture goes to a place.
fn begins_row(before: &[u8], rest: &[u8]) -> bool {
    match before.last() {
        None => false,
        Some(b'\n') => true,
        Some(_) => goes_to_place(rest),
    }
}

/// Whether this begins with an escape, `[`, a number and `;`.
fn goes_to_place(bytes: &[u8]) -> bool {
    let [ESCAPE, b'[', number @ ..] = bytes else {
        return false;
    };
    for byte in number {
        if !byte.is_ascii_digit() {
            return *byte == b';';
        }
    }
    false
}

/// Whether a byte stands in a text as it is.
fn is_plain(byte: u8) -> bool {
    byte >= b' ' && byte <= b'~' && sign_of(byte).is_none()
}

/// What stands after a backslash for a byte.
fn sign_of(byte: u8) -> Option<u8> {
    for (sign, it) in &SIGNS {
        if *it == byte {
            return Some(*sign);
        }
    }
    None
}

/// The byte for which this stands after a backslash.
fn byte_of(sign: u8) -> Result<u8> {
    for (it, byte) in &SIGNS {
        if *it == sign {
            return Ok(*byte);
        }
    }
    bail!("a text has a backslash before another sign")
}
