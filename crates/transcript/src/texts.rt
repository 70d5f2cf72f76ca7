//! Reading the texts of a line.

use crate::fault::Fault;
use crate::numbers::leading;
use cipher_port::{Id, Recipients, standin_write};
use std::alloc::Global;

/// The byte that an escape stands for, and the text after the escape, of the text after its
/// backslash.
fn escape(text: &str) -> Option<(u8, &str)> {
    if let Some(rest) = text.strip_prefix('n') {
        return Some((b'\n', rest));
    }
    if let Some(rest) = text.strip_prefix('r') {
        return Some((b'\r', rest));
    }
    if let Some(rest) = text.strip_prefix('t') {
        return Some((b'\t', rest));
    }
    let hex = text.strip_prefix('x')?;
    let byte = u8::from_str_radix(hex.get(..2)?, 16).ok()?;
    Some((byte, hex.get(2..)?))
}

/// Adds the bytes of a piece after a backslash.
fn add_escaped(bytes: &mut Vec<u8>, piece: &str) -> Result<(), Fault> {
    let Some((byte, rest)) = escape(piece) else {
        return Err(Fault::BadLine);
    };
    bytes.push(byte)?;
    bytes.extend_from_slice(rest.as_bytes())?;
    Ok(())
}

/// Adds the bytes of a text with escapes.
fn add_once(bytes: &mut Vec<u8>, text: &str) -> Result<(), Fault> {
    let mut pieces = text.split('\\');
    if let Some(plain) = pieces.next() {
        bytes.extend_from_slice(plain.as_bytes())?;
    }
    for piece in pieces {
        add_escaped(bytes, piece)?;
    }
    Ok(())
}

/// Makes the last byte stand so many times, at least once.
fn repeat_last(bytes: &mut Vec<u8>, times: u64) -> Result<(), Fault> {
    let Some(&byte) = bytes.last() else {
        return Err(Fault::BadLine);
    };
    if times == 0 {
        return Err(Fault::BadLine);
    }
    for _ in 1..times {
        bytes.push(byte)?;
    }
    Ok(())
}

/// Adds the bytes of a piece after a star.
fn add_times(bytes: &mut Vec<u8>, piece: &str) -> Result<(), Fault> {
    let (times, rest) = leading(piece)?;
    repeat_last(bytes, times)?;
    add_once(bytes, rest)
}

/// The bytes of a text with escapes, `\n`, `\r`, `\t` and `\xHH`, in which `*N` makes the byte before
/// it stand N times.
pub(crate) fn bytes(alloc: Global, text: &str) -> Result<Vec<u8>, Fault> {
    let mut bytes = Vec::new(alloc);
    let mut pieces = text.split('*');
    if let Some(first) = pieces.next() {
        add_once(&mut bytes, first)?;
    }
    for piece in pieces {
        add_times(&mut bytes, piece)?;
    }
    Ok(bytes)
}

/// The text of a word. The word `''` is the empty one.
fn word(alloc: Global, word: &str) -> Result<String, Fault> {
    if word == "''" {
        return Ok(String::new(alloc));
    }
    match String::from_utf8(bytes(alloc, word)?) {
        Ok(text) => Ok(text),
        Err(_) => Err(Fault::BadLine),
    }
}

/// The words of a line.
pub(crate) fn words(alloc: Global, line: &str) -> Result<Vec<String>, Fault> {
    let mut words = Vec::new(alloc);
    for text in line.split_whitespace() {
        words.push(word(alloc, text)?)?;
    }
    Ok(words)
}

/// The ids of a line.
pub(crate) fn ids(alloc: Global, line: &str) -> Result<Vec<Id>, Fault> {
    let mut ids = Vec::new(alloc);
    for word in line.split_whitespace() {
        ids.push(Id::read(alloc, word).map_err(|_| Fault::BadLine)?)?;
    }
    Ok(ids)
}

fn recipients(alloc: Global, line: &str) -> Result<Recipients, Fault> {
    let ids = ids(alloc, line)?;
    match Recipients::of(alloc, &ids) {
        Ok(recipients) => Ok(recipients),
        Err(_) => Err(Fault::BadLine),
    }
}

/// The sealed file of `IDS : BODY`.
pub(crate) fn sealed(alloc: Global, line: &str) -> Result<Vec<u8>, Fault> {
    let (to, body) = pair(line, " :")?;
    let to = recipients(alloc, to)?;
    let body = bytes(alloc, body)?;
    if body.len() > 32_768 {
        return Err(Fault::BadLine);
    }
    Ok(standin_write(alloc, &to, &body)?)
}

/// The two sides of a text around a mark, which a space follows unless nothing does.
pub(crate) fn pair<'a>(text: &'a str, mark: &str) -> Result<(&'a str, &'a str), Fault> {
    let (first, rest) = sides(text, mark)?;
    if rest.is_empty() {
        return Ok((first, rest));
    }
    match rest.strip_prefix(' ') {
        Some(second) => Ok((first, second)),
        None => Err(Fault::BadLine),
    }
}

/// The text with the number in place of each `#`.
pub(crate) fn numbered(alloc: Global, text: &str, number: u64) -> Result<String, Fault> {
    let digits = format!(in alloc; "{number}")?;
    let mut numbered = String::new(alloc);
    let mut pieces = text.split('#');
    if let Some(first) = pieces.next() {
        numbered.push_str(first)?;
    }
    for piece in pieces {
        numbered.push_str(&digits)?;
        numbered.push_str(piece)?;
    }
    Ok(numbered)
}

/// The two sides of a text around a mark.
pub(crate) fn sides<'a>(text: &'a str, mark: &str) -> Result<(&'a str, &'a str), Fault> {
    match text.split_once(mark) {
        Some(sides) => Ok(sides),
        None => Err(Fault::BadLine),
    }
}

/// The first word of a line, and the text after the space that follows it.
pub(crate) fn first_word(line: &str) -> (&str, &str) {
    match line.split_once(' ') {
        Some(sides) => sides,
        None => (line, ""),
    }
}
