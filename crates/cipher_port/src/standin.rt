//! The stand-in for a sealed file: a text that names the recipients and has the body in hexadecimal.

ghost use Rattle.std.specs.Prelude.{◌≡◌, ◌↔◌, ◌≤◌, ◌++◌, [], length, Err, None, Some, IfOk, option_map, vec_len};
ghost use Rattle.std.specs.List.{flat_map};
ghost use Rattle.gopass_base.specs.Text.{Text};
ghost use Rattle.gopass_base.specs.Lines.{pieces_of};
ghost use Rattle.recipient_files.specs.IdText.{id_at};
ghost use Rattle.cipher_port.specs.Limits.{most_body, most_sealed};
ghost use Rattle.cipher_port.specs.Tool.{Content, made_of};
ghost use Rattle.cipher_port.specs.StandinText.{IsStandinText, standin_text, to_line};
ghost use Rattle.cipher_port.specs.Standin.{has_place, with_next, is_end, digits_at, are_body_digits, body_of, from_body, from_recipients, standin_content};
ghost use Rattle.cipher_port.specs.StandinReads.{Gives, IsSoFar};
ghost use Rattle.cipher_port.specs.declared.standin.StandinFault.TheVariants.{NoMemory};

use crate::{Id, IdFault, Recipients};
use gopass_base::{NoMemory as NoRoom, cut, push, push_line};
use hex::FromHexError;
use std::alloc::Global;

/// For whom a file is sealed, and its body.
#[derive(Debug, Drop)]
pub struct Sealed {
    pub to: Recipients,
    pub body: Vec<u8>,
}

/// Why bytes are not read as a stand-in.
#[derive(Clone, Copy, Debug, PartialEq, Eq)]
pub enum StandinFault {
    /// The bytes are the text of no set of recipients and body.
    NotSealed,
    NoMemory,
}

impl From<NoRoom> for StandinFault {
    ghost from_gives = { λ _ e. e ≡ NoMemory };

    fn from(_: NoRoom) -> Self {
        StandinFault::NoMemory
    }
}

/// For whom the bytes are sealed, 1 to 64 recipients, and their body, at most 32,768 bytes.
///
/// Sealed are lines that each end with an LF: `gopass-standin 1`, then `to ` and an id for each
/// recipient in rising order of their bytes, then `body ` and the body in lower-case hexadecimal,
/// and at last `end`. All other bytes are not sealed.
pub fn standin_read(alloc: Global, bytes: &[u8]) -> Result<Sealed, StandinFault>
    ensures found { IfOk result (λ sealed. standin_content bytes.now ≡ Some (record { to = sealed.to; body = sealed.body.items })) }
    ensures other { result ≡ Err StandinFault.NotSealed → standin_content bytes.now ≡ None }
{
    let Some((header, lines)) = cut(bytes, b'\n') else {
        return Err(StandinFault::NotSealed);
    };
    if header != b"gopass-standin 1".as_slice() {
        return Err(StandinFault::NotSealed);
    }
    read_lines(alloc, lines)
}

/// The text that is sealed for these recipients and this body of at most 32,768 bytes. It has at
/// most 131,072 bytes, and is read as those.
pub fn standin_write(alloc: Global, to: &Recipients, body: &[u8]) -> Result<Vec<u8>, NoRoom>
    requires { length body.now ≤ most_body }
    ensures text { IfOk result (λ bytes. bytes.items ≡ standin_text (made_of to.now body.now)) }
    ensures again { IfOk result (λ bytes. standin_content bytes.items ≡ Some (made_of to.now body.now)) }
    ensures bound { IfOk result (λ bytes. vec_len bytes ≤ most_sealed) }
{
    let text = write_text(alloc, to.ids(), body)?;
    Ok(text)
}

fn write_text(alloc: Global, ids: &[Id], body: &[u8]) -> Result<Vec<u8>, NoRoom>
    ensures { IfOk result (λ bytes. bytes.items ≡ standin_text (made_of ids.now body.now)) }
{
    let mut text = Vec::new(alloc);
    text.extend_from_slice(b"gopass-standin 1\n")?;
    push_ids(&mut text, ids)?;
    text.extend_from_slice(b"body ")?;
    text.extend_from_slice(hex::encode(alloc, body)?.as_bytes())?;
    text.extend_from_slice(b"\nend\n")?;
    Ok(text)
}

/// A line for each id.
fn push_ids(text: &mut Vec<u8>, ids: &[Id]) -> Result<(), NoRoom>
    ensures { IfOk result (λ _. text.new.items ≡ text.old.items ++ flat_map to_line ids.now) }
{
    for id in ids {
        push_id(text, id)?;
    }
    Ok(())
}

fn push_id(text: &mut Vec<u8>, id: &Id) -> Result<(), NoRoom>
    ensures { IfOk result (λ _. text.new.items ≡ text.old.items ++ to_line id.now) }
{
    text.extend_from_slice(b"to ")?;
    push_line(text, id.text().as_bytes())
}

/// Bytes are read as what they are the text of, and no bytes are the text of two contents.
pub fn standin_texts()
    ensures exact { (c : Content) (bytes : Text) → IsStandinText c bytes ↔ (standin_content bytes ≡ Some c) }
    ensures one_content { (c d : Content) (bytes : Text) → IsStandinText c bytes → IsStandinText d bytes → c ≡ d }
{}

/// The recipients of the lines that begin with `to`, and the body behind them.
fn read_lines(alloc: Global, lines: &[u8]) -> Result<Sealed, StandinFault>
    ensures { Gives (λ sealed. made_of sealed.to sealed.body.items) result (from_recipients [] (pieces_of lines.now)) }
{
    let mut ids = Vec::new(alloc);
    let mut rest = lines;
    while let Some((line, after)) = cut(rest, b'\n') {
        let Some(text) = line.strip_prefix(b"to ") else {
            return read_end(alloc, ids, line, after);
        };
        add_id(alloc, &mut ids, text)?;
        rest = after;
    }
    Err(StandinFault::NotSealed)
}

/// Adds the id that the text is, where it is above the ids so far and they are fewer than 64.
#[tactic(auto, unfolding(crate::specs::Standin::with_next))]
fn add_id(alloc: Global, ids: &mut Vec<Id>, text: &[u8]) -> Result<(), StandinFault>
    ensures { Gives (λ _. ids.new.items) result (with_next ids.old.items text.now) }
{
    if !has_place(ids, text) {
        return Err(StandinFault::NotSealed);
    }
    let id = read_id(alloc, text)?;
    push(ids, id)?;
    Ok(())
}

fn has_place(ids: &[Id], text: &[u8]) -> bool
    ensures { result ≡ has_place ids.now text.now }
{
    ids.len() < 64 && ids.iter().all(|id| id.text().as_bytes().cmp(text).is_lt())
}

fn read_id(alloc: Global, bytes: &[u8]) -> Result<Id, StandinFault>
    ensures { Gives (λ id. id) result (id_at bytes.now) }
{
    let Ok(text) = str::from_utf8(bytes) else {
        return Err(StandinFault::NotSealed);
    };
    match Id::read(alloc, text) {
        Ok(id) => Ok(id),
        Err(IdFault::Bad) => Err(StandinFault::NotSealed),
        Err(IdFault::NoMemory) => Err(StandinFault::NoMemory),
    }
}

/// The line of the body, and behind it the last line.
#[tactic(auto, unfolding(crate::specs::Standin::from_body))]
fn read_end(alloc: Global, ids: Vec<Id>, line: &[u8], rest: &[u8]) -> Result<Sealed, StandinFault>
    requires { IsSoFar ids.items }
    ensures { Gives (λ sealed. made_of sealed.to sealed.body.items) result (from_body ids.items line.now (pieces_of rest.now)) }
{
    if ids.is_empty() {
        return Err(StandinFault::NotSealed);
    }
    let Some(digits) = body_digits(line, rest) else {
        return Err(StandinFault::NotSealed);
    };
    let body = read_body(alloc, digits)?;
    Ok(Sealed {
        to: Recipients::from_rising(ids),
        body,
    })
}

#[tactic(auto, unfolding(crate::specs::Standin::digits_at))]
fn body_digits<'a>(line: &'a [u8], rest: &[u8]) -> Option<&'a [u8]>
    ensures { option_map (λ digits. digits.now) result ≡ digits_at line.now (pieces_of rest.now) }
{
    if !is_end(rest) {
        return None;
    }
    line.strip_prefix(b"body ")
}

fn is_end(rest: &[u8]) -> bool
    ensures { result ≡ is_end (pieces_of rest.now) }
{
    rest == b"end\n".as_slice()
}

/// The body that lower-case hexadecimal digits stand for.
#[tactic(auto, unfolding(crate::specs::Standin::body_of))]
fn read_body(alloc: Global, digits: &[u8]) -> Result<Vec<u8>, StandinFault>
    ensures { Gives (λ body. body.items) result (body_of digits.now) }
{
    if !are_body_digits(digits) {
        return Err(StandinFault::NotSealed);
    }
    match hex::decode(alloc, digits) {
        Ok(body) => Ok(body),
        Err(FromHexError::OutOfMemory) => Err(StandinFault::NoMemory),
        Err(_) => Err(StandinFault::NotSealed),
    }
}

fn are_body_digits(digits: &[u8]) -> bool
    ensures { result ≡ are_body_digits digits.now }
{
    digits.len() <= 65_536
        && digits
            .iter()
            .all(|b| matches!(*b, b'0'..=b'9' | b'a'..=b'f'))
}

#[cfg(test)]
mod tests;
