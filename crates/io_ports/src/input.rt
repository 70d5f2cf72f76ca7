//! Reading all of a source, or a line of it.

ghost use Rattle.std.specs.Prelude.{◌≡◌, ◌≤◌, ◌+◌, ◌++◌, ◌∷◌, ◌↔◌, vec_len, None, Ok, Err, IsOk, IsErr, IsOkAnd, IfOk};
ghost use Rattle.gopass_base.specs.Text.{Text};
ghost use Rattle.gopass_base.specs.Lines.{Lacks};
ghost use Rattle.gopass_base.specs.Faults.{HasCause};
ghost use Rattle.io_ports.specs.Told.{Told};
ghost use Rattle.io_ports.specs.Source.{GrewOnce, NextByte, NextCount};
ghost use Rattle.io_ports.specs.Input.{ReadsAll, ReadsLine, ReadsCount, IsLine, StandsFirst, first_line, content_of};
ghost use Rattle.io_ports.specs.declared.input.InputFault.TheVariants.{Failed as failed, NoMemory as no_memory};

use crate::Source;
use gopass_base::Failed;
use std::alloc::{AllocError, AllocFailed, Global};

/// The most bytes of the input that make a body. Of more one byte is taken beyond them.
pub const MAX_INPUT: usize = 16_777_216;

/// Why input is not read.
#[derive(Clone, Copy, Debug, PartialEq, Eq)]
pub enum InputFault {
    /// The source failed.
    Failed,
    /// There are more bytes than were asked for.
    Long,
    NoMemory,
}

impl From<Failed> for InputFault {
    ghost from_gives = { λ _ e. e ≡ failed };

    fn from(_: Failed) -> Self {
        InputFault::Failed
    }
}

impl From<AllocError> for InputFault {
    ghost from_gives = { λ _ e. e ≡ no_memory };

    fn from(_: AllocError) -> Self {
        InputFault::NoMemory
    }
}

impl<T: Drop> From<AllocFailed<T>> for InputFault {
    ghost from_gives = { λ _ e. e ≡ no_memory };

    fn from(_: AllocFailed<T>) -> Self {
        InputFault::NoMemory
    }
}

/// All the bytes that the source has left, where they are at most `max`; else at most one byte of
/// them is taken beyond that. Nothing is asked once the end came or a call failed.
pub fn read_all<S: Source>(alloc: Global, input: &mut S, max: usize) -> Result<Vec<u8>, InputFault>
    ensures read { Told (ReadsAll max result) (S.meaning.left input.old) (S.meaning.left input.new) }
    ensures bound { IfOk result (λ bytes. vec_len bytes ≤ max) }
    ensures counts { ReadsCount max result (S.meaning.taken input.old) (S.meaning.taken input.new) }
    ensures most { S.meaning.taken input.new ≤ S.meaning.taken input.old + (max + 1) }
    ensures ends { GrewOnce (S.meaning.ends input.old) (S.meaning.ends input.new) (IsOk result) }
    ensures cause { HasCause (S.meaning.faults input.old) (S.meaning.faults input.new) (result ≡ Err InputFault.Failed) }
{
    let mut buffer = [0u8; 4096];
    let mut bytes = Vec::new(alloc);
    loop {
        let room = max - bytes.len();
        let most = room.min(buffer.len() - 1) + 1;
        let count = input.take(&mut buffer[..most])?;
        if count == 0 {
            return Ok(bytes);
        }
        if count > room {
            return Err(InputFault::Long);
        }
        bytes.extend_from_slice(&buffer[..count])?;
    }
}

/// The first line of a text is the one that stands first in it, and there is no other. It says what
/// stands before its LF, or all of it where it has none.
pub fn first_lines()
    ensures exact { (text line rest : Text) → first_line text ≡ (line, rest) ↔ StandsFirst line rest text }
    ensures says { (says rest : Text) → Lacks 10 says → (content_of says ≡ says) × (content_of (says ++ 10 ∷ rest) ≡ says) }
{}

/// The next byte of the source, where one is left.
fn next_byte<S: Source>(input: &mut S) -> Result<Option<u8>, Failed>
    ensures next { NextByte (S.meaning.left input.old) (S.meaning.left input.new) result }
    ensures counts { NextCount (S.meaning.taken input.old) (S.meaning.taken input.new) result }
    ensures ends { GrewOnce (S.meaning.ends input.old) (S.meaning.ends input.new) (result ≡ Ok None) }
    ensures cause { HasCause (S.meaning.faults input.old) (S.meaning.faults input.new) (IsErr result) }
{
    let mut byte = [0u8; 1];
    if input.take(&mut byte)? == 0 {
        return Ok(None);
    }
    Ok(Some(byte[0]))
}

/// The bytes of the source up to its first LF, with that LF, or all where there is none. The line
/// has at most `max` bytes before its LF, and nothing behind it is taken. Nothing is asked once the
/// end came or a call failed.
pub fn read_line<S: Source>(alloc: Global, input: &mut S, max: usize) -> Result<Vec<u8>, InputFault>
    ensures read { Told (ReadsLine max result) (S.meaning.left input.old) (S.meaning.left input.new) }
    ensures line { IfOk result (λ line. IsLine max line.items) }
    ensures bound { IfOk result (λ line. vec_len line ≤ max + 1) }
    ensures counts { ReadsCount max result (S.meaning.taken input.old) (S.meaning.taken input.new) }
    ensures most { S.meaning.taken input.new ≤ S.meaning.taken input.old + (max + 1) }
    ensures ends { GrewOnce (S.meaning.ends input.old) (S.meaning.ends input.new) (IsOkAnd result (λ line. Lacks 10 line.items)) }
    ensures cause { HasCause (S.meaning.faults input.old) (S.meaning.faults input.new) (result ≡ Err InputFault.Failed) }
{
    let mut line = Vec::new(alloc);
    while let Some(byte) = next_byte(input)? {
        if byte == b'\n' {
            line.push(byte)?;
            return Ok(line);
        }
        if line.len() == max {
            return Err(InputFault::Long);
        }
        line.push(byte)?;
    }
    Ok(line)
}
