//! The text of a rule file, which names the recipients of what is below its folder.

ghost use Rattle.std.specs.Prelude.{◌≡◌, [], option_map};
ghost use Rattle.gopass_base.specs.Lines.{before_byte, pieces_of};
ghost use Rattle.recipient_files.specs.Ids.{IsId};
ghost use Rattle.recipient_files.specs.RuleText.{trim_start, trim_end, left_of, text_fault, room_fault, line_fault, with_id, with_line, bad_at, bad_from, ids_from};
ghost use Rattle.recipient_files.specs.RuleReads.{ReadsRuleText, ReadsIdLine, AreSomeIds};
ghost use Rattle.recipient_files.specs.declared.rule.LineFault.TheVariants.{NoMemory};

use crate::recipients::{MOST_IDS, is_among};
use crate::{Id, IdFault};
use gopass_base::cut;
use std::alloc::{AllocFailed, Global};

/// What is wrong with a line of a rule file.
#[derive(Clone, Copy, Debug, PartialEq, Eq)]
pub enum RuleKind {
    /// What stands before the comment is not UTF-8.
    NotText,
    /// It is no id.
    BadId,
    /// It is the 65th different id.
    TooMany,
    /// No line is bad, and no line has an id.
    None,
}

/// Why bytes are not read as a rule file.
#[derive(Clone, Copy, Debug, PartialEq, Eq)]
pub enum RuleFault {
    /// The first bad line, counted from 1; 0 where there is no id.
    Bad { line: usize, kind: RuleKind },
    NoMemory,
}

/// Why a line is not read.
#[derive(Clone, Copy, Debug, PartialEq, Eq)]
enum LineFault {
    Bad(RuleKind),
    NoMemory,
}

impl<T: Drop> From<AllocFailed<T>> for LineFault {
    ghost from_gives = { λ _ e. e ≡ NoMemory };

    fn from(_: AllocFailed<T>) -> Self {
        LineFault::NoMemory
    }
}

/// The ids of the lines, each where it first stands.
pub(crate) fn read_lines(alloc: Global, bytes: &[u8]) -> Result<Vec<Id>, RuleFault>
    ensures { ReadsRuleText (λ ids. (ids.items ≡ ids_from [] (pieces_of bytes.now)) × AreSomeIds ids.items) (bad_from 1 [] (pieces_of bytes.now)) result }
{
    let mut ids = Vec::new(alloc);
    let mut rest = bytes;
    let mut number = 1;
    while let Some((line, after)) = cut(rest, b'\n') {
        add_numbered(alloc, &mut ids, number, line)?;
        number += 1;
        rest = after;
    }
    add_numbered(alloc, &mut ids, number, rest)?;
    Ok(ids)
}

/// Adds the id of the line with this number.
fn add_numbered(
    alloc: Global,
    ids: &mut Vec<Id>,
    number: usize,
    line: &[u8],
) -> Result<(), RuleFault>
    requires { AreSomeIds ids.old.items }
    ensures { ReadsRuleText (λ _. (ids.new.items ≡ with_line ids.old.items (left_of line.now)) × AreSomeIds ids.new.items) (option_map (bad_at number) (line_fault ids.old.items (left_of line.now))) result }
{
    match add_line(alloc, ids, line) {
        Ok(()) => Ok(()),
        Err(LineFault::Bad(kind)) => Err(RuleFault::Bad { line: number, kind }),
        Err(LineFault::NoMemory) => Err(RuleFault::NoMemory),
    }
}

/// Adds the id of a line, where it has one that is new.
fn add_line(alloc: Global, ids: &mut Vec<Id>, line: &[u8]) -> Result<(), LineFault>
    requires { AreSomeIds ids.old.items }
    ensures { ReadsIdLine (λ _. (ids.new.items ≡ with_line ids.old.items (left_of line.now)) × AreSomeIds ids.new.items) (line_fault ids.old.items (left_of line.now)) result }
{
    let left = left_of(line);
    if left.is_empty() {
        return Ok(());
    }
    let id = read_id(alloc, left)?;
    add_id(ids, id)
}

/// Adds an id, where it is new.
fn add_id(ids: &mut Vec<Id>, id: Id) -> Result<(), LineFault>
    requires so_far { AreSomeIds ids.old.items }
    requires good { IsId id }
    ensures { ReadsIdLine (λ _. (ids.new.items ≡ with_id ids.old.items id) × AreSomeIds ids.new.items) (room_fault ids.old.items id) result }
{
    if is_among(ids, &id) {
        return Ok(());
    }
    if ids.len() == MOST_IDS {
        return Err(LineFault::Bad(RuleKind::TooMany));
    }
    ids.push(id)?;
    Ok(())
}

fn read_id(alloc: Global, bytes: &[u8]) -> Result<Id, LineFault>
    ensures { ReadsIdLine (λ id. (id ≡ bytes.now) × IsId id) (text_fault bytes.now) result }
{
    let Ok(text) = str::from_utf8(bytes) else {
        return Err(LineFault::Bad(RuleKind::NotText));
    };
    match Id::read(alloc, text) {
        Ok(id) => Ok(id),
        Err(IdFault::Bad) => Err(LineFault::Bad(RuleKind::BadId)),
        Err(IdFault::NoMemory) => Err(LineFault::NoMemory),
    }
}

/// The line without its comment, and then without the spaces at its ends.
fn left_of(line: &[u8]) -> &[u8]
    ensures { result.now ≡ left_of line.now }
{
    trim_end(trim_start(without_comment(line)))
}

fn without_comment(line: &[u8]) -> &[u8]
    ensures { result.now ≡ before_byte 35 line.now }
{
    match cut(line, b'#') {
        Some((front, _)) => front,
        None => line,
    }
}

fn trim_start(text: &[u8]) -> &[u8]
    ensures { result.now ≡ trim_start text.now }
{
    let mut text = text;
    while let [b' ', rest @ ..] = text {
        text = rest;
    }
    text
}

fn trim_end(text: &[u8]) -> &[u8]
    ensures { result.now ≡ trim_end text.now }
{
    let mut text = text;
    while let [rest @ .., b' '] = text {
        text = rest;
    }
    text
}
