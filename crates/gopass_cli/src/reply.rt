//! What a command answers.

ghost use Rattle.std.specs.Prelude.{◌≡◌, [], IfOk, string_bytes};
ghost use Rattle.gopass_base.specs.Text.{Text};
ghost use Rattle.store_core.specs.Events.{TheDisk};
ghost use Rattle.gopass_cli.specs.declared.status.Status.TheVariants as status;
ghost use Rattle.gopass_cli.specs.Actions.{subject};
ghost use Rattle.gopass_cli.specs.Outcomes.{IsInner, Concerns, meant};
ghost use Rattle.gopass_cli.specs.Said.{granted, refusal_said, refused, said_of, silent, stop_said, unsaid};
ghost use Rattle.gopass_cli.specs.Statuses.{code, status_of};
ghost use Rattle.gopass_cli.specs.Texts.{bad_line, bad_words, limit_passed};
ghost use Rattle.gopass_cli.specs.Replies.{IsInnerStatus, said_in, Says};

use crate::lines::{DiskLine, TurnLines};
use crate::outcome::Outcome;
use crate::status::{Status, status_of};
use crate::texts;
use std::alloc::{AllocError, Global};
use store_core::Refusal;
use store_state::Limit;

/// A status, and the bytes for standard output and standard error. For want of memory there are none.
#[derive(Debug, Drop)]
pub struct Reply {
    pub status: u8,
    pub out: Vec<u8>,
    pub err: Vec<u8>,
}

/// The answer of a command that did what it was asked.
fn grant(alloc: Global, out: Vec<u8>) -> Reply
    ensures { said_in result ≡ granted out.items }
{
    Reply {
        status: Status::Done.code(),
        out,
        err: Vec::new(alloc),
    }
}

/// The answer that is a status alone.
fn silent(alloc: Global, status: Status) -> Reply
    ensures { said_in result ≡ silent status }
{
    Reply {
        status: status.code(),
        out: Vec::new(alloc),
        err: Vec::new(alloc),
    }
}

/// The answer where there is no memory. It has no bytes.
pub(crate) fn no_memory(alloc: Global) -> Reply
    ensures { said_in result ≡ unsaid }
{
    silent(alloc, Status::NoMemory)
}

/// The answer that tells a fault of the outside, by a line that was made before.
pub(crate) fn tell_fault(alloc: Global, status: Status, line: Vec<u8>) -> Reply
    ensures { said_in result ≡ record { status = code status; out = []; err = line.items } }
{
    Reply {
        status: status.code(),
        out: Vec::new(alloc),
        err: line,
    }
}

/// The answer where the disk failed.
pub(crate) fn tell_disk(alloc: Global, disk: DiskLine) -> Reply
    ensures { said_in result ≡ stop_said TheDisk }
{
    tell_fault(alloc, Status::DiskFailed, disk.line)
}

/// The answer of a command that is refused with this status and text.
pub(crate) fn refuse_with(alloc: Global, status: Status, text: &str) -> Reply
    requires { IsInnerStatus (code status) }
    ensures { Says (refused status text.now) (said_in result) }
{
    match texts::err_line(alloc, text) {
        Ok(err) => Reply {
            status: status.code(),
            out: Vec::new(alloc),
            err,
        },
        Err(_) => no_memory(alloc),
    }
}

/// The same, where there is memory for the text.
fn refuse_by(alloc: Global, status: Status, text: Result<String, AllocError>) -> Reply
    requires { IsInnerStatus (code status) }
    ensures { (wanted : Text) → IfOk text (λ t. string_bytes t ≡ wanted) → Says (refused status wanted) (said_in result) }
{
    match text {
        Ok(text) => refuse_with(alloc, status, &text),
        Err(_) => no_memory(alloc),
    }
}

/// The answer to words of which this one is bad.
pub(crate) fn refuse_words(alloc: Global, at: usize) -> Reply
    ensures { Says (refused status.BadWords (bad_words at)) (said_in result) }
{
    refuse_by(alloc, Status::BadWords, texts::bad_words(alloc, at))
}

/// The answer where a file does not read from this line on.
pub(crate) fn refuse_line(alloc: Global, path: &str, line: usize) -> Reply
    ensures { Says (refused status.BadFile (bad_line path.now line)) (said_in result) }
{
    refuse_by(alloc, Status::BadFile, texts::bad_line(alloc, path, line))
}

/// The answer where a limit is passed.
pub(crate) fn refuse_limit(alloc: Global, limit: Limit) -> Reply
    ensures { Says (refused status.LimitPassed (limit_passed limit)) (said_in result) }
{
    refuse_with(alloc, Status::LimitPassed, texts::limit_passed(limit))
}

/// The answer of a command about this subject that is refused by what is within.
fn refuse(alloc: Global, subject: &str, refusal: &Refusal) -> Reply
    requires { IsInnerStatus (code (status_of refusal.now)) }
    ensures { Says (refusal_said subject.now refusal.now) (said_in result) }
{
    let status = status_of(refusal);
    if status == Status::NoMemory {
        return no_memory(alloc);
    }
    refuse_by(alloc, status, texts::text_of(alloc, refusal, subject))
}

/// The answer that tells what a command about this subject comes to. It met no fault of the outside.
pub(crate) fn tell_within(alloc: Global, subject: &str, outcome: Outcome) -> Reply
    requires { IsInner (meant outcome) }
    ensures { Says (said_of subject.now (meant outcome)) (said_in result) }
{
    match outcome {
        Outcome::Done(bytes) => grant(alloc, bytes),
        Outcome::NoHit => silent(alloc, Status::NoHit),
        Outcome::Misnamed(word, at) => {
            let text = texts::bad_name(alloc, at, word.text());
            refuse_by(alloc, Status::BadWords, text)
        }
        Outcome::Refused(refusal) => refuse(alloc, subject, &refusal),
    }
}

/// The answer that tells what a command comes to. A fault of the outside is told by the line that is
/// there for it.
pub(crate) fn tell(alloc: Global, lines: TurnLines, outcome: Outcome) -> Reply
    requires { Concerns (subject lines.action) (meant outcome) }
    ensures { Says (said_of (subject lines.action) (meant outcome)) (said_in result) }
{
    match outcome {
        Outcome::Refused(Refusal::Tool(_)) => tell_fault(alloc, Status::ToolFailed, lines.tool),
        Outcome::Refused(Refusal::Disk) => tell_disk(alloc, lines.disk),
        _ => tell_within(alloc, lines.action.subject(), outcome),
    }
}
