//! The texts of refusals.

ghost use Rattle.std.specs.Prelude.{◌≡◌, ◌++◌, IfOk, string_bytes};
ghost use Rattle.gopass_cli.specs.Texts.{bad_words, bad_name, bad_line, err_line, limit_passed, not_in_the_store, tool_failed};
ghost use Rattle.gopass_cli.specs.Said.{refusal_text};

use gopass_base::{NoMemory, push_line};
use std::alloc::{AllocError, Global};
use store_core::Refusal;
use store_state::Limit;

fn joined(alloc: Global, first: &str, second: &str) -> Result<String, AllocError>
    ensures { IfOk result (λ text. string_bytes text ≡ first.now ++ second.now) }
{
    let mut text = String::from_str(alloc, first)?;
    text.push_str(second)?;
    Ok(text)
}

pub(crate) fn bad_words(alloc: Global, at: usize) -> Result<String, AllocError>
    ensures { IfOk result (λ text. string_bytes text ≡ bad_words at) }
{
    format!(in alloc; "bad words at {at}")
}

pub(crate) fn bad_name(alloc: Global, at: usize, word: &str) -> Result<String, AllocError>
    ensures { IfOk result (λ text. string_bytes text ≡ bad_name at word.now) }
{
    let place = format!(in alloc; "bad name at {at}: ")?;
    joined(alloc, &place, word)
}

pub(crate) fn bad_line(alloc: Global, path: &str, line: usize) -> Result<String, AllocError>
    ensures { IfOk result (λ text. string_bytes text ≡ bad_line path.now line) }
{
    let what = format!(in alloc; ": line {line} is bad")?;
    joined(alloc, path, &what)
}

pub(crate) fn not_in_the_store(alloc: Global, what: &str) -> Result<String, AllocError>
    ensures { IfOk result (λ text. string_bytes text ≡ not_in_the_store what.now) }
{
    joined(alloc, what, " is not in the store")
}

fn tool_failed(alloc: Global, name: &str) -> Result<String, AllocError>
    ensures { IfOk result (λ text. string_bytes text ≡ tool_failed name.now) }
{
    joined(alloc, name, ": the tool failed")
}

/// A limit that is passed, with its number.
pub(crate) fn limit_passed(limit: Limit) -> &'static str
    ensures { result.now ≡ limit_passed limit }
{
    match limit {
        Limit::Mounts => "limit 64 mounts",
        Limit::Rules => "limit 512 rules",
        Limit::Ids => "limit 64 ids",
        Limit::Secrets => "limit 8192 secrets",
        Limit::Body => "limit 32768 body",
        Limit::Files => "limit 40000 files",
        Limit::Changes => "limit 4294967294 changes",
        Limit::Counter => "limit 18446744073709551615 counter",
    }
}

/// The text of a refusal of a command about this subject.
pub(crate) fn text_of(alloc: Global, refusal: &Refusal, subject: &str) -> Result<String, AllocError>
    ensures { IfOk result (λ text. string_bytes text ≡ refusal_text subject.now refusal.now) }
{
    match refusal {
        Refusal::NotFound => not_in_the_store(alloc, subject),
        Refusal::IsFolder => joined(alloc, subject, " is a folder"),
        Refusal::Exists(name) => joined(alloc, name.text(), " is there already"),
        Refusal::NoRule(name) => joined(alloc, "no rule for ", name.text()),
        Refusal::UnknownId(id) => joined(alloc, id.text(), " is not known to the tool"),
        Refusal::Full(limit) => String::from_str(alloc, limit_passed(*limit)),
        Refusal::NoKey(name) => joined(alloc, name.text(), ": no key"),
        Refusal::NotSealed(name) => joined(alloc, name.text(), ": not sealed"),
        Refusal::Tool(name) => tool_failed(alloc, name.text()),
        Refusal::Disk => String::from_str(alloc, "the disk failed"),
        Refusal::NoMemory => String::from_str(alloc, "out of memory"),
    }
}

/// The line of standard error that says that the tool failed for the secret.
pub(crate) fn tool_line(alloc: Global, name: &str) -> Result<Vec<u8>, NoMemory>
    ensures { IfOk result (λ line. line.items ≡ err_line (tool_failed name.now)) }
{
    let text = tool_failed(alloc, name)?;
    err_line(alloc, &text)
}

/// The line of standard error that says the text.
pub(crate) fn err_line(alloc: Global, text: &str) -> Result<Vec<u8>, NoMemory>
    ensures { IfOk result (λ line. line.items ≡ err_line text.now) }
{
    let mut line = b"gopass: ".to_vec(alloc)?;
    push_line(&mut line, text.as_bytes())?;
    Ok(line)
}
