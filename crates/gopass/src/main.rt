//! The program: a store in memory as yet, with one secret, and its command line.
#![tactic(auto)]

mod store;
mod stream;

use gopass_cli::{Ended, Status, gopass};
use std::alloc::AllocError;
use std::io::ErrorKind;
use std::process::ExitCode;
use std::{env, io};
use store::{disk, root, tool};
use stream::{StdSink, StdSource};

/// The words behind the program's name.
fn words(rt: &HostRuntime) -> io::Result<Vec<String>> {
    let mut words = Vec::new(rt.alloc());
    for word in env::args(rt)?.skip(1) {
        words.push(word)?;
    }
    Ok(words)
}

/// Runs the words on the store, and answers the status.
fn run(rt: &HostRuntime, words: &[String]) -> Result<u8, AllocError> {
    let mut tools = Vec::new(rt.alloc());
    tools.push(tool(rt.alloc())?)?;
    let mut input = StdSource::new(rt.stdin());
    let mut out = StdSink::new(rt.stdout());
    let mut err = StdSink::new(rt.stderr());
    let Ended { status, disk: _ } = gopass(
        rt.alloc(),
        words,
        &root(rt.alloc())?,
        disk(rt.alloc())?,
        &mut tools,
        &mut input,
        &mut out,
        &mut err,
    );
    Ok(status)
}

/// Says on standard error why no run was begun, and answers the status.
fn refuse(rt: &HostRuntime, why: &str, status: Status) -> ExitCode {
    let _ = eprintln!(rt; "gopass: {why}");
    ExitCode::from(status.code())
}

/// Where a word is not UTF-8 the words are bad from the first on.
fn main(rt: HostRuntime) -> ExitCode {
    let words = match words(&rt) {
        Ok(words) => words,
        Err(fault) if fault.kind() == ErrorKind::InvalidData => {
            return refuse(&rt, "bad words at 0", Status::BadWords);
        }
        Err(_) => return refuse(&rt, "out of memory", Status::NoMemory),
    };
    match run(&rt, &words) {
        Ok(status) => ExitCode::from(status),
        Err(_) => refuse(&rt, "out of memory", Status::NoMemory),
    }
}
