//! Making a run.

ghost use Rattle.std.specs.Prelude.{◌≡◌, All, IfOk, vec_len};
ghost use Rattle.cipher_port.specs.Tool.{Ring};

use crate::fault::Fault;
use crate::run::Run;
use crate::trial::Trial;
use crate::watched::Watched;
use cipher_port::{Id, MemTool};
use disk_model::MemDisk;
use gopass_base::{DirPath, copies};
use gopass_cli::{Ended, gopass};
use io_ports::{MemSink, MemSource, Sink, Source, SureSink, SureSource};
use std::alloc::Global;

/// What a run left.
#[derive(Drop)]
pub(crate) struct Left {
    pub status: u8,
    pub disk: MemDisk,
    pub commits: u64,
    pub calls: u64,
    pub out: Vec<u8>,
    pub err: Vec<u8>,
    /// The input that was not taken.
    pub rest: Vec<u8>,
}

/// The streams of a run.
#[derive(Drop)]
struct Streams<S, O> {
    input: S,
    out: O,
    err: O,
}

/// What a run left, with the streams as they are then.
#[derive(Drop)]
struct Ran<S, O> {
    status: u8,
    disk: Watched,
    tools: Vec<MemTool>,
    streams: Streams<S, O>,
}

/// The keys of the tool.
#[derive(Drop)]
pub(crate) struct Keys {
    /// The ids for which it can seal.
    pub known: Vec<Id>,
    /// Those whose keys it holds.
    pub held: Vec<Id>,
}

fn tool(alloc: Global, keys: &Keys, failing: &[u64]) -> Result<MemTool, Fault> {
    let known = copies(alloc, &keys.known)?;
    let held = copies(alloc, &keys.held)?;
    Ok(MemTool::new(known, held, failing.to_vec(alloc)?))
}

fn tools(alloc: Global, keys: &Keys, failing: &[u64]) -> Result<Vec<MemTool>, Fault>
    ensures one { IfOk result (λ tools. vec_len tools ≡ 1) }
    ensures rings { IfOk result (λ tools. (ring : Ring) × All (λ tool. tool.ring ≡ ring) tools.items) }
{
    let mut tools = Vec::new(alloc);
    tools.push(tool(alloc, keys, failing)?)?;
    Ok(tools)
}

fn root(alloc: Global) -> Result<DirPath, Fault> {
    match DirPath::read(alloc, "root") {
        Ok(root) => Ok(root),
        Err(_) => Err(Fault::NoMemory),
    }
}

/// Calls `gopass`, and nothing else. Nothing here can fail: an exit by `?` beside what is lent to the
/// call costs minutes to prove.
fn called<S: Source, O: Sink>(
    alloc: Global,
    words: &[String],
    root: &DirPath,
    disk: Watched,
    tools: Vec<MemTool>,
    streams: Streams<S, O>,
) -> Ran<S, O>
    requires one { vec_len tools ≡ 1 }
    requires rings { (ring : Ring) × All (λ tool. tool.ring ≡ ring) tools.items }
{
    let mut tools = tools;
    let Streams {
        mut input,
        mut out,
        mut err,
    } = streams;
    let Ended { status, disk } = gopass(
        alloc, words, root, disk, &mut tools, &mut input, &mut out, &mut err,
    );
    let streams = Streams { input, out, err };
    Ran {
        status,
        disk,
        tools,
        streams,
    }
}

fn streams_of(
    alloc: Global,
    run: &Run,
    trial: &Trial,
) -> Result<Streams<MemSource, MemSink>, Fault> {
    let input = MemSource::new(run.input.to_vec(alloc)?, trial.input.to_vec(alloc)?);
    Ok(Streams {
        input,
        out: MemSink::new(alloc, run.room(), trial.output.to_vec(alloc)?)?,
        err: MemSink::new(alloc, run.room(), trial.errors.to_vec(alloc)?)?,
    })
}

fn sure_streams_of(alloc: Global, run: &Run) -> Result<Streams<SureSource, SureSink>, Fault> {
    Ok(Streams {
        input: SureSource::new(run.input.to_vec(alloc)?),
        out: SureSink::new(alloc, run.room())?,
        err: SureSink::new(alloc, run.room())?,
    })
}

fn calls_of(tools: &[MemTool]) -> u64 {
    match tools.first() {
        Some(tool) => tool.calls(),
        None => 0,
    }
}

fn left_of(alloc: Global, ran: Ran<MemSource, MemSink>) -> Result<Left, Fault> {
    let Streams { input, out, err } = ran.streams;
    Ok(Left {
        status: ran.status,
        commits: ran.disk.commits,
        disk: ran.disk.disk,
        calls: calls_of(&ran.tools),
        out: out.taken().to_vec(alloc)?,
        err: err.taken().to_vec(alloc)?,
        rest: input.left().to_vec(alloc)?,
    })
}

fn sure_left_of(alloc: Global, ran: Ran<SureSource, SureSink>) -> Result<Left, Fault> {
    let Streams { input, out, err } = ran.streams;
    Ok(Left {
        status: ran.status,
        commits: ran.disk.commits,
        disk: ran.disk.disk,
        calls: calls_of(&ran.tools),
        out: out.taken().to_vec(alloc)?,
        err: err.taken().to_vec(alloc)?,
        rest: input.left().to_vec(alloc)?,
    })
}

/// Makes the run on this disk, where the calls of the trial fail.
pub(crate) fn play(
    alloc: Global,
    run: &Run,
    disk: Watched,
    keys: &Keys,
    trial: &Trial,
) -> Result<Left, Fault> {
    let root = root(alloc)?;
    let tools = tools(alloc, keys, &trial.tool)?;
    let streams = streams_of(alloc, run, trial)?;
    let ran = called(alloc, &run.words, &root, disk, tools, streams);
    left_of(alloc, ran)
}

/// Makes the run with streams that cannot fail.
pub(crate) fn play_surely(
    alloc: Global,
    run: &Run,
    disk: Watched,
    keys: &Keys,
    trial: &Trial,
) -> Result<Left, Fault> {
    let root = root(alloc)?;
    let tools = tools(alloc, keys, &trial.tool)?;
    let streams = sure_streams_of(alloc, run)?;
    let ran = called(alloc, &run.words, &root, disk, tools, streams);
    sure_left_of(alloc, ran)
}
