//! The answer to the words of a command line.

ghost use Rattle.std.specs.Prelude.{◌≡◌, ◌≢◌, ◌+◌, ◌≤◌, ℕ, false, Err, IsFalse, List, Contains, is_some, map, string_bytes, sum_by, vec_len};
ghost use Rattle.disk_model.specs.Files.{Files};
ghost use Rattle.disk_model.specs.Disk.{IsSound};
ghost use Rattle.pending_journal.specs.Redo.{RecoversTo};
ghost use Rattle.cipher_port.specs.Tool.{Ring};
ghost use Rattle.store_state.specs.State.{State, StandsFor};
ghost use Rattle.store_core.specs.Moment.{HaveRing};
ghost use Rattle.gopass_cli.specs.Opening.{SaysOfCommand, fault_said, vault_said};
ghost use Rattle.gopass_cli.specs.Actions.{subject_of};
ghost use Rattle.gopass_cli.specs.Causes.{HasInputCause, TellsCauses};
ghost use Rattle.gopass_cli.specs.Said.{said_of};
ghost use Rattle.gopass_cli.specs.Statuses.{code};
ghost use Rattle.request_body.specs.Bodies.{Input, input_of};
ghost use Rattle.gopass_cli.specs.Owed.{Owed, SafeFrom};
ghost use Rattle.gopass_cli.specs.Plan.{most_calls, plan_of};
ghost use Rattle.gopass_cli.specs.Asks.{CallsTools, TakesInput};
ghost use Rattle.command_words.specs.Words.{words_in};
ghost use Rattle.request_body.specs.Given.{IsGiven, bytes_of, takes_body};
ghost use Rattle.gopass_cli.specs.Requests.{SaysOfRequest, body_said};
ghost use Rattle.gopass_cli.specs.Safe.{KeptOrOpens, IsSafe, IsSafeRun, StandsForOne, Went};
ghost use Rattle.gopass_cli.specs.Replies.{said_in, Says};
ghost use Rattle.gopass_cli.specs.Run.{SaidWhereTold, RunSays, faults_of};

use crate::lines::{DiskLine, InputLines, RunLines};
use crate::reply::{
    Reply, no_memory, refuse_limit, refuse_line, refuse_with, refuse_words, tell_disk, tell_fault,
};
use crate::status::Status;
use crate::turns::{Request, turn};
use cipher_port::Cipher;
use command_words::{Command, WordsFault, read_words};
use disk_model::Disk;
use io_ports::Source;
use mount_table::{DirPath, ServiceFile};
use pending_journal::{Vault, VaultFault, VaultOpened};
use request_body::{BodyFault, take_body};
use std::alloc::Global;
use store_core::{Store, StoreOpened};
use store_state::StoreFault;

/// An answer, and the disk again.
pub(crate) struct Answered<D> {
    pub(crate) reply: Reply,
    pub(crate) disk: D,
}

/// The answer where a vault is refused.
fn refuse_vault(alloc: Global, disk: DiskLine, root: &DirPath, fault: VaultFault) -> Reply
    ensures { Says (vault_said root.now fault) (said_in result) }
{
    match fault {
        VaultFault::BadJournal(line) => match root.service_file(alloc, ServiceFile::Journal) {
            Ok(path) => refuse_line(alloc, path.text(), line),
            Err(_) => no_memory(alloc),
        },
        VaultFault::Disk => tell_disk(alloc, disk),
        VaultFault::NoMemory => no_memory(alloc),
    }
}

/// The answer where no body is given to a command that takes one.
fn refuse_body(alloc: Global, lines: InputLines, fault: BodyFault) -> Reply
    ensures { Says (body_said fault) (said_in result) }
{
    match fault {
        BodyFault::Missing => refuse_with(alloc, Status::BadWords, "no body"),
        BodyFault::Long => tell_fault(alloc, Status::InputFailed, lines.long),
        BodyFault::Failed => tell_fault(alloc, Status::InputFailed, lines.failed),
        BodyFault::NoMemory => no_memory(alloc),
    }
}

/// The answer where a store is refused.
fn refuse_store(alloc: Global, disk: DiskLine, fault: StoreFault) -> Reply
    ensures { Says (fault_said fault) (said_in result) }
{
    match fault {
        StoreFault::BadFile(path, line) => refuse_line(alloc, path.text(), line),
        StoreFault::Full(limit) => refuse_limit(alloc, limit),
        StoreFault::Disk => tell_disk(alloc, disk),
        StoreFault::NoMemory => no_memory(alloc),
    }
}

/// The answer of a command with this body on an open store.
fn answer_turn<D: Disk + Send, C: Cipher + Send>(
    alloc: Global,
    command: Command,
    body: Option<Vec<u8>>,
    store: Store<D>,
    tools: &mut Vec<C>,
) -> Answered<D>
    requires some { 1 ≤ vec_len tools.old }
    requires few { vec_len tools.old ≤ 16 }
    requires rings { C.meaning.tells → (ring : Ring) × HaveRing C.meaning tools.old.items ring }
    requires free { IsFalse store.vault.stuck }
    requires fits { is_some body ≡ takes_body command }
    ensures answers { (state : State) → StandsFor C.meaning.opens store.vault.root (D.meaning.view store.vault.disk).files state
        → SaidWhereTold D.meaning C.meaning store.vault.disk result.disk tools.old.items tools.new.items
        (λ ring events said. said ≡ said_of (subject_of command) (plan_of ring command (bytes_of body) state events).outcome) (said_in result.reply) }
    ensures went { (state : State) → StandsFor C.meaning.opens store.vault.root (D.meaning.view store.vault.disk).files state
        → D.meaning.tells → C.meaning.tells → (ring : Ring) → HaveRing C.meaning tools.old.items ring
        → (before : List State) → Contains before state → (input : Input) → IsGiven command input (bytes_of body)
        → Went C.meaning.opens store.vault.root ring command input before (D.meaning.view store.vault.disk) (D.meaning.view result.disk)
        (faults_of D.meaning store.vault.disk C.meaning tools.old.items) (faults_of D.meaning result.disk C.meaning tools.new.items) result.reply.status }
    ensures calls { sum_by C.meaning.calls tools.new.items ≤ sum_by C.meaning.calls tools.old.items + most_calls command }
    ensures rings { (ring : Ring) → HaveRing C.meaning tools.old.items ring → HaveRing C.meaning tools.new.items ring }
    ensures count { vec_len tools.new ≡ vec_len tools.old }
    ensures causes { TellsCauses (faults_of D.meaning store.vault.disk C.meaning tools.old.items)
        (faults_of D.meaning result.disk C.meaning tools.new.items) result.reply.status }
    ensures no_input { result.reply.status ≢ code Status.InputFailed }
{
    let mut store = store;
    let request = Request { command, body };
    let reply = turn(alloc, &mut store, &request, tools);
    Answered {
        reply,
        disk: store.into_vault().into_disk(),
    }
}

/// The answer of a command on an open store, which takes its body from the input.
fn answer_open<D: Disk + Send, C: Cipher + Send, S: Source>(
    alloc: Global,
    command: Command,
    lines: RunLines,
    store: Store<D>,
    tools: &mut Vec<C>,
    input: &mut S,
) -> Answered<D>
    requires some { 1 ≤ vec_len tools.old }
    requires few { vec_len tools.old ≤ 16 }
    requires rings { C.meaning.tells → (ring : Ring) × HaveRing C.meaning tools.old.items ring }
    requires free { IsFalse store.vault.stuck }
    ensures answers { (state : State) → StandsFor C.meaning.opens store.vault.root (D.meaning.view store.vault.disk).files state
        → SaidWhereTold D.meaning C.meaning store.vault.disk result.disk tools.old.items tools.new.items
        (λ ring. SaysOfRequest command (input_of S.meaning input.old input.new) ring state) (said_in result.reply) }
    ensures safe { SafeFrom D.meaning C.meaning store.vault.root command (input_of S.meaning input.old input.new) store.vault.disk result.disk tools.old.items tools.new.items result.reply.status }
    ensures owed { Owed D.meaning C.meaning S.meaning command store.vault.disk result.disk tools.old.items tools.new.items input.old input.new result.reply }
{
    match take_body(alloc, &command, input) {
        Ok(body) => answer_turn(alloc, command, body, store, tools),
        Err(fault) => Answered {
            reply: refuse_body(alloc, lines.input, fault),
            disk: store.into_vault().into_disk(),
        },
    }
}

/// The answer of a command on a vault.
fn answer_vault<D: Disk + Send, C: Cipher + Send, S: Source>(
    alloc: Global,
    command: Command,
    lines: RunLines,
    vault: Vault<D>,
    tools: &mut Vec<C>,
    input: &mut S,
) -> Answered<D>
    requires some { 1 ≤ vec_len tools.old }
    requires few { vec_len tools.old ≤ 16 }
    requires rings { C.meaning.tells → (ring : Ring) × HaveRing C.meaning tools.old.items ring }
    requires free { IsFalse vault.stuck }
    ensures answers { (files : Files) → RecoversTo vault.root files (D.meaning.view vault.disk).files
        → SaidWhereTold D.meaning C.meaning vault.disk result.disk tools.old.items tools.new.items
        (λ ring. SaysOfCommand C.meaning.opens vault.root files (input_of S.meaning input.old input.new) ring command) (said_in result.reply) }
    ensures safe { SafeFrom D.meaning C.meaning vault.root command (input_of S.meaning input.old input.new) vault.disk result.disk tools.old.items tools.new.items result.reply.status }
    ensures kept { D.meaning.tells → KeptOrOpens vault.root (D.meaning.view vault.disk) (D.meaning.view result.disk) }
    ensures owed { Owed D.meaning C.meaning S.meaning command vault.disk result.disk tools.old.items tools.new.items input.old input.new result.reply }
{
    match Store::open(alloc, vault) {
        StoreOpened::Ready(store) => answer_open(alloc, command, lines, store, tools, input),
        StoreOpened::Refused(fault, vault) => Answered {
            reply: refuse_store(alloc, lines.disk, fault),
            disk: vault.into_disk(),
        },
    }
}

/// The files of a disk are one of its images: the law of a disk, also of one that goes to other threads.
fn files_are_an_image<D: Disk>(disk: &D)
    ensures { D.meaning.tells → IsSound (D.meaning.view disk.now) }
{}

/// The answer of a command on the store below the root directory.
fn answer_command<D: Disk + Send, C: Cipher + Send, S: Source>(
    alloc: Global,
    command: Command,
    lines: RunLines,
    root: &DirPath,
    disk: D,
    tools: &mut Vec<C>,
    input: &mut S,
) -> Answered<D>
    requires some { 1 ≤ vec_len tools.old }
    requires few { vec_len tools.old ≤ 16 }
    requires rings { C.meaning.tells → (ring : Ring) × HaveRing C.meaning tools.old.items ring }
    ensures answers { SaidWhereTold D.meaning C.meaning disk result.disk tools.old.items tools.new.items
        (λ ring. SaysOfCommand C.meaning.opens root.now (D.meaning.view disk).files (input_of S.meaning input.old input.new) ring command) (said_in result.reply) }
    ensures safe { D.meaning.tells → C.meaning.tells → (ring : Ring) → HaveRing C.meaning tools.old.items ring
        → (before : List State) → StandsForOne C.meaning.opens root.now before (D.meaning.view disk)
        → IsSafe C.meaning.opens root.now ring command (input_of S.meaning input.old input.new) before (D.meaning.view disk) (D.meaning.view result.disk)
        (faults_of D.meaning disk C.meaning tools.old.items) (faults_of D.meaning result.disk C.meaning tools.new.items) result.reply.status }
    ensures kept { D.meaning.tells → KeptOrOpens root.now (D.meaning.view disk) (D.meaning.view result.disk) }
    ensures owed { Owed D.meaning C.meaning S.meaning command disk result.disk tools.old.items tools.new.items input.old input.new result.reply }
{
    files_are_an_image(&disk);
    match Vault::open(alloc, disk, root) {
        VaultOpened::Ready(vault) => answer_vault(alloc, command, lines, vault, tools, input),
        VaultOpened::Refused(fault, disk) => Answered {
            reply: refuse_vault(alloc, lines.disk, root, fault),
            disk,
        },
    }
}

/// The answer to the words of a command line.
pub(crate) fn answer<D: Disk + Send, C: Cipher + Send, S: Source>(
    alloc: Global,
    words: &[String],
    root: &DirPath,
    disk: D,
    tools: &mut Vec<C>,
    input: &mut S,
) -> Answered<D>
    requires some { 1 ≤ vec_len tools.old }
    requires few { vec_len tools.old ≤ 16 }
    requires rings { C.meaning.tells → (ring : Ring) × HaveRing C.meaning tools.old.items ring }
    ensures answers { SaidWhereTold D.meaning C.meaning disk result.disk tools.old.items tools.new.items
        (RunSays (map string_bytes words.now) C.meaning.opens root.now (D.meaning.view disk).files (input_of S.meaning input.old input.new)) (said_in result.reply) }
    ensures safe { D.meaning.tells → C.meaning.tells → (ring : Ring) → HaveRing C.meaning tools.old.items ring
        → (before : List State) → StandsForOne C.meaning.opens root.now before (D.meaning.view disk)
        → IsSafeRun C.meaning.opens root.now ring (map string_bytes words.now) (input_of S.meaning input.old input.new) before (D.meaning.view disk) (D.meaning.view result.disk)
        (faults_of D.meaning disk C.meaning tools.old.items) (faults_of D.meaning result.disk C.meaning tools.new.items) result.reply.status }
    ensures kept { D.meaning.tells → KeptOrOpens root.now (D.meaning.view disk) (D.meaning.view result.disk) }
    ensures calls { CallsTools (map string_bytes words.now) (sum_by C.meaning.calls tools.old.items) (sum_by C.meaning.calls tools.new.items) }
    ensures left { TakesInput (map string_bytes words.now) input.old input.new }
    ensures nobody { (at : ℕ) → words_in (map string_bytes words.now) ≡ Err at → (result.disk ≡ disk) × (tools.new.items ≡ tools.old.items) × (input.new ≡ input.old) }
    ensures rings { (ring : Ring) → HaveRing C.meaning tools.old.items ring → HaveRing C.meaning tools.new.items ring }
    ensures count { vec_len tools.new ≡ vec_len tools.old }
    ensures causes { TellsCauses (faults_of D.meaning disk C.meaning tools.old.items)
        (faults_of D.meaning result.disk C.meaning tools.new.items) result.reply.status }
    ensures input { HasInputCause (input_of S.meaning input.old input.new) (said_in result.reply) }
{
    match read_words(alloc, words) {
        Ok(command) => match RunLines::new(alloc) {
            Ok(lines) => answer_command(alloc, command, lines, root, disk, tools, input),
            Err(_) => Answered {
                reply: no_memory(alloc),
                disk,
            },
        },
        Err(WordsFault::Bad { at }) => Answered {
            reply: refuse_words(alloc, at),
            disk,
        },
        Err(WordsFault::NoMemory) => Answered {
            reply: no_memory(alloc),
            disk,
        },
    }
}
