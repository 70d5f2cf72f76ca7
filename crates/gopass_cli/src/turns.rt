//! One command on a store that is open.

ghost use Rattle.std.specs.Prelude.{◌≡◌, ◌≤◌, IsFalse, true, is_some, vec_len};
ghost use Rattle.disk_model.specs.Disk.{Rests};
ghost use Rattle.cipher_port.specs.Tool.{Ring};
ghost use Rattle.store_core.specs.Moment.{HaveRing, all_tools};
ghost use Rattle.store_core.specs.Steps.{just};
ghost use Rattle.store_core.specs.Does.{Does, Keeps};
ghost use Rattle.store_core.specs.Insert.{plan_insert};
ghost use Rattle.store_core.specs.Show.{plan_show};
ghost use Rattle.gopass_cli.specs.Actions.{changes_nothing, changes_nothing_of, subject, subject_of};
ghost use Rattle.gopass_cli.specs.Outcomes.{Concerns, meant};
ghost use Rattle.gopass_cli.specs.Plan.{body_in, action_calls, most_calls, action_plan, plan_of};
ghost use Rattle.gopass_cli.specs.Replies.{Turned};
ghost use Rattle.request_body.specs.Given.{bytes_of, takes_body};

use crate::action::Action;
use crate::lines::TurnLines;
use crate::listing::{find, ls, mounts, recipients};
use crate::outcome::{Outcome, of_bytes, of_nothing};
use crate::reply::{Reply, tell, tell_within};
use cipher_port::Cipher;
use command_words::Command;
use disk_model::Disk;
use mount_table::Name;
use std::alloc::Global;
use store_core::Store;

/// A command, and the body that it is given where it takes one.
#[derive(Debug, Drop)]
pub struct Request {
    pub command: Command,
    pub body: Option<Vec<u8>>,
}

/// `show NAME`: the body of a secret.
fn show<D: Disk, C: Cipher>(store: &mut Store<D>, name: &Name, tools: &mut Vec<C>) -> Outcome
    requires some { 1 ≤ vec_len tools.old }
    requires free { IsFalse store.old.vault.stuck }
    ensures planned { Does (λ ring. plan_show ring name.now) store.old store.new
        (all_tools C.meaning tools.old.items) (all_tools C.meaning tools.new.items) (just (meant result)) }
    ensures keeps { Keeps 1 store.old store.new
        (all_tools C.meaning tools.old.items) (all_tools C.meaning tools.new.items) (meant result) }
    ensures about { Concerns name.now (meant result) }
    ensures rests { D.meaning.tells → Rests (D.meaning.view store.old.vault.disk) (D.meaning.view store.new.vault.disk) }
    ensures count { vec_len tools.new ≡ vec_len tools.old }
{
    of_bytes(store.show(name, &mut tools[0]))
}

/// `insert NAME`: a secret with this body.
fn insert<D: Disk, C: Cipher>(
    alloc: Global,
    store: &mut Store<D>,
    name: &Name,
    body: &[u8],
    force: bool,
    tools: &mut Vec<C>,
) -> Outcome
    requires some { 1 ≤ vec_len tools.old }
    requires free { IsFalse store.old.vault.stuck }
    ensures planned { Does (λ ring. plan_insert ring name.now body.now force) store.old store.new
        (all_tools C.meaning tools.old.items) (all_tools C.meaning tools.new.items) (just (meant result)) }
    ensures keeps { Keeps 1 store.old store.new
        (all_tools C.meaning tools.old.items) (all_tools C.meaning tools.new.items) (meant result) }
    ensures about { Concerns name.now (meant result) }
    ensures count { vec_len tools.new ≡ vec_len tools.old }
{
    of_nothing(alloc, store.insert(name, body, force, &mut tools[0]))
}

/// Does the action, with this body, and answers what it comes to.
fn perform<D: Disk, C: Cipher>(
    alloc: Global,
    store: &mut Store<D>,
    action: &Action,
    body: &[u8],
    tools: &mut Vec<C>,
) -> Outcome
    requires some { 1 ≤ vec_len tools.old }
    requires free { IsFalse store.old.vault.stuck }
    ensures planned { Does (λ ring. action_plan ring action.now body.now) store.old store.new
        (all_tools C.meaning tools.old.items) (all_tools C.meaning tools.new.items) (just (meant result)) }
    ensures keeps { Keeps (action_calls action.now) store.old store.new
        (all_tools C.meaning tools.old.items) (all_tools C.meaning tools.new.items) (meant result) }
    ensures about { Concerns (subject action.now) (meant result) }
    ensures rests { changes_nothing action.now ≡ true → D.meaning.tells → Rests (D.meaning.view store.old.vault.disk) (D.meaning.view store.new.vault.disk) }
    ensures count { vec_len tools.new ≡ vec_len tools.old }
{
    match action {
        Action::Show(name) => show(store, name, tools),
        Action::Insert(name, force) => insert(alloc, store, name, body, *force, tools),
        Action::Ls(folder, flat) => ls(alloc, store, folder, *flat),
        Action::Find(text) => find(alloc, store, text.text()),
        Action::Mounts => mounts(alloc, store),
        Action::Recipients => recipients(alloc, store),
    }
}

/// The body that was given, or no bytes.
fn body_of(body: &Option<Vec<u8>>) -> &[u8]
    ensures { result.now ≡ body_in (bytes_of body.now) }
{
    match body {
        Some(bytes) => bytes,
        None => &[],
    }
}

/// Does the command on the store, and answers what it says: a status, and the bytes for standard
/// output and standard error. Want of memory has no bytes.
///
/// The store is not stuck, and the body is there where the command takes one. There are 1 to 16
/// tools, and where they tell their rings these are equal.
pub fn turn<D: Disk + Send, C: Cipher + Send>(
    alloc: Global,
    store: &mut Store<D>,
    request: &Request,
    tools: &mut Vec<C>,
) -> Reply
    requires some { 1 ≤ vec_len tools.old }
    requires few { vec_len tools.old ≤ 16 }
    requires rings { C.meaning.tells → (ring : Ring) × HaveRing C.meaning tools.old.items ring }
    requires free { IsFalse store.old.vault.stuck }
    requires body { is_some request.now.body ≡ takes_body request.now.command }

    // The reply says what the command came to: where disk and tools tell, what is planned of it; told
    // or not, by causes, calls of tools, root and rings.
    ensures turned { Turned (λ ring. plan_of ring request.now.command (bytes_of request.now.body)) (most_calls request.now.command) (subject_of request.now.command)
        store.old store.new (all_tools C.meaning tools.old.items) (all_tools C.meaning tools.new.items) result }

    // A command whose action changes nothing changes nothing of the disk.
    ensures rests { changes_nothing_of request.now.command ≡ true → D.meaning.tells → Rests (D.meaning.view store.old.vault.disk) (D.meaning.view store.new.vault.disk) }
    ensures count { vec_len tools.new ≡ vec_len tools.old }
{
    match TurnLines::read(alloc, &request.command) {
        Ok(lines) => {
            let outcome = perform(alloc, store, &lines.action, body_of(&request.body), tools);
            tell(alloc, lines, outcome)
        }
        Err(outcome) => tell_within(alloc, "", outcome),
    }
}
