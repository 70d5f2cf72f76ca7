//! A tool in memory.

ghost use Rattle.std.specs.Prelude.{◌≡◌, ◌↔◌, ◌<◌, ◌≤◌, ℕ, length, not, position, Contains, IfOk, IfSome, IsErr, Err, vec_len};
ghost use Rattle.std.specs.List.{list_any};
ghost use Rattle.gopass_base.specs.Calls.{no_calls, next_calls};
ghost use Rattle.gopass_base.specs.Faults.{HasCause};
ghost use Rattle.gopass_base.specs.Text.{is_among};
ghost use Rattle.cipher_port.specs.Limits.{most_body, most_sealed};
ghost use Rattle.cipher_port.specs.Tool.{Seals, Unseals, TellsIds, made_of};
ghost use Rattle.cipher_port.specs.Standin.{standin_content};

use crate::{
    Cipher, Id, Recipients, SealFault, Sealed, StandinFault, UnsealFault, WhomFault, standin_read,
    standin_write,
};
use gopass_base::{CallLog, Failed};
use std::alloc::Global;
use std::marker::Model;

/// A tool in memory that makes and opens the stand-in for sealed files, and tells all that it does.
#[derive(Drop)]
pub struct MemTool {
    known: Vec<Id>,
    held: Vec<Id>,
    calls: CallLog,
}

impl Model for MemTool {
    ghost use Rattle.cipher_port.specs.MemTool.{Tool};

    ghost Value = { Tool };

    ghost view = { λ tool. record { ring = record { known = tool.known.items; held = tool.held.items }; calls = tool.calls } };
}

impl MemTool {
    /// A tool that can seal for the known ids and has the keys of the held ones. Its calls with the
    /// numbers in `failing`, counted from 0, fail.
    pub fn new(known: Vec<Id>, held: Vec<Id>, failing: Vec<u64>) -> MemTool
        ensures known { result.ring.known ≡ known.items }
        ensures held { result.ring.held ≡ held.items }
        ensures calls { result.calls ≡ no_calls failing.items }
    {
        MemTool {
            known,
            held,
            calls: CallLog::new(failing),
        }
    }

    /// How many calls were made; the count stands at its last value.
    pub fn calls(&self) -> u64
        ensures { result ≡ self.now.calls.made }
    {
        self.calls.made()
    }

    /// Counts one more call, and fails where its number is one of those that fail.
    fn call(&mut self) -> Result<(), Failed>
        ensures ring { self.new.ring ≡ self.old.ring }
        ensures calls { self.new.calls ≡ next_calls self.old.calls }
        ensures fails { IsErr result ↔ Contains self.old.calls.failing self.old.calls.made }
        ensures cause { HasCause self.old.calls.faults self.new.calls.faults (IsErr result) }
    {
        self.calls.call()
    }

    /// How many calls failed; the count stands at its last value.
    pub fn faults(&self) -> u64
        ensures { result ≡ self.now.calls.faults }
    {
        self.calls.faults()
    }
}

impl Cipher for MemTool {
    ghost meaning = { record { tells = Unit {0}; opens = standin_content; ring = λ tool. tool.ring; calls = λ tool. tool.calls.made; faults = λ tool. tool.calls.faults } };

    ghost use Rattle.cipher_port.specs.StandinLaws.{standin_limits};

    ghost limits = { standin_limits };

    fn seal(&mut self, alloc: Global, to: &Recipients, body: &[u8]) -> Result<Vec<u8>, SealFault>
        requires { length body.now ≤ most_body }
        ensures sealed { Seals standin_content self.old.ring (made_of to.now body.now) result }
        ensures bound { IfOk result (λ sealed. vec_len sealed ≤ most_sealed) }
        ensures place { (place : ℕ) → result ≡ Err (SealFault.UnknownId place) → place < length to.now }
        ensures ring { self.new.ring ≡ self.old.ring }
        ensures calls { self.new.calls ≡ next_calls self.old.calls }
        ensures fails { result ≡ Err SealFault.Failed ↔ Contains self.old.calls.failing self.old.calls.made }
        ensures cause { HasCause self.old.calls.faults self.new.calls.faults (result ≡ Err SealFault.Failed) }
    {
        self.call()?;
        if let Some(place) = first_unknown(&self.known, to.ids()) {
            return Err(SealFault::UnknownId(place));
        }
        let sealed = standin_write(alloc, to, body)?;
        Ok(sealed)
    }

    fn open(&mut self, alloc: Global, sealed: &[u8]) -> Result<Vec<u8>, UnsealFault>
        ensures opened { Unseals (standin_content sealed.now) self.old.ring result }
        ensures bound { IfOk result (λ body. vec_len body ≤ most_body) }
        ensures ring { self.new.ring ≡ self.old.ring }
        ensures calls { self.new.calls ≡ next_calls self.old.calls }
        ensures fails { result ≡ Err UnsealFault.Failed ↔ Contains self.old.calls.failing self.old.calls.made }
        ensures cause { HasCause self.old.calls.faults self.new.calls.faults (result ≡ Err UnsealFault.Failed) }
    {
        self.call()?;
        let Sealed { to, body } = standin_read(alloc, sealed)?;
        if !holds_one_of(&self.held, to.ids()) {
            return Err(UnsealFault::NoKey);
        }
        Ok(body)
    }

    fn whom(&mut self, alloc: Global, sealed: &[u8]) -> Result<Recipients, WhomFault>
        ensures names { TellsIds (standin_content sealed.now) result }
        ensures ring { self.new.ring ≡ self.old.ring }
        ensures calls { self.new.calls ≡ next_calls self.old.calls }
        ensures fails { result ≡ Err WhomFault.Failed ↔ Contains self.old.calls.failing self.old.calls.made }
        ensures cause { HasCause self.old.calls.faults self.new.calls.faults (result ≡ Err WhomFault.Failed) }
    {
        self.call()?;
        let Sealed { to, body: _ } = standin_read(alloc, sealed)?;
        Ok(to)
    }
}

impl From<StandinFault> for WhomFault {
    ghost use Rattle.cipher_port.specs.MemTool.{WhomGives};

    ghost from_gives = { WhomGives };

    fn from(fault: StandinFault) -> Self {
        match fault {
            StandinFault::NotSealed => WhomFault::NotSealed,
            StandinFault::NoMemory => WhomFault::NoMemory,
        }
    }
}

impl From<StandinFault> for UnsealFault {
    ghost use Rattle.cipher_port.specs.MemTool.{UnsealGives};

    ghost from_gives = { UnsealGives };

    fn from(fault: StandinFault) -> Self {
        match fault {
            StandinFault::NotSealed => UnsealFault::NotSealed,
            StandinFault::NoMemory => UnsealFault::NoMemory,
        }
    }
}

/// The place of the first id that is not known.
fn first_unknown(known: &[Id], ids: &[Id]) -> Option<usize>
    ensures first { result ≡ position (λ id. not (is_among known.now id)) ids.now }
    ensures place { IfSome result (λ place. place < length ids.now) }
{
    ids.iter().position(|id| !known.contains(id))
}

fn holds_one_of(held: &[Id], ids: &[Id]) -> bool
    ensures { result ≡ list_any (is_among held.now) ids.now }
{
    ids.iter().any(|id| held.contains(id))
}

#[cfg(test)]
mod tests {
    use super::*;
    use std::test::Fail;

    fn ids(alloc: Global, texts: &[&str]) -> Result<Vec<Id>, Fail> {
        let mut ids = Vec::new(alloc);
        for text in texts {
            ids.push(Id::read(alloc, text)?)?;
        }
        Ok(ids)
    }

    const SEALED: &[u8] = b"gopass-standin 1\nto alice\nto bob\nbody 70770a\nend\n";

    fn holding(alloc: Global, held: &str, failing: Vec<u64>) -> Result<MemTool, Fail> {
        Ok(MemTool::new(ids(alloc, &[])?, ids(alloc, &[held])?, failing))
    }

    /// Whether the tool opens the text with this body.
    fn opens(alloc: Global, tool: &mut MemTool, sealed: &[u8], body: &[u8]) -> Result<bool, Fail> {
        Ok(tool.open(alloc, sealed)?.as_slice() == body)
    }

    /// Why the tool does not open the text.
    fn unseal_fault(alloc: Global, tool: &mut MemTool, sealed: &[u8]) -> Option<UnsealFault> {
        tool.open(alloc, sealed).err()
    }

    fn alice_opens(alloc: Global) -> Result<bool, Fail> {
        let mut tool = holding(alloc, "alice", Vec::new(alloc))?;
        let is_opened = opens(alloc, &mut tool, SEALED, b"pw\n")?;
        let fault = unseal_fault(alloc, &mut tool, b"x");
        Ok(is_opened && fault == Some(UnsealFault::NotSealed))
    }

    #[test]
    fn opens_where_it_holds_a_key(rt: HostRuntime) -> Result<(), Fail> {
        assert!(rt; alice_opens(rt.alloc())?);
        let mut carol = holding(rt.alloc(), "carol", Vec::new(rt.alloc()))?;
        let fault = unseal_fault(rt.alloc(), &mut carol, SEALED);
        assert!(rt; fault == Some(UnsealFault::NoKey));
        Ok(())
    }

    #[test]
    fn the_calls_that_were_named_fail(rt: HostRuntime) -> Result<(), Fail> {
        let failing = vec![in rt.alloc(); 1u64]?;
        let mut tool = holding(rt.alloc(), "alice", failing)?;
        for (is_failing, faults) in [(false, 0), (true, 1), (false, 1)] {
            let opened = tool.open(rt.alloc(), b"x");
            assert_eq!(rt; opened == Err(UnsealFault::Failed), is_failing);
            assert_eq!(rt; tool.faults(), faults);
        }
        Ok(())
    }

    fn is_send<T: Send>() {}

    /// That a tool and what it is given and gives may go to another thread is told by the types.
    #[test]
    fn tools_are_send(_: HostRuntime) -> Result<(), Fail> {
        is_send::<MemTool>();
        is_send::<Id>();
        is_send::<Recipients>();
        is_send::<Sealed>();
        Ok(())
    }

    fn set(alloc: Global, texts: &[&str]) -> Result<Recipients, Fail> {
        Ok(Recipients::of(alloc, &ids(alloc, texts)?)?)
    }

    /// A tool that knows alice, bob and carol, and has the key of alice.
    fn knowing(alloc: Global, failing: Vec<u64>) -> Result<MemTool, Fail> {
        let known = ids(alloc, &["alice", "bob", "carol"])?;
        Ok(MemTool::new(known, ids(alloc, &["alice"])?, failing))
    }

    /// Whether the tool seals for alice and bob, and tells both again.
    fn seals_for_two(alloc: Global, tool: &mut MemTool) -> Result<bool, Fail> {
        let two = set(alloc, &["alice", "bob"])?;
        let is_sealed = tool.seal(alloc, &two, b"pw\n")?.as_slice() == SEALED;
        Ok(tool.whom(alloc, SEALED)?.same(&two) && is_sealed)
    }

    /// Why the tool does not seal for these ids.
    fn seal_fault(
        alloc: Global,
        tool: &mut MemTool,
        texts: &[&str],
    ) -> Result<Option<SealFault>, Fail> {
        let to = set(alloc, texts)?;
        Ok(tool.seal(alloc, &to, b"pw\n").err())
    }

    /// Sets with an id that is not known, and the place of the first one.
    const UNKNOWN: &[(&[&str], usize)] = &[
        (&["alice", "dave"], 1),
        (&["dave", "alice", "eve"], 1),
        (&["Zed", "alice"], 0),
    ];

    fn refuses_unknown(alloc: Global, tool: &mut MemTool) -> Result<bool, Fail> {
        for (texts, place) in UNKNOWN {
            if seal_fault(alloc, tool, texts)? != Some(SealFault::UnknownId(*place)) {
                return Ok(false);
            }
        }
        Ok(true)
    }

    #[test]
    fn seals_for_known_ids(rt: HostRuntime) -> Result<(), Fail> {
        let mut tool = knowing(rt.alloc(), Vec::new(rt.alloc()))?;
        assert!(rt; seals_for_two(rt.alloc(), &mut tool)?);
        assert!(rt; refuses_unknown(rt.alloc(), &mut tool)?);
        assert_eq!(rt; tool.calls(), 5);
        assert_eq!(rt; tool.faults(), 0);
        Ok(())
    }

    /// Why the tool does not tell for whom this was sealed.
    fn whom_fault(alloc: Global, tool: &mut MemTool, sealed: &[u8]) -> Option<WhomFault> {
        tool.whom(alloc, sealed).err()
    }

    #[test]
    fn tells_for_whom(rt: HostRuntime) -> Result<(), Fail> {
        let failing = vec![in rt.alloc(); 1u64]?;
        let mut tool = knowing(rt.alloc(), failing)?;
        let first = whom_fault(rt.alloc(), &mut tool, b"x");
        let second = whom_fault(rt.alloc(), &mut tool, SEALED);
        assert!(rt; first == Some(WhomFault::NotSealed));
        assert!(rt; second == Some(WhomFault::Failed));
        assert_eq!(rt; tool.calls(), 2);
        assert_eq!(rt; tool.faults(), 1);
        Ok(())
    }
}
