use super::*;
use std::alloc::Global;
use std::test::*;

/// Whether the second call fails, the others do not, and what they were handed is kept.
fn keeps_what_did_not_fail(sink: &mut MemSink) -> bool {
    put_all(sink, b"ab") == Ok(())
        && put_all(sink, b"cd") == Err(Failed)
        && put_all(sink, b"") == Ok(())
        && put_all(sink, b"ef") == Ok(())
        && sink.taken() == b"abef".as_slice()
}

/// A sink with this room, whose call of this number, from 0, fails.
fn failing_at(alloc: Global, room: usize, call: u64) -> Result<MemSink, Fail> {
    Ok(MemSink::new(alloc, room, vec![in alloc; call]?)?)
}

#[test]
fn a_failing_call_stops_put_all_and_takes_nothing(rt: HostRuntime) -> Result<(), Fail> {
    let mut sink = failing_at(rt.alloc(), 8, 1)?;
    assert!(rt; keeps_what_did_not_fail(&mut sink));
    Ok(())
}

/// Whether the sink with room for three bytes keeps the first of five.
fn keeps_the_first(sink: &mut SureSink) -> bool {
    put_all(sink, b"ab") == Ok(())
        && put_all(sink, b"cd") == Ok(())
        && put_all(sink, b"e") == Ok(())
        && sink.taken() == b"abc".as_slice()
}

#[test]
fn a_full_sink_keeps_the_first_bytes(rt: HostRuntime) -> Result<(), Fail> {
    let mut sink = SureSink::new(rt.alloc(), 3)?;
    assert!(rt; keeps_the_first(&mut sink));
    Ok(())
}

/// A sink that takes two bytes at a call, adds up how many it was handed, and tells nothing.
#[derive(Drop)]
struct Narrow {
    sink: MemSink,
    handed: usize,
}

impl Sink for Narrow {
    ghost use Rattle.std.specs.Prelude.{None};

    ghost meaning = { record { held = λ _. None; faults = λ narrow. narrow.sink.calls.faults } };

    fn put(&mut self, bytes: &[u8]) -> Result<usize, Failed> {
        self.handed = self.handed.saturating_add(bytes.len());
        self.sink.put(&bytes[..bytes.len().min(2)])
    }
}

/// Whether the sink takes the bytes in one call, and fails at the next.
fn takes_in_one_call(sink: &mut MemSink, bytes: &[u8]) -> bool {
    put_all(sink, bytes) == Ok(()) && sink.taken() == bytes && put_all(sink, b"a") == Err(Failed)
}

fn a_wide_sink_takes_all(alloc: Global) -> Result<bool, Fail> {
    let bytes = vec![in alloc; 7u8; 9000]?;
    let mut sink = failing_at(alloc, 9000, 1)?;
    Ok(takes_in_one_call(&mut sink, &bytes))
}

/// Whether the sink, whose fourth call fails, is handed all that is left at each call.
fn is_handed_all_that_is_left(narrow: &mut Narrow) -> bool {
    put_all(narrow, b"abcde") == Ok(())
        && narrow.handed == 5 + 3 + 1
        && put_all(narrow, b"fg") == Err(Failed)
        && put_all(narrow, b"gf") == Ok(())
        && narrow.sink.taken() == b"abcdegf".as_slice()
}

fn a_narrow_sink_takes_all(alloc: Global) -> Result<bool, Fail> {
    let sink = failing_at(alloc, 9, 3)?;
    let mut narrow = Narrow { sink, handed: 0 };
    Ok(is_handed_all_that_is_left(&mut narrow))
}

#[test]
fn put_all_hands_on_all_that_is_left(rt: HostRuntime) -> Result<(), Fail> {
    assert!(rt; a_wide_sink_takes_all(rt.alloc())?);
    assert!(rt; a_narrow_sink_takes_all(rt.alloc())?);
    Ok(())
}
