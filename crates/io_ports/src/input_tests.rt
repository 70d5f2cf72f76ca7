use super::*;
use std::alloc::Global;
use std::test::*;

/// Whether all of the source, or a line of it, was read as wanted.
fn gives(got: &Result<Vec<u8>, InputFault>, want: Result<&[u8], InputFault>) -> bool {
    match (got, want) {
        (Ok(bytes), Ok(wanted)) => bytes.as_slice() == wanted,
        (Err(fault), Err(wanted)) => *fault == wanted,
        _ => false,
    }
}

fn failing_first(alloc: Global, bytes: &[u8]) -> Result<MemSource, Fail> {
    Ok(MemSource::new(bytes.to_vec(alloc)?, vec![in alloc; 0u64]?))
}

const LONG: Result<&[u8], InputFault> = Err(InputFault::Long);

/// Texts, the most bytes of a line, the line that is read, and what is left.
const LINES: &[(&[u8], usize, Result<&[u8], InputFault>, &[u8])] = &[
    (b"ab\ncd\n", 2, Ok(b"ab\n"), b"cd\n"),
    (b"ab\ncd\n", 1, LONG, b"\ncd\n"),
    (b"ab", 2, Ok(b"ab"), b""),
    (b"abc", 2, LONG, b""),
    (b"", 0, Ok(b""), b""),
    (b"\n\na", 0, Ok(b"\n"), b"\na"),
    (b"a\n", 0, LONG, b"\n"),
    (b"a\r\nb", MAX_INPUT, Ok(b"a\r\n"), b"b"),
];

/// Whether the next line of the source is read as wanted.
fn has_line<S: Source>(
    alloc: Global,
    source: &mut S,
    max: usize,
    line: Result<&[u8], InputFault>,
) -> bool {
    gives(&read_line(alloc, source, max), line)
}

/// Whether all of the source is read as wanted.
fn has_all<S: Source>(
    alloc: Global,
    source: &mut S,
    max: usize,
    bytes: Result<&[u8], InputFault>,
) -> bool {
    gives(&read_all(alloc, source, max), bytes)
}

/// Whether a line of the text is read as wanted, and this is left.
fn cuts(
    alloc: Global,
    text: &[u8],
    max: usize,
    line: Result<&[u8], InputFault>,
    left: &[u8],
) -> Result<bool, Fail> {
    let mut source = SureSource::new(text.to_vec(alloc)?);
    Ok(has_line(alloc, &mut source, max, line) && source.left() == left)
}

#[test]
fn a_line_ends_at_its_lf(rt: HostRuntime) -> Result<(), Fail> {
    first_lines();
    for (text, max, line, left) in LINES {
        assert!(rt;
            cuts(rt.alloc(), text, *max, *line, left)?,
            "{text:?} {max}"
        );
    }
    Ok(())
}

/// Whether of as many bytes all are read up to the limit, and the others but one are left.
fn is_read(alloc: Global, bytes: &[u8], max: usize, is_long: bool) -> Result<bool, Fail> {
    let mut source = SureSource::new(bytes.to_vec(alloc)?);
    let want = if is_long { LONG } else { Ok(bytes) };
    let is_right = has_all(alloc, &mut source, max, want);
    let left = bytes.len().saturating_sub(max).saturating_sub(1);
    Ok(is_right && source.left().len() == left)
}

fn is_read_of(alloc: Global, length: usize, max: usize, is_long: bool) -> Result<bool, Fail> {
    let bytes = vec![in alloc; 10u8; length]?;
    is_read(alloc, &bytes, max, is_long)
}

/// How many bytes there are, how many are read at most, and whether they are too many.
const LENGTHS: &[(usize, usize, bool)] = &[
    (0, 0, false),
    (1, 0, true),
    (4096, 4096, false),
    (4097, 4096, true),
    (8193, 8193, false),
    (20000, 8193, true),
    (20000, MAX_INPUT, false),
];

#[test]
fn all_is_read_up_to_a_limit(rt: HostRuntime) -> Result<(), Fail> {
    for (length, max, is_long) in LENGTHS {
        assert!(rt;
            is_read_of(rt.alloc(), *length, *max, *is_long)?,
            "{length} {max}"
        );
    }
    Ok(())
}

const FAILED: Result<&[u8], InputFault> = Err(InputFault::Failed);

/// Whether a source whose first call fails gives a line and then the rest.
fn gives_line_and_rest(alloc: Global, source: &mut MemSource) -> bool {
    has_line(alloc, source, 9, FAILED)
        && has_line(alloc, source, 9, Ok(b"ab\n"))
        && source.left() == b"cd".as_slice()
        && has_all(alloc, source, 9, Ok(b"cd"))
}

fn faults_are_told(alloc: Global) -> Result<bool, Fail> {
    let mut source = failing_first(alloc, b"ab\ncd")?;
    Ok(gives_line_and_rest(alloc, &mut source))
}

/// Whether a source whose first call fails gives all then.
fn all_is_kept(alloc: Global) -> Result<bool, Fail> {
    let mut source = failing_first(alloc, b"ab")?;
    Ok(has_all(alloc, &mut source, 9, FAILED) && has_all(alloc, &mut source, 9, Ok(b"ab")))
}

#[test]
fn a_fault_is_told_and_takes_nothing(rt: HostRuntime) -> Result<(), Fail> {
    assert!(rt; faults_are_told(rt.alloc())?);
    assert!(rt; all_is_kept(rt.alloc())?);
    Ok(())
}

/// A source of these bytes, whose call of this number, from 0, fails.
fn failing_at(alloc: Global, bytes: &[u8], call: u64) -> Result<MemSource, Fail> {
    let bytes = bytes.to_vec(alloc)?;
    Ok(MemSource::new(bytes, vec![in alloc; call]?))
}

/// Whether all is read, and the next call is the failing one.
fn all_ends_before(alloc: Global, call: u64) -> Result<bool, Fail> {
    let mut source = failing_at(alloc, b"ab", call)?;
    Ok(has_all(alloc, &mut source, 9, Ok(b"ab")) && has_all(alloc, &mut source, 9, FAILED))
}

/// Whether this line is read, and the next call is the failing one.
fn line_ends_before(alloc: Global, bytes: &[u8], line: &[u8], call: u64) -> Result<bool, Fail> {
    let mut source = failing_at(alloc, bytes, call)?;
    Ok(has_line(alloc, &mut source, 9, Ok(line)) && has_line(alloc, &mut source, 9, FAILED))
}

#[test]
fn nothing_is_asked_after_the_end(rt: HostRuntime) -> Result<(), Fail> {
    assert!(rt; all_ends_before(rt.alloc(), 2)?);
    assert!(rt; line_ends_before(rt.alloc(), b"ab", b"ab", 3)?);
    assert!(rt; line_ends_before(rt.alloc(), b"a\nb", b"a\n", 2)?);
    Ok(())
}

/// What five calls answer, and the first byte of the buffer behind each.
const ANSWERS: &[(Result<usize, Failed>, u8)] = &[
    (Ok(2), b'a'),
    (Err(Failed), b'a'),
    (Ok(1), b'c'),
    (Err(Failed), b'c'),
    (Ok(0), b'c'),
];

/// Whether the calls of the source answer so, and leave the second byte that came.
fn answers(source: &mut MemSource) -> bool {
    let mut buffer = [0u8; 2];
    let mut is_right = true;
    for (answer, first) in ANSWERS {
        let is_answer = source.take(&mut buffer) == *answer;
        is_right = is_right && is_answer && buffer[0] == *first && buffer[1] == b'b';
    }
    is_right
}

#[test]
fn a_call_fails_by_its_number(rt: HostRuntime) -> Result<(), Fail> {
    let bytes = b"abc".to_vec(rt.alloc())?;
    let mut source = MemSource::new(bytes, vec![in rt.alloc(); 1u64, 3]?);
    assert!(rt; answers(&mut source));
    Ok(())
}

/// A source that gives one byte at a call, as a slow stream may, and tells nothing.
#[derive(Drop)]
struct Drops {
    source: MemSource,
}

impl Source for Drops {
    ghost use Rattle.std.specs.Prelude.{None};

    ghost meaning = { record { left = λ _. None; taken = λ d. d.source.source.taken; ends = λ d. d.source.source.ends; faults = λ d. d.source.calls.faults } };

    fn take(&mut self, into: &mut [u8]) -> Result<usize, Failed> {
        self.source.take(&mut into[..1])
    }
}

/// Whether the source, whose first call fails, gives a line, the rest, and its end.
fn gives_to_its_end(alloc: Global, source: &mut Drops) -> bool {
    has_all(alloc, source, 5, FAILED)
        && has_line(alloc, source, 2, Ok(b"ab\n"))
        && has_all(alloc, source, 2, Ok(b"cd"))
        && has_all(alloc, source, 2, Ok(b""))
}

#[test]
fn a_slow_source_is_read_to_its_end(rt: HostRuntime) -> Result<(), Fail> {
    let mut source = Drops {
        source: failing_first(rt.alloc(), b"ab\ncd")?,
    };
    assert!(rt; gives_to_its_end(rt.alloc(), &mut source));
    Ok(())
}
