//! The body of a request: one line of the input, or all of it.

ghost use Rattle.std.specs.Prelude.{◌≡◌, ◌++◌, ◌∷◌, ◌↔◌, ◌≤◌, ◌+◌, [], IfOk, IfErr, IsTrue, Err, is_some, vec_len, false};
ghost use Rattle.gopass_base.specs.Faults.{HasCause};
ghost use Rattle.io_ports.specs.Told.{Told};
ghost use Rattle.io_ports.specs.Source.{Grew};
ghost use Rattle.io_ports.specs.Input.{IsLine, content_of};
ghost use Rattle.request_body.specs.Bodies.{HasLf, IsOver, TakesBody, input_of, most_of, most_input, most_taken};
ghost use Rattle.request_body.specs.Given.{IsGiven, IsNoBody, IsSized, bytes_of, takes_body};
ghost use Rattle.request_body.specs.declared.body.BodyFault.TheVariants.{NoMemory as no_memory};

use command_words::{Command, Intake};
use gopass_base::NoMemory;
use io_ports::{InputFault, MAX_INPUT, Source, read_all, read_line};
use std::alloc::Global;

/// Why a request has no body.
#[derive(Clone, Copy, Debug, PartialEq, Eq)]
pub enum BodyFault {
    /// A line is due, and no byte of the input is left.
    Missing,
    /// The first line of the input, or all of it, is over 16,777,216 bytes.
    Long,
    /// The input failed.
    Failed,
    NoMemory,
}

impl From<InputFault> for BodyFault {
    ghost use Rattle.std.specs.Prelude.{◌≡◌};
    ghost use Rattle.request_body.specs.Bodies.{body_fault};

    ghost from_gives = { λ fault e. e ≡ body_fault fault };

    fn from(fault: InputFault) -> Self {
        match fault {
            InputFault::Failed => BodyFault::Failed,
            InputFault::Long => BodyFault::Long,
            InputFault::NoMemory => BodyFault::NoMemory,
        }
    }
}

impl From<NoMemory> for BodyFault {
    ghost from_gives = { λ _ e. e ≡ no_memory };

    fn from(_: NoMemory) -> Self {
        BodyFault::NoMemory
    }
}

/// Whether the last byte is a line feed.
fn has_lf(line: &[u8]) -> bool
    ensures { IsTrue result ↔ HasLf line.now }
{
    line.ends_with(b"\n")
}

/// What the line says, with a line feed behind it.
fn ended(line: Vec<u8>) -> Result<Vec<u8>, NoMemory>
    requires { IsLine most_input line.items }
    ensures { IfOk result (λ body. body.items ≡ content_of line.items ++ 10 ∷ []) }
{
    if has_lf(&line) {
        return Ok(line);
    }
    let mut line = line;
    line.push(b'\n')?;
    Ok(line)
}

/// The body of one line.
fn read_one<S: Source>(alloc: Global, input: &mut S) -> Result<Vec<u8>, BodyFault>
    ensures taken { TakesBody Intake.Line (input_of S.meaning input.old input.new) result }
    ensures size { IfOk result (λ body. vec_len body ≤ most_of Intake.Line) }
    ensures most { S.meaning.taken input.new ≤ S.meaning.taken input.old + most_taken }
    ensures ends { S.meaning.ends input.new ≤ S.meaning.ends input.old + 1 }
    ensures cause { HasCause (S.meaning.faults input.old) (S.meaning.faults input.new) (result ≡ Err BodyFault.Failed) }
{
    let line = read_line(alloc, input, MAX_INPUT)?;
    if line.is_empty() {
        return Err(BodyFault::Missing);
    }
    if line.len() > MAX_INPUT {
        return Err(BodyFault::Long);
    }
    Ok(ended(line)?)
}

/// The body of all that is left.
fn read_rest<S: Source>(alloc: Global, input: &mut S) -> Result<Vec<u8>, BodyFault>
    ensures taken { TakesBody Intake.All (input_of S.meaning input.old input.new) result }
    ensures size { IfOk result (λ body. vec_len body ≤ most_of Intake.All) }
    ensures most { S.meaning.taken input.new ≤ S.meaning.taken input.old + most_taken }
    ensures ends { S.meaning.ends input.new ≤ S.meaning.ends input.old + 1 }
    ensures cause { HasCause (S.meaning.faults input.old) (S.meaning.faults input.new) (result ≡ Err BodyFault.Failed) }
{
    Ok(read_all(alloc, input, MAX_INPUT)?)
}

/// The body that is taken from the input: one line with a line feed behind it, or all that is left.
fn read_body<S: Source>(alloc: Global, intake: Intake, input: &mut S) -> Result<Vec<u8>, BodyFault>
    ensures taken { TakesBody intake (input_of S.meaning input.old input.new) result }
    ensures size { IfOk result (λ body. vec_len body ≤ most_of intake) }
    ensures over { result ≡ Err BodyFault.Long → Told IsOver (S.meaning.left input.old) (S.meaning.left input.new) }
    ensures long { result ≡ Err BodyFault.Long → Grew most_taken (S.meaning.taken input.old) (S.meaning.taken input.new) }
    ensures most { S.meaning.taken input.new ≤ S.meaning.taken input.old + most_taken }
    ensures ends { S.meaning.ends input.new ≤ S.meaning.ends input.old + 1 }
    ensures cause { HasCause (S.meaning.faults input.old) (S.meaning.faults input.new) (result ≡ Err BodyFault.Failed) }
{
    match intake {
        Intake::Line => read_one(alloc, input),
        Intake::All => read_rest(alloc, input),
    }
}

/// The body that the command is given, which is taken from the input where it takes one.
pub fn take_body<S: Source>(
    alloc: Global,
    command: &Command,
    input: &mut S,
) -> Result<Option<Vec<u8>>, BodyFault>
    ensures given { IfOk result (λ body. IsGiven command.now (input_of S.meaning input.old input.new) (bytes_of body)) }
    ensures fits { IfOk result (λ body. is_some body ≡ takes_body command.now) }
    ensures size { IfOk result (λ body. IsSized command.now (bytes_of body)) }
    ensures refused { IfErr result (IsNoBody command.now (input_of S.meaning input.old input.new)) }
    ensures over { result ≡ Err BodyFault.Long → Told IsOver (S.meaning.left input.old) (S.meaning.left input.new) }
    ensures long { result ≡ Err BodyFault.Long → Grew most_taken (S.meaning.taken input.old) (S.meaning.taken input.new) }
    ensures left { takes_body command.now ≡ false → input.new ≡ input.old }
    ensures most { S.meaning.taken input.new ≤ S.meaning.taken input.old + most_taken }
    ensures ends { S.meaning.ends input.new ≤ S.meaning.ends input.old + 1 }
    ensures cause { HasCause (S.meaning.faults input.old) (S.meaning.faults input.new) (result ≡ Err BodyFault.Failed) }
{
    match command.takes() {
        Some(intake) => match read_body(alloc, intake, input) {
            Ok(body) => Ok(Some(body)),
            Err(fault) => Err(fault),
        },
        None => Ok(None),
    }
}

#[cfg(test)]
mod tests {
    use super::*;
    use io_ports::MemSource;
    use std::test::*;

    /// Whether the body, or the fault, is as wanted.
    fn gives(got: &Result<Vec<u8>, BodyFault>, want: Result<&[u8], BodyFault>) -> bool {
        match (got, want) {
            (Ok(body), Ok(wanted)) => body.as_slice() == wanted,
            (Err(fault), Err(wanted)) => *fault == wanted,
            _ => false,
        }
    }

    #[test]
    fn a_body_is_a_line_or_all(rt: HostRuntime) -> Result<(), Fail> {
        for (text, intake, body, left) in [
            (
                b"new\n".as_slice(),
                Intake::Line,
                Ok(b"new\n".as_slice()),
                b"".as_slice(),
            ),
            (b"p", Intake::Line, Ok(b"p\n"), b""),
            (b"", Intake::Line, Err(BodyFault::Missing), b""),
            (b"\nx", Intake::Line, Ok(b"\n"), b"x"),
            (b"a\r\nb", Intake::Line, Ok(b"a\r\n"), b"b"),
            (b"", Intake::All, Ok(b""), b""),
            (b"a\nb", Intake::All, Ok(b"a\nb"), b""),
            (b"a\n", Intake::All, Ok(b"a\n"), b""),
        ] {
            let mut source = MemSource::new(text.to_vec(rt.alloc())?, Vec::new(rt.alloc()));
            let got = read_body(rt.alloc(), intake, &mut source);
            assert!(rt; gives(&got, body));
            assert_eq!(rt; source.left(), left);
        }
        Ok(())
    }

    #[test]
    fn a_fault_of_the_input_is_told(rt: HostRuntime) -> Result<(), Fail> {
        let failed = Err(BodyFault::Failed);
        for intake in [Intake::Line, Intake::All] {
            let failing = vec![in rt.alloc(); 0u64]?;
            let mut source = MemSource::new(b"a\n".to_vec(rt.alloc())?, failing);
            assert!(rt; gives(&read_body(rt.alloc(), intake, &mut source), failed));
            assert!(rt; gives(&read_body(rt.alloc(), intake, &mut source), Ok(b"a\n")));
        }
        Ok(())
    }
}
