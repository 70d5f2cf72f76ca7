//! Cutting bytes at a byte.

ghost use Rattle.std.specs.Prelude.{◌≡◌, ◌++◌, ◌∷◌, [], MatchOption, OnOk, OnErr, option_map};
ghost use Rattle.gopass_base.specs.Lines.{Lacks, IsCut, cut_at};

use crate::NoMemory;

/// The bytes before the first such byte, and those behind it.
pub fn cut(bytes: &[u8], byte: u8) -> Option<(&[u8], &[u8])>
    ensures cut { MatchOption result (Lacks byte bytes.now) (λ x. IsCut byte bytes.now x.0.now x.1.now) }
    ensures computed { option_map (λ x. (x.0.now, x.1.now)) result ≡ cut_at byte bytes.now }
{
    let at = bytes.iter().position(|b| *b == byte)?;
    Some((&bytes[..at], &bytes[at + 1..]))
}

/// Adds the line and a line feed. Nothing changes where there is no memory.
pub fn push_line(bytes: &mut Vec<u8>, line: &[u8]) -> Result<(), NoMemory>
    ensures added { OnOk result (bytes.new.items ≡ bytes.old.items ++ (line.now ++ 10 ∷ [])) }
    ensures same { OnErr result (bytes.new.items ≡ bytes.old.items) }
{
    let before = bytes.len();
    bytes.extend_from_slice(line)?;
    if bytes.push(b'\n').is_err() {
        bytes.truncate(before);
        return Err(NoMemory);
    }
    Ok(())
}
