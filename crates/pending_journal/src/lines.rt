//! Lines of a journal's text.

ghost use Rattle.std.specs.Prelude.{◌≡◌, ◌≤◌, ◌++◌, ◌∷◌, [], true, length, take, drop, IfOk, OnOk, OnErr, IsTrue};
ghost use Rattle.std.specs.Ordering.{nat_cmp};
ghost use Rattle.std.specs.Cmp.Lexicographic.{slice_cmp};
ghost use Rattle.std.specs.BTreeSet.{Updates};
ghost use Rattle.std.specs.Str.{is_utf8};
ghost use Rattle.gopass_base.specs.Paths.{IsFilePath};

use gopass_base::{FilePath, NoMemory, push_line};
use std::alloc::Global;
use std::collections::BTreeSet;

/// The path's text, with what holds of the text of each path.
fn text_of(path: &FilePath) -> &str
    ensures text { result.now ≡ path.now }
    ensures good { IsTrue (is_utf8 path.now) × IsFilePath path.now }
{
    path.text()
}

/// The line of a step: the word, the path and a line feed.
fn line_of(alloc: Global, word: &str, path: &FilePath) -> Result<Vec<u8>, NoMemory>
    ensures text { IfOk result (λ line. line.items ≡ word.now ++ (path.now ++ 10 ∷ [])) }
    ensures good { IsTrue (is_utf8 path.now) × IsFilePath path.now }
{
    let text = text_of(path);
    let mut line = word.as_bytes().to_vec(alloc)?;
    push_line(&mut line, text.as_bytes())?;
    Ok(line)
}

/// Adds the line of a step to the text, at the place, and its path to those of all steps. Nothing
/// changes where memory is wanting. What stands behind the place is moved once.
pub(crate) fn add_step(
    text: &mut Vec<u8>,
    paths: &mut BTreeSet<FilePath, Global>,
    at: usize,
    word: &str,
    path: &FilePath,
) -> Result<(), NoMemory>
    requires { at ≤ length text.old.items }
    ensures text { OnOk result (text.new.items ≡ take at text.old.items ++ (word.now ++ (path.now ++ 10 ∷ drop at text.old.items))) }
    ensures paths { OnOk result (Updates (slice_cmp nat_cmp) paths.old paths.new path.now true) }
    ensures good { IsTrue (is_utf8 path.now) × IsFilePath path.now }
    ensures same_text { OnErr result (text.new.items ≡ text.old.items) }
    ensures same_paths { OnErr result (paths.new.keys ≡ paths.old.keys) }
{
    let alloc = *text.allocator();
    let line = line_of(alloc, word, path)?;
    let copy = path.copy(alloc)?;
    let before = text.len();
    text.extend_from_slice(&line)?;
    if paths.insert(copy).is_err() {
        text.truncate(before);
        return Err(NoMemory);
    }
    text[at..].rotate_right(line.len());
    Ok(())
}
