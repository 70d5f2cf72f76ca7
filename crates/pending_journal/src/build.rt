//! How a change is built.

ghost use Rattle.std.specs.Prelude.{◌≡◌, ◌++◌, ◌∷◌, [], ◌↔◌, codes, Contains, false, IfOk, IfErr, OnOk, OnErr, IsTrue, string_bytes};
ghost use Rattle.pending_journal.specs.Journal.{paths_of, stage_path, digit, six_digits};
ghost use Rattle.pending_journal.specs.Service.{is_service};
ghost use Rattle.pending_journal.specs.Change.{plan_in, puts_in, IsSameChange, MayAdd, as_result};

use crate::change::{Change, ChangeAddFault};
use crate::lines::add_step;
use crate::put::Put;
use crate::service::is_service;
use gopass_base::{DirPath, FilePath, NoMemory, ServiceFile};
use std::alloc::Global;
use std::collections::BTreeSet;

/// How many steps a change holds at most.
const MAX_STEPS: usize = 16_400;

/// Adds the last decimal digit of the number.
fn push_digit(text: &mut String, n: usize) -> Result<(), NoMemory>
    ensures { OnOk result (string_bytes text.new ≡ string_bytes text.old ++ digit n ∷ []) }
{
    text.push((b'0' + (n % 10) as u8) as char)?;
    Ok(())
}

/// Where the i-th put is staged, without the root directory.
fn stage_rest(alloc: Global, i: usize) -> Result<String, NoMemory>
    ensures { IfOk result (λ rest. string_bytes rest ≡ codes ".gopass-stage/" ++ six_digits i) }
{
    let mut rest = String::from_str(alloc, ".gopass-stage/")?;
    push_digit(&mut rest, i / 100_000)?;
    push_digit(&mut rest, i / 10_000)?;
    push_digit(&mut rest, i / 1_000)?;
    push_digit(&mut rest, i / 100)?;
    push_digit(&mut rest, i / 10)?;
    push_digit(&mut rest, i)?;
    Ok(rest)
}

/// Where the i-th put is staged.
fn stage_path(alloc: Global, root: &DirPath, i: usize) -> Result<FilePath, NoMemory>
    ensures { IfOk result (λ path. path ≡ stage_path root.now i) }
{
    let rest = stage_rest(alloc, i)?;
    root.file_at(alloc, &rest)
}

impl Change {
    /// A change of the store below `root` that asks for nothing yet.
    pub fn new(alloc: Global, root: &DirPath) -> Result<Change, NoMemory>
        ensures root { IfOk result (λ change. change.root ≡ root.now) }
        ensures puts { IfOk result (λ change. puts_in change ≡ []) }
        ensures drops { IfOk result (λ change. change.drops.items ≡ []) }
    {
        Ok(Change {
            root: root.copy(alloc)?,
            journal: root.service_file(alloc, ServiceFile::Journal)?,
            fresh: root.file_at(alloc, ".gopass-journal.new")?,
            text: b"journal 1\nend\n".to_vec(alloc)?,
            puts_end: 10,
            puts: Vec::new(alloc),
            drops: Vec::new(alloc),
            paths: BTreeSet::new(alloc),
        })
    }

    /// Whether a step is for the path.
    fn has_step(&self, path: &FilePath) -> bool
        ensures { IsTrue result ↔ Contains (paths_of (plan_in self.now)) path.now }
    {
        self.paths.contains(path)
    }

    /// Why a step for the path is not added, where it is not.
    fn refusal(&self, path: &FilePath) -> Option<ChangeAddFault>
        ensures { MayAdd self.now.root (plan_in self.now) path.now (as_result result) }
    {
        if self.has_step(path) {
            Some(ChangeAddFault::TwoForOne)
        } else if is_service(&self.root, path) {
            Some(ChangeAddFault::Service)
        } else if self.puts.len() + self.drops.len() >= MAX_STEPS {
            Some(ChangeAddFault::Long)
        } else {
            None
        }
    }

    /// Adds that the file under the path has these bytes. Nothing changes where it is refused. The
    /// first step of a change is refused for a path of the vault's own and for want of memory alone.
    pub fn put(&mut self, path: FilePath, bytes: Vec<u8>) -> Result<(), ChangeAddFault>
        ensures may { MayAdd self.old.root (plan_in self.old) path result }
        ensures added { OnOk result (puts_in self.new ≡ puts_in self.old ++ (path, bytes.items) ∷ []) }
        ensures drops { self.new.drops.items ≡ self.old.drops.items }
        ensures root { self.new.root ≡ self.old.root }
        ensures same { OnErr result (IsSameChange self.old self.new) }
        ensures first { puts_in self.old ≡ [] → self.old.drops.items ≡ [] → is_service self.old.root path ≡ false → IfErr result (λ fault. fault ≡ ChangeAddFault.NoMemory) }
    {
        if let Some(fault) = self.refusal(&path) {
            return Err(fault);
        }
        let alloc = *self.text.allocator();
        let staged = stage_path(alloc, &self.root, self.puts.len())?;
        let before = self.text.len();
        self.puts.reserve(1)?;
        add_step(
            &mut self.text,
            &mut self.paths,
            self.puts_end,
            "put\t",
            &path,
        )?;
        self.puts_end += self.text.len() - before;
        self.puts.push_reserved(Put {
            staged,
            path,
            bytes,
        });
        Ok(())
    }

    /// Adds that there is no file under the path. Nothing changes where it is refused. What
    /// is said of the first step at `put` holds here too.
    pub fn erase(&mut self, path: FilePath) -> Result<(), ChangeAddFault>
        ensures may { MayAdd self.old.root (plan_in self.old) path result }
        ensures added { OnOk result (self.new.drops.items ≡ self.old.drops.items ++ path ∷ []) }
        ensures puts { self.new.puts.items ≡ self.old.puts.items }
        ensures root { self.new.root ≡ self.old.root }
        ensures same { OnErr result (IsSameChange self.old self.new) }
        ensures first { puts_in self.old ≡ [] → self.old.drops.items ≡ [] → is_service self.old.root path ≡ false → IfErr result (λ fault. fault ≡ ChangeAddFault.NoMemory) }
    {
        if let Some(fault) = self.refusal(&path) {
            return Err(fault);
        }
        let end = self.text.len() - 4;
        self.drops.reserve(1)?;
        add_step(&mut self.text, &mut self.paths, end, "drop\t", &path)?;
        self.drops.push_reserved(path);
        Ok(())
    }
}
