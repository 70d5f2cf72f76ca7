//! The file of mounts: the one text that they have, as it is read and written.

ghost use Rattle.std.specs.Prelude.{◌≡◌, ◌≢◌, ◌↔◌, ◌<◌, ◌+◌, ℕ, Bool, [], ◌∷◌, ◌++◌, IsTrue, IfOk, OnOk, Err, MatchOption, length};
ghost use Rattle.std.specs.Str.{is_utf8};
ghost use Rattle.gopass_base.specs.Lines.{Lacks};
ghost use Rattle.mount_table.specs.Folders.{IsFolder};
ghost use Rattle.gopass_base.specs.Paths.{IsDirPath};
ghost use Rattle.mount_table.specs.Mounts.{IsRow, IsBefore, IsTable, row_at};
ghost use Rattle.mount_table.specs.MountsText.{flag_of, line_of, table_text, CanFollow, IsFirstBad};
ghost use Rattle.mount_table.specs.declared.mounts.Row.{Row};
ghost use Rattle.mount_table.specs.declared.mounts_text.MountsFault.TheVariants.{NoMemory as no_memory};

use crate::folder::Folder;
use crate::mounts::{MOST_MOUNTS, Row};
use crate::name::NameFault;
use crate::part::nest;
use gopass_base::{DirPath, NoMemory, PathFault, as_text, cut, push, push_line};
use std::alloc::Global;

/// Why bytes are not taken as the text of mounts.
#[derive(Clone, Copy, Debug, PartialEq, Eq)]
pub enum MountsFault {
    /// The first bad line, counted from 1.
    BadLine(usize),
    NoMemory,
}

impl From<NoMemory> for MountsFault {
    ghost from_gives = { λ _ e. e ≡ no_memory };

    fn from(_: NoMemory) -> Self {
        MountsFault::NoMemory
    }
}

/// The rows whose text the bytes are, or the first bad line.
pub(crate) fn rows_of(alloc: Global, bytes: &[u8], root: &DirPath) -> Result<Vec<Row>, MountsFault>
    ensures rows { IfOk result (λ rows. IsTable root.now rows.items × (bytes.now ≡ table_text rows.items)) }
    ensures bad { (n : ℕ) → result ≡ Err (MountsFault.BadLine n) → IsFirstBad root.now bytes.now n }
{
    let mut rows = Vec::new(alloc);
    let mut rest = bytes;
    while let Some((line, after)) = cut(rest, b'\n') {
        let row = next_row(alloc, root, &rows, line)?;
        push(&mut rows, row)?;
        rest = after;
    }
    if !rest.is_empty() {
        return Err(MountsFault::BadLine(rows.len() + 1));
    }
    if rows.is_empty() {
        return Err(MountsFault::BadLine(1));
    }
    Ok(rows)
}

/// The row of a line that stands behind these rows.
fn next_row(alloc: Global, root: &DirPath, rows: &[Row], line: &[u8]) -> Result<Row, MountsFault>
    ensures row { IfOk result (λ row. IsRow row × CanFollow root.now rows.now row × (line.now ≡ line_of row)) }
    ensures bad { (n : ℕ) → result ≡ Err (MountsFault.BadLine n) → (n ≡ length rows.now + 1) × ((row : Row) → IsRow row → CanFollow root.now rows.now row → line.now ≢ line_of row) }
{
    match row_of_line(alloc, line) {
        Ok(row) => {
            if can_follow(root, rows, &row) {
                Ok(row)
            } else {
                Err(MountsFault::BadLine(rows.len() + 1))
            }
        }
        Err(PathFault::Bad) => Err(MountsFault::BadLine(rows.len() + 1)),
        Err(PathFault::NoMemory) => Err(MountsFault::NoMemory),
    }
}

/// The row whose line this is.
fn row_of_line(alloc: Global, line: &[u8]) -> Result<Row, PathFault>
    ensures row { IfOk result (λ row. IsRow row × (line.now ≡ line_of row)) }
    ensures bad { result ≡ Err PathFault.Bad → (row : Row) → IsRow row → line.now ≢ line_of row }
{
    let Some((alias, dir, flag)) = fields_of(line) else {
        return Err(PathFault::Bad);
    };
    let Some(git) = flag_of(flag) else {
        return Err(PathFault::Bad);
    };
    Ok(Row {
        alias: alias_of(alloc, alias)?,
        dir: dir_of(alloc, dir)?,
        git,
    })
}

/// The three fields of a line, which has a tab between them.
fn fields_of(line: &[u8]) -> Option<(&[u8], &[u8], &[u8])>
    ensures { MatchOption result ((row : Row) → IsRow row → line.now ≢ line_of row) (λ x. (line.now ≡ x.0.now ++ 9 ∷ (x.1.now ++ 9 ∷ x.2.now)) × Lacks 9 x.0.now × Lacks 9 x.1.now) }
{
    let (alias, rest) = cut(line, b'\t')?;
    let (dir, flag) = cut(rest, b'\t')?;
    Some((alias, dir, flag))
}

fn alias_of(alloc: Global, bytes: &[u8]) -> Result<Folder, PathFault>
    ensures folder { IfOk result (λ folder. (folder ≡ bytes.now) × IsTrue (is_utf8 bytes.now) × IsFolder bytes.now) }
    ensures bad { result ≡ Err PathFault.Bad → IsTrue (is_utf8 bytes.now) → ¬ IsFolder bytes.now }
{
    let Some(text) = as_text(bytes) else {
        return Err(PathFault::Bad);
    };
    match Folder::of_text(alloc, text) {
        Ok(folder) => Ok(folder),
        Err(NameFault::Bad(_)) => Err(PathFault::Bad),
        Err(NameFault::NoMemory) => Err(PathFault::NoMemory),
    }
}

fn dir_of(alloc: Global, bytes: &[u8]) -> Result<DirPath, PathFault>
    ensures dir { IfOk result (λ dir. (dir ≡ bytes.now) × IsTrue (is_utf8 bytes.now) × IsDirPath bytes.now) }
    ensures bad { result ≡ Err PathFault.Bad → IsTrue (is_utf8 bytes.now) → ¬ IsDirPath bytes.now }
{
    let Some(text) = as_text(bytes) else {
        return Err(PathFault::Bad);
    };
    DirPath::read(alloc, text)
}

fn flag_of(text: &[u8]) -> Option<bool>
    ensures { MatchOption result ((git : Bool) → text.now ≢ flag_of git) (λ git. text.now ≡ flag_of git) }
{
    match text {
        b"git" => Some(true),
        b"plain" => Some(false),
        _ => None,
    }
}

/// Whether the row may stand behind these rows.
fn can_follow(root: &DirPath, rows: &[Row], row: &Row) -> bool
    ensures { IsTrue result ↔ CanFollow root.now rows.now row.now }
{
    if rows.is_empty() {
        return row.alias.text().is_empty() && row.dir.text() == root.text();
    }
    rows.len() < MOST_MOUNTS && stands_behind(row, rows)
}

fn stands_behind(row: &Row, rows: &[Row]) -> bool
    ensures { IsTrue result ↔ ((k : ℕ) → k < length rows.now → IsBefore (row_at rows.now k) row.now) }
{
    rows.iter().all(|earlier| is_before(earlier, row))
}

fn is_before(earlier: &Row, row: &Row) -> bool
    ensures { IsTrue result ↔ IsBefore earlier.now row.now }
{
    earlier.alias < row.alias && !nest(&earlier.dir, &row.dir)
}

/// The text of these rows.
pub(crate) fn text_of_rows(alloc: Global, rows: &[Row]) -> Result<Vec<u8>, NoMemory>
    ensures { IfOk result (λ bytes. bytes.items ≡ table_text rows.now) }
{
    let mut out = Vec::new(alloc);
    for row in rows {
        push_row(&mut out, row)?;
    }
    Ok(out)
}

fn push_row(out: &mut Vec<u8>, row: &Row) -> Result<(), NoMemory>
    ensures { OnOk result (out.new.items ≡ out.old.items ++ (line_of row.now ++ 10 ∷ [])) }
{
    let flag = if row.git { "git" } else { "plain" };
    out.extend_from_slice(row.alias.text().as_bytes())?;
    out.extend_from_slice(b"\t")?;
    out.extend_from_slice(row.dir.text().as_bytes())?;
    out.extend_from_slice(b"\t")?;
    push_line(out, flag.as_bytes())
}
