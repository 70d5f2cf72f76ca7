//! The mounts of a store: its directories, each under an alias.

ghost use Rattle.std.specs.Prelude.{◌≡◌, ◌<◌, ◌≤◌, ℕ, List, [], ◌∷◌, IfOk, Err, MatchOption, length, true};
ghost use Rattle.std.specs.List.{slice_set};
ghost use Rattle.gopass_base.specs.Text.{Text};
ghost use Rattle.mount_table.specs.Prefixes.{Holds, folder_parts, rest_start};
ghost use Rattle.mount_table.specs.Mounts.{IsTable, IsBelow, IsMountOf, IsMountOfFolder, IsFileOf, HasAliasAt, LacksAlias, IsFirstNest, IsApart, new_row, root_of, row_at};
ghost use Rattle.mount_table.specs.MountOf.{mount_of};
ghost use Rattle.mount_table.specs.MountsText.{table_text, IsFirstBad};
ghost use Rattle.mount_table.specs.MountChanges.{AddsMount, RemovesMount};
ghost use Rattle.mount_table.specs.declared.mounts.Row.{Row};
ghost use Rattle.mount_table.specs.declared.mounts.AddFault.TheVariants.{NoMemory};

use crate::folder::Folder;
use crate::mounts_text::{MountsFault, rows_of, text_of_rows};
use crate::name::Name;
use crate::part::nest;
use gopass_base::{DirPath, FilePath, NoMemory, copies};
use std::alloc::{AllocFailed, Global};
use std::marker::Model;

/// The most mounts.
pub(crate) const MOST_MOUNTS: usize = 64;

/// A directory of the disk that is mounted under an alias, and whether its changes are recorded
/// with git.
#[derive(Debug, Clone, Drop)]
pub struct Row {
    pub alias: Folder,
    pub dir: DirPath,
    pub git: bool,
}

/// Where a secret lies: in the mount of this row, by the rest of its name from this byte on.
#[derive(Clone, Copy, Debug, PartialEq, Eq)]
pub struct Place {
    pub row: usize,
    pub from: usize,
}

/// Why a mount is not added.
#[derive(Clone, Copy, Debug, PartialEq, Eq)]
pub enum AddFault {
    /// A row has this alias.
    AliasUsed,
    /// The directory of this row is the new one, or one of them lies in the other.
    DirNests(usize),
    /// There are 64 rows.
    Full,
    NoMemory,
}

impl From<NoMemory> for AddFault {
    ghost from_gives = { λ _ e. e ≡ NoMemory };

    fn from(_: NoMemory) -> Self {
        AddFault::NoMemory
    }
}

impl<T: Drop> From<AllocFailed<T>> for AddFault {
    ghost from_gives = { λ _ e. e ≡ NoMemory };

    fn from(_: AllocFailed<T>) -> Self {
        AddFault::NoMemory
    }
}

/// No row but that of the root has this alias.
#[derive(Clone, Copy, Debug, PartialEq, Eq)]
pub struct NotMounted;

/// The mounts of a store, which contracts see as the list of their rows.
#[derive(Debug, Drop)]
pub struct Mounts {
    rows: Vec<Row>,
}

impl Model for Mounts {
    ghost use Rattle.std.specs.Prelude.{List};
    ghost use Rattle.mount_table.specs.Mounts.{IsTable, root_of};
    ghost use Rattle.mount_table.specs.declared.mounts.Row.{Row};

    ghost Value = { List Row };

    ghost view = { λ mounts. mounts.rows.items };

    ghost invariant = { λ mounts. IsTable (root_of mounts.rows.items) mounts.rows.items };
}

impl Mounts {
    /// The mounts of a store with this root directory alone, where git is off.
    pub fn only(alloc: Global, root: &DirPath) -> Result<Mounts, NoMemory>
        ensures { IfOk result (λ rows. rows ≡ new_row [] root.now ∷ []) }
    {
        let mut rows = Vec::new(alloc);
        rows.push(Row {
            alias: Folder::root(alloc),
            dir: root.copy(alloc)?,
            git: false,
        })?;
        Ok(Mounts { rows })
    }

    /// The mounts whose text the bytes are, with this root directory. A line for each row has the
    /// alias, a tab, the directory, a tab, and `git` or `plain`, and a line feed behind it; the rows
    /// stand as in `rows`. Any other text is refused at its first bad line, counted from 1.
    pub fn read(alloc: Global, bytes: &[u8], root: &DirPath) -> Result<Mounts, MountsFault>
        ensures rows { IfOk result (λ rows. IsTable root.now rows × (bytes.now ≡ table_text rows)) }
        ensures bad { (n : ℕ) → result ≡ Err (MountsFault.BadLine n) → IsFirstBad root.now bytes.now n }
    {
        let rows = rows_of(alloc, bytes, root)?;
        Ok(Mounts { rows })
    }

    /// The one text of the mounts.
    pub fn write(&self) -> Result<Vec<u8>, NoMemory>
        ensures { IfOk result (λ bytes. bytes.items ≡ table_text self.now) }
    {
        text_of_rows(*self.rows.allocator(), &self.rows)
    }

    /// An equal table of its own.
    pub fn copy(&self) -> Result<Mounts, NoMemory>
        ensures { IfOk result (λ mounts. mounts ≡ self.now) }
    {
        let rows = copies(*self.rows.allocator(), &self.rows)?;
        Ok(Mounts { rows })
    }

    /// The rows, 1 to 64 of them, by the bytes of their aliases. The first is that of the root,
    /// whose alias is the root folder.
    pub fn rows(&self) -> &[Row]
        ensures rows { result.now ≡ self.now }
        ensures table { IsTable (root_of self.now) self.now }
    {
        &self.rows
    }

    /// Where the secret lies: in the mount with the most parts among those whose alias holds the
    /// name. Each name has one, and nothing is allocated.
    pub fn resolve(&self, name: &Name) -> Place
        ensures mount { IsMountOf self.now name.now result.row }
        ensures from { result.from ≡ rest_start (row_at self.now result.row).alias name.now }
    {
        let row = last_holding(self.rows(), name);
        Place {
            row,
            from: self.rows[row].alias.start_below(),
        }
    }

    /// The row with the most parts among those whose alias is the folder or lies above it.
    pub fn resolve_folder(&self, folder: &Folder) -> usize
        ensures { IsMountOfFolder self.now folder.now result }
    {
        last_reaching(self.rows(), folder)
    }

    /// The file of the secret: the directory of its mount, `/`, the rest of its name and `.gpg`.
    pub fn file_of(&self, name: &Name) -> Result<FilePath, NoMemory>
        ensures file { IfOk result (λ path. IsFileOf self.now name.now path) }
        ensures table { IsTable (root_of self.now) self.now }
    {
        let alloc = *self.rows.allocator();
        let row = &self.rows[self.resolve(name).row];
        let rest = name.below(alloc, &row.alias)?;
        rest.file_in(alloc, &row.dir)
    }

    /// Adds a mount, where git is off. The first that applies of these is the answer, and nothing
    /// changes: a row has the alias; a row's directory is the new one, lies in it or holds it, where
    /// the first such row is named; there are 64 rows; there is no memory.
    pub fn add(&mut self, alias: &Folder, dir: &DirPath) -> Result<(), AddFault>
        ensures { AddsMount self.old self.new (new_row alias.now dir.now) result }
    {
        if row_of(&self.rows, alias).is_some() {
            return Err(AddFault::AliasUsed);
        }
        if let Some(row) = first_nest(&self.rows, dir) {
            return Err(AddFault::DirNests(row));
        }
        if self.rows.len() >= MOST_MOUNTS {
            return Err(AddFault::Full);
        }
        let alloc = *self.rows.allocator();
        let row = Row {
            alias: alias.copy(alloc)?,
            dir: dir.copy(alloc)?,
            git: false,
        };
        let at = rows_below(&self.rows, alias);
        self.rows.insert(at, row)?;
        Ok(())
    }

    /// Removes the mount with this alias and gives its row. The root's is not removed.
    pub fn remove(&mut self, alias: &Folder) -> Result<Row, NotMounted>
        ensures { RemovesMount self.old self.new alias.now result }
    {
        if alias.text().is_empty() {
            return Err(NotMounted);
        }
        match row_of(&self.rows, alias) {
            Some(row) => Ok(self.rows.remove(row)),
            None => Err(NotMounted),
        }
    }

    /// Notes that changes of this row are recorded with git.
    pub fn set_git(&mut self, row: usize)
        requires { row < length self.old }
        ensures { self.new ≡ slice_set self.old row (record (row_at self.old row) { git = true }) }
    {
        self.rows[row].git = true;
    }
}

/// What is written reads as the mounts that it was written of, and as no others: it has no bad line,
/// and no two mounts have one text. A text has one first bad line at most.
pub fn one_text()
    ensures same { (root other : Text) (rows others : List Row) → IsTable root rows → IsTable other others → table_text rows ≡ table_text others → rows ≡ others }
    ensures good { (root : Text) (rows : List Row) (n : ℕ) → IsTable root rows → ¬ IsFirstBad root (table_text rows) n }
    ensures one_bad_line { (root bytes : Text) (m n : ℕ) → IsFirstBad root bytes m → IsFirstBad root bytes n → m ≡ n }
{}

/// A name lies in one mount, which is the one that is computed: aliases that hold it and have as many
/// parts are one.
pub fn one_mount()
    ensures aliases { (name a b : Text) → Holds a name → Holds b name → length (folder_parts a) ≡ length (folder_parts b) → a ≡ b }
    ensures row { (root name : Text) (rows : List Row) (j k : ℕ) → IsTable root rows → IsMountOf rows name j → IsMountOf rows name k → j ≡ k }
    ensures computed { (root name : Text) (rows : List Row) → IsTable root rows → IsMountOf rows name (mount_of rows name) }
{}

/// The last row whose alias holds the name.
fn last_holding(rows: &[Row], name: &Name) -> usize
    requires { IsTable (root_of rows.now) rows.now }
    ensures { IsMountOf rows.now name.now result }
{
    let mut last = 0;
    for i in 1..rows.len() {
        if rows[i].alias.holds(name) {
            last = i;
        }
    }
    last
}

/// The last row whose alias is the folder or lies above it.
fn last_reaching(rows: &[Row], folder: &Folder) -> usize
    requires { IsTable (root_of rows.now) rows.now }
    ensures { IsMountOfFolder rows.now folder.now result }
{
    let mut reached = 0;
    for i in 1..rows.len() {
        if rows[i].alias.reaches(folder) {
            reached = i;
        }
    }
    reached
}

/// The row that has this alias.
fn row_of(rows: &[Row], alias: &Folder) -> Option<usize>
    ensures { MatchOption result (LacksAlias rows.now alias.now) (HasAliasAt rows.now alias.now) }
{
    rows.iter().position(|row| row.alias.text() == alias.text())
}

/// The first row whose directory nests with this one.
fn first_nest(rows: &[Row], dir: &DirPath) -> Option<usize>
    ensures { MatchOption result (IsApart rows.now dir.now) (IsFirstNest rows.now dir.now) }
{
    rows.iter().position(|row| nest(&row.dir, dir))
}

/// How many rows stand before the first whose alias comes behind this one.
fn rows_below(rows: &[Row], alias: &Folder) -> usize
    ensures most { result ≤ length rows.now }
    ensures before { (k : ℕ) → k < result → ¬ IsBelow alias.now (row_at rows.now k).alias }
    ensures behind { result < length rows.now → IsBelow alias.now (row_at rows.now result).alias }
{
    match rows.iter().position(|row| alias < &row.alias) {
        Some(row) => row,
        None => rows.len(),
    }
}
