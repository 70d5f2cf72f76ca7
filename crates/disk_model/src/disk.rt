//! What a disk does.

ghost use Rattle.std.specs.Prelude.{◌≡◌, ◌≤◌, IfOk, OnOk, OnErr, IsTrue, Err, None, Some};
ghost use Rattle.gopass_base.specs.Faults.{HasCause, counted};
ghost use Rattle.disk_model.specs.Files.{put, moved, Writes, Moves, Drops};
ghost use Rattle.disk_model.specs.Disk.{DiskMeaning, with_limit, IsSound, Rests, Steps, IsMade, Syncs, Only, Stay};
ghost use Rattle.disk_model.specs.Answers.{Reads, IsWithin};
ghost use Rattle.disk_model.specs.Listing.{Lists, IsShort};
ghost use Rattle.disk_model.specs.declared.disk.DiskFault.TheVariants.{Failed as failed, NoMemory as no_memory};

use gopass_base::{Failed, FilePath, NoMemory};

/// Why a disk does not do what it was asked.
#[derive(Clone, Copy, Debug, PartialEq, Eq)]
pub enum DiskFault {
    /// The disk failed.
    Failed,
    NoMemory,
}

impl From<Failed> for DiskFault {
    ghost from_gives = { λ _ e. e ≡ failed };

    fn from(_: Failed) -> Self {
        DiskFault::Failed
    }
}

impl From<NoMemory> for DiskFault {
    ghost from_gives = { λ _ e. e ≡ no_memory };

    fn from(_: NoMemory) -> Self {
        DiskFault::NoMemory
    }
}

/// What a read finds.
#[derive(Debug, Drop)]
pub enum Got {
    /// There is no such file.
    Absent,
    /// All the bytes of the file.
    Bytes(Vec<u8>),
    /// The file has more bytes than were asked for.
    Long,
}

/// What a listing finds.
#[derive(Debug, Drop)]
pub enum Listed {
    /// The paths in rising order of their bytes.
    All(Vec<FilePath>),
    /// There are more paths than were asked for.
    Many,
}

/// A disk of files, each under its path. Each call is counted, also one that fails. `hold`
/// alone gives the lock, and no call takes it.
pub trait Disk {
    /// What the disk means. The clauses on content hold where it tells its content.
    ghost meaning: { DiskMeaning Self };

    /// Asks for the lock: that no other program changes the files from now on. An `Ok` gives it, and
    /// a lock that is had stays whatever is answered. It changes no file.
    fn hold(&mut self) -> Result<(), DiskFault>
        ensures rests { meaning.tells → Rests (meaning.view self.old) (meaning.view self.new) }
        ensures taken { OnOk result (IsTrue (meaning.held self.new)) }
        ensures kept { IsTrue (meaning.held self.old) → IsTrue (meaning.held self.new) }
        ensures counted { meaning.calls self.new ≡ counted (meaning.calls self.old) }
        ensures later { meaning.calls self.old ≤ meaning.calls self.new }
        ensures asked { meaning.asked self.new ≡ meaning.asked self.old }
        ensures cause { HasCause (meaning.faults self.old) (meaning.faults self.new) (result ≡ Err DiskFault.Failed) };

    /// The paths of all files below the directory, but those with a part `.git` behind the
    /// directory's, where there are at most `max`. It changes nothing.
    fn list(&mut self, dir: &FilePath, max: usize) -> Result<Listed, DiskFault>
        ensures rests { meaning.tells → Rests (meaning.view self.old) (meaning.view self.new) }
        ensures listed { IfOk result (λ listed. meaning.tells → Lists (meaning.view self.old).files dir.now max listed) }
        ensures bound { IfOk result (IsShort max) }
        ensures held { meaning.held self.new ≡ meaning.held self.old }
        ensures counted { meaning.calls self.new ≡ counted (meaning.calls self.old) }
        ensures later { meaning.calls self.old ≤ meaning.calls self.new }
        ensures asked { meaning.asked self.new ≡ with_limit max (meaning.asked self.old) }
        ensures cause { HasCause (meaning.faults self.old) (meaning.faults self.new) (result ≡ Err DiskFault.Failed) };

    /// The file under the path, where it has at most `max` bytes. It changes nothing.
    fn read(&mut self, path: &FilePath, max: usize) -> Result<Got, DiskFault>
        ensures rests { meaning.tells → Rests (meaning.view self.old) (meaning.view self.new) }
        ensures got { IfOk result (λ got. meaning.tells → Reads ((meaning.view self.old).files path.now) max got) }
        ensures bound { IfOk result (IsWithin max) }
        ensures held { meaning.held self.new ≡ meaning.held self.old }
        ensures counted { meaning.calls self.new ≡ counted (meaning.calls self.old) }
        ensures later { meaning.calls self.old ≤ meaning.calls self.new }
        ensures asked { meaning.asked self.new ≡ with_limit max (meaning.asked self.old) }
        ensures cause { HasCause (meaning.faults self.old) (meaning.faults self.new) (result ≡ Err DiskFault.Failed) };

    /// Puts the bytes under the path, over a file that is there. A crash before the next sync may leave
    /// any bytes. Where it fails, the files are one of the images: the step may be made or not.
    fn write(&mut self, path: &FilePath, bytes: &[u8]) -> Result<(), DiskFault>
        ensures steps { meaning.tells → Steps (Writes path.now) (meaning.view self.old) (meaning.view self.new) }
        ensures made { OnOk result (meaning.tells → IsMade (Writes path.now) (put (meaning.view self.old).files path.now (Some bytes.now)) (meaning.view self.old) (meaning.view self.new)) }
        ensures held { meaning.held self.new ≡ meaning.held self.old }
        ensures counted { meaning.calls self.new ≡ counted (meaning.calls self.old) }
        ensures later { meaning.calls self.old ≤ meaning.calls self.new }
        ensures asked { meaning.asked self.new ≡ meaning.asked self.old }
        ensures cause { HasCause (meaning.faults self.old) (meaning.faults self.new) (result ≡ Err DiskFault.Failed) };

    /// Moves the file under `from` to `to`, whatever stood there. Where there is none nothing moves.
    fn rename(&mut self, from: &FilePath, to: &FilePath) -> Result<(), DiskFault>
        ensures steps { meaning.tells → Steps (Moves from.now to.now) (meaning.view self.old) (meaning.view self.new) }
        ensures made { OnOk result (meaning.tells → IsMade (Moves from.now to.now) (moved from.now to.now (meaning.view self.old).files) (meaning.view self.old) (meaning.view self.new)) }
        ensures held { meaning.held self.new ≡ meaning.held self.old }
        ensures counted { meaning.calls self.new ≡ counted (meaning.calls self.old) }
        ensures later { meaning.calls self.old ≤ meaning.calls self.new }
        ensures asked { meaning.asked self.new ≡ meaning.asked self.old }
        ensures cause { HasCause (meaning.faults self.old) (meaning.faults self.new) (result ≡ Err DiskFault.Failed) };

    /// Takes the file away. That there is none is no fault.
    fn remove(&mut self, path: &FilePath) -> Result<(), DiskFault>
        ensures steps { meaning.tells → Steps (Drops path.now) (meaning.view self.old) (meaning.view self.new) }
        ensures made { OnOk result (meaning.tells → IsMade (Drops path.now) (put (meaning.view self.old).files path.now None) (meaning.view self.old) (meaning.view self.new)) }
        ensures held { meaning.held self.new ≡ meaning.held self.old }
        ensures counted { meaning.calls self.new ≡ counted (meaning.calls self.old) }
        ensures later { meaning.calls self.old ≤ meaning.calls self.new }
        ensures asked { meaning.asked self.new ≡ meaning.asked self.old }
        ensures cause { HasCause (meaning.faults self.old) (meaning.faults self.new) (result ≡ Err DiskFault.Failed) };

    /// Makes all steps so far outlast a crash: from then on the files are the only image. Where it
    /// fails, the images stay.
    fn sync(&mut self) -> Result<(), DiskFault>
        ensures syncs { meaning.tells → Syncs (meaning.view self.old) (meaning.view self.new) }
        ensures only { OnOk result (meaning.tells → Only (meaning.view self.old).files (meaning.view self.new)) }
        ensures stay { OnErr result (meaning.tells → Stay (meaning.view self.old) (meaning.view self.new)) }
        ensures held { meaning.held self.new ≡ meaning.held self.old }
        ensures counted { meaning.calls self.new ≡ counted (meaning.calls self.old) }
        ensures later { meaning.calls self.old ≤ meaning.calls self.new }
        ensures asked { meaning.asked self.new ≡ meaning.asked self.old }
        ensures cause { HasCause (meaning.faults self.old) (meaning.faults self.new) (result ≡ Err DiskFault.Failed) };

    /// The files are at every moment one of the images.
    ghost sound: { (disk : Self) → meaning.tells → IsSound (meaning.view disk) };
}
