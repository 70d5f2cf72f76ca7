//! How a run ends.

ghost use Rattle.std.specs.Prelude.{◌≡◌};
ghost use Rattle.gopass_cli.specs.Statuses.{code, status_of};

use store_core::Refusal;

/// How a run ends. Its code is the status of the process.
#[derive(Clone, Copy, Debug, PartialEq, Eq)]
pub enum Status {
    /// The command is done.
    Done,
    /// A search found nothing.
    NoHit,
    /// Bad words, a bad name, or a body that is missing.
    BadWords,
    /// No such secret or folder is in the store.
    NotThere,
    /// The secret is there, and is not to be written over.
    IsThere,
    /// A file of the store does not read, or a pending file is there.
    BadFile,
    /// No rule governs the name.
    NoRule,
    /// No key is held, or the file is not sealed.
    NotOpened,
    /// The tool does not know a recipient.
    UnknownId,
    /// A limit is passed.
    LimitPassed,
    ToolFailed,
    DiskFailed,
    NoMemory,
    /// The input failed, or is too long.
    InputFailed,
    SinkFailed,
}

impl Status {
    /// The number by which a process tells it.
    pub fn code(self) -> u8
        ensures { result ≡ code self }
    {
        match self {
            Status::Done => 0,
            Status::NoHit => 1,
            Status::BadWords => 2,
            Status::NotThere => 3,
            Status::IsThere => 4,
            Status::BadFile => 6,
            Status::NoRule => 7,
            Status::NotOpened => 8,
            Status::UnknownId => 9,
            Status::LimitPassed => 10,
            Status::ToolFailed => 11,
            Status::DiskFailed => 12,
            Status::NoMemory => 14,
            Status::InputFailed => 15,
            Status::SinkFailed => 16,
        }
    }
}

/// The status of a refusal.
pub(crate) fn status_of(refusal: &Refusal) -> Status
    ensures { result ≡ status_of refusal.now }
{
    match refusal {
        Refusal::NotFound | Refusal::IsFolder => Status::NotThere,
        Refusal::Exists(_) => Status::IsThere,
        Refusal::NoRule(_) => Status::NoRule,
        Refusal::UnknownId(_) => Status::UnknownId,
        Refusal::Full(_) => Status::LimitPassed,
        Refusal::NoKey(_) | Refusal::NotSealed(_) => Status::NotOpened,
        Refusal::Tool(_) => Status::ToolFailed,
        Refusal::Disk => Status::DiskFailed,
        Refusal::NoMemory => Status::NoMemory,
    }
}
