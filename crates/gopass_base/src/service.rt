//! The files that a store keeps beside the secrets.

ghost use Rattle.std.specs.Prelude.{◌≡◌};
ghost use Rattle.gopass_base.specs.Paths.{service_text};

/// A file that a store keeps for itself, beside the files of the secrets.
#[derive(Clone, Copy, Debug, PartialEq, Eq)]
pub enum ServiceFile {
    /// The journal, `.gopass-journal`.
    Journal,
    /// The mounts file, `.gopass-mounts`.
    Mounts,
    /// The pending file, `.gopass-pending`.
    Pending,
}

impl ServiceFile {
    pub(crate) fn text(self) -> &'static str
        ensures { result.now ≡ service_text self }
    {
        match self {
            ServiceFile::Journal => ".gopass-journal",
            ServiceFile::Mounts => ".gopass-mounts",
            ServiceFile::Pending => ".gopass-pending",
        }
    }
}
