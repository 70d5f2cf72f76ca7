//! The files that a vault keeps for itself.

ghost use Rattle.std.specs.Prelude.{◌≡◌};
ghost use Rattle.pending_journal.specs.Service.{is_service};

use disk_model::{lies_in, rest_in};
use gopass_base::{DirPath, FilePath};

/// Whether the path is the journal's, that of its new text, or one in the stage.
pub(crate) fn is_service(root: &DirPath, path: &FilePath) -> bool
    ensures { result ≡ is_service root.now path.now }
{
    match rest_in(root.text(), path.text()) {
        Some(rest) => {
            rest == ".gopass-journal"
                || rest == ".gopass-journal.new"
                || lies_in(".gopass-stage", rest)
        }
        None => false,
    }
}
