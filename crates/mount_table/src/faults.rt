//! Why a text is no name or no folder, as it is computed and as it is said.

ghost use Rattle.std.specs.Prelude.{◌≡◌, ◌↔◌, Some, None};
ghost use Rattle.gopass_base.specs.Text.{Text};
ghost use Rattle.mount_table.specs.Names.{IsName};
ghost use Rattle.mount_table.specs.NameFaults.{IsNameFault};
ghost use Rattle.mount_table.specs.Folders.{IsFolderText, IsFolderFault};
ghost use Rattle.mount_table.specs.FaultOf.{name_fault, folder_fault};
ghost use Rattle.mount_table.specs.declared.name.BadName.{BadName};

/// The fault that is computed of a text is why it is no name, and a name has none.
pub fn faults_of_names()
    ensures name { (text : Text) → (name_fault text ≡ None) ↔ IsName text }
    ensures fault { (text : Text) (bad : BadName) → (name_fault text ≡ Some bad) ↔ IsNameFault text bad }
{}

/// The fault that is computed of words for a folder is why they name none, and words that name one
/// have none.
pub fn faults_of_folders()
    ensures folder { (text : Text) → (folder_fault text ≡ None) ↔ IsFolderText text }
    ensures fault { (text : Text) (bad : BadName) → (folder_fault text ≡ Some bad) ↔ ((¬ IsFolderText text) × IsFolderFault text bad) }
{}
