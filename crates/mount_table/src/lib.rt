//! Names and folders of secrets, paths of the disk, and the mounts of a store.
#![tactic(auto)]

mod faults;
mod folder;
mod mounts;
mod mounts_text;
mod name;
mod part;

pub use faults::{faults_of_folders, faults_of_names};
pub use folder::Folder;
pub use gopass_base::{DirPath, FilePath, NoMemory, PathFault, ServiceFile, parts_of_texts};
pub use mounts::{AddFault, Mounts, NotMounted, Place, Row, one_mount, one_text};
pub use mounts_text::MountsFault;
pub use name::{BadName, Name, NameFault, NameKind};

#[cfg(test)]
mod tests;
