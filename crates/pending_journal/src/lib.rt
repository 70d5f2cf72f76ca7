//! The files of a store, whose changes a crash makes whole or not at all.
#![tactic(auto)]

mod build;
mod change;
mod commit;
mod fault;
mod laws;
mod lines;
mod open_vault;
mod own;
mod put;
mod read;
mod reads;
mod recover;
mod service;
mod vault;

pub use change::{Change, ChangeAddFault};
pub use fault::VaultFault;
pub use laws::{crashes_are_mended, one_meaning};
pub use open_vault::VaultOpened;
pub use vault::{CommitFault, Vault};

#[cfg(test)]
mod change_tests;
#[cfg(test)]
mod commit_tests;
#[cfg(test)]
mod crash_tests;
#[cfg(test)]
mod limit_tests;
#[cfg(test)]
mod opening_tests;
#[cfg(test)]
mod read_tests;
#[cfg(test)]
mod tests;
