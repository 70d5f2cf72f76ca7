//! What lies below the mounts of a store, the state that its files stand for, and what its opening
//! finds.
#![tactic(auto)]

mod fault;
mod folder_file;
mod kind;
mod laws;
mod opening;
mod rule_files;
mod seen;
mod tree;

pub use fault::{Limit, StoreFault};
pub use folder_file::{rule_file_of, template_file_of};
pub use kind::Kind;
pub use laws::{found_of_state, names_of_secrets, one_state, state_of_store, states_open};
pub use opening::{Found, MOST_SECRETS, find};
pub use seen::Seen;
pub use tree::MOST_FILES;

#[cfg(test)]
mod plain_tests;
#[cfg(test)]
mod tests;
