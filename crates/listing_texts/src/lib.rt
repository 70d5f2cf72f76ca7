//! The texts in which a store lists what it has: names on lines, the tree of a folder, the mounts, and
//! the rules.
#![tactic(auto)]

mod lines;
mod mount_lines;
mod rule_lines;
mod tree;

pub use lines::on_lines;
pub use mount_lines::mounts_text;
pub use rule_lines::recipients_text;
pub use tree::tree_of;

#[cfg(test)]
mod tests;
