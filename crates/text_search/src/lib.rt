//! Whether a text stands somewhere in other bytes, and the names of secrets that have a text.
#![tactic(auto)]

mod search;

pub use search::{has_text, names_with};

#[cfg(test)]
mod tests;
