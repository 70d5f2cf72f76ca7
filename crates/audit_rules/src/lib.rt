//! Tables of words, and how a word is looked up in one.
#![tactic(auto)]

mod word_table;

pub use word_table::{WordRow, find};

#[cfg(test)]
mod tests;
