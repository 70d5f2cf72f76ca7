//! The words of a command line, and the command that they give.
#![tactic(auto)]

mod command;
mod kind;
mod options;
mod reading;
mod verb;

pub use command::{Command, Intake};
pub use reading::{WordsFault, read_words};

#[cfg(test)]
mod tests;
