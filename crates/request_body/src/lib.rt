//! The body that a command is given, which is taken from the input.
#![tactic(auto)]

mod body;

pub use body::{BodyFault, take_body};
