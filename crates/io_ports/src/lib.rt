//! The streams of a run, each with a count of its faults.
#![tactic(auto)]

mod input;
mod memory;
mod rest;
mod room;
mod sink;
mod source;
mod sources;

pub use gopass_base::{Failed, NoMemory};
pub use input::{InputFault, MAX_INPUT, first_lines, read_all, read_line};
pub use memory::{MemSink, SureSink};
pub use sink::{Sink, put_all};
pub use source::Source;
pub use sources::{MemSource, SureSource};

#[cfg(test)]
mod input_tests;
#[cfg(test)]
mod sink_tests;
