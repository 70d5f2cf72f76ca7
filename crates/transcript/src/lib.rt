//! Transcripts: runs of the program over a store in memory, as text, which are made and compared.
#![tactic(auto)]

mod fault;
mod numbers;
mod paths;
mod play;
mod run;
mod session;
mod texts;
mod transcript;
mod trial;
mod watched;

pub use transcript::{check, refusal};
