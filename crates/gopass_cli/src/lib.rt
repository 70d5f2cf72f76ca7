//! The command line of the store: words in, a status and bytes out.
#![tactic(auto)]

mod action;
mod answers;
mod laws;
mod lines;
mod listing;
mod outcome;
mod printing;
mod reply;
mod run;
mod status;
mod texts;
mod turns;

pub use command_words::{Command, WordsFault, read_words};
pub use laws::{commands_keep, ended_runs_are_whole, histories_are_safe};
pub use reply::Reply;
pub use run::{Ended, gopass};
pub use status::Status;
pub use turns::{Request, turn};
