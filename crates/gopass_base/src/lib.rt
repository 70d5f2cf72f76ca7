//! What all crates of the store share: answers, texts and their lines, and how the calls of a form in memory fail.
#![tactic(auto)]

mod answers;
mod call_log;
mod lines;
mod lists;
mod order;
mod part;
mod path;
mod service;
mod text;
mod utf8;

pub use answers::{Failed, NoMemory};
pub use call_log::CallLog;
pub use lines::{cut, push_line};
pub use lists::{copies, push};
pub use order::in_order;
pub use part::{is_hidden, is_sealed_name, parts_of_texts};
pub use path::{DirPath, FilePath, PathFault};
pub use service::ServiceFile;
pub use text::{as_text, is_printable};
pub use utf8::Utf8;

#[cfg(test)]
mod tests;
